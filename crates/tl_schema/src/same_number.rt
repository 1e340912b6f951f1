//! The eighth check: numbers.
ghost use Rattle.std.specs.Prelude.{◌<◌, ◌^◌, ◌↔◌, IsTrue, IfOk, length};
ghost use Rattle.tl_program.specs.Program.{decl_text, program_text};
ghost use Rattle.tl_graph.specs.Firsts.{First};
ghost use Rattle.tl_schema.specs.inner.TakenNumbers.{IsTaken};
ghost use Rattle.tl_schema.specs.Numbers.{IsNumberOf};
ghost use Rattle.tl_schema.specs.SameNumber.{SameNumber};

use indexmap::IndexSet;
use std::alloc::{AllocError, Global};
use tl_combinators::{Decl, Program};
use tl_names::NameHash;
use tl_numbers::{BOXED_VECTOR, PACKED, crc32};

/// The first declaration with a number that is taken: an earlier declaration's, that of packed values, or that of `Vector`.
pub fn first_same_number(
    alloc: Global,
    hash: NameHash,
    program: &Program,
) -> Result<Option<u32>, AllocError>
    requires { length (program_text program.now) < 2 ^ 32 }
    ensures { IfOk result (First (SameNumber (program_text program.now))) }
{
    let mut numbers = IndexSet::with_hasher(alloc, hash);
    for (k, decl) in program.decls.iter().enumerate() {
        if !decl.builtin {
            let number = number_of(decl);
            let is_new = numbers.insert(number)?;
            if is_taken(number) || !is_new {
                return Ok(Some(k as u32));
            }
        }
    }
    Ok(None)
}

/// The number of a declaration: the one that is written, else the CRC32 of its description.
pub fn number_of(decl: &Decl) -> u32
    ensures { IsNumberOf (decl_text decl.now) result }
{
    match decl.number {
        Some(number) => number,
        None => crc32(decl.description()),
    }
}

// Whether a number has a meaning of its own.
fn is_taken(number: u32) -> bool
    ensures { IsTrue result ↔ IsTaken number }
{
    number == PACKED || number == BOXED_VECTOR
}
