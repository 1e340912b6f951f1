//! Declarations by their numbers.
ghost use Rattle.std.specs.Prelude.{◌<◌, ◌^◌, IfOk, length};
ghost use Rattle.tl_program.specs.Program.{program_text};
ghost use Rattle.tl_schema.specs.inner.SchemaParts.{AreNumbers};

use crate::same_number::number_of;
use indexmap::IndexMap;
use std::alloc::{AllocError, Global};
use tl_combinators::Program;
use tl_names::NameHash;

/// For each number the index of the declaration that has it, the lines of built-in types aside.
pub fn numbers_of(
    alloc: Global,
    hash: NameHash,
    program: &Program,
) -> Result<IndexMap<u32, u32, NameHash>, AllocError>
    requires { length (program_text program.now) < 2 ^ 32 }
    ensures { IfOk result (λ numbers. AreNumbers (program_text program.now) numbers.entries) }
{
    let mut numbers = IndexMap::with_hasher(alloc, hash);
    for (at, decl) in program.decls.iter().enumerate() {
        if !decl.builtin {
            numbers.insert(number_of(decl), at as u32)?;
        }
    }
    Ok(numbers)
}
