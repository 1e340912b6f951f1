//! Declarations resolved.
ghost use Rattle.std.specs.Prelude.{◌≡◌, ◌≤◌, IfOk, length, map};
ghost use Rattle.tl_program.specs.Program.{HasFewParts, IsWithinLimits, decl_text, part_limit, program_text};
ghost use Rattle.tl_names.specs.MeantDecls.{head_number, meant_decl};
ghost use Rattle.tl_names.specs.Meants.{meant};
ghost use Rattle.tl_names.specs.MeantViews.{NumbersNames, decl_view, meant_view};
ghost use Rattle.tl_names.specs.Writing.{own_type};

use crate::fields::meant_fields;
use crate::index::Index;
use crate::meant::{Meant, MeantDecl};
use crate::name_hash::NameHash;
use crate::names::Names;
use crate::types::meant_type;
use crate::writing::is_constructor;
use std::alloc::{AllocError, Global};
use tl_numbers::Bytes;
use tl_program::{Decl, Program};

/// The declarations of a program in order, with each name resolved.
pub fn resolve(
    alloc: Global,
    index: &Index,
    program: &Program,
) -> Result<Vec<MeantDecl>, AllocError>
    requires { IsWithinLimits (program_text program.now) }
    ensures { IfOk result (λ ms. map decl_view ms.items ≡ map (meant_decl index.now) (program_text program.now)) }
{
    let mut meant = Vec::new(alloc);
    for decl in &program.decls {
        meant.push(meant_decl(alloc, index, decl)?)?;
    }
    Ok(meant)
}

fn meant_decl(alloc: Global, index: &Index, decl: &Decl) -> Result<MeantDecl, AllocError>
    requires { HasFewParts (decl_text decl.now) }
    ensures { IfOk result (λ m. decl_view m ≡ meant_decl index.now (decl_text decl.now)) }
{
    let vars = numbered(alloc, index.hash(), &decl.vars)?;
    let result = meant_type(alloc, index, &vars, &decl.result)?;
    Ok(MeantDecl {
        vars: decl.vars.len() as u32,
        fields: meant_fields(alloc, index, &vars, &decl.fields)?,
        function: decl.function,
        builtin: decl.builtin,
        head: head_of(index, decl, &result),
        result,
    })
}

// The first index of each of the names.
fn numbered(alloc: Global, hash: NameHash, names: &[Bytes]) -> Result<Names, AllocError>
    requires { length names.now ≤ part_limit }
    ensures { IfOk result (NumbersNames names.now) }
{
    let mut numbers = Names::new(alloc, hash);
    for (at, name) in names.iter().enumerate() {
        numbers.note(alloc, name.as_slice(), at as u32)?;
    }
    Ok(numbers)
}

// The number of the type that a declaration constructs, by what its result means.
fn head_of(index: &Index, decl: &Decl, resolved: &Meant) -> Option<u32>
    requires { meant_view resolved.now ≡ meant index.now (decl_text decl.now) (decl_text decl.now).result }
    ensures { result ≡ head_number index.now (own_type (decl_text decl.now)) }
{
    if !is_constructor(decl) {
        return None;
    }
    match resolved {
        Meant::Named { what, .. } => index.type_meant(*what),
        Meant::Percent { .. } => None,
        Meant::AnyCall => None,
    }
}
