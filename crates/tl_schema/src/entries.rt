//! Entries of declarations.
ghost use Rattle.std.specs.Prelude.{◌≡◌, ◌<◌, ◌^◌, IfOk, map};
ghost use Rattle.std.specs.Option.{option_map};
ghost use Rattle.tl_program.specs.Program.{HasFewParts, decl_text, field_text};
ghost use Rattle.tl_names.specs.MeantDecls.{meant_decl, meant_field};
ghost use Rattle.tl_names.specs.Meants.{meant};
ghost use Rattle.tl_names.specs.MeantViews.{decl_view, field_view, kind_view, meant_view};
ghost use Rattle.tl_schema.specs.Seen.{declaration, shape, slot};
ghost use Rattle.tl_schema.specs.Meanings.{IsEntry, IsEntryNumber, condition_of, kind_shape, kind_variable, meant_slot, result_shape, slot_of};

use crate::same_number::number_of;
use crate::schema::{Entry, SchemaField, TypeRef};
use crate::terms::{built_in_term, type_term};
use std::alloc::{AllocError, Global};
use tl_combinators::{BuiltIn, Decl, Field};
use tl_names::{Index, Meant, MeantCond, MeantDecl, MeantField, MeantKind, is_function};
use tl_numbers::BOXED_VECTOR;

/// The entry of a declaration, of which the names are resolved.
pub fn entry_of(
    alloc: Global,
    index: &Index,
    decl: &Decl,
    meant: &MeantDecl,
) -> Result<Entry, AllocError>
    requires few { HasFewParts (decl_text decl.now) }
    requires same { decl_view meant.now ≡ meant_decl index.now (decl_text decl.now) }
    ensures entry { IfOk result (λ e. IsEntry index.now (decl_text decl.now) (declaration e)) }
    ensures fits { IfOk result (λ e. e.number < 2 ^ 32) }
{
    Ok(Entry {
        name: decl.name.copy()?,
        number: entry_number(decl),
        vars: meant.vars,
        fields: slots_of(alloc, index, decl, &meant.fields)?,
        function: is_function(decl),
        head: meant.head.unwrap_or(index.type_count()),
        result: result_of(alloc, index, decl, &meant.result)?,
    })
}

// The number of a declaration; that of the line of a built-in type is its own.
fn entry_number(decl: &Decl) -> u32
    ensures { IsEntryNumber (decl_text decl.now) result }
{
    if !decl.builtin {
        return number_of(decl);
    }
    if decl.name.as_slice() == b"vector".as_slice() {
        BOXED_VECTOR
    } else {
        0
    }
}

fn result_of(
    alloc: Global,
    index: &Index,
    decl: &Decl,
    resolved: &Meant,
) -> Result<TypeRef, AllocError>
    requires { meant_view resolved.now ≡ meant index.now (decl_text decl.now) (decl_text decl.now).result }
    ensures { IfOk result (λ t. shape t ≡ result_shape index.now (decl_text decl.now)) }
{
    if !decl.builtin {
        return type_term(alloc, index, resolved);
    }
    match BuiltIn::of(decl.name.as_slice()) {
        Some(built_in) => built_in_term(alloc, built_in),
        None => Ok(TypeRef::Call),
    }
}

fn slots_of(
    alloc: Global,
    index: &Index,
    decl: &Decl,
    meant: &[MeantField],
) -> Result<Vec<SchemaField>, AllocError>
    requires few { HasFewParts (decl_text decl.now) }
    requires same { map field_view meant.now ≡ map (meant_field index.now (decl_text decl.now)) (decl_text decl.now).fields }
    ensures { IfOk result (λ slots. map slot slots.items ≡ map (slot_of index.now (decl_text decl.now)) (decl_text decl.now).fields) }
{
    let count = decl.fields.len() as u32;
    let mut slots = Vec::new(alloc);
    for (at, field) in decl.fields.iter().enumerate() {
        slots.push(slot_of(alloc, index, count, field, &meant[at])?)?;
    }
    Ok(slots)
}

// A field, among so many.
fn slot_of(
    alloc: Global,
    index: &Index,
    count: u32,
    field: &Field,
    meant: &MeantField,
) -> Result<SchemaField, AllocError>
    ensures { IfOk result (λ s. slot s ≡ meant_slot index.now count (field_text field.now).name (field_view meant.now)) }
{
    Ok(SchemaField {
        name: field.name.copy()?,
        cond: condition_of(count, meant.cond),
        var: kind_variable(&meant.kind),
        of: kind_term(alloc, index, &meant.kind)?,
    })
}

// The index of the `#` field of a condition, or the number of fields where there is none, and its bit.
fn condition_of(count: u32, cond: Option<MeantCond>) -> Option<(u32, u32)>
    ensures { result ≡ option_map (condition_of count) cond }
{
    match cond {
        Some(cond) => Some((cond.flags.unwrap_or(count), cond.bit)),
        None => None,
    }
}

// The index of the variable that a call's result is.
fn kind_variable(kind: &MeantKind) -> Option<u32>
    ensures { result ≡ kind_variable (kind_view kind.now) }
{
    match kind {
        MeantKind::Call { variable } => *variable,
        MeantKind::Nat | MeantKind::Flag | MeantKind::Of { .. } => None,
    }
}

// The type of what a field holds.
fn kind_term(alloc: Global, index: &Index, kind: &MeantKind) -> Result<TypeRef, AllocError>
    ensures { IfOk result (λ t. shape t ≡ kind_shape index.now (kind_view kind.now)) }
{
    match kind {
        MeantKind::Nat => Ok(TypeRef::Nat),
        MeantKind::Flag => Ok(TypeRef::Flag),
        MeantKind::Call { .. } => Ok(TypeRef::Call),
        MeantKind::Of { meant } => type_term(alloc, index, meant),
    }
}
