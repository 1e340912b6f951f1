//! Where a schema has the forms and their types.
ghost use Rattle.std.specs.Prelude.{◌≡◌, ◌<◌, ◌^◌, ◌==◌, IfOk, length, map, position};
ghost use Rattle.tl_schema.specs.Seen.{shape};
ghost use Rattle.wire_forms.specs.Forms.{form_view, forms as the_forms, type_names as the_names};
ghost use Rattle.wire_profile.specs.Faults.{declaration_index};
ghost use Rattle.wire_profile.specs.Indexes.{form_at};
ghost use Rattle.wire_profile.specs.Profiles.{AreHeads, IsHead};
ghost use Rattle.wire_profile.specs.inner.Heads.{head_in};

use std::alloc::{AllocError, Global};
use tl_schema::{Schema, TypeFault, TypeRef, type_of};
use wire_forms::numbers::NO_FORM;
use wire_forms::{Form, forms, type_names};

/// The numbers of the types.
pub fn heads_of(alloc: Global, schema: &Schema) -> Result<Vec<u32>, AllocError>
    ensures { IfOk result (λ hs. AreHeads schema.now the_names hs.items) }
{
    let mut heads = Vec::new(alloc);
    for name in type_names() {
        heads.push(head_of(alloc, schema, name)?)?;
    }
    Ok(heads)
}

fn head_of(alloc: Global, schema: &Schema, name: &str) -> Result<u32, AllocError>
    ensures { IfOk result (λ h. IsHead schema.now name.now h) }
{
    match type_of(alloc, schema, name.as_bytes()) {
        Ok(of) => Ok(head_in(&of).unwrap_or(schema.type_count())),
        Err(fault) => match fault {
            TypeFault::Memory => Err(AllocError),
            _ => Ok(schema.type_count()),
        },
    }
}

// The number of a boxed type without arguments.
fn head_in(of: &TypeRef) -> Option<u32>
    ensures { result ≡ head_in (shape of.now) }
{
    match of {
        TypeRef::Boxed { head, args } => { if args.is_empty() { Some(*head) } else { None } }
        _ => None,
    }
}

/// The indexes of the forms.
pub fn indexes_of(alloc: Global, schema: &Schema) -> Result<Vec<u32>, AllocError>
    ensures { IfOk result (λ indexes. indexes.items ≡ map (declaration_index schema.now) the_forms) }
{
    let mut indexes = Vec::new(alloc);
    for form in forms() {
        indexes.push(declaration_index(schema, form))?;
    }
    Ok(indexes)
}

fn declaration_index(schema: &Schema, form: &Form) -> u32
    ensures { result ≡ declaration_index schema.now (form_view form.now) }
{
    schema
        .find(form.name.as_bytes(), form.function)
        .unwrap_or(schema.count())
}

/// The form at an index.
pub fn form_at(indexes: &[u32], i: u32) -> u32
    requires { length indexes.now < 2 ^ 32 }
    ensures { result ≡ form_at indexes.now i }
{
    match index_of(indexes, i) {
        Some(k) => k as u32,
        None => NO_FORM,
    }
}

fn index_of(indexes: &[u32], i: u32) -> Option<usize>
    ensures { result ≡ position (λ index. index == i) indexes.now }
{
    indexes.iter().position(|index| *index == i)
}
