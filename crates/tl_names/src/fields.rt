//! Fields resolved.
ghost use Rattle.std.specs.Prelude.{◌≡◌, ◌≤◌, IfOk, bytes_eq, length, map, position};
ghost use Rattle.std.specs.Option.{option_map};
ghost use Rattle.tl_program.specs.Program.{FieldText, cond_texts, field_text, kind_text, part_limit};
ghost use Rattle.tl_names.specs.NameIndexes.{index_among};
ghost use Rattle.tl_names.specs.MeantDecls.{cond_by, field_by, kind_by};
ghost use Rattle.tl_names.specs.MeantViews.{field_in, field_view, kind_view, what_in};

use crate::index::Index;
use crate::meant::{MeantCond, MeantField, MeantKind};
use crate::names::Names;
use crate::types::meant_type;
use std::alloc::{AllocError, Global};
use tl_program::{Cond, Field, FieldKind};

/// The fields of a declaration with these variables. A condition mostly asks for one of the first fields, and a declaration has 256 at most: a search from
/// the first on takes less than a map of their names would.
pub fn meant_fields(
    alloc: Global,
    index: &Index,
    vars: &Names,
    fields: &[Field],
) -> Result<Vec<MeantField>, AllocError>
    requires { length fields.now ≤ part_limit }
    ensures { IfOk result (λ fs. map field_view fs.items ≡ map (field_by (what_in index.now vars.now) (index_among vars.now) (field_in (map field_text fields.now))) (map field_text fields.now)) }
{
    let mut meant = Vec::new(alloc);
    for field in fields {
        meant.push(meant_field(alloc, index, vars, fields, field)?)?;
    }
    Ok(meant)
}

// A field, where its condition asks for one of these fields.
fn meant_field(
    alloc: Global,
    index: &Index,
    vars: &Names,
    fields: &[Field],
    field: &Field,
) -> Result<MeantField, AllocError>
    requires { length fields.now ≤ part_limit }
    ensures { IfOk result (λ f. field_view f ≡ field_by (what_in index.now vars.now) (index_among vars.now) (field_in (map field_text fields.now)) (field_text field.now)) }
{
    Ok(MeantField {
        cond: meant_cond(fields, &field.cond),
        kind: meant_kind(alloc, index, vars, &field.kind)?,
    })
}

fn meant_cond(fields: &[Field], cond: &Option<Cond>) -> Option<MeantCond>
    requires { length fields.now ≤ part_limit }
    ensures { result ≡ option_map (cond_by (field_in (map field_text fields.now))) (cond_texts cond.now) }
{
    match cond {
        Some(cond) => Some(MeantCond {
            flags: field_named(fields, cond.flags.as_slice()),
            bit: cond.bit,
        }),
        None => None,
    }
}

// The index of the first field with this name.
fn field_named(fields: &[Field], name: &[u8]) -> Option<u32>
    requires { length fields.now ≤ part_limit }
    ensures { result ≡ field_in (map field_text fields.now) name.now }
{
    match position_of(fields, name) {
        Some(at) => Some(at as u32),
        None => None,
    }
}

fn position_of(fields: &[Field], name: &[u8]) -> Option<usize>
    ensures { result ≡ position (λ f. bytes_eq name.now f.name) fields.now }
{
    fields
        .iter()
        .position(|field| name == field.name.as_slice())
}

fn meant_kind(
    alloc: Global,
    index: &Index,
    vars: &Names,
    kind: &FieldKind,
) -> Result<MeantKind, AllocError>
    ensures { IfOk result (λ k. kind_view k ≡ kind_by (what_in index.now vars.now) (index_among vars.now) (kind_text kind.now)) }
{
    match kind {
        FieldKind::Nat => Ok(MeantKind::Nat),
        FieldKind::Flag => Ok(MeantKind::Flag),
        FieldKind::Call { var } => Ok(MeantKind::Call {
            variable: vars.get(var.as_slice()),
        }),
        FieldKind::Of { tree } => Ok(MeantKind::Of {
            meant: meant_type(alloc, index, vars, tree)?,
        }),
    }
}
