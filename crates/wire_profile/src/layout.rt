//! Where a schema has the forms.
ghost use Rattle.std.specs.Prelude.{◌≡◌, IfOk, map, true};
ghost use Rattle.tl_schema.specs.Seen.{declaration, shape, slot};
ghost use Rattle.tl_schema.specs.Types as type;
ghost use Rattle.tl_schema.specs.Types.{no_shapes};
ghost use Rattle.tl_plan.specs.Types.{is_same};
ghost use Rattle.wire_forms.specs.Forms.{form_view, part_view};
ghost use Rattle.wire_profile.specs.Faults.{IsFound, are_slots, declares, has_head, is_condition, is_slot, is_variable};
ghost use Rattle.wire_profile.specs.Indexes.{cell_cond, cell_shape, cell_var, number_at, result_shape, variables_of};

use crate::finding::{heads_of, indexes_of};
use std::alloc::{AllocError, Global};
use std::marker::Model;
use tl_schema::{Entry, Schema, SchemaField, TypeRef};
use wire_forms::numbers::NO_FORM;
use wire_forms::{Cell, Form, Part};

/// A schema, the index of each form's declaration, and the number of each type.
pub struct Layout<'s> {
    pub schema: &'s Schema,
    pub indexes: Vec<u32>,
    pub heads: Vec<u32>,
}

// By hand, so that each exit of an owner has one call to prove.
impl Drop for Layout<'_> {
    fn drop(self) {
        let Layout {
            schema: _,
            indexes: _,
            heads: _,
        } = self;
    }
}

impl<'s> Model for Layout<'s> {
    ghost use Rattle.wire_profile.specs.Indexes.{ProfileView};
    ghost use Rattle.wire_profile.specs.Faults.{IsFound};
    ghost use Rattle.wire_profile.specs.inner.ProfileCodes.{profile_code};

    ghost Value = { ProfileView };

    ghost coded = { profile_code };

    ghost view = { λ l. record { schema = l.schema.now; indexes = l.indexes.items; heads = l.heads.items } };

    ghost invariant = { λ l. IsFound (record { schema = l.schema.now; indexes = l.indexes.items; heads = l.heads.items }) };
}

impl<'s> Layout<'s> {
    /// Where a schema has the forms and their types, so far as it has them.
    pub fn of(alloc: Global, schema: &'s Schema) -> Result<Layout<'s>, AllocError>
        ensures schema { IfOk result (λ l. l.schema ≡ schema.now) }
        ensures found { IfOk result (λ l. IsFound l) }
    {
        let heads = heads_of(alloc, schema)?;
        let indexes = indexes_of(alloc, schema)?;
        Ok(Layout {
            schema,
            indexes,
            heads,
        })
    }

    /// Whether the entry, which has the form's name, declares the form.
    pub fn declares(&self, form: &Form, entry: &Entry) -> bool
        ensures { result ≡ declares self.now (form_view form.now) (declaration entry.now) }
    {
        entry.vars == variables_of(form.result)
            && self.are_slots(form.parts, &entry.fields)
            && self.is_result(form.result, &entry.result)
            && self.has_head(form, entry.head)
    }

    fn are_slots(&self, parts: &[Part], fields: &[SchemaField]) -> bool
        ensures { result ≡ are_slots self.now (map part_view parts.now) (map slot fields.now) }
    {
        if parts.len() != fields.len() {
            return false;
        }
        for (i, part) in parts.iter().enumerate() {
            if !self.is_slot(part, &fields[i]) {
                return false;
            }
        }
        true
    }

    fn is_slot(&self, part: &Part, field: &SchemaField) -> bool
        ensures { result ≡ is_slot self.now (part_view part.now) (slot field.now) }
    {
        part.name.as_bytes() == field.name.as_slice()
            && is_condition(condition_of(part.cell), field.cond)
            && is_variable(variable_of(part.cell), field.var)
            && self.is_cell(part.cell, &field.of)
    }

    fn is_cell(&self, cell: Cell, of: &TypeRef) -> bool
        ensures { result ≡ is_same (cell_shape self.now cell) (shape of.now) }
    {
        match cell {
            Cell::Whole => matches!(of, TypeRef::Int),
            Cell::Signed => matches!(of, TypeRef::Int),
            Cell::Long => matches!(of, TypeRef::Long),
            Cell::Body => matches!(of, TypeRef::Raw),
            Cell::Key => matches!(of, TypeRef::Str),
            Cell::Ids => is_ids(of),
            Cell::Bodies => is_bodies(of),
            Cell::Flags => matches!(of, TypeRef::Nat),
            Cell::Final => matches!(of, TypeRef::Flag),
            Cell::Many { head } => are_boxed(of, number_at(&self.heads, head)),
            Cell::One { head } => is_boxed(of, number_at(&self.heads, head)),
            Cell::Bare { form } => is_bare(of, number_at(&self.indexes, form)),
            Cell::ManyBare { form } => are_bare(of, number_at(&self.indexes, form)),
            Cell::Query => matches!(of, TypeRef::Call),
        }
    }

    fn is_result(&self, answer: Option<u32>, of: &TypeRef) -> bool
        ensures { result ≡ is_same (result_shape self.now answer) (shape of.now) }
    {
        match answer {
            Some(head) => is_boxed(of, number_at(&self.heads, head)),
            None => matches!(of, TypeRef::Var { index: 0 }),
        }
    }

    fn has_head(&self, form: &Form, head: u32) -> bool
        ensures { result ≡ has_head self.now form.now.function form.now.result head }
    {
        if form.function {
            return true;
        }
        match form.result {
            Some(own) => head == number_at(&self.heads, own) && head < self.schema.type_count(),
            None => false,
        }
    }
}

/// The number at an index; past the end one that nothing has.
pub fn number_at(numbers: &[u32], k: u32) -> u32
    ensures { result ≡ number_at numbers.now k }
{
    match numbers.get(k as usize) {
        Some(number) => *number,
        None => NO_FORM,
    }
}

fn variables_of(answer: Option<u32>) -> u32
    ensures { result ≡ variables_of answer }
{
    match answer {
        Some(_) => 0,
        None => 1,
    }
}

fn condition_of(cell: Cell) -> Option<(u32, u32)>
    ensures { result ≡ cell_cond cell }
{
    match cell {
        Cell::Final => Some((0, 0)),
        _ => None,
    }
}

fn variable_of(cell: Cell) -> Option<u32>
    ensures { result ≡ cell_var cell }
{
    match cell {
        Cell::Query => Some(0),
        _ => None,
    }
}

fn is_condition(a: Option<(u32, u32)>, b: Option<(u32, u32)>) -> bool
    ensures { result ≡ is_condition a b }
{
    match (a, b) {
        (None, None) => true,
        (Some(c), Some(d)) => c.0 == d.0 && c.1 == d.1,
        _ => false,
    }
}

fn is_variable(a: Option<u32>, b: Option<u32>) -> bool
    ensures { result ≡ is_variable a b }
{
    match (a, b) {
        (None, None) => true,
        (Some(i), Some(j)) => i == j,
        _ => false,
    }
}

fn is_int(of: &TypeRef) -> bool
    ensures { result ≡ is_same type.int (shape of.now) }
{
    matches!(of, TypeRef::Int)
}

fn is_raw(of: &TypeRef) -> bool
    ensures { result ≡ is_same type.raw (shape of.now) }
{
    matches!(of, TypeRef::Raw)
}

fn is_boxed(of: &TypeRef, number: u32) -> bool
    ensures { result ≡ is_same (type.boxed number no_shapes) (shape of.now) }
{
    match of {
        TypeRef::Boxed { head, args } => number == *head && args.is_empty(),
        _ => false,
    }
}

fn is_bare(of: &TypeRef, index: u32) -> bool
    ensures { result ≡ is_same (type.bare index no_shapes) (shape of.now) }
{
    match of {
        TypeRef::Bare { entry, args } => index == *entry && args.is_empty(),
        _ => false,
    }
}

fn is_ids(of: &TypeRef) -> bool
    ensures { result ≡ is_same (type.vector true type.int) (shape of.now) }
{
    match of {
        TypeRef::Vector { boxed, item } => *boxed && is_int(item),
        _ => false,
    }
}

fn is_bodies(of: &TypeRef) -> bool
    ensures { result ≡ is_same (type.vector true type.raw) (shape of.now) }
{
    match of {
        TypeRef::Vector { boxed, item } => *boxed && is_raw(item),
        _ => false,
    }
}

fn are_boxed(of: &TypeRef, number: u32) -> bool
    ensures { result ≡ is_same (type.vector true (type.boxed number no_shapes)) (shape of.now) }
{
    match of {
        TypeRef::Vector { boxed, item } => *boxed && is_boxed(item, number),
        _ => false,
    }
}

fn are_bare(of: &TypeRef, index: u32) -> bool
    ensures { result ≡ is_same (type.vector true (type.bare index no_shapes)) (shape of.now) }
{
    match of {
        TypeRef::Vector { boxed, item } => *boxed && is_bare(item, index),
        _ => false,
    }
}
