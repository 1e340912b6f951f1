//! Types by numbers: equal types have one number, so that wide types are as small as they are deep.
ghost use Rattle.std.specs.Prelude.{◌≡◌, ◌<◌, [], IfOk, length, slice_get, Some, map};
ghost use Rattle.tl_plan.specs.Types.{levels};
ghost use Rattle.tl_schema.specs.Forms.{HasForm};
ghost use Rattle.tl_plan.specs.inner.Nodes.{AreBelow, AreDistinct, Grows, HasParts, capped, key_of, levels_above, number_of, parts_of, tag_of, type_at, type_by, types_at};
ghost use Rattle.tl_plan.specs.inner.Tables.{node_view};

use std::alloc::{AllocError, Global};
use std::collections::BTreeMap;
use std::marker::Model;
use tl_schema::TypeForm;

// A type: its form, the numbers of its parts, which are below its own, and its levels.
#[derive(Drop)]
struct Node {
    form: TypeForm,
    parts: Vec<u32>,
    levels: u32,
}

/// Types, each after its parts.
pub struct Table {
    nodes: Vec<Node>,
    numbers: BTreeMap<Vec<u32>, u32>,
}

// By hand, so that each exit of an owner has one call to prove.
impl Drop for Table {
    fn drop(self) {
        let Table {
            nodes: _,
            numbers: _,
        } = self;
    }
}

impl Model for Table {
    ghost use Rattle.std.specs.Prelude.{List};
    ghost use Rattle.tl_schema.specs.Types.{Shape};
    ghost use Rattle.std.specs.Coded.{coded_list};
    ghost use Rattle.tl_plan.specs.inner.PlanCodes.{shape_code};
    ghost use Rattle.tl_plan.specs.inner.Tables.{IsTable, types_of_nodes};

    ghost Value = { List Shape };

    ghost coded = { coded_list shape_code };

    ghost view = { λ t. types_of_nodes t.nodes.items };

    ghost invariant = { λ t. IsTable t.nodes.items t.numbers.entries };
}

impl Table {
    pub fn new(alloc: Global) -> Table
        ensures { result ≡ [] }
    {
        Table {
            nodes: Vec::new(alloc),
            numbers: BTreeMap::new(alloc),
        }
    }

    /// The number of the type of this form with these parts.
    pub fn number(
        &mut self,
        alloc: Global,
        form: TypeForm,
        parts: Vec<u32>,
    ) -> Result<u32, AllocError>
        requires below { AreBelow (length self.old) parts.items }
        requires parts { HasParts form parts.items }
        ensures grows { Grows self.old self.new }
        ensures number { IfOk result (λ n. slice_get self.new n ≡ Some (type_by form (types_at self.old parts.items))) }
    {
        let key = key_of(alloc, form, &parts)?;
        match self.numbers.get(key.as_slice()).copied() {
            Some(number) => return Ok(number),
            None => {}
        }
        let count = self.nodes.len();
        if count > u32::MAX as usize {
            return Err(AllocError);
        }
        let number = count as u32;
        let levels = levels_above(&self.nodes, &parts);
        self.nodes.reserve(1)?;
        self.numbers.insert(key, number)?;
        self.nodes.push_reserved(Node {
            form,
            parts,
            levels,
        });
        Ok(number)
    }

    /// The form of a type.
    pub fn form(&self, n: u32) -> TypeForm
        requires { n < length self.now }
        ensures { HasForm (type_at self.now n) result }
    {
        self.nodes[n as usize].form
    }

    /// The numbers of its parts.
    pub fn parts(&self, n: u32) -> &[u32]
        requires { n < length self.now }
        ensures parts { types_at self.now result.now ≡ parts_of (type_at self.now n) }
        ensures below { AreBelow (length self.now) result.now }
    {
        &self.nodes[n as usize].parts
    }

    /// Its levels.
    pub fn levels(&self, n: u32) -> u32
        requires { n < length self.now }
        ensures levels { result ≡ capped (levels (type_at self.now n)) }
        ensures distinct { AreDistinct self.now }
    {
        self.nodes[n as usize].levels
    }
}

// The key of a type of this form with these parts: no other type has it.
fn key_of(alloc: Global, form: TypeForm, parts: &[u32]) -> Result<Vec<u32>, AllocError>
    ensures { IfOk result (λ key. key.items ≡ key_of form parts.now) }
{
    let mut key = Vec::new(alloc);
    key.push(tag_of(form))?;
    key.push(number_of(form))?;
    for part in parts {
        key.push(*part)?;
    }
    Ok(key)
}

fn tag_of(form: TypeForm) -> u32
    ensures { result ≡ tag_of form }
{
    match form {
        TypeForm::Int => 0,
        TypeForm::Long => 1,
        TypeForm::Nat => 2,
        TypeForm::Double => 3,
        TypeForm::Int128 => 3,
        TypeForm::Int256 => 3,
        TypeForm::Str => 4,
        TypeForm::Raw => 5,
        TypeForm::Flag => 6,
        TypeForm::Call => 7,
        TypeForm::Var { .. } => 8,
        TypeForm::Vector { .. } => 9,
        TypeForm::Boxed { .. } => 10,
        TypeForm::Bare { .. } => 11,
    }
}

fn number_of(form: TypeForm) -> u32
    ensures { result ≡ number_of form }
{
    match form {
        TypeForm::Double => 8,
        TypeForm::Int128 => 16,
        TypeForm::Int256 => 32,
        TypeForm::Var { index } => index,
        TypeForm::Vector { boxed } => { if boxed { 1 } else { 0 } }
        TypeForm::Boxed { head } => head,
        TypeForm::Bare { entry } => entry,
        _ => 0,
    }
}

// The levels of a type with these parts.
fn levels_above(nodes: &[Node], parts: &[u32]) -> u32
    requires { AreBelow (length nodes.now) parts.now }
    ensures { result ≡ levels_above (map node_view nodes.now) parts.now }
{
    let mut deepest = 0u32;
    for part in parts {
        deepest = deepest.max(nodes[*part as usize].levels);
    }
    deepest.saturating_add(1)
}
