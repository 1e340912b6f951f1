//! The fields of a declaration, found by their names.
ghost use Rattle.std.specs.Prelude.{◌≡◌, ◌<◌, ◌^◌, ℕ, List, IfOk, IfSome, Some, length, map, slice_get};
ghost use Rattle.tl_names.specs.NameIndexes.{index_among};
ghost use Rattle.tl_schema.specs.Seen.{slot};
ghost use Rattle.tl_types.specs.Parts.{fields_in};
ghost use Rattle.tl_layers.specs.Breaks.{field_index};

use std::alloc::{AllocError, Global};
use std::marker::Model;
use tl_names::{NameHash, Names};
use tl_schema::{Schema, SchemaField};
use tl_types::slots_of;

/// The fields of a declaration, and the index of each by its name.
#[derive(Drop)]
pub struct Fields<'s> {
    fields: &'s [SchemaField],
    names: Names,
}

impl<'s> Model for Fields<'s> {
    ghost use Rattle.std.specs.Prelude.{List, map};
    ghost use Rattle.tl_schema.specs.Schemas.{Slot};
    ghost use Rattle.tl_schema.specs.Seen.{slot};
    ghost use Rattle.tl_layers.specs.inner.FieldTables.{AreFields, fields_code};

    ghost Value = { List Slot };

    ghost coded = { fields_code };

    ghost view = { λ f. map slot f.fields.now };

    ghost invariant = { λ f. AreFields (map slot f.fields.now) f.names };
}

impl<'s> Fields<'s> {
    /// The fields of a declaration; none past the last.
    pub fn of(alloc: Global, schema: &'s Schema, entry: u32) -> Result<Fields<'s>, AllocError>
        ensures { IfOk result (λ f. f ≡ fields_in (slice_get schema.now.decls entry)) }
    {
        let fields = slots_of(schema, entry);
        let names = names_of(alloc, schema.hash(), fields)?;
        Ok(Fields { fields, names })
    }

    pub fn count(&self) -> u32
        ensures { result ≡ length self.now }
    {
        self.fields.len() as u32
    }

    /// The field at an index.
    pub fn at(&self, k: u32) -> &SchemaField
        requires { k < length self.now }
        ensures { slice_get self.now k ≡ Some (slot result.now) }
    {
        &self.fields[k as usize]
    }

    /// The index of the field with a name.
    pub fn index_of(&self, name: &[u8]) -> Option<u32>
        ensures index { result ≡ field_index self.now name.now }
        ensures within { IfSome result (λ k. k < length self.now) }
    {
        self.names.get(name)
    }
}

// The index of each field by its name.
fn names_of(alloc: Global, hash: NameHash, fields: &[SchemaField]) -> Result<Names, AllocError>
    requires few { length fields.now < 2 ^ 32 }
    ensures { IfOk result (λ names. (name : List ℕ) → index_among names name ≡ field_index (map slot fields.now) name) }
{
    let mut names = Names::new(alloc, hash);
    for (i, field) in fields.iter().enumerate() {
        names.note(alloc, field.name.as_slice(), i as u32)?;
    }
    Ok(names)
}
