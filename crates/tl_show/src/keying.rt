//! The keys of declarations' records, prepared once.
ghost use Rattle.std.specs.Prelude.{◌≡◌, IfOk, map, true};
ghost use Rattle.tl_schema.specs.Seen.{declaration, slot};
ghost use Rattle.tl_show.specs.Reading.{AreApart, record_keys};
ghost use Rattle.tl_show.specs.inner.Keyed.{AreKeyed, IsKeyed, keyed_slot};

use crate::copying::copy_field;
use crate::keyed::{KeyedEntry, KeyedField};
use crate::parts::name_text;
use std::alloc::{AllocError, Global};
use std::collections::BTreeMap;
use tl_schema::{Entry, Schema, SchemaField};

/// The declarations of a schema, with the keys of their records.
pub fn keyed_entries(alloc: Global, schema: &Schema) -> Result<Vec<KeyedEntry>, AllocError>
    ensures { IfOk result (λ entries. AreKeyed schema.now.decls entries.items) }
{
    let mut entries = Vec::with_capacity(alloc, schema.count() as usize)?;
    for i in 0..schema.count() {
        entries.push(keyed_entry(alloc, schema.entry(i))?)?;
    }
    Ok(entries)
}

// A declaration, with the keys of its records.
fn keyed_entry(alloc: Global, entry: &Entry) -> Result<KeyedEntry, AllocError>
    ensures { IfOk result (λ keyed. IsKeyed (declaration entry.now) keyed) }
{
    let name = name_text(alloc, entry.name.as_slice())?;
    let fields = keyed_fields(alloc, &entry.fields)?;
    let apart = are_apart(alloc, &fields)?;
    Ok(KeyedEntry {
        name,
        fields,
        apart,
    })
}

// Fields, with their keys.
fn keyed_fields(alloc: Global, fields: &[SchemaField]) -> Result<Vec<KeyedField>, AllocError>
    ensures { IfOk result (λ keyed. map keyed_slot keyed.items ≡ map slot fields.now) }
{
    let mut keyed = Vec::with_capacity(alloc, fields.len())?;
    for field in fields {
        keyed.push(keyed_field(alloc, field)?)?;
    }
    Ok(keyed)
}

// A field, with its key.
fn keyed_field(alloc: Global, field: &SchemaField) -> Result<KeyedField, AllocError>
    ensures { IfOk result (λ keyed. keyed_slot keyed ≡ slot field.now) }
{
    let field = copy_field(alloc, field)?;
    let key = name_text(alloc, field.name.as_slice())?;
    Ok(KeyedField { key, field })
}

// Whether the keys of a record differ from each other, the one of its name among them.
fn are_apart(alloc: Global, fields: &[KeyedField]) -> Result<bool, AllocError>
    ensures { IfOk result (λ apart. apart ≡ true → AreApart (record_keys (map keyed_slot fields.now))) }
{
    let mut keys: BTreeMap<&str, ()> = BTreeMap::new(alloc);
    keys.insert("_", ())?;
    for field in fields {
        if keys.insert(field.key.as_str(), ())?.is_some() {
            return Ok(false);
        }
    }
    Ok(true)
}
