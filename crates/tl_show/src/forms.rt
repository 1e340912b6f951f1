//! The keys of records, in the order in which they are written.
ghost use Rattle.std.specs.Prelude.{◌≡◌, ◌∷◌, ◌++◌, [], IfOk, OnOk, map, string_bytes};
ghost use Rattle.json.specs.Print.{quoted};
ghost use Rattle.tl_schema.specs.Seen.{declaration, slot};
ghost use Rattle.tl_show.specs.inner.Forms.{AddsPart, AreForms, IsForm, PutsFields};
ghost use Rattle.tl_show.specs.inner.FormViews.{entry_views, form_view, key_view, part_view, parts_view};

use crate::copying::copy_type;
use crate::form::{JsonForm, Key, KeyParts, Part};
use crate::parts::name_text;
use crate::quoting::quoted_of;
use json::Writer;
use std::alloc::{AllocError, Global};
use std::collections::BTreeMap;
use tl_schema::{Entry, Schema, SchemaField};

/// The forms of a schema's declarations.
pub fn forms_of(alloc: Global, schema: &Schema) -> Result<Vec<JsonForm>, AllocError>
    ensures { IfOk result (λ forms. AreForms schema.now.decls (map form_view forms.items)) }
{
    let mut forms = Vec::with_capacity(alloc, schema.count() as usize)?;
    for i in 0..schema.count() {
        forms.push(form_of(alloc, schema.entry(i))?)?;
    }
    Ok(forms)
}

// The form of a declaration.
fn form_of(alloc: Global, entry: &Entry) -> Result<JsonForm, AllocError>
    ensures { IfOk result (λ form. IsForm (declaration entry.now) (form_view form)) }
{
    let parts = parts_of(alloc, &entry.fields)?;
    let name = name_text(alloc, entry.name.as_slice())?;
    let title = quoted_of(alloc, &name)?;
    let keys = keys_of(alloc, parts.into_iter().collect(alloc)?)?;
    Ok(JsonForm { name, title, keys })
}

// The keys with what may stand at them, in the same order.
fn keys_of(alloc: Global, entries: Vec<(String, KeyParts)>) -> Result<Vec<Key>, AllocError>
    ensures { IfOk result (λ keys. map key_view keys.items ≡ entry_views entries.items) }
{
    let mut keys = Vec::with_capacity(alloc, entries.len())?;
    for entry in entries {
        let (name, parts) = entry;
        keys.push(key_of(alloc, name, parts)?)?;
    }
    Ok(keys)
}

// A key with what may stand at it.
fn key_of(alloc: Global, name: String, parts: KeyParts) -> Result<Key, AllocError>
    ensures { IfOk result (λ key. key_view key ≡ (string_bytes name, parts_view parts)) }
{
    let lead = lead_of(alloc, &name)?;
    Ok(Key { name, parts, lead })
}

// A comma, the key as JSON, and its colon.
fn lead_of(alloc: Global, name: &str) -> Result<Vec<u8>, AllocError>
    ensures { IfOk result (λ lead. lead.items ≡ 44 ∷ (quoted name.now ++ 58 ∷ [])) }
{
    let mut lead = Writer::new(Vec::from_slice(alloc, b",")?);
    lead.key(name)?;
    Ok(lead.into_inner())
}

// What may stand at the keys of a record with these fields, by the keys.
fn parts_of(alloc: Global, fields: &[SchemaField]) -> Result<BTreeMap<String, KeyParts>, AllocError>
    ensures { IfOk result (λ parts. PutsFields (map slot fields.now) (entry_views parts.entries)) }
{
    let mut parts = BTreeMap::new(alloc);
    add_part(alloc, &mut parts, String::from_str(alloc, "_")?, Part::Name)?;
    for (index, field) in fields.iter().enumerate() {
        let text = name_text(alloc, field.name.as_slice())?;
        let of = copy_type(alloc, &field.of)?;
        add_part(alloc, &mut parts, text, Part::Field { index, of })?;
    }
    Ok(parts)
}

// Adds what may stand at a key, after what may stand there already.
fn add_part(
    alloc: Global,
    parts: &mut BTreeMap<String, KeyParts>,
    name: String,
    part: Part,
) -> Result<(), AllocError>
    ensures { OnOk result (AddsPart (entry_views parts.old.entries) (entry_views parts.new.entries) (string_bytes name) (part_view part)) }
{
    match parts.get_mut(&name) {
        Some(there) => there.later.push(part)?,
        None => {
            let first = KeyParts {
                first: part,
                later: Vec::new(alloc),
            };
            parts.insert(name, first)?;
        }
    }
    Ok(())
}
