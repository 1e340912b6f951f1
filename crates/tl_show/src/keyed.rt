//! Declarations with the keys of their records.
ghost use Rattle.std.specs.Prelude.{◌≡◌, string_bytes};
ghost use Rattle.tl_show.specs.Shown.{name_text};

use std::marker::Model;
use tl_schema::{Schema, SchemaField, TypeRef};

/// A field, with its key: the text of its name.
pub struct KeyedField {
    pub key: String,
    pub field: SchemaField,
    ghost named: { string_bytes key ≡ name_text field.name },
}

// By hand, so that each exit of an owner has one call to prove.
impl Drop for KeyedField {
    fn drop(self) {
        let KeyedField { key: _, field: _ } = self;
    }
}

/// The text of a declaration's name, its fields with their keys, and whether these are known to differ from `_` and from each other.
pub struct KeyedEntry {
    pub name: String,
    pub fields: Vec<KeyedField>,
    pub apart: bool,
}

// By hand, so that each exit of an owner has one call to prove.
impl Drop for KeyedEntry {
    fn drop(self) {
        let KeyedEntry {
            name: _,
            fields: _,
            apart: _,
        } = self;
    }
}

/// A schema, with the keys of its declarations' records.
pub struct KeyedSchema<'a> {
    schema: &'a Schema,
    entries: &'a Vec<KeyedEntry>,
}

// By hand, so that each exit of an owner has one call to prove.
impl Drop for KeyedSchema<'_> {
    fn drop(self) {
        let KeyedSchema {
            schema: _,
            entries: _,
        } = self;
    }
}

impl<'a> Model for KeyedSchema<'a> {
    ghost use Rattle.tl_schema.specs.Schemas.{Declared};
    ghost use Rattle.tl_schema.specs.inner.SchemaCodes.{declared_code};
    ghost use Rattle.tl_show.specs.inner.Keyed.{AreKeyed};

    ghost Value = { Declared };

    ghost coded = { declared_code };

    ghost view = { λ s. s.schema.now };

    ghost invariant = { λ s. AreKeyed s.schema.now.decls s.entries.now.items };
}

impl<'a> KeyedSchema<'a> {
    ghost use Rattle.std.specs.Prelude.{◌≡◌, bytes_eq, false, if◌then◌else◌, map, slice_get, true};
    ghost use Rattle.std.specs.List.{position_from};
    ghost use Rattle.tl_schema.specs.Seen.{shape};
    ghost use Rattle.tl_types.specs.Fitting.{constructs};
    ghost use Rattle.tl_types.specs.Parts.{fields_in, name_in};
    ghost use Rattle.tl_show.specs.Shown.{name_text};
    ghost use Rattle.tl_show.specs.Reading.{AreApart, declaration_named, is_named, of_type, record_keys};
    ghost use Rattle.tl_show.specs.inner.Keyed.{AreKeyed, is_named_at, keyed_slot};

    /// The schema with the keys that were made of it.
    pub fn over(schema: &'a Schema, entries: &'a Vec<KeyedEntry>) -> KeyedSchema<'a>
        requires { AreKeyed schema.now.decls entries.now.items }
        ensures { result ≡ schema.now }
    {
        KeyedSchema { schema, entries }
    }

    /// The fields of a declaration; none past the end of the schema.
    pub fn fields(&self, entry: u32) -> &[KeyedField]
        ensures { map keyed_slot result.now ≡ fields_in (slice_get self.now.decls entry) }
    {
        let Some(keyed) = self.entries.get(entry as usize) else {
            return Default::default();
        };
        keyed.fields.as_slice()
    }

    /// Whether the keys of a declaration's records are known to be apart.
    pub fn has_apart_keys(&self, entry: u32) -> bool
        ensures { result ≡ true → AreApart (record_keys (fields_in (slice_get self.now.decls entry))) }
    {
        match self.entries.get(entry as usize) {
            Some(keyed) => keyed.apart,
            None => false,
        }
    }

    /// The declaration of this name that a record of the type has, or a call.
    pub fn named(&self, of: &TypeRef, name: &str) -> Option<u32>
        ensures { result ≡ declaration_named self.now.decls (shape of.now) name.now }
    {
        match of {
            TypeRef::Boxed { head, .. } => self.constructor(*head, name),
            TypeRef::Bare { entry, .. } => self.bare(*entry, name),
            TypeRef::Call => self.index_of(name, true),
            _ => None,
        }
    }

    // The constructor of this name, if it constructs the type with this number.
    fn constructor(&self, head: u32, name: &str) -> Option<u32>
        ensures { result ≡ of_type self.now.decls head (position_from (is_named false name.now) 0 self.now.decls) }
    {
        match self.index_of(name, false) {
            Some(i) if self.constructs(head, i) => Some(i),
            _ => None,
        }
    }

    // Whether a declaration constructs the type with this number.
    fn constructs(&self, head: u32, i: u32) -> bool
        ensures { result ≡ constructs head (slice_get self.now.decls i) }
    {
        i < self.schema.count() && self.schema.entry(i).head == head
    }

    // The declaration, if it has this name.
    fn bare(&self, entry: u32, name: &str) -> Option<u32>
        ensures { result ≡ (if bytes_eq name.now (name_text (name_in (slice_get self.now.decls entry))) then Some entry else None) }
    {
        if name == self.name(entry) {
            Some(entry)
        } else {
            None
        }
    }

    // The text of a declaration's name; none past the end of the schema.
    fn name(&self, entry: u32) -> &str
        ensures { result.now ≡ name_text (name_in (slice_get self.now.decls entry)) }
    {
        match self.entries.get(entry as usize) {
            Some(keyed) => keyed.name.as_str(),
            None => "",
        }
    }

    // The first function of this name, or the first constructor. Most names are ASCII, and then the schema finds it.
    fn index_of(&self, name: &str, function: bool) -> Option<u32>
        ensures { result ≡ position_from (is_named function name.now) 0 self.now.decls }
    {
        if name.is_ascii() {
            return self.schema.find(name.as_bytes(), function);
        }
        self.search(name, function)
    }

    // The same, by going through all.
    fn search(&self, name: &str, function: bool) -> Option<u32>
        ensures { result ≡ position_from (is_named function name.now) 0 self.now.decls }
    {
        for i in 0..self.schema.count() {
            if self.is_named(i, name, function) {
                return Some(i);
            }
        }
        None
    }

    // Whether a declaration is a function of this name, or a constructor.
    fn is_named(&self, i: u32, name: &str, function: bool) -> bool
        ensures { result ≡ is_named_at function name.now (slice_get self.now.decls i) }
    {
        if i >= self.schema.count() {
            return false;
        }
        self.schema.entry(i).function == function && name == self.name(i)
    }
}
