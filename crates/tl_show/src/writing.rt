//! A value as JSON text: one function for each part of a value. No memory is taken.
ghost use Rattle.std.specs.Prelude.{◌≡◌, map, string_bytes};
ghost use Rattle.serde_json.specs.Data.{array, number, object, unsigned};
ghost use Rattle.serde_json.specs.Find.{of_integer};
ghost use Rattle.serde_json.specs.Written.{comma_if, compact_text};
ghost use Rattle.tl_schema.specs.Closing.{closed};
ghost use Rattle.tl_schema.specs.Seen.{shape};
ghost use Rattle.tl_types.specs.Seen.{view, views};
ghost use Rattle.tl_show.specs.inner.Forms.{last_of, members_of, read_at, record_by, unless_missing, written, written_each};
ghost use Rattle.tl_show.specs.inner.FormViews.{form_view, parts_view};
ghost use Rattle.tl_show.specs.inner.Lines.{PutsMember, key_text};
ghost use Rattle.tl_show.specs.inner.Scopes.{shapes_in};
ghost use Rattle.tl_types.specs.Parts.{is_absent};

use crate::choosing::part_there;
use crate::form::{JsonForm, Key, Part};
use crate::scope::{Scope, resolved};
use crate::sink::TextSink;
use crate::texts::{write_hex, write_text};
use tl_schema::TypeRef;
use tl_types::{Value, arguments_of, is_absent, item_of};

/// Writes a value of a type, whose variables stand for what the scope says. The forms are those of its schema's declarations.
#[cycle(write)]
pub fn write_value<S: TextSink>(
    value: &Value,
    of: &TypeRef,
    scope: Option<&Scope<'_>>,
    forms: &[JsonForm],
    out: &mut S,
)
    ensures { S.puts out.old out.new (compact_text (written (map form_view forms.now) (closed (shapes_in scope.entry) (shape of.now)) (view value.now))) }
{
    match value {
        Value::Int(number) => write_signed(i64::from(*number), out),
        Value::Long(number) => write_signed(*number, out),
        Value::Nat(number) => write_unsigned(*number, out),
        Value::Opaque(bytes) => write_hex(bytes.as_slice(), out),
        Value::Text(bytes) => {
            let (of, _) = resolved(of, scope);
            write_text(of, bytes.as_slice(), out);
        }
        Value::Truth => out.put(b"true"),
        Value::Absent => out.put(b"null"),
        Value::List(items) => {
            let (of, scope) = resolved(of, scope);
            write_items(items, item_of(of), scope, forms, out);
        }
        Value::Node { entry, fields } => {
            let (of, outer) = resolved(of, scope);
            let args = arguments_of(of);
            write_record(fields, *entry, Some(&Scope { args, outer }), forms, out);
        }
        Value::Call { entry, fields } => write_record(fields, *entry, None, forms, out),
    }
}

fn write_signed<S: TextSink>(value: i64, out: &mut S)
    ensures { S.puts out.old out.new (compact_text (number (of_integer value))) }
{
    let mut buffer = itoa::Buffer::new();
    out.put(buffer.format(value).as_bytes());
}

fn write_unsigned<S: TextSink>(value: u32, out: &mut S)
    ensures { S.puts out.old out.new (compact_text (number (unsigned value))) }
{
    let mut buffer = itoa::Buffer::new();
    out.put(buffer.format(value).as_bytes());
}

// Writes the values of a list, by the type of its elements.
#[cycle(write)]
fn write_items<S: TextSink>(
    items: &[Value],
    of: &TypeRef,
    scope: Option<&Scope<'_>>,
    forms: &[JsonForm],
    out: &mut S,
)
    ensures { S.puts out.old out.new (compact_text (array (written_each (map form_view forms.now) (closed (shapes_in scope.entry) (shape of.now)) (views items.now)))) }
{
    out.put(b"[");
    let mut later = false;
    for item in items {
        write_comma(later, out);
        write_value(item, of, scope, forms, out);
        later = true;
    }
    out.put(b"]");
}

// Writes a comma where an element stands before.
fn write_comma<S: TextSink>(later: bool, out: &mut S)
    ensures { S.puts out.old out.new (comma_if later) }
{
    if later {
        out.put(b",");
    }
}

// Writes a record or a call with these values, by its declaration and what its type is applied to. Past the end of the schema it has an empty name alone.
#[cycle(write)]
fn write_record<S: TextSink>(
    fields: &[Value],
    entry: u32,
    scope: Option<&Scope<'_>>,
    forms: &[JsonForm],
    out: &mut S,
)
    ensures { S.puts out.old out.new (compact_text (record_by (map form_view forms.now) entry (shapes_in scope.entry) (read_at (map form_view forms.now) (views fields.now)))) }
{
    match forms.get(entry as usize) {
        Some(form) => write_members(fields, form, scope, forms, out),
        None => out.put(b"{\"_\":\"\"}"),
    }
}

// Writes a record or a call of a form.
#[cycle(write)]
fn write_members<S: TextSink>(
    fields: &[Value],
    form: &JsonForm,
    scope: Option<&Scope<'_>>,
    forms: &[JsonForm],
    out: &mut S,
)
    ensures { S.puts out.old out.new (compact_text (object (members_of (form_view form.now) (shapes_in scope.entry) (read_at (map form_view forms.now) (views fields.now))))) }
{
    out.put(b"{");
    let mut later = false;
    for key in &form.keys {
        later = write_member(fields, key, form, later, scope, forms, out);
    }
    out.put(b"}");
}

// Writes the member at a key of a form, unless nothing of it is there. Tells whether a member stands before the next one, as `later` does for this one.
#[cycle(write)]
fn write_member<S: TextSink>(
    fields: &[Value],
    key: &Key,
    form: &JsonForm,
    later: bool,
    scope: Option<&Scope<'_>>,
    forms: &[JsonForm],
    out: &mut S,
) -> bool
    ensures { PutsMember S.puts result later out.old out.new (string_bytes key.now.name) (last_of (string_bytes form.now.name) (shapes_in scope.entry) (read_at (map form_view forms.now) (views fields.now)) (parts_view key.now.parts)) }
{
    match part_there(&key.parts, fields) {
        Part::Name => {
            write_key(key, later, out);
            out.put(&form.title);
            true
        }
        Part::Field { index, of } => match fields.get(*index) {
            Some(value) => write_field(value, key, later, of, scope, forms, out),
            None => later,
        },
    }
}

// Writes the value of a field at its key, unless it isn't there.
#[cycle(write)]
fn write_field<S: TextSink>(
    value: &Value,
    key: &Key,
    later: bool,
    of: &TypeRef,
    scope: Option<&Scope<'_>>,
    forms: &[JsonForm],
    out: &mut S,
) -> bool
    ensures { let v = view value.now in PutsMember S.puts result later out.old out.new (string_bytes key.now.name) (unless_missing (is_absent v) (written (map form_view forms.now) (closed (shapes_in scope.entry) (shape of.now)) v)) }
{
    if is_absent(value) {
        return later;
    }
    write_key(key, later, out);
    write_value(value, of, scope, forms, out);
    true
}

// Writes a key, after a comma where a member stands before it.
fn write_key<S: TextSink>(key: &Key, later: bool, out: &mut S)
    ensures { S.puts out.old out.new (key_text later (string_bytes key.now.name)) }
{
    if later {
        out.put(&key.lead);
    } else {
        out.put(&key.lead[1..]);
    }
}
