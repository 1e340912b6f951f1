//! Declarations by their numbers.
ghost use Rattle.std.specs.Prelude.{◌≡◌, ◌<◌, IfSome, length};
ghost use Rattle.tl_schema.specs.CheckedPrograms.{FindsNumber, IsSchema};
ghost use Rattle.tl_schema.specs.Seen.{declaration};
ghost use Rattle.tl_types.specs.inner.Reading.{first_from, is_function, is_member};

use tl_schema::{Entry, Schema};

/// The constructor of a type with this number.
pub fn member(schema: &Schema, head: u32, number: u32) -> Option<u32>
    ensures found { result ≡ first_from (is_member head number) 0 schema.now.decls }
    ensures within { IfSome result (λ i. i < length schema.now.decls) }
{
    if head >= schema.type_count() {
        return of_no_type(schema, head, number);
    }
    let i = numbered(schema, number)?;
    if constructs(schema.entry(i), head, number) {
        Some(i)
    } else {
        None
    }
}

/// The function with this number.
pub fn function(schema: &Schema, number: u32) -> Option<u32>
    ensures found { result ≡ first_from (is_function number) 0 schema.now.decls }
    ensures within { IfSome result (λ i. i < length schema.now.decls) }
{
    let i = numbered(schema, number)?;
    if is_called(schema.entry(i), number) {
        Some(i)
    } else {
        None
    }
}

// The declaration with this number, the lines of built-in types aside, in a schema that is sound.
fn numbered(schema: &Schema, number: u32) -> Option<u32>
    ensures sound { IsSchema schema.now }
    ensures found { FindsNumber schema.now.program number result }
    ensures within { IfSome result (λ i. i < length schema.now.decls) }
{
    schema.numbered(number)
}

// The first declaration with this number and a head that is no type's: a function, or the line of a built-in type, which the map doesn't have.
// No formed type comes here.
fn of_no_type(schema: &Schema, head: u32, number: u32) -> Option<u32>
    ensures found { result ≡ first_from (is_member head number) 0 schema.now.decls }
    ensures within { IfSome result (λ i. i < length schema.now.decls) }
{
    for i in 0..schema.count() {
        if constructs(schema.entry(i), head, number) {
            return Some(i);
        }
    }
    None
}

// Whether an entry has this head and this number.
fn constructs(entry: &Entry, head: u32, number: u32) -> bool
    ensures { result ≡ is_member head number (declaration entry.now) }
{
    entry.head == head && entry.number == number
}

// Whether an entry is the function with this number.
fn is_called(entry: &Entry, number: u32) -> bool
    ensures { result ≡ is_function number (declaration entry.now) }
{
    entry.function && entry.number == number
}
