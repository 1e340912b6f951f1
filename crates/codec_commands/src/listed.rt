//! The list of a schema's declarations.
ghost use Rattle.std.specs.Prelude.{◌≡◌, ◌++◌, IfOk, OnOk, string_bytes};
ghost use Rattle.tl_schema.specs.Seen.{declaration};
ghost use Rattle.codec_commands.specs.Check.{counts_line, entry_line, is_listed, listing};

use std::alloc::{AllocError, Global};
use tl_combinators::BuiltIn;
use tl_numbers::print_hex;
use tl_schema::{Entry, Schema};

/// A line for each declaration, with its number and its name, and how many there are. The lines of built-in types are left out but for that of `vector`.
pub fn listing(alloc: Global, schema: &Schema) -> Result<Vec<u8>, AllocError>
    ensures { IfOk result (λ text. text.items ≡ listing schema.now.decls) }
{
    let mut text = Vec::new(alloc);
    let mut constructors = 0;
    let mut functions = 0;
    for i in 0..schema.count() {
        let entry = schema.entry(i);
        add_line(&mut text, entry)?;
        if is_listed(entry) {
            if entry.function {
                functions += 1;
            } else {
                constructors += 1;
            }
        }
    }
    let counts = counts_line_of(alloc, constructors, functions)?;
    text.extend_from_slice(counts.as_bytes())?;
    Ok(text)
}

// Adds the line of a declaration, where it has one.
fn add_line(text: &mut Vec<u8>, entry: &Entry) -> Result<(), AllocError>
    ensures { OnOk result (text.new.items ≡ text.old.items ++ entry_line (declaration entry.now)) }
{
    if !is_listed(entry) {
        return Ok(());
    }
    text.extend_from_slice(&print_hex(entry.number))?;
    text.push(b' ')?;
    text.extend_from_slice(entry.name.as_slice())?;
    text.push(b'\n')?;
    Ok(())
}

// Whether a declaration has a line.
fn is_listed(entry: &Entry) -> bool
    ensures { result ≡ is_listed (declaration entry.now) }
{
    match BuiltIn::of(entry.name.as_slice()) {
        None => true,
        Some(BuiltIn::Int) => false,
        Some(BuiltIn::Long) => false,
        Some(BuiltIn::Double) => false,
        Some(BuiltIn::Str) => false,
        Some(BuiltIn::Bytes) => false,
        Some(BuiltIn::Vector) => true,
        Some(BuiltIn::Int128) => false,
        Some(BuiltIn::Int256) => false,
    }
}

fn counts_line_of(alloc: Global, constructors: u32, functions: u32) -> Result<String, AllocError>
    ensures { IfOk result (λ s. string_bytes s ≡ counts_line constructors functions) }
{
    let line = format!(in alloc; "constructors {constructors} functions {functions}\n")?;
    Ok(line)
}
