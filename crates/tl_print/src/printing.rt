//! Programs as text.
ghost use Rattle.std.specs.Prelude.{◌≡◌, ◌++◌, ◌∷◌, [], map, IfOk, OnOk, true, false};
ghost use Rattle.tl_print.specs.Printed.{CanBeRead, ReadsBack};
ghost use Rattle.tl_program.specs.Program.{kind_text, cond_texts, field_text, decl_text, program_text};
ghost use Rattle.tl_program.specs.Trees.{view, views, trees_of};
ghost use Rattle.tl_print.specs.Written.{opening, closing, written_tree, written_args, written_bit, written_condition, written_kind, written_field, written_fields, written_number, written_variable, written_variables, written_line, written_parts, written_declaration, section_after, written_mark, written_program};

use std::alloc::{AllocError, Global};
use tl_combinators::{BuiltIn, Cond, Decl, Field, FieldKind, Program, TypeTree};
use tl_numbers::{Bytes, print_hex};

fn put(out: &mut Vec<u8>, bytes: &[u8]) -> Result<(), AllocError>
    ensures { OnOk result (out.new.items ≡ out.old.items ++ bytes.now) }
{
    out.extend_from_slice(bytes)?;
    Ok(())
}

fn put_byte(out: &mut Vec<u8>, byte: u8) -> Result<(), AllocError>
    ensures { OnOk result (out.new.items ≡ out.old.items ++ (byte ∷ [])) }
{
    out.push(byte)?;
    Ok(())
}

// What stands before a type in `<..>`.
fn opening(first: bool) -> u8
    ensures { result ≡ opening first }
{
    if first { b'<' } else { b',' }
}

// What stands after the types in `<..>`.
fn closing(first: bool) -> &'static [u8]
    ensures { result.now ≡ closing first }
{
    if first {
        b"".as_slice()
    } else {
        b">".as_slice()
    }
}

// A type.
#[cycle(put)]
fn put_tree(out: &mut Vec<u8>, tree: &TypeTree) -> Result<(), AllocError>
    ensures { OnOk result (out.new.items ≡ out.old.items ++ written_tree (view tree.now)) }
{
    match tree {
        TypeTree::Named { name, args } => {
            put(out, name.as_slice())?;
            put_args(out, args)
        }
        TypeTree::Percent { tree } => {
            put_byte(out, b'%')?;
            put_tree(out, tree)
        }
        TypeTree::AnyCall => put_byte(out, b'!'),
    }
}

// The types in `<..>`.
#[cycle(put)]
fn put_args(out: &mut Vec<u8>, args: &Vec<TypeTree>) -> Result<(), AllocError>
    ensures { OnOk result (out.new.items ≡ out.old.items ++ written_args true (trees_of (views args.now.items))) }
{
    let mut first = true;
    for arg in args {
        put_byte(out, opening(first))?;
        put_tree(out, arg)?;
        first = false;
    }
    put(out, closing(first))
}

// The number of a bit.
fn put_bit(out: &mut Vec<u8>, bit: u32) -> Result<(), AllocError>
    ensures { OnOk result (out.new.items ≡ out.old.items ++ written_bit bit) }
{
    if bit < 10 {
        return put_byte(out, b'0' + bit as u8);
    }
    put(
        out,
        [b'0' + (bit / 10 % 10) as u8, b'0' + (bit % 10) as u8].as_slice(),
    )
}

// The condition of a field, if it has one.
fn put_condition(out: &mut Vec<u8>, cond: &Option<Cond>) -> Result<(), AllocError>
    ensures { OnOk result (out.new.items ≡ out.old.items ++ written_condition (cond_texts cond.now)) }
{
    match cond {
        None => Ok(()),
        Some(cond) => {
            put(out, cond.flags.as_slice())?;
            put_byte(out, b'.')?;
            put_bit(out, cond.bit)?;
            put_byte(out, b'?')
        }
    }
}

// What a field holds.
fn put_kind(out: &mut Vec<u8>, kind: &FieldKind) -> Result<(), AllocError>
    ensures { OnOk result (out.new.items ≡ out.old.items ++ written_kind (kind_text kind.now)) }
{
    match kind {
        FieldKind::Nat => put_byte(out, b'#'),
        FieldKind::Flag => put(out, b"true".as_slice()),
        FieldKind::Call { var } => {
            put_byte(out, b'!')?;
            put(out, var.as_slice())
        }
        FieldKind::Of { tree } => put_tree(out, tree),
    }
}

fn put_field(out: &mut Vec<u8>, field: &Field) -> Result<(), AllocError>
    ensures { OnOk result (out.new.items ≡ out.old.items ++ written_field (field_text field.now)) }
{
    put(out, field.name.as_slice())?;
    put_byte(out, b':')?;
    put_condition(out, &field.cond)?;
    put_kind(out, &field.kind)?;
    put_byte(out, b' ')
}

fn put_fields(out: &mut Vec<u8>, fields: &Vec<Field>) -> Result<(), AllocError>
    ensures { OnOk result (out.new.items ≡ out.old.items ++ written_fields (map field_text fields.now.items)) }
{
    for field in fields {
        put_field(out, field)?;
    }
    Ok(())
}

// The number of a declaration, if one is written.
fn put_number(out: &mut Vec<u8>, number: Option<u32>) -> Result<(), AllocError>
    ensures { OnOk result (out.new.items ≡ out.old.items ++ written_number number) }
{
    match number {
        None => Ok(()),
        Some(number) => {
            put_byte(out, b'#')?;
            put(out, print_hex(number).as_slice())
        }
    }
}

fn put_variable(out: &mut Vec<u8>, var: &Bytes) -> Result<(), AllocError>
    ensures { OnOk result (out.new.items ≡ out.old.items ++ written_variable var.now) }
{
    put_byte(out, b'{')?;
    put(out, var.as_slice())?;
    put(out, b":Type} ".as_slice())
}

fn put_variables(out: &mut Vec<u8>, vars: &Vec<Bytes>) -> Result<(), AllocError>
    ensures { OnOk result (out.new.items ≡ out.old.items ++ written_variables vars.now.items) }
{
    for var in vars {
        put_variable(out, var)?;
    }
    Ok(())
}

// The line of a built-in type, after its name and number.
fn line_form(line: BuiltIn) -> &'static [u8]
    ensures { result.now ≡ written_line line }
{
    match line {
        BuiltIn::Int => b"? = Int;\n".as_slice(),
        BuiltIn::Long => b"? = Long;\n".as_slice(),
        BuiltIn::Double => b"? = Double;\n".as_slice(),
        BuiltIn::Str => b"? = String;\n".as_slice(),
        BuiltIn::Bytes => b"= Bytes;\n".as_slice(),
        BuiltIn::Vector => b"{t:Type} # [ t ] = Vector t;\n".as_slice(),
        BuiltIn::Int128 => b"4*[ int ] = Int128;\n".as_slice(),
        BuiltIn::Int256 => b"8*[ int ] = Int256;\n".as_slice(),
    }
}

// The variables, the fields and the result.
fn put_parts(out: &mut Vec<u8>, decl: &Decl) -> Result<(), AllocError>
    ensures { OnOk result (out.new.items ≡ out.old.items ++ written_parts (decl_text decl.now)) }
{
    put_variables(out, &decl.vars)?;
    put_fields(out, &decl.fields)?;
    put(out, b"= ".as_slice())?;
    put_tree(out, &decl.result)?;
    put(out, b";\n".as_slice())
}

fn put_declaration(out: &mut Vec<u8>, decl: &Decl) -> Result<(), AllocError>
    ensures { OnOk result (out.new.items ≡ out.old.items ++ written_declaration (decl_text decl.now)) }
{
    put(out, decl.name.as_slice())?;
    put_number(out, decl.number)?;
    put_byte(out, b' ')?;
    match BuiltIn::of(decl.name.as_slice()) {
        Some(line) => put(out, line_form(line)),
        None => put_parts(out, decl),
    }
}

// The section of a declaration that follows one of a section: a built-in line may stand in any.
fn section_after(function: bool, decl: &Decl) -> bool
    ensures { result ≡ section_after function (decl_text decl.now) }
{
    if decl.builtin {
        function
    } else {
        decl.function
    }
}

// The mark of a section, where it isn't the one before.
fn section_mark(before: bool, function: bool) -> &'static [u8]
    ensures { result.now ≡ written_mark before function }
{
    match (before, function) {
        (true, false) => b"---types---\n".as_slice(),
        (false, true) => b"---functions---\n".as_slice(),
        _ => b"".as_slice(),
    }
}

// The declarations of a program.
fn put_program(out: &mut Vec<u8>, decls: &Vec<Decl>) -> Result<(), AllocError>
    ensures { OnOk result (out.new.items ≡ out.old.items ++ written_program false (map decl_text decls.now.items)) }
{
    let mut function = false;
    for decl in decls {
        let section = section_after(function, decl);
        put(out, section_mark(function, section))?;
        put_declaration(out, decl)?;
        function = section;
    }
    Ok(())
}

/// A text that reads as the same program, descriptions aside: a line for each declaration, as
/// `name#0123abcd {X:Type} field:type flag:F.2?true = result<a,b>;`, and a section's mark where it changes.
pub fn print(alloc: Global, program: &Program) -> Result<Bytes, AllocError>
    requires { CanBeRead (program_text program.now) }
    ensures text { IfOk result (λ b. b ≡ written_program false (program_text program.now)) }
    ensures reads { IfOk result (λ b. ReadsBack b (program_text program.now)) }
{
    let mut out = Vec::new(alloc);
    put_program(&mut out, &program.decls)?;
    Ok(Bytes::from_vec(out))
}
