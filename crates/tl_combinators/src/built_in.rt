//! The lines of the types that the language has from the start.
ghost use Rattle.std.specs.Prelude.{◌≡◌, ◌≤◌, ◌<◌, ◌+◌, ℕ, length, drop, OnOk, Option};
ghost use Rattle.tl_lexer.specs.Rule.{Parses};
ghost use Rattle.tl_lexer.specs.declared.token.Token.{Token};
ghost use Rattle.tl_combinators.specs.Tokens.{fault_of, Fits};
ghost use Rattle.tl_combinators.specs.Names.{name_text};
ghost use Rattle.tl_program.specs.Program.{decl_text};
ghost use Rattle.tl_program.specs.BuiltIns.{own_name};
ghost use Rattle.tl_combinators.specs.BuiltInLines.{this_type, sort, boxed, opaque, bracketed, repeated, element, vector_result, vector, line_form, line_number, built_in_line};

use crate::fault::{SyntaxFault, UnsupportedForm};
use crate::names::{Name, begins_object};
use crate::numbers::{number_at, vector_line_number_at};
use crate::reading::{begins, not_profile_at, take_this, take_token};
use std::alloc::Global;
use tl_lexer::{Token, TokenKind};
use tl_numbers::Bytes;
use tl_program::{BuiltIn, Decl, TypeTree, boxed_name};

// This name, in the place of the result's type.
fn this_type_at(
    text: &[u8],
    tokens: &[Token],
    at: &mut usize,
    name: &[u8],
) -> Result<Token, SyntaxFault>
    requires { Fits text.now tokens.now }
    ensures read { Parses fault_of (λ (t : Token). t) (this_type text.now name.now) (drop at.old tokens.now) (drop at.new tokens.now) result }
    ensures on { OnOk result (at.old < at.new) }
    ensures inside { OnOk result (at.new ≤ length tokens.now) }
{
    if begins_object(text, tokens, *at) {
        return Err(not_profile_at(text, tokens, *at, UnsupportedForm::ObjectType));
    }
    take_this(text, tokens, at, name)
}

/// The Word `Type`, after the colon in braces.
pub fn sort_at(text: &[u8], tokens: &[Token], at: &mut usize) -> Result<Token, SyntaxFault>
    requires { Fits text.now tokens.now }
    ensures read { Parses fault_of (λ (t : Token). t) (sort text.now) (drop at.old tokens.now) (drop at.new tokens.now) result }
    ensures on { OnOk result (at.old < at.new) }
    ensures inside { OnOk result (at.new ≤ length tokens.now) }
{
    if begins(tokens, *at, TokenKind::Hash) {
        return Err(not_profile_at(text, tokens, *at, UnsupportedForm::DependentNumber));
    }
    take_this(text, tokens, at, b"Type".as_slice())
}

// `= Name;`.
fn boxed_at(text: &[u8], tokens: &[Token], at: &mut usize, name: &[u8]) -> Result<(), SyntaxFault>
    requires { Fits text.now tokens.now }
    ensures read { Parses fault_of (λ (u : Unit {0}). u) (boxed text.now name.now) (drop at.old tokens.now) (drop at.new tokens.now) result }
    ensures on { OnOk result (at.old < at.new) }
    ensures inside { OnOk result (at.new ≤ length tokens.now) }
{
    take_token(text, tokens, at, TokenKind::Equals)?;
    this_type_at(text, tokens, at, name)?;
    take_token(text, tokens, at, TokenKind::Semi)?;
    Ok(())
}

// `? = Name;`.
fn opaque_at(text: &[u8], tokens: &[Token], at: &mut usize, name: &[u8]) -> Result<(), SyntaxFault>
    requires { Fits text.now tokens.now }
    ensures read { Parses fault_of (λ (u : Unit {0}). u) (opaque text.now name.now) (drop at.old tokens.now) (drop at.new tokens.now) result }
    ensures on { OnOk result (at.old < at.new) }
    ensures inside { OnOk result (at.new ≤ length tokens.now) }
{
    take_token(text, tokens, at, TokenKind::Query)?;
    boxed_at(text, tokens, at, name)
}

// `[ item ]`.
fn bracketed_at(
    text: &[u8],
    tokens: &[Token],
    at: &mut usize,
    item: &[u8],
) -> Result<(), SyntaxFault>
    requires { Fits text.now tokens.now }
    ensures read { Parses fault_of (λ (u : Unit {0}). u) (bracketed text.now item.now) (drop at.old tokens.now) (drop at.new tokens.now) result }
    ensures on { OnOk result (at.old < at.new) }
    ensures inside { OnOk result (at.new ≤ length tokens.now) }
{
    take_token(text, tokens, at, TokenKind::LBracket)?;
    take_this(text, tokens, at, item)?;
    take_token(text, tokens, at, TokenKind::RBracket)?;
    Ok(())
}

// `4*[ int ] = Name;`, or with another number of them.
fn repeated_at(
    text: &[u8],
    tokens: &[Token],
    at: &mut usize,
    count: &[u8],
    name: &[u8],
) -> Result<(), SyntaxFault>
    requires { Fits text.now tokens.now }
    ensures read { Parses fault_of (λ (u : Unit {0}). u) (repeated text.now count.now name.now) (drop at.old tokens.now) (drop at.new tokens.now) result }
    ensures on { OnOk result (at.old < at.new) }
    ensures inside { OnOk result (at.new ≤ length tokens.now) }
{
    take_this(text, tokens, at, count)?;
    take_token(text, tokens, at, TokenKind::Star)?;
    bracketed_at(text, tokens, at, b"int".as_slice())?;
    boxed_at(text, tokens, at, name)
}

// `{t:Type}`.
fn element_at(text: &[u8], tokens: &[Token], at: &mut usize) -> Result<(), SyntaxFault>
    requires { Fits text.now tokens.now }
    ensures read { Parses fault_of (λ (u : Unit {0}). u) (element text.now) (drop at.old tokens.now) (drop at.new tokens.now) result }
    ensures on { OnOk result (at.old < at.new) }
    ensures inside { OnOk result (at.new ≤ length tokens.now) }
{
    take_token(text, tokens, at, TokenKind::LBrace)?;
    take_this(text, tokens, at, b"t".as_slice())?;
    take_token(text, tokens, at, TokenKind::Colon)?;
    sort_at(text, tokens, at)?;
    take_token(text, tokens, at, TokenKind::RBrace)?;
    Ok(())
}

// `= Vector t;`.
fn vector_result_at(text: &[u8], tokens: &[Token], at: &mut usize) -> Result<(), SyntaxFault>
    requires { Fits text.now tokens.now }
    ensures read { Parses fault_of (λ (u : Unit {0}). u) (vector_result text.now) (drop at.old tokens.now) (drop at.new tokens.now) result }
    ensures on { OnOk result (at.old < at.new) }
    ensures inside { OnOk result (at.new ≤ length tokens.now) }
{
    take_token(text, tokens, at, TokenKind::Equals)?;
    this_type_at(text, tokens, at, b"Vector".as_slice())?;
    take_this(text, tokens, at, b"t".as_slice())?;
    take_token(text, tokens, at, TokenKind::Semi)?;
    Ok(())
}

// `{t:Type} # [ t ] = Vector t;`.
fn vector_at(text: &[u8], tokens: &[Token], at: &mut usize) -> Result<(), SyntaxFault>
    requires { Fits text.now tokens.now }
    ensures read { Parses fault_of (λ (u : Unit {0}). u) (vector text.now) (drop at.old tokens.now) (drop at.new tokens.now) result }
    ensures on { OnOk result (at.old < at.new) }
    ensures inside { OnOk result (at.new ≤ length tokens.now) }
{
    element_at(text, tokens, at)?;
    take_token(text, tokens, at, TokenKind::Hash)?;
    bracketed_at(text, tokens, at, b"t".as_slice())?;
    vector_result_at(text, tokens, at)
}

// What stands after the name and the number of a line.
fn line_at(text: &[u8], tokens: &[Token], at: &mut usize, line: BuiltIn) -> Result<(), SyntaxFault>
    requires { Fits text.now tokens.now }
    ensures read { Parses fault_of (λ (u : Unit {0}). u) (line_form text.now line) (drop at.old tokens.now) (drop at.new tokens.now) result }
    ensures on { OnOk result (at.old < at.new) }
    ensures inside { OnOk result (at.new ≤ length tokens.now) }
{
    let name = boxed_name(line);
    match line {
        BuiltIn::Int | BuiltIn::Long | BuiltIn::Double | BuiltIn::Str => opaque_at(
            text, tokens, at, name,
        ),
        BuiltIn::Bytes => boxed_at(text, tokens, at, name),
        BuiltIn::Vector => vector_at(text, tokens, at),
        BuiltIn::Int128 => repeated_at(text, tokens, at, b"4".as_slice(), name),
        BuiltIn::Int256 => repeated_at(text, tokens, at, b"8".as_slice(), name),
    }
}

// The number after the name of a line.
fn line_number_at(
    text: &[u8],
    tokens: &[Token],
    at: &mut usize,
    line: BuiltIn,
    edge: u32,
) -> Result<Option<u32>, SyntaxFault>
    requires { Fits text.now tokens.now }
    ensures read { Parses fault_of (λ (o : Option ℕ). o) (line_number text.now line edge) (drop at.old tokens.now) (drop at.new tokens.now) result }
    ensures on { OnOk result (at.old ≤ at.new) }
    ensures inside { at.old ≤ length tokens.now → OnOk result (at.new ≤ length tokens.now) }
{
    match line {
        BuiltIn::Vector => vector_line_number_at(text, tokens, at, edge),
        _ => number_at(text, tokens, at, edge),
    }
}

/// A line, after its name.
pub fn built_in_line_at(
    alloc: Global,
    text: &[u8],
    tokens: &[Token],
    at: &mut usize,
    line: BuiltIn,
    name: Name,
) -> Result<Decl, SyntaxFault>
    requires fits { Fits text.now tokens.now }
    requires named { name.bytes ≡ own_name line }
    ensures read { Parses fault_of decl_text (built_in_line text.now line (name_text name)) (drop at.old tokens.now) (drop at.new tokens.now) result }
    ensures on { OnOk result (at.old < at.new) }
    ensures inside { OnOk result (at.new ≤ length tokens.now) }
{
    let number = line_number_at(text, tokens, at, line, name.end)?;
    line_at(text, tokens, at, line)?;
    let result_name = Bytes::from_slice(alloc, boxed_name(line))?;
    Ok(Decl {
        name: name.bytes,
        number,
        vars: Vec::new(alloc),
        fields: Vec::new(alloc),
        result: TypeTree::Named {
            name: result_name,
            args: Vec::new(alloc),
        },
        function: false,
        builtin: true,
        text: Bytes::new(alloc),
    })
}
