//! Declarations from tokens.
ghost use Rattle.std.specs.Prelude.{◌≡◌, Err, ◌≤◌, ◌<◌, ◌+◌, ℕ, List, length, drop, OnOk, IfOk, true, false, None, vec_len};
ghost use Rattle.tl_lexer.specs.Rule.{Parses, Next};
ghost use Rattle.tl_combinators.specs.Tokens.{fault_of, Fits};
ghost use Rattle.tl_combinators.specs.Names.{name_text};
ghost use Rattle.tl_program.specs.Trees.{view};
ghost use Rattle.tl_program.specs.Program.{decl_text};
ghost use Rattle.tl_combinators.specs.Declarations.{variable, variables, result_type, combinator, declaration, IsLifecycle, where_declaration, declaration_too_many};
ghost use Rattle.tl_combinators.specs.Description.{Piece};
ghost use Rattle.tl_combinators.specs.DescriptionSoFar.{so_far};
ghost use Rattle.tl_combinators.specs.Sentences.{ProgramText};

use crate::built_in::{built_in_line_at, sort_at};
use crate::description::Description;
use crate::fault::{SyntaxFault, UnsupportedForm};
use crate::fields::{PART_LIMIT, fields_at};
use crate::names::{Name, declared_name_at};
use crate::numbers::number_at;
use crate::reading::{
    First, begins, begins_this, begins_word, bytes_at, not_profile_at, take_token, take_word,
    too_many_at, unexpected_at,
};
use crate::types::expression_at;
use std::alloc::Global;
use tl_lexer::{Token, TokenKind};
use tl_numbers::Bytes;
use tl_program::{BuiltIn, Decl, TypeTree};

// `{X:Type}`.
fn variable_at(
    alloc: Global,
    text: &[u8],
    tokens: &[Token],
    at: &mut usize,
) -> Result<Bytes, SyntaxFault>
    requires { Fits text.now tokens.now }
    ensures read { Parses fault_of (λ (v : List ℕ). v) (variable text.now) (drop at.old tokens.now) (drop at.new tokens.now) result }
    ensures on { OnOk result (at.old < at.new) }
    ensures inside { OnOk result (at.new ≤ length tokens.now) }
{
    take_token(text, tokens, at, TokenKind::LBrace)?;
    let word = take_word(text, tokens, at, First::Letter)?;
    take_token(text, tokens, at, TokenKind::Colon)?;
    sort_at(text, tokens, at)?;
    take_token(text, tokens, at, TokenKind::RBrace)?;
    Ok(Bytes::from_slice(alloc, bytes_at(text, word))?)
}

// Variables, as long as one begins.
fn variables_at(
    alloc: Global,
    text: &[u8],
    tokens: &[Token],
    at: &mut usize,
) -> Result<Vec<Bytes>, SyntaxFault>
    requires { Fits text.now tokens.now }
    ensures read { Parses fault_of (λ v. v.items) (variables text.now) (drop at.old tokens.now) (drop at.new tokens.now) result }
    ensures on { OnOk result (at.old ≤ at.new) }
    ensures inside { at.old ≤ length tokens.now → OnOk result (at.new ≤ length tokens.now) }
    ensures few { IfOk result (λ v. vec_len v ≤ 256) }
{
    let mut vars = Vec::new(alloc);
    while begins(tokens, *at, TokenKind::LBrace) {
        if vars.len() == PART_LIMIT {
            return Err(too_many_at(text, tokens, *at));
        }
        let var = variable_at(alloc, text, tokens, at)?;
        vars.push(var)?;
    }
    Ok(vars)
}

// `= result`.
fn result_type_at(
    alloc: Global,
    text: &[u8],
    tokens: &[Token],
    at: &mut usize,
) -> Result<TypeTree, SyntaxFault>
    requires { Fits text.now tokens.now }
    ensures read { Parses fault_of view (result_type text.now) (drop at.old tokens.now) (drop at.new tokens.now) result }
    ensures on { OnOk result (at.old < at.new) }
    ensures inside { OnOk result (at.new ≤ length tokens.now) }
{
    take_token(text, tokens, at, TokenKind::Equals)?;
    expression_at(alloc, text, tokens, at)
}

// A constructor or a function, after its name, which is described.
fn combinator_at(
    alloc: Global,
    text: &[u8],
    tokens: &[Token],
    at: &mut usize,
    function: bool,
    name: Name,
    described: Description,
) -> Result<Decl, SyntaxFault>
    requires fits { Fits text.now tokens.now }
    requires inside { at.old ≤ length tokens.now }
    ensures read { (ps : List Piece) → described ≡ so_far ps → Parses fault_of decl_text (combinator text.now function (name_text name) ps) (drop at.old tokens.now) (drop at.new tokens.now) result }
    ensures on { OnOk result (at.old < at.new) }
    ensures inside { OnOk result (at.new ≤ length tokens.now) }
{
    let mut described = described;
    let start = *at;
    let number = number_at(text, tokens, at, name.end)?;
    described.leave_all_out(tokens, start, *at);
    let start = *at;
    let vars = variables_at(alloc, text, tokens, at)?;
    described.show_all(text, tokens, start, *at)?;
    let fields = fields_at(
        alloc,
        text,
        tokens,
        at,
        function,
        vars.len(),
        &mut described,
    )?;
    let start = *at;
    let result = result_type_at(alloc, text, tokens, at)?;
    described.show_all(text, tokens, start, *at)?;
    take_token(text, tokens, at, TokenKind::Semi)?;
    Ok(Decl {
        name: name.bytes,
        number,
        vars,
        fields,
        result,
        function,
        builtin: false,
        text: described.into_bytes(),
    })
}

// A declaration; function says whether it stands in a section of functions.
fn declaration_at(
    alloc: Global,
    text: &[u8],
    tokens: &[Token],
    at: &mut usize,
    function: bool,
) -> Result<Decl, SyntaxFault>
    requires { Fits text.now tokens.now }
    ensures read { Parses fault_of decl_text (declaration text.now function) (drop at.old tokens.now) (drop at.new tokens.now) result }
    ensures on { OnOk result (at.old < at.new) }
    ensures inside { OnOk result (at.new ≤ length tokens.now) }
{
    let mut described = Description::new(alloc);
    let start = *at;
    let name = declared_name_at(alloc, text, tokens, at)?;
    described.show_all(text, tokens, start, *at)?;
    match BuiltIn::of(name.bytes.as_slice()) {
        Some(line) => built_in_line_at(alloc, text, tokens, at, line, name),
        None => combinator_at(alloc, text, tokens, at, function, name, described),
    }
}

fn begins_lifecycle(text: &[u8], tokens: &[Token], at: usize) -> bool
    requires { Fits text.now tokens.now }
    ensures yes { result ≡ true → Next (IsLifecycle text.now) (drop at tokens.now) }
    ensures no { result ≡ false → Next (IsLifecycle text.now) (drop at tokens.now) → ⊥ }
{
    begins_this(text, tokens, at, b"New".as_slice())
        || begins_this(text, tokens, at, b"Final".as_slice())
        || begins_this(text, tokens, at, b"Empty".as_slice())
}

/// What is expected to be a declaration; function says whether it stands in a section of functions.
pub fn where_declaration_at(
    alloc: Global,
    text: &[u8],
    tokens: &[Token],
    at: &mut usize,
    function: bool,
) -> Result<Decl, SyntaxFault>
    requires { Fits text.now tokens.now }
    ensures read { Parses fault_of decl_text (where_declaration text.now (declaration text.now function)) (drop at.old tokens.now) (drop at.new tokens.now) result }
    ensures on { OnOk result (at.old < at.new) }
    ensures inside { OnOk result (at.new ≤ length tokens.now) }
{
    if begins_lifecycle(text, tokens, *at) {
        return Err(not_profile_at(text, tokens, *at, UnsupportedForm::Lifecycle));
    }
    if begins_word(text, tokens, *at, First::Upper) {
        return Err(not_profile_at(text, tokens, *at, UnsupportedForm::PartialApplication));
    }
    if begins_this(text, tokens, *at, b"_".as_slice()) {
        return Err(not_profile_at(text, tokens, *at, UnsupportedForm::Anonymous));
    }
    declaration_at(alloc, text, tokens, at, function)
}

/// Why no declaration stands after the last that there may be.
pub fn declaration_too_many_at(text: &[u8], tokens: &[Token], at: usize) -> SyntaxFault
    requires { Fits text.now tokens.now }
    ensures { Parses fault_of (λ (p : ProgramText). p) (declaration_too_many text.now) (drop at tokens.now) (drop at tokens.now) (Err result) }
{
    if begins_lifecycle(text, tokens, at) {
        return not_profile_at(text, tokens, at, UnsupportedForm::Lifecycle);
    }
    if begins_word(text, tokens, at, First::Upper) {
        return not_profile_at(text, tokens, at, UnsupportedForm::PartialApplication);
    }
    if begins_this(text, tokens, at, b"_".as_slice()) {
        return not_profile_at(text, tokens, at, UnsupportedForm::Anonymous);
    }
    if begins_word(text, tokens, at, First::Lower) {
        return too_many_at(text, tokens, at);
    }
    unexpected_at(text, tokens, at)
}
