//! Fields from tokens.
ghost use Rattle.std.specs.Prelude.{◌≡◌, Err, ◌≤◌, ◌<◌, ◌+◌, ℕ, List, length, drop, map, OnOk, IfOk, IfSome, IfNone, true, false};
ghost use Rattle.tl_lexer.specs.Rule.{Parses, Next};
ghost use Rattle.tl_combinators.specs.Tokens.{fault_of, Fits};
ghost use Rattle.tl_program.specs.Trees.{view};
ghost use Rattle.tl_program.specs.Program.{FieldText, cond_text, cond_texts, kind_text, field_text};
ghost use Rattle.tl_combinators.specs.Description.{Piece, before_type};
ghost use Rattle.tl_combinators.specs.DescriptionSoFar.{so_far, ParsesFields};
ghost use Rattle.tl_combinators.specs.Fields.{digit, bit_value, IsBit, HasBit, bit, BeginsCondition, condition, conditional, held_text, called, in_condition, held, BeginsMultiplicity, IsLone, BeginsUnnamed, field, field_too_many, fields, FieldsText, fields_text};

use crate::description::Description;
use crate::fault::{SyntaxFault, UnsupportedForm};
use crate::reading::{
    First, begins, begins_word, bytes_at, not_profile_at, same, take_token, take_word, too_many_at,
    unexpected_at,
};
use crate::types::term_at;
use std::alloc::Global;
use tl_lexer::{Token, TokenKind};
use tl_numbers::Bytes;
use tl_program::{Cond, Field, FieldKind, TypeTree, is_plain};

/// A declaration has at most so many variables and fields together.
pub const PART_LIMIT: usize = 256;

fn digit_of(byte: u8) -> Option<u32>
    ensures { result ≡ digit byte }
{
    match byte {
        b'0'..=b'9' => Some((byte - b'0') as u32),
        _ => None,
    }
}

// The number of one or two decimal digits.
fn bit_of(bytes: &[u8]) -> Option<u32>
    ensures { result ≡ bit_value bytes.now }
{
    match bytes {
        [ones] => digit_of(*ones),
        [tens, ones] => Some(digit_of(*tens)? * 10 + digit_of(*ones)?),
        _ => None,
    }
}

// The number that a Word of digits is.
fn bit_of_token(text: &[u8], token: Token) -> Option<u32>
    requires order { token.start ≤ token.end }
    requires within { token.end ≤ length text.now }
    ensures some { IfSome result (λ n. IsBit text.now n token) }
    ensures none { IfNone result (HasBit text.now token → ⊥) }
{
    if same(token.kind, TokenKind::Word) {
        bit_of(bytes_at(text, token))
    } else {
        None
    }
}

// The number of a bit.
fn bit_at(text: &[u8], tokens: &[Token], at: &mut usize) -> Result<u32, SyntaxFault>
    requires { Fits text.now tokens.now }
    ensures read { Parses fault_of (λ (n : ℕ). n) (bit text.now) (drop at.old tokens.now) (drop at.new tokens.now) result }
    ensures on { OnOk result (at.new ≡ at.old + 1) }
    ensures inside { OnOk result (at.new ≤ length tokens.now) }
{
    if *at >= tokens.len() {
        return Err(unexpected_at(text, tokens, *at));
    }
    match bit_of_token(text, tokens[*at]) {
        Some(bit) => {
            *at += 1;
            Ok(bit)
        }
        None => Err(unexpected_at(text, tokens, *at)),
    }
}

// Whether a condition begins here.
fn begins_condition(text: &[u8], tokens: &[Token], at: usize) -> bool
    requires { Fits text.now tokens.now }
    ensures yes { result ≡ true → BeginsCondition text.now (drop at tokens.now) }
    ensures no { result ≡ false → BeginsCondition text.now (drop at tokens.now) → ⊥ }
{
    if !begins_word(text, tokens, at, First::Letter) {
        return false;
    }
    if !begins(tokens, at + 1, TokenKind::Dot) {
        return false;
    }
    begins_word(text, tokens, at + 2, First::Digit)
}

// `F.N?`.
fn condition_at(
    alloc: Global,
    text: &[u8],
    tokens: &[Token],
    at: &mut usize,
) -> Result<Cond, SyntaxFault>
    requires { Fits text.now tokens.now }
    ensures read { Parses fault_of cond_text (condition text.now) (drop at.old tokens.now) (drop at.new tokens.now) result }
    ensures on { OnOk result (at.new ≡ at.old + 4) }
    ensures inside { OnOk result (at.new ≤ length tokens.now) }
{
    let word = take_word(text, tokens, at, First::Letter)?;
    take_token(text, tokens, at, TokenKind::Dot)?;
    let bit = bit_at(text, tokens, at)?;
    take_token(text, tokens, at, TokenKind::Query)?;
    let flags = Bytes::from_slice(alloc, bytes_at(text, word))?;
    Ok(Cond { flags, bit })
}

/// A condition or none, and what the field holds.
#[derive(Drop)]
pub struct Held {
    pub cond: Option<Cond>,
    pub kind: FieldKind,
}

// What a field holds after a condition: the type `true` alone is a flag.
fn conditional_kind(tree: TypeTree) -> FieldKind
    ensures { kind_text result ≡ conditional (view tree) }
{
    if is_plain(&tree, b"true".as_slice()) {
        return FieldKind::Flag;
    }
    FieldKind::Of { tree }
}

// `!X`, which functions alone may have.
fn called_at(
    alloc: Global,
    text: &[u8],
    tokens: &[Token],
    at: &mut usize,
    function: bool,
) -> Result<Held, SyntaxFault>
    requires { Fits text.now tokens.now }
    ensures read { Parses fault_of held_text (called text.now function) (drop at.old tokens.now) (drop at.new tokens.now) result }
    ensures on { OnOk result (at.old < at.new) }
    ensures inside { OnOk result (at.new ≤ length tokens.now) }
    ensures free { IfOk result (λ h. cond_texts h.cond ≡ None) }
{
    if !function {
        return Err(not_profile_at(text, tokens, *at, UnsupportedForm::CallInConstructor));
    }
    take_token(text, tokens, at, TokenKind::Bang)?;
    let word = take_word(text, tokens, at, First::Letter)?;
    let var = Bytes::from_slice(alloc, bytes_at(text, word))?;
    Ok(Held {
        cond: None,
        kind: FieldKind::Call { var },
    })
}

// `F.N?type`.
fn in_condition_at(
    alloc: Global,
    text: &[u8],
    tokens: &[Token],
    at: &mut usize,
) -> Result<Held, SyntaxFault>
    requires { Fits text.now tokens.now }
    ensures read { Parses fault_of held_text (in_condition text.now) (drop at.old tokens.now) (drop at.new tokens.now) result }
    ensures on { OnOk result (at.old + 4 ≤ at.new) }
    ensures inside { OnOk result (at.new ≤ length tokens.now) }
{
    let cond = condition_at(alloc, text, tokens, at)?;
    let tree = term_at(alloc, text, tokens, at)?;
    Ok(Held {
        cond: Some(cond),
        kind: conditional_kind(tree),
    })
}

// What stands after the colon of a field.
fn held_at(
    alloc: Global,
    text: &[u8],
    tokens: &[Token],
    at: &mut usize,
    function: bool,
) -> Result<Held, SyntaxFault>
    requires { Fits text.now tokens.now }
    ensures read { Parses fault_of held_text (held text.now function) (drop at.old tokens.now) (drop at.new tokens.now) result }
    ensures on { IfOk result (λ h. at.old + before_type (cond_texts h.cond) ≤ at.new + 2) }
    ensures inside { OnOk result (at.new ≤ length tokens.now) }
{
    if begins(tokens, *at, TokenKind::Hash) {
        take_token(text, tokens, at, TokenKind::Hash)?;
        return Ok(Held {
            cond: None,
            kind: FieldKind::Nat,
        });
    }
    if begins(tokens, *at, TokenKind::Bang) {
        return called_at(alloc, text, tokens, at, function);
    }
    if begins_condition(text, tokens, *at) {
        return in_condition_at(alloc, text, tokens, at);
    }
    let tree = term_at(alloc, text, tokens, at)?;
    Ok(Held {
        cond: None,
        kind: FieldKind::Of { tree },
    })
}

fn begins_multiplicity(text: &[u8], tokens: &[Token], at: usize) -> bool
    requires { Fits text.now tokens.now }
    ensures yes { result ≡ true → BeginsMultiplicity text.now (drop at tokens.now) }
    ensures no { result ≡ false → BeginsMultiplicity text.now (drop at tokens.now) → ⊥ }
{
    begins(tokens, at, TokenKind::LBracket)
        || begins(tokens, at, TokenKind::Star)
        || begins_word(text, tokens, at, First::Digit)
}

// Whether a Word without a `:` after it begins here.
fn is_lone(text: &[u8], tokens: &[Token], at: usize) -> bool
    requires { Fits text.now tokens.now }
    ensures yes { result ≡ true → IsLone text.now (drop at tokens.now) }
    ensures no { result ≡ false → IsLone text.now (drop at tokens.now) → ⊥ }
{
    if !begins_word(text, tokens, at, First::Letter) {
        return false;
    }
    !begins(tokens, at + 1, TokenKind::Colon)
}

fn begins_unnamed(text: &[u8], tokens: &[Token], at: usize) -> bool
    requires { Fits text.now tokens.now }
    ensures yes { result ≡ true → BeginsUnnamed text.now (drop at tokens.now) }
    ensures no { result ≡ false → BeginsUnnamed text.now (drop at tokens.now) → ⊥ }
{
    begins(tokens, at, TokenKind::Bang)
        || begins(tokens, at, TokenKind::Percent)
        || begins(tokens, at, TokenKind::LParen)
        || begins(tokens, at, TokenKind::Hash)
        || is_lone(text, tokens, at)
}

// A field.
fn field_at(
    alloc: Global,
    text: &[u8],
    tokens: &[Token],
    at: &mut usize,
    function: bool,
) -> Result<Field, SyntaxFault>
    requires { Fits text.now tokens.now }
    ensures read { Parses fault_of field_text (field text.now function) (drop at.old tokens.now) (drop at.new tokens.now) result }
    ensures prefix { IfOk result (λ f. at.old + before_type (cond_texts f.cond) ≤ at.new) }
    ensures on { OnOk result (at.old < at.new) }
    ensures inside { OnOk result (at.new ≤ length tokens.now) }
{
    if begins_multiplicity(text, tokens, *at) {
        return Err(not_profile_at(text, tokens, *at, UnsupportedForm::Multiplicity));
    }
    if begins_unnamed(text, tokens, *at) {
        return Err(not_profile_at(text, tokens, *at, UnsupportedForm::UnnamedField));
    }
    let word = take_word(text, tokens, at, First::Letter)?;
    take_token(text, tokens, at, TokenKind::Colon)?;
    let Held { cond, kind } = held_at(alloc, text, tokens, at, function)?;
    let name = Bytes::from_slice(alloc, bytes_at(text, word))?;
    Ok(Field { name, cond, kind })
}

// Why no field stands after the last that there may be.
fn field_too_many_at(text: &[u8], tokens: &[Token], at: usize) -> SyntaxFault
    requires { Fits text.now tokens.now }
    ensures { Parses fault_of (λ (s : FieldsText). s) (field_too_many text.now) (drop at tokens.now) (drop at tokens.now) (Err result) }
{
    if begins_multiplicity(text, tokens, at) {
        return not_profile_at(text, tokens, at, UnsupportedForm::Multiplicity);
    }
    if begins_unnamed(text, tokens, at) {
        return not_profile_at(text, tokens, at, UnsupportedForm::UnnamedField);
    }
    if begins_word(text, tokens, at, First::Letter) {
        return too_many_at(text, tokens, at);
    }
    unexpected_at(text, tokens, at)
}

/// The fields up to `=`, with so many variables before them. They are described.
pub fn fields_at(
    alloc: Global,
    text: &[u8],
    tokens: &[Token],
    at: &mut usize,
    function: bool,
    vars: usize,
    described: &mut Description,
) -> Result<Vec<Field>, SyntaxFault>
    requires fits { Fits text.now tokens.now }
    requires few { vars ≤ 256 }
    requires inside { at.old ≤ length tokens.now }
    ensures read { (ps : List Piece) → described.old ≡ so_far ps → ParsesFields (λ v. map field_text v.items) text.now function vars ps (drop at.old tokens.now) (drop at.new tokens.now) described.new result }
    ensures on { OnOk result (at.old ≤ at.new) }
    ensures inside { OnOk result (at.new ≤ length tokens.now) }
{
    let mut fields = Vec::new(alloc);
    while !begins(tokens, *at, TokenKind::Equals) {
        if vars + fields.len() == PART_LIMIT {
            return Err(field_too_many_at(text, tokens, *at));
        }
        let start = *at;
        let field = field_at(alloc, text, tokens, at, function)?;
        described.show_field(text, tokens, start, *at, &field)?;
        fields.push(field)?;
    }
    Ok(fields)
}
