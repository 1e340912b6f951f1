//! Names.
ghost use Rattle.std.specs.Prelude.{◌≡◌, ◌≤◌, ◌<◌, ◌+◌, length, drop, OnOk, IfOk, true, false};
ghost use Rattle.tl_lexer.specs.Rule.{Parses, Next, one};
ghost use Rattle.tl_lexer.specs.declared.token.Token.{Token};
ghost use Rattle.tl_combinators.specs.Tokens.{fault_of, Fits, unexpected, passes};
ghost use Rattle.tl_combinators.specs.Names.{IsObject, IsSpace, IsLast, name_text, name_from, name, declared_name, type_name};

use crate::fault::{SyntaxFault, UnsupportedForm};
use crate::reading::{
    First, begins_at, begins_this, bytes_at, is_word, not_profile_at, take_token, take_word,
    unexpected_at,
};
use std::alloc::Global;
use tl_lexer::{Token, TokenKind};
use tl_numbers::Bytes;

/// A name, and the byte after it.
#[derive(Drop)]
pub struct Name {
    pub bytes: Bytes,
    pub end: u32,
}

// Whether the Word is a namespace: it begins in lower case, and a `.` adjoins it.
fn is_space(text: &[u8], tokens: &[Token], at: usize, word: Token) -> bool
    requires order { word.start ≤ word.end }
    requires within { word.end ≤ length text.now }
    ensures yes { result ≡ true → IsSpace text.now word (drop at tokens.now) }
    ensures no { result ≡ false → IsSpace text.now word (drop at tokens.now) → ⊥ }
{
    is_word(text, word, First::Lower) && begins_at(tokens, at, TokenKind::Dot, word.end)
}

// Whether the next token is a Word with such a first byte that adjoins the `.` before it.
fn begins_last(text: &[u8], tokens: &[Token], at: usize, first: First, edge: u32) -> bool
    requires { Fits text.now tokens.now }
    ensures yes { result ≡ true → Next (IsLast text.now (passes first) edge) (drop at tokens.now) }
    ensures no { result ≡ false → Next (IsLast text.now (passes first) edge) (drop at tokens.now) → ⊥ }
    ensures within { result ≡ true → at < length tokens.now }
{
    at < tokens.len() && is_word(text, tokens[at], first) && tokens[at].start == edge
}

// The Word after the `.` of a name.
fn last_at(
    text: &[u8],
    tokens: &[Token],
    at: &mut usize,
    first: First,
    edge: u32,
) -> Result<Token, SyntaxFault>
    requires { Fits text.now tokens.now }
    ensures read { Parses fault_of (λ (t : Token). t) (one (unexpected text.now) (IsLast text.now (passes first) edge)) (drop at.old tokens.now) (drop at.new tokens.now) result }
    ensures on { OnOk result (at.new ≡ at.old + 1) }
    ensures inside { OnOk result (at.new ≤ length tokens.now) }
    ensures spans { IfOk result (λ t. (t.start ≤ t.end) × (t.end ≤ length text.now)) }
{
    if begins_last(text, tokens, *at, first, edge) {
        let token = tokens[*at];
        *at += 1;
        Ok(token)
    } else {
        Err(unexpected_at(text, tokens, *at))
    }
}

// The name that the Word is, or begins as its namespace.
fn name_from_at(
    alloc: Global,
    text: &[u8],
    tokens: &[Token],
    at: &mut usize,
    first: First,
    word: Token,
) -> Result<Name, SyntaxFault>
    requires fits { Fits text.now tokens.now }
    requires order { word.start ≤ word.end }
    requires within { word.end ≤ length text.now }
    ensures read { Parses fault_of name_text (name_from text.now (passes first) word) (drop at.old tokens.now) (drop at.new tokens.now) result }
    ensures on { OnOk result (at.old ≤ at.new) }
    ensures inside { at.old ≤ length tokens.now → OnOk result (at.new ≤ length tokens.now) }
{
    let mut bytes = Vec::from_slice(alloc, bytes_at(text, word))?;
    if is_space(text, tokens, *at, word) {
        let dot = take_token(text, tokens, at, TokenKind::Dot)?;
        let last = last_at(text, tokens, at, first, dot.end)?;
        bytes.push(b'.')?;
        bytes.extend_from_slice(bytes_at(text, last))?;
        return Ok(Name {
            bytes: Bytes::from_vec(bytes),
            end: last.end,
        });
    }
    Ok(Name {
        bytes: Bytes::from_vec(bytes),
        end: word.end,
    })
}

/// A name: a Word that begins with a letter, or a namespace and one.
pub fn name_at(
    alloc: Global,
    text: &[u8],
    tokens: &[Token],
    at: &mut usize,
) -> Result<Name, SyntaxFault>
    requires { Fits text.now tokens.now }
    ensures read { Parses fault_of name_text (name text.now) (drop at.old tokens.now) (drop at.new tokens.now) result }
    ensures on { OnOk result (at.old < at.new) }
    ensures inside { OnOk result (at.new ≤ length tokens.now) }
{
    let word = take_word(text, tokens, at, First::Letter)?;
    name_from_at(alloc, text, tokens, at, First::Letter, word)
}

/// A name that a declaration may have.
pub fn declared_name_at(
    alloc: Global,
    text: &[u8],
    tokens: &[Token],
    at: &mut usize,
) -> Result<Name, SyntaxFault>
    requires { Fits text.now tokens.now }
    ensures read { Parses fault_of name_text (declared_name text.now) (drop at.old tokens.now) (drop at.new tokens.now) result }
    ensures on { OnOk result (at.old < at.new) }
    ensures inside { OnOk result (at.new ≤ length tokens.now) }
{
    let word = take_word(text, tokens, at, First::Lower)?;
    name_from_at(alloc, text, tokens, at, First::Lower, word)
}

/// Whether the next token is the Word `Object`.
pub fn begins_object(text: &[u8], tokens: &[Token], at: usize) -> bool
    requires { Fits text.now tokens.now }
    ensures yes { result ≡ true → Next (IsObject text.now) (drop at tokens.now) }
    ensures no { result ≡ false → Next (IsObject text.now) (drop at tokens.now) → ⊥ }
{
    begins_this(text, tokens, at, b"Object".as_slice())
}

/// The name of a type or of a constructor.
pub fn type_name_at(
    alloc: Global,
    text: &[u8],
    tokens: &[Token],
    at: &mut usize,
) -> Result<Name, SyntaxFault>
    requires { Fits text.now tokens.now }
    ensures read { Parses fault_of name_text (type_name text.now) (drop at.old tokens.now) (drop at.new tokens.now) result }
    ensures on { OnOk result (at.old < at.new) }
    ensures inside { OnOk result (at.new ≤ length tokens.now) }
{
    if begins_object(text, tokens, *at) {
        return Err(not_profile_at(text, tokens, *at, UnsupportedForm::ObjectType));
    }
    name_at(alloc, text, tokens, at)
}
