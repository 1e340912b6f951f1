//! Written numbers.
ghost use Rattle.std.specs.Prelude.{◌≡◌, ◌≢◌, ◌≤◌, ◌<◌, ◌+◌, ℕ, length, drop, OnOk, IfOk, IfSome, IfNone, Option, true, false};
ghost use Rattle.tl_numbers.specs.HexText.{hex_value};
ghost use Rattle.tl_lexer.specs.Rule.{Parses, Next};
ghost use Rattle.tl_combinators.specs.Tokens.{bytes_of, fault_of, Fits};
ghost use Rattle.tl_combinators.specs.Names.{IsHex, hex, IsOtherNumber, vector_hex, number, vector_line_number};

use crate::fault::{SyntaxFault, UnsupportedForm};
use crate::reading::{begins_at, bytes_at, not_profile_at, same, take_token, unexpected_at};
use tl_lexer::{Token, TokenKind};
use tl_numbers::{BOXED_VECTOR, read_hex};

// The number that a token is, if it adjoins the `#` before it.
fn number_of(text: &[u8], token: Token, edge: u32) -> Option<u32>
    requires order { token.start ≤ token.end }
    requires within { token.end ≤ length text.now }
    ensures some { IfSome result (λ n. IsHex text.now edge token × (n ≡ hex_value (bytes_of text.now token))) }
    ensures none { IfNone result (IsHex text.now edge token → ⊥) }
{
    if same(token.kind, TokenKind::Word) && token.start == edge {
        read_hex(bytes_at(text, token))
    } else {
        None
    }
}

// The digits after a `#`.
fn hex_at(text: &[u8], tokens: &[Token], at: &mut usize, edge: u32) -> Result<u32, SyntaxFault>
    requires { Fits text.now tokens.now }
    ensures read { Parses fault_of (λ (n : ℕ). n) (hex text.now edge) (drop at.old tokens.now) (drop at.new tokens.now) result }
    ensures on { OnOk result (at.new ≡ at.old + 1) }
    ensures inside { OnOk result (at.new ≤ length tokens.now) }
{
    if *at >= tokens.len() {
        return Err(unexpected_at(text, tokens, *at));
    }
    match number_of(text, tokens[*at], edge) {
        Some(number) => {
            *at += 1;
            Ok(number)
        }
        None => Err(unexpected_at(text, tokens, *at)),
    }
}

// Whether a token is another number than a boxed vector's.
fn is_other_number(text: &[u8], token: Token, edge: u32) -> bool
    requires order { token.start ≤ token.end }
    requires within { token.end ≤ length text.now }
    ensures yes { result ≡ true → IsOtherNumber text.now edge token }
    ensures no { result ≡ false → IsOtherNumber text.now edge token → ⊥ }
{
    match number_of(text, token, edge) {
        Some(number) => number != BOXED_VECTOR,
        None => false,
    }
}

// Whether the next token is another number than a boxed vector's.
fn begins_other_number(text: &[u8], tokens: &[Token], at: usize, edge: u32) -> bool
    requires { Fits text.now tokens.now }
    ensures yes { result ≡ true → Next (IsOtherNumber text.now edge) (drop at tokens.now) }
    ensures no { result ≡ false → Next (IsOtherNumber text.now edge) (drop at tokens.now) → ⊥ }
{
    at < tokens.len() && is_other_number(text, tokens[at], edge)
}

// The digits after the `#` of the vector line.
fn vector_hex_at(
    text: &[u8],
    tokens: &[Token],
    at: &mut usize,
    edge: u32,
) -> Result<u32, SyntaxFault>
    requires { Fits text.now tokens.now }
    ensures read { Parses fault_of (λ (n : ℕ). n) (vector_hex text.now edge) (drop at.old tokens.now) (drop at.new tokens.now) result }
    ensures on { OnOk result (at.new ≡ at.old + 1) }
    ensures inside { OnOk result (at.new ≤ length tokens.now) }
{
    if begins_other_number(text, tokens, *at, edge) {
        return Err(not_profile_at(text, tokens, *at, UnsupportedForm::VectorNumber));
    }
    hex_at(text, tokens, at, edge)
}

/// The number of a declaration whose name ends at a byte, or none.
pub fn number_at(
    text: &[u8],
    tokens: &[Token],
    at: &mut usize,
    edge: u32,
) -> Result<Option<u32>, SyntaxFault>
    requires { Fits text.now tokens.now }
    ensures read { Parses fault_of (λ (o : Option ℕ). o) (number text.now edge) (drop at.old tokens.now) (drop at.new tokens.now) result }
    ensures on { OnOk result (at.old ≤ at.new) }
    ensures inside { at.old ≤ length tokens.now → OnOk result (at.new ≤ length tokens.now) }
{
    if begins_at(tokens, *at, TokenKind::Hash, edge) {
        let hash = take_token(text, tokens, at, TokenKind::Hash)?;
        let number = hex_at(text, tokens, at, hash.end)?;
        return Ok(Some(number));
    }
    Ok(None)
}

/// The number of the vector line, whose name ends at a byte, or none.
pub fn vector_line_number_at(
    text: &[u8],
    tokens: &[Token],
    at: &mut usize,
    edge: u32,
) -> Result<Option<u32>, SyntaxFault>
    requires { Fits text.now tokens.now }
    ensures read { Parses fault_of (λ (o : Option ℕ). o) (vector_line_number text.now edge) (drop at.old tokens.now) (drop at.new tokens.now) result }
    ensures on { OnOk result (at.old ≤ at.new) }
    ensures inside { at.old ≤ length tokens.now → OnOk result (at.new ≤ length tokens.now) }
{
    if begins_at(tokens, *at, TokenKind::Hash, edge) {
        let hash = take_token(text, tokens, at, TokenKind::Hash)?;
        let number = vector_hex_at(text, tokens, at, hash.end)?;
        return Ok(Some(number));
    }
    Ok(None)
}
