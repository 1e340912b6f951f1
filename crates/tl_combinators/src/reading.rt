//! Single tokens.
ghost use Rattle.std.specs.Prelude.{◌≡◌, ◌≤◌, ◌<◌, ◌+◌, ◌^◌, length, drop, OnOk, IfOk, IsTrue, ◌↔◌, true, false};
ghost use Rattle.tl_lexer.specs.Rule.{Parses, Next, one};
ghost use Rattle.tl_lexer.specs.declared.token.Token.{Token};
ghost use Rattle.tl_program.specs.Letters.{first_is};
ghost use Rattle.tl_combinators.specs.Tokens.{bytes_of, fault_of, Fits, place, unexpected, not_profile, too_many, Begins, token, IsAt, passes, IsWord, IsThis, this_word};

use crate::fault::{SyntaxFault, UnsupportedForm};
use tl_lexer::{Token, TokenKind};

/// Which first byte a Word is to have.
#[derive(Clone, Copy)]
pub enum First {
    Letter,
    Lower,
    Upper,
    Digit,
}

// Whether two kinds are one.
pub fn same(a: TokenKind, b: TokenKind) -> bool
    ensures { IsTrue result ↔ a ≡ b }
{
    a == b
}

/// The bytes of a token.
pub fn bytes_at<'a>(text: &'a [u8], token: Token) -> &'a [u8]
    requires order { token.start ≤ token.end }
    requires within { token.end ≤ length text.now }
    ensures { result.now ≡ bytes_of text.now token }
{
    let start = token.start as usize;
    let end = token.end as usize;
    &text[start..end]
}

/// Where the next token stands, or the length of the text.
pub fn place_at(text: &[u8], tokens: &[Token], at: usize) -> u32
    requires { length text.now < 2 ^ 32 }
    ensures { result ≡ place text.now (drop at tokens.now) }
{
    if at < tokens.len() {
        tokens[at].start
    } else {
        text.len() as u32
    }
}

/// No rule admits the next token.
pub fn unexpected_at(text: &[u8], tokens: &[Token], at: usize) -> SyntaxFault
    requires { length text.now < 2 ^ 32 }
    ensures { result ≡ unexpected text.now (drop at tokens.now) }
{
    SyntaxFault::Unexpected {
        at: place_at(text, tokens, at),
    }
}

/// A form that is left out begins here.
pub fn not_profile_at(
    text: &[u8],
    tokens: &[Token],
    at: usize,
    form: UnsupportedForm,
) -> SyntaxFault
    requires { length text.now < 2 ^ 32 }
    ensures { result ≡ not_profile text.now form (drop at tokens.now) }
{
    SyntaxFault::NotProfile {
        at: place_at(text, tokens, at),
        form,
    }
}

/// One item more than there may be begins here.
pub fn too_many_at(text: &[u8], tokens: &[Token], at: usize) -> SyntaxFault
    requires { length text.now < 2 ^ 32 }
    ensures { result ≡ too_many text.now (drop at tokens.now) }
{
    SyntaxFault::TooMany {
        at: place_at(text, tokens, at),
    }
}

/// Whether the next token is of a kind.
pub fn begins(tokens: &[Token], at: usize, kind: TokenKind) -> bool
    ensures yes { result ≡ true → Begins kind (drop at tokens.now) }
    ensures no { result ≡ false → Begins kind (drop at tokens.now) → ⊥ }
    ensures within { result ≡ true → at < length tokens.now }
{
    at < tokens.len() && same(tokens[at].kind, kind)
}

/// Whether the next token is of a kind, and begins at a byte.
pub fn begins_at(tokens: &[Token], at: usize, kind: TokenKind, edge: u32) -> bool
    ensures yes { result ≡ true → Next (IsAt edge kind) (drop at tokens.now) }
    ensures no { result ≡ false → Next (IsAt edge kind) (drop at tokens.now) → ⊥ }
    ensures within { result ≡ true → at < length tokens.now }
{
    at < tokens.len() && same(tokens[at].kind, kind) && tokens[at].start == edge
}

/// The next token, which has to be of a kind.
pub fn take_token(
    text: &[u8],
    tokens: &[Token],
    at: &mut usize,
    kind: TokenKind,
) -> Result<Token, SyntaxFault>
    requires { Fits text.now tokens.now }
    ensures read { Parses fault_of (λ (t : Token). t) (token text.now kind) (drop at.old tokens.now) (drop at.new tokens.now) result }
    ensures on { OnOk result (at.new ≡ at.old + 1) }
    ensures inside { OnOk result (at.new ≤ length tokens.now) }
    ensures spans { IfOk result (λ t. (t.start ≤ t.end) × (t.end ≤ length text.now)) }
{
    if begins(tokens, *at, kind) {
        let token = tokens[*at];
        *at += 1;
        Ok(token)
    } else {
        Err(unexpected_at(text, tokens, *at))
    }
}

// Whether a byte passes a test.
fn passes(first: First, byte: u8) -> bool
    ensures { result ≡ passes first byte }
{
    match first {
        First::Letter => byte.is_ascii_alphabetic(),
        First::Lower => byte.is_ascii_lowercase(),
        First::Upper => byte.is_ascii_uppercase(),
        First::Digit => byte.is_ascii_digit(),
    }
}

// Whether the first of these bytes passes a test.
fn starts(bytes: &[u8], first: First) -> bool
    ensures { result ≡ first_is (passes first) bytes.now }
{
    match bytes {
        [byte, ..] => passes(first, *byte),
        [] => false,
    }
}

/// Whether a token is a Word with such a first byte.
pub fn is_word(text: &[u8], token: Token, first: First) -> bool
    requires order { token.start ≤ token.end }
    requires within { token.end ≤ length text.now }
    ensures yes { result ≡ true → IsWord text.now (passes first) token }
    ensures no { result ≡ false → IsWord text.now (passes first) token → ⊥ }
{
    same(token.kind, TokenKind::Word) && starts(bytes_at(text, token), first)
}

/// Whether the next token is a Word with such a first byte.
pub fn begins_word(text: &[u8], tokens: &[Token], at: usize, first: First) -> bool
    requires { Fits text.now tokens.now }
    ensures yes { result ≡ true → Next (IsWord text.now (passes first)) (drop at tokens.now) }
    ensures no { result ≡ false → Next (IsWord text.now (passes first)) (drop at tokens.now) → ⊥ }
    ensures within { result ≡ true → at < length tokens.now }
{
    at < tokens.len() && is_word(text, tokens[at], first)
}

/// The next token, which has to be a Word with such a first byte.
pub fn take_word(
    text: &[u8],
    tokens: &[Token],
    at: &mut usize,
    first: First,
) -> Result<Token, SyntaxFault>
    requires { Fits text.now tokens.now }
    ensures read { Parses fault_of (λ (t : Token). t) (one (unexpected text.now) (IsWord text.now (passes first))) (drop at.old tokens.now) (drop at.new tokens.now) result }
    ensures on { OnOk result (at.new ≡ at.old + 1) }
    ensures inside { OnOk result (at.new ≤ length tokens.now) }
    ensures spans { IfOk result (λ t. (t.start ≤ t.end) × (t.end ≤ length text.now)) }
{
    if begins_word(text, tokens, *at, first) {
        let token = tokens[*at];
        *at += 1;
        Ok(token)
    } else {
        Err(unexpected_at(text, tokens, *at))
    }
}

// Whether a token is this very Word.
fn is_this(text: &[u8], token: Token, word: &[u8]) -> bool
    requires order { token.start ≤ token.end }
    requires within { token.end ≤ length text.now }
    ensures yes { result ≡ true → IsThis text.now word.now token }
    ensures no { result ≡ false → IsThis text.now word.now token → ⊥ }
{
    same(token.kind, TokenKind::Word) && bytes_at(text, token) == word
}

/// Whether the next token is this very Word.
pub fn begins_this(text: &[u8], tokens: &[Token], at: usize, word: &[u8]) -> bool
    requires { Fits text.now tokens.now }
    ensures yes { result ≡ true → Next (IsThis text.now word.now) (drop at tokens.now) }
    ensures no { result ≡ false → Next (IsThis text.now word.now) (drop at tokens.now) → ⊥ }
    ensures within { result ≡ true → at < length tokens.now }
{
    at < tokens.len() && is_this(text, tokens[at], word)
}

/// The next token, which has to be this very Word.
pub fn take_this(
    text: &[u8],
    tokens: &[Token],
    at: &mut usize,
    word: &[u8],
) -> Result<Token, SyntaxFault>
    requires { Fits text.now tokens.now }
    ensures read { Parses fault_of (λ (t : Token). t) (this_word text.now word.now) (drop at.old tokens.now) (drop at.new tokens.now) result }
    ensures on { OnOk result (at.new ≡ at.old + 1) }
    ensures inside { OnOk result (at.new ≤ length tokens.now) }
{
    if begins_this(text, tokens, *at, word) {
        let token = tokens[*at];
        *at += 1;
        Ok(token)
    } else {
        Err(unexpected_at(text, tokens, *at))
    }
}
