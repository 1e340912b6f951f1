//! Pieces of a text, one after the other.
ghost use Rattle.std.specs.Prelude.{◌≡◌, ◌≤◌, ◌<◌, ◌+◌, length, drop, [], OnOk, IfOk, IfErr, ℕ, List, true, false, Option, Ok};
ghost use Rattle.tl_lexer.specs.Rule.{Parses, Next};
ghost use Rattle.tl_lexer.specs.Tokens.{is_white, is_word, single, Is, Starts, StartsDashes, InLine, InBlock, bytes_while, block, piece, pieces, fault_of, with_piece, Tokens, LexRefused};
ghost use Rattle.tl_lexer.specs.Lexed.{Lexes, Accepts, Refuses};
ghost use Rattle.tl_lexer.specs.Spelled.{SpellsText};
ghost use Rattle.tl_lexer.specs.declared.token.Token.{Token};
ghost use Rattle.tl_lexer.specs.declared.fault.LexFault.{LexFault};

use crate::fault::LexFault;
use crate::token::{Token, TokenKind};
use std::alloc::Global;

/// The most bytes that a text has.
pub const TEXT_LIMIT: usize = 4_194_304;

fn white(byte: u8) -> bool
    ensures { result ≡ is_white byte }
{
    byte == b' ' || byte == b'\t' || byte == b'\r' || byte == b'\n'
}

fn of_word(byte: u8) -> bool
    ensures { result ≡ is_word byte }
{
    (byte >= b'0' && byte <= b'9')
        || (byte >= b'A' && byte <= b'Z')
        || (byte >= b'a' && byte <= b'z')
        || byte == b'_'
}

fn single_of(byte: u8) -> Option<TokenKind>
    ensures { result ≡ single byte }
{
    match byte {
        b'#' => Some(TokenKind::Hash),
        b':' => Some(TokenKind::Colon),
        b';' => Some(TokenKind::Semi),
        b'=' => Some(TokenKind::Equals),
        b'?' => Some(TokenKind::Query),
        b'.' => Some(TokenKind::Dot),
        b'!' => Some(TokenKind::Bang),
        b'%' => Some(TokenKind::Percent),
        b'{' => Some(TokenKind::LBrace),
        b'}' => Some(TokenKind::RBrace),
        b'[' => Some(TokenKind::LBracket),
        b']' => Some(TokenKind::RBracket),
        b'<' => Some(TokenKind::Less),
        b'>' => Some(TokenKind::Greater),
        b'(' => Some(TokenKind::LParen),
        b')' => Some(TokenKind::RParen),
        b'*' => Some(TokenKind::Star),
        b',' => Some(TokenKind::Comma),
        b'+' => Some(TokenKind::Plus),
        _ => None,
    }
}

fn in_white(text: &[u8], at: usize) -> bool
    ensures yes { result ≡ true → Next (Is is_white) (drop at text.now) }
    ensures no { result ≡ false → Next (Is is_white) (drop at text.now) → ⊥ }
    ensures within { result ≡ true → at < length text.now }
{
    at < text.len() && white(text[at])
}

fn in_word(text: &[u8], at: usize) -> bool
    ensures yes { result ≡ true → Next (Is is_word) (drop at text.now) }
    ensures no { result ≡ false → Next (Is is_word) (drop at text.now) → ⊥ }
    ensures within { result ≡ true → at < length text.now }
{
    at < text.len() && of_word(text[at])
}

fn in_line(text: &[u8], at: usize) -> bool
    ensures yes { result ≡ true → InLine (drop at text.now) }
    ensures no { result ≡ false → InLine (drop at text.now) → ⊥ }
    ensures within { result ≡ true → at < length text.now }
{
    at < text.len() && text[at] != b'\n'
}

fn starts(text: &[u8], at: usize, first: u8, second: u8) -> bool
    requires { at ≤ length text.now }
    ensures yes { result ≡ true → Starts first second (drop at text.now) }
    ensures no { result ≡ false → Starts first second (drop at text.now) → ⊥ }
    ensures within { result ≡ true → at + 2 ≤ length text.now }
{
    match &text[at..] {
        [a, b, ..] => *a == first && *b == second,
        _ => false,
    }
}

fn starts_dashes(text: &[u8], at: usize) -> bool
    requires { at ≤ length text.now }
    ensures yes { result ≡ true → StartsDashes (drop at text.now) }
    ensures no { result ≡ false → StartsDashes (drop at text.now) → ⊥ }
    ensures within { result ≡ true → at + 3 ≤ length text.now }
{
    match &text[at..] {
        [a, b, c, ..] => *a == b'-' && *b == b'-' && *c == b'-',
        _ => false,
    }
}

fn in_block(text: &[u8], at: usize) -> bool
    ensures yes { result ≡ true → InBlock (drop at text.now) }
    ensures no { result ≡ false → InBlock (drop at text.now) → ⊥ }
    ensures within { result ≡ true → at < length text.now }
{
    at < text.len() && !starts(text, at, b'*', b'/')
}

// Where a run of a Word's bytes ends.
fn word_end(text: &[u8], from: usize) -> usize
    requires { from ≤ length text.now }
    ensures read { Parses fault_of (λ (n : ℕ). tt) (bytes_while (length text.now) (Next (Is is_word))) (drop from text.now) (drop result text.now) (Ok from) }
    ensures far { from ≤ result }
    ensures inside { result ≤ length text.now }
{
    let mut at = from;
    while in_word(text, at) {
        at += 1;
    }
    at
}

// Where a line ends: at its line feed, or after the text.
fn line_end(text: &[u8], from: usize) -> usize
    requires { from ≤ length text.now }
    ensures read { Parses fault_of (λ (n : ℕ). tt) (bytes_while (length text.now) InLine) (drop from text.now) (drop result text.now) (Ok from) }
    ensures far { from ≤ result }
    ensures inside { result ≤ length text.now }
{
    let mut at = from;
    while in_line(text, at) {
        at += 1;
    }
    at
}

// Where a comment's `*/` begins, or the text ends.
fn block_end(text: &[u8], from: usize) -> usize
    requires { from ≤ length text.now }
    ensures read { Parses fault_of (λ (n : ℕ). tt) (bytes_while (length text.now) InBlock) (drop from text.now) (drop result text.now) (Ok from) }
    ensures far { from ≤ result }
    ensures inside { result ≤ length text.now }
{
    let mut at = from;
    while in_block(text, at) {
        at += 1;
    }
    at
}

// The comment from `/*` to `*/` that begins here.
fn block_at(text: &[u8], at: &mut usize) -> Result<Option<TokenKind>, LexFault>
    requires small { length text.now ≤ TEXT_LIMIT }
    requires left { at.now + 2 ≤ length text.now }
    ensures read { Parses fault_of (λ (o : Option TokenKind). o) (block (length text.now)) (drop at.old text.now) (drop at.new text.now) result }
    ensures far { OnOk result (at.old < at.new) }
    ensures inside { OnOk result (at.new ≤ length text.now) }
{
    let start = *at;
    let close = block_end(text, start + 2);
    if !starts(text, close, b'*', b'/') {
        return Err(LexFault::OpenComment { at: start as u32 });
    }
    *at = close + 2;
    Ok(None)
}

// The piece that begins here: its kind, or none for white space and comments.
fn piece_at(text: &[u8], at: &mut usize) -> Result<Option<TokenKind>, LexFault>
    requires small { length text.now ≤ TEXT_LIMIT }
    requires left { at.now < length text.now }
    ensures read { Parses fault_of (λ (o : Option TokenKind). o) (piece (length text.now)) (drop at.old text.now) (drop at.new text.now) result }
    ensures far { OnOk result (at.old < at.new) }
    ensures inside { OnOk result (at.new ≤ length text.now) }
{
    let start = *at;
    if in_white(text, start) {
        *at = start + 1;
        return Ok(None);
    }
    if in_word(text, start) {
        *at = word_end(text, start + 1);
        return Ok(Some(TokenKind::Word));
    }
    if starts(text, start, b'/', b'/') {
        *at = line_end(text, start + 2);
        return Ok(None);
    }
    if starts(text, start, b'/', b'*') {
        return block_at(text, at);
    }
    if starts_dashes(text, start) {
        *at = start + 3;
        return Ok(Some(TokenKind::Dashes));
    }
    match single_of(text[start]) {
        Some(kind) => {
            *at = start + 1;
            Ok(Some(kind))
        }
        None => Err(LexFault::BadByte { at: start as u32 }),
    }
}

fn add_piece(
    tokens: &mut Vec<Token>,
    start: u32,
    end: u32,
    kind: Option<TokenKind>,
) -> Result<(), LexFault>
    ensures added { OnOk result (tokens.new.items ≡ with_piece tokens.old.items start end kind) }
    ensures memory { IfErr result (λ e. e ≡ LexFault.Memory) }
{
    match kind {
        Some(kind) => Ok(tokens.push(Token { kind, start, end })?),
        None => Ok(()),
    }
}

fn pieces_of(alloc: Global, text: &[u8]) -> Result<Vec<Token>, LexFault>
    requires { length text.now ≤ TEXT_LIMIT }
    ensures { Parses fault_of (λ v. v.items) (pieces (length text.now)) text.now [] result }
{
    let mut tokens = Vec::new(alloc);
    let mut at = 0;
    while at < text.len() {
        let start = at;
        let kind = piece_at(text, &mut at)?;
        add_piece(&mut tokens, start as u32, at as u32, kind)?;
    }
    Ok(tokens)
}

/// The tokens of a text, in their order.
pub fn lex(alloc: Global, text: &[u8]) -> Result<Vec<Token>, LexFault>
    ensures lexes { Lexes (λ v. v.items) text.now result }
    ensures reads { (ts : List Token) → Tokens text.now ts → Accepts (λ v. v.items) ts result }
    ensures refuses { (fault : LexFault) → LexRefused text.now fault → Refuses fault result }
    ensures spells { IfOk result (λ v. SpellsText text.now v.items) }
{
    if text.len() > TEXT_LIMIT {
        return Err(LexFault::TextTooLong);
    }
    pieces_of(alloc, text)
}
