//! Descriptions, on which unwritten numbers rest.
ghost use Rattle.std.specs.Prelude.{◌≡◌, ◌≤◌, ◌+◌, ◌-◌, length, take, drop, OnOk, Option, None, Some};
ghost use Rattle.tl_combinators.specs.Tokens.{bytes_of, Fits};
ghost use Rattle.tl_program.specs.Program.{field_text, kind_text, cond_texts};
ghost use Rattle.tl_combinators.specs.Description.{kept, omitted, spaced, showing, field_showing, before_type};
ghost use Rattle.tl_combinators.specs.DescriptionSoFar.{undescribed, put, shown, shown_as_string, all_shown, all_as_string, all_left_out, field_shown};

use crate::reading::bytes_at;
use std::alloc::{AllocError, Global};
use std::marker::Model;
use tl_lexer::{Token, TokenKind};
use tl_numbers::Bytes;
use tl_program::{Cond, Field, FieldKind, is_plain};

/// What becomes of a token in a description.
#[derive(Clone, Copy)]
pub enum Showing {
    Itself,
    Nothing,
    Space,
}

/// How a field is described: not at all, with its type `bytes` as `string`, or as it is written.
#[derive(Clone, Copy)]
pub enum FieldShowing {
    Hidden,
    WithString,
    Written,
}

/// The description of a declaration so far.
#[derive(Drop)]
pub struct Description {
    bytes: Vec<u8>,
    // where the last token ends
    edge: u32,
    // whether a space is due before the next token that is kept
    gap: bool,
    // whether a token is kept
    begun: bool,
}

impl Model for Description {
    ghost use Rattle.tl_combinators.specs.DescriptionSoFar.{Described};

    ghost Value = { Described };

    ghost view = { λ d. record { bytes = d.bytes.items; edge = d.edge; gap = d.gap; begun = d.begun } };
}

impl Description {
    /// Nothing is described.
    pub fn new(alloc: Global) -> Description
        ensures { result ≡ undescribed }
    {
        Description {
            bytes: Vec::new(alloc),
            edge: 0,
            gap: false,
            begun: false,
        }
    }

    /// The bytes of the description.
    pub fn into_bytes(self) -> Bytes
        ensures { result ≡ self.bytes }
    {
        Bytes::from_vec(self.bytes)
    }

    // The token is shown as these bytes.
    fn show_as(&mut self, token: Token, bytes: &[u8]) -> Result<(), AllocError>
        ensures { OnOk result (self.new ≡ put self.old (kept token bytes.now)) }
    {
        if self.begun && (self.gap || self.edge < token.start) {
            self.bytes.push(b' ')?;
        }
        self.bytes.extend_from_slice(bytes)?;
        self.edge = token.end;
        self.gap = false;
        self.begun = true;
        Ok(())
    }

    // The token is left out.
    fn leave_out(&mut self, token: Token)
        ensures { self.new ≡ put self.old (omitted token) }
    {
        self.gap = self.gap || self.edge < token.start;
        self.edge = token.end;
    }

    // The token is a space.
    fn show_space(&mut self, token: Token)
        ensures { self.new ≡ put self.old (spaced token) }
    {
        self.gap = true;
        self.edge = token.end;
    }

    // One more token.
    fn show(&mut self, text: &[u8], token: Token) -> Result<(), AllocError>
        requires order { token.start ≤ token.end }
        requires within { token.end ≤ length text.now }
        ensures { OnOk result (self.new ≡ shown text.now self.old token) }
    {
        match showing_of(token.kind) {
            Showing::Itself => self.show_as(token, bytes_at(text, token)),
            Showing::Nothing => {
                self.leave_out(token);
                Ok(())
            }
            Showing::Space => {
                self.show_space(token);
                Ok(())
            }
        }
    }

    // One more token of a field's type that is `bytes` alone.
    fn show_as_string(&mut self, text: &[u8], token: Token) -> Result<(), AllocError>
        requires order { token.start ≤ token.end }
        requires within { token.end ≤ length text.now }
        ensures { OnOk result (self.new ≡ shown_as_string text.now self.old token) }
    {
        if bytes_at(text, token) == b"bytes".as_slice() {
            return self.show_as(token, b"string".as_slice());
        }
        self.show(text, token)
    }

    /// The tokens from one index in their list up to another.
    pub fn show_all(
        &mut self,
        text: &[u8],
        tokens: &[Token],
        from: usize,
        to: usize,
    ) -> Result<(), AllocError>
        requires fits { Fits text.now tokens.now }
        requires order { from ≤ to }
        requires within { to ≤ length tokens.now }
        ensures { OnOk result (self.new ≡ all_shown text.now (take (to - from) (drop from tokens.now)) self.old) }
    {
        for i in from..to {
            self.show(text, tokens[i])?;
        }
        Ok(())
    }

    // The same, of a type that is `bytes` alone.
    fn show_all_as_string(
        &mut self,
        text: &[u8],
        tokens: &[Token],
        from: usize,
        to: usize,
    ) -> Result<(), AllocError>
        requires fits { Fits text.now tokens.now }
        requires order { from ≤ to }
        requires within { to ≤ length tokens.now }
        ensures { OnOk result (self.new ≡ all_as_string text.now (take (to - from) (drop from tokens.now)) self.old) }
    {
        for i in from..to {
            self.show_as_string(text, tokens[i])?;
        }
        Ok(())
    }

    /// The tokens from one index in their list up to another are left out.
    pub fn leave_all_out(&mut self, tokens: &[Token], from: usize, to: usize)
        requires order { from ≤ to }
        requires within { to ≤ length tokens.now }
        ensures { self.new ≡ all_left_out (take (to - from) (drop from tokens.now)) self.old }
    {
        for i in from..to {
            self.leave_out(tokens[i]);
        }
    }

    /// The tokens of a field, which stand from one index in their list up to another.
    pub fn show_field(
        &mut self,
        text: &[u8],
        tokens: &[Token],
        from: usize,
        to: usize,
        field: &Field,
    ) -> Result<(), AllocError>
        requires fits { Fits text.now tokens.now }
        requires order { from + before_type (field_text field.now).cond ≤ to }
        requires within { to ≤ length tokens.now }
        ensures { OnOk result (self.new ≡ field_shown text.now (field_text field.now) (take (to - from) (drop from tokens.now)) self.old) }
    {
        match field_showing(&field.kind) {
            FieldShowing::Hidden => {
                self.leave_all_out(tokens, from, to);
                Ok(())
            }
            FieldShowing::WithString => {
                let middle = from + before_type(&field.cond);
                self.show_all(text, tokens, from, middle)?;
                self.show_all_as_string(text, tokens, middle, to)
            }
            FieldShowing::Written => self.show_all(text, tokens, from, to),
        }
    }
}

// What becomes of a token of a kind.
fn showing_of(kind: TokenKind) -> Showing
    ensures { result ≡ showing kind }
{
    match kind {
        TokenKind::Semi | TokenKind::LBrace | TokenKind::RBrace | TokenKind::Greater =>
            Showing::Nothing,
        TokenKind::Less => Showing::Space,
        _ => Showing::Itself,
    }
}

// How a field that holds this is described.
fn field_showing(kind: &FieldKind) -> FieldShowing
    ensures { result ≡ field_showing (kind_text kind.now) }
{
    match kind {
        FieldKind::Flag => FieldShowing::Hidden,
        FieldKind::Of { tree } => {
            if is_plain(tree, b"bytes".as_slice()) {
                FieldShowing::WithString
            } else {
                FieldShowing::Written
            }
        }
        FieldKind::Nat => FieldShowing::Written,
        FieldKind::Call { .. } => FieldShowing::Written,
    }
}

// So many tokens of a field stand before its type.
fn before_type(cond: &Option<Cond>) -> usize
    ensures { result ≡ before_type (cond_texts cond.now) }
{
    match cond {
        None => 2,
        Some(_) => 6,
    }
}
