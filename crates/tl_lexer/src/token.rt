//! Tokens and their spans.

/// What a token is.
#[derive(Clone, Copy, PartialEq)]
pub enum TokenKind {
    /// A longest run of ASCII letters, digits and `_`.
    Word,
    /// `---`
    Dashes,
    /// `#`
    Hash,
    /// `:`
    Colon,
    /// `;`
    Semi,
    /// `=`
    Equals,
    /// `?`
    Query,
    /// `.`
    Dot,
    /// `!`
    Bang,
    /// `%`
    Percent,
    /// `{`
    LBrace,
    /// `}`
    RBrace,
    /// `[`
    LBracket,
    /// `]`
    RBracket,
    /// `<`
    Less,
    /// `>`
    Greater,
    /// `(`
    LParen,
    /// `)`
    RParen,
    /// `*`
    Star,
    /// `,`
    Comma,
    /// `+`
    Plus,
}

/// A token, and where it stands in its text: the byte at which it starts, and the one after it.
#[derive(Clone, Copy)]
pub struct Token {
    pub kind: TokenKind,
    pub start: u32,
    pub end: u32,
}
