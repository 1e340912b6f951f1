//! Programs and types from tokens.
ghost use Rattle.std.specs.Prelude.{◌≡◌, ◌≤◌, ◌<◌, ◌+◌, [], List, Bool, length, drop, map, OnOk, IfOk, true, false};
ghost use Rattle.tl_lexer.specs.Rule.{Parses};
ghost use Rattle.tl_lexer.specs.Tokens.{Tokens};
ghost use Rattle.tl_combinators.specs.Tokens.{fault_of, Fits};
ghost use Rattle.tl_program.specs.Trees.{Tree, view};
ghost use Rattle.tl_program.specs.Program.{decl_text, DeclText, program_text, IsWithinLimits};
ghost use Rattle.tl_combinators.specs.Sentences.{program_so_far, section, mark, program, Reads, SyntaxRefused, ReadsType, TypeRefused, Answers, Accepts, Refuses};
ghost use Rattle.tl_combinators.specs.declared.fault.SyntaxFault.{SyntaxFault};

use crate::declarations::{declaration_too_many_at, where_declaration_at};
use crate::fault::SyntaxFault;
use crate::reading::{begins, begins_this, take_this, take_token};
use crate::types::whole_type_at;
use std::alloc::Global;
use tl_lexer::{Token, TokenKind};
use tl_program::{Decl, Program, TypeTree};

/// A program has at most so many declarations.
pub const DECLARATION_LIMIT: usize = 16384;

// What stands after the first `---` of a section's mark: whether functions follow.
fn section_at(text: &[u8], tokens: &[Token], at: &mut usize) -> Result<bool, SyntaxFault>
    requires { Fits text.now tokens.now }
    ensures read { Parses fault_of (λ (b : Bool). b) (section text.now) (drop at.old tokens.now) (drop at.new tokens.now) result }
    ensures on { OnOk result (at.old < at.new) }
    ensures inside { OnOk result (at.new ≤ length tokens.now) }
{
    if begins_this(text, tokens, *at, b"functions".as_slice()) {
        take_this(text, tokens, at, b"functions".as_slice())?;
        take_token(text, tokens, at, TokenKind::Dashes)?;
        return Ok(true);
    }
    take_this(text, tokens, at, b"types".as_slice())?;
    take_token(text, tokens, at, TokenKind::Dashes)?;
    Ok(false)
}

// A section's mark: whether functions follow.
fn mark_at(text: &[u8], tokens: &[Token], at: &mut usize) -> Result<bool, SyntaxFault>
    requires { Fits text.now tokens.now }
    ensures read { Parses fault_of (λ (b : Bool). b) (mark text.now) (drop at.old tokens.now) (drop at.new tokens.now) result }
    ensures on { OnOk result (at.old < at.new) }
    ensures inside { OnOk result (at.new ≤ length tokens.now) }
{
    take_token(text, tokens, at, TokenKind::Dashes)?;
    section_at(text, tokens, at)
}

// The declarations to the end of the tokens, and whether the last section is one of functions.
fn program_at(
    alloc: Global,
    text: &[u8],
    tokens: &[Token],
) -> Result<(Vec<Decl>, bool), SyntaxFault>
    requires { Fits text.now tokens.now }
    ensures { Parses fault_of (λ p. program_so_far (map decl_text p.0.items) p.1) (program text.now) tokens.now [] result }
{
    let mut decls = Vec::new(alloc);
    let mut function = false;
    let mut at = 0;
    while at < tokens.len() {
        if begins(tokens, at, TokenKind::Dashes) {
            function = mark_at(text, tokens, &mut at)?;
        } else {
            if decls.len() == DECLARATION_LIMIT {
                return Err(declaration_too_many_at(text, tokens, at));
            }
            let decl = where_declaration_at(alloc, text, tokens, &mut at, function)?;
            decls.push(decl)?;
        }
    }
    Ok((decls, function))
}

/// The declarations that the tokens of a text spell, as <https://core.telegram.org/mtproto/TL> says; the limits and the
/// forms that are left out are this project's own.
///
/// The first fault in the order of tokens is answered: `Unexpected` at a token that no rule admits (or at the end),
/// `NotProfile` at a form that is left out, `TooMany` where one item too many begins.
pub fn parse(alloc: Global, text: &[u8], tokens: &[Token]) -> Result<Program, SyntaxFault>
    requires { Tokens text.now tokens.now }
    // What is answered is so by the grammar.
    ensures parses { Answers program_text (Reads text.now tokens.now) (SyntaxRefused text.now tokens.now) result }
    // What the grammar reads is answered, and what it refuses is refused for the same fault.
    ensures reads { (ds : List DeclText) → Reads text.now tokens.now ds → Accepts program_text ds result }
    ensures refuses { (fault : SyntaxFault) → SyntaxRefused text.now tokens.now fault → Refuses fault result }
    ensures within { IfOk result (λ p. IsWithinLimits (program_text p)) }
{
    let (decls, _) = program_at(alloc, text, tokens)?;
    Ok(Program { decls })
}

/// The type that the tokens of a text spell: one expression, or `!` alone, which is any call. It is refused as `parse` refuses.
pub fn parse_type(alloc: Global, text: &[u8], tokens: &[Token]) -> Result<TypeTree, SyntaxFault>
    requires { Tokens text.now tokens.now }
    ensures parses { Answers view (ReadsType text.now tokens.now) (TypeRefused text.now tokens.now) result }
    ensures reads { (t : Tree) → ReadsType text.now tokens.now t → Accepts view t result }
    ensures refuses { (fault : SyntaxFault) → TypeRefused text.now tokens.now fault → Refuses fault result }
{
    whole_type_at(alloc, text, tokens)
}
