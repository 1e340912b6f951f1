//! Types from tokens.
ghost use Rattle.std.specs.Prelude.{◌≡◌, ◌≤◌, ◌<◌, ◌+◌, ℕ, [], length, drop, OnOk, IfOk, true, false, ◌||◌, nat_lt};
ghost use Rattle.tl_lexer.specs.Rule.{Parses};
ghost use Rattle.tl_combinators.specs.Tokens.{fault_of, Fits, bytes_of};
ghost use Rattle.tl_program.specs.Trees.{view, views};
ghost use Rattle.tl_combinators.specs.Types.{opens, closes, BeginsTerm, BeginsType, terms, listed, applied, application, no_level, after_percent, bare, core, in_parens, type_in, term, expression, at_end, whole_type};

use crate::fault::{SyntaxFault, UnsupportedForm};
use crate::names::{begins_object, type_name_at};
use crate::reading::{
    First, begins, begins_word, not_profile_at, take_token, too_many_at, unexpected_at,
};
use std::alloc::Global;
use tl_lexer::{Token, TokenKind};
use tl_numbers::Bytes;
use tl_program::TypeTree;

/// A type has at most so many levels.
pub const LEVEL_LIMIT: u32 = 16;

// How many parentheses open here.
fn opens_at(text: &[u8], tokens: &[Token], at: &mut usize) -> Result<usize, SyntaxFault>
    requires { Fits text.now tokens.now }
    ensures read { Parses fault_of (λ (n : ℕ). n) (opens text.now) (drop at.old tokens.now) (drop at.new tokens.now) result }
    ensures on { OnOk result (at.old ≤ at.new) }
    ensures inside { at.old ≤ length tokens.now → OnOk result (at.new ≤ length tokens.now) }
{
    let start = *at;
    while begins(tokens, *at, TokenKind::LParen) {
        take_token(text, tokens, at, TokenKind::LParen)?;
    }
    Ok(*at - start)
}

// That many parentheses close.
fn closes_at(text: &[u8], tokens: &[Token], at: &mut usize, count: usize) -> Result<(), SyntaxFault>
    requires { Fits text.now tokens.now }
    ensures read { Parses fault_of (λ (u : Unit {0}). u) (closes text.now count) (drop at.old tokens.now) (drop at.new tokens.now) result }
    ensures on { OnOk result (at.old ≤ at.new) }
    ensures inside { at.old ≤ length tokens.now → OnOk result (at.new ≤ length tokens.now) }
{
    for _ in 0..count {
        take_token(text, tokens, at, TokenKind::RParen)?;
    }
    Ok(())
}

fn begins_type(text: &[u8], tokens: &[Token], at: usize) -> bool
    requires { Fits text.now tokens.now }
    ensures yes { result ≡ true → BeginsType text.now (drop at tokens.now) }
    ensures no { result ≡ false → BeginsType text.now (drop at tokens.now) → ⊥ }
{
    begins_word(text, tokens, at, First::Letter) || begins(tokens, at, TokenKind::Percent)
}

fn begins_term(tokens: &[Token], at: usize) -> bool
    ensures yes { result ≡ true → BeginsTerm (drop at tokens.now) }
    ensures no { result ≡ false → BeginsTerm (drop at tokens.now) → ⊥ }
{
    begins(tokens, at, TokenKind::Word)
        || begins(tokens, at, TokenKind::LParen)
        || begins(tokens, at, TokenKind::Percent)
}

// Why no type stands below the last level.
fn no_level_at(text: &[u8], tokens: &[Token], at: usize) -> Result<TypeTree, SyntaxFault>
    requires { Fits text.now tokens.now }
    ensures read { Parses fault_of view (no_level text.now) (drop at tokens.now) (drop at tokens.now) result }
    ensures on { OnOk result ⊥ }
{
    if begins_object(text, tokens, at) {
        return Err(not_profile_at(text, tokens, at, UnsupportedForm::ObjectType));
    }
    if begins_type(text, tokens, at) {
        return Err(too_many_at(text, tokens, at));
    }
    Err(unexpected_at(text, tokens, at))
}

// Inside parentheses a name may always be a head.
fn may_head(head: bool, count: usize) -> bool
    ensures { result ≡ (head || nat_lt 0 count) }
{
    head || count > 0
}

// A type with so many levels left; whether its name may be a head with terms after it.
#[cycle(types)]
fn type_at(
    alloc: Global,
    text: &[u8],
    tokens: &[Token],
    at: &mut usize,
    levels: u32,
    head: bool,
) -> Result<TypeTree, SyntaxFault>
    requires { Fits text.now tokens.now }
    ensures read { Parses fault_of view (type_in text.now levels head) (drop at.old tokens.now) (drop at.new tokens.now) result }
    ensures on { OnOk result (at.old < at.new) }
    ensures inside { OnOk result (at.new ≤ length tokens.now) }
{
    let count = opens_at(text, tokens, at)?;
    let tree = core_at(alloc, text, tokens, at, levels, may_head(head, count))?;
    closes_at(text, tokens, at, count)?;
    Ok(tree)
}

// The same, outside of parentheses.
#[cycle(types)]
fn core_at(
    alloc: Global,
    text: &[u8],
    tokens: &[Token],
    at: &mut usize,
    levels: u32,
    head: bool,
) -> Result<TypeTree, SyntaxFault>
    requires { Fits text.now tokens.now }
    ensures read { Parses fault_of view (core text.now levels head) (drop at.old tokens.now) (drop at.new tokens.now) result }
    ensures on { OnOk result (at.old < at.new) }
    ensures inside { OnOk result (at.new ≤ length tokens.now) }
{
    if levels == 0 {
        return no_level_at(text, tokens, *at);
    }
    if begins(tokens, *at, TokenKind::Percent) {
        return bare_at(alloc, text, tokens, at, levels - 1);
    }
    application_at(alloc, text, tokens, at, levels - 1, head)
}

// `%` and a term, with so many levels below it.
#[cycle(types)]
fn bare_at(
    alloc: Global,
    text: &[u8],
    tokens: &[Token],
    at: &mut usize,
    levels: u32,
) -> Result<TypeTree, SyntaxFault>
    requires { Fits text.now tokens.now }
    ensures read { Parses fault_of view (bare text.now (core text.now levels) (in_parens text.now (core text.now levels))) (drop at.old tokens.now) (drop at.new tokens.now) result }
    ensures on { OnOk result (at.old < at.new) }
    ensures inside { OnOk result (at.new ≤ length tokens.now) }
{
    take_token(text, tokens, at, TokenKind::Percent)?;
    let count = opens_at(text, tokens, at)?;
    let tree = after_percent_at(alloc, text, tokens, at, levels, may_head(false, count))?;
    closes_at(text, tokens, at, count)?;
    Ok(TypeTree::Percent {
        tree: Box::new(alloc, tree)?,
    })
}

// What stands after `%`, in its parentheses.
#[cycle(types)]
fn after_percent_at(
    alloc: Global,
    text: &[u8],
    tokens: &[Token],
    at: &mut usize,
    levels: u32,
    head: bool,
) -> Result<TypeTree, SyntaxFault>
    requires { Fits text.now tokens.now }
    ensures read { Parses fault_of view (after_percent text.now (core text.now levels) (in_parens text.now (core text.now levels)) head) (drop at.old tokens.now) (drop at.new tokens.now) result }
    ensures on { OnOk result (at.old < at.new) }
    ensures inside { OnOk result (at.new ≤ length tokens.now) }
{
    if begins(tokens, *at, TokenKind::Percent) {
        return core_at(alloc, text, tokens, at, levels, head);
    }
    application_at(alloc, text, tokens, at, levels, head)
}

// A name and what it is applied to, with so many levels below it.
#[cycle(types)]
fn application_at(
    alloc: Global,
    text: &[u8],
    tokens: &[Token],
    at: &mut usize,
    levels: u32,
    head: bool,
) -> Result<TypeTree, SyntaxFault>
    requires { Fits text.now tokens.now }
    ensures read { Parses fault_of view (application text.now (in_parens text.now (core text.now levels)) head) (drop at.old tokens.now) (drop at.new tokens.now) result }
    ensures on { OnOk result (at.old < at.new) }
    ensures inside { OnOk result (at.new ≤ length tokens.now) }
{
    let name = type_name_at(alloc, text, tokens, at)?;
    applied_at(alloc, text, tokens, at, levels, head, name.bytes)
}

// What may stand after a name.
#[cycle(types)]
fn applied_at(
    alloc: Global,
    text: &[u8],
    tokens: &[Token],
    at: &mut usize,
    levels: u32,
    head: bool,
    name: Bytes,
) -> Result<TypeTree, SyntaxFault>
    requires { Fits text.now tokens.now }
    ensures read { Parses fault_of view (applied text.now (in_parens text.now (core text.now levels)) head name) (drop at.old tokens.now) (drop at.new tokens.now) result }
    ensures on { OnOk result (at.old ≤ at.new) }
    ensures inside { at.old ≤ length tokens.now → OnOk result (at.new ≤ length tokens.now) }
{
    if begins(tokens, *at, TokenKind::Less) {
        take_token(text, tokens, at, TokenKind::Less)?;
        let args = listed_at(alloc, text, tokens, at, levels)?;
        take_token(text, tokens, at, TokenKind::Greater)?;
        return Ok(TypeTree::Named { name, args });
    }
    if head {
        let args = terms_at(alloc, text, tokens, at, levels)?;
        return Ok(TypeTree::Named { name, args });
    }
    Ok(TypeTree::Named {
        name,
        args: Vec::new(alloc),
    })
}

// Types with `,` between them.
#[cycle(types)]
fn listed_at(
    alloc: Global,
    text: &[u8],
    tokens: &[Token],
    at: &mut usize,
    levels: u32,
) -> Result<Vec<TypeTree>, SyntaxFault>
    requires { Fits text.now tokens.now }
    ensures read { Parses fault_of (λ v. views v.items) (listed text.now (type_in text.now levels true)) (drop at.old tokens.now) (drop at.new tokens.now) result }
    ensures on { OnOk result (at.old ≤ at.new) }
    ensures inside { at.old ≤ length tokens.now → OnOk result (at.new ≤ length tokens.now) }
{
    let mut args = Vec::new(alloc);
    let first = type_at(alloc, text, tokens, at, levels, true)?;
    args.push(first)?;
    while begins(tokens, *at, TokenKind::Comma) {
        take_token(text, tokens, at, TokenKind::Comma)?;
        let next = type_at(alloc, text, tokens, at, levels, true)?;
        args.push(next)?;
    }
    Ok(args)
}

// Further terms, as long as one begins.
#[cycle(types)]
fn terms_at(
    alloc: Global,
    text: &[u8],
    tokens: &[Token],
    at: &mut usize,
    levels: u32,
) -> Result<Vec<TypeTree>, SyntaxFault>
    requires { Fits text.now tokens.now }
    ensures read { Parses fault_of (λ v. views v.items) (terms (type_in text.now levels false)) (drop at.old tokens.now) (drop at.new tokens.now) result }
    ensures on { OnOk result (at.old ≤ at.new) }
    ensures inside { at.old ≤ length tokens.now → OnOk result (at.new ≤ length tokens.now) }
{
    let mut args = Vec::new(alloc);
    while begins_term(tokens, *at) {
        let next = type_at(alloc, text, tokens, at, levels, false)?;
        args.push(next)?;
    }
    Ok(args)
}

/// One term: the type of a field.
pub fn term_at(
    alloc: Global,
    text: &[u8],
    tokens: &[Token],
    at: &mut usize,
) -> Result<TypeTree, SyntaxFault>
    requires { Fits text.now tokens.now }
    ensures read { Parses fault_of view (term text.now) (drop at.old tokens.now) (drop at.new tokens.now) result }
    ensures on { OnOk result (at.old < at.new) }
    ensures inside { OnOk result (at.new ≤ length tokens.now) }
{
    type_at(alloc, text, tokens, at, LEVEL_LIMIT, false)
}

/// A term, or a name with the terms that it is applied to: a result.
pub fn expression_at(
    alloc: Global,
    text: &[u8],
    tokens: &[Token],
    at: &mut usize,
) -> Result<TypeTree, SyntaxFault>
    requires { Fits text.now tokens.now }
    ensures read { Parses fault_of view (expression text.now) (drop at.old tokens.now) (drop at.new tokens.now) result }
    ensures on { OnOk result (at.old < at.new) }
    ensures inside { OnOk result (at.new ≤ length tokens.now) }
{
    type_at(alloc, text, tokens, at, LEVEL_LIMIT, true)
}

// No token is left.
fn end_at(text: &[u8], tokens: &[Token], at: usize) -> Result<(), SyntaxFault>
    requires { Fits text.now tokens.now }
    ensures { Parses fault_of (λ (u : Unit {0}). u) (at_end text.now) (drop at tokens.now) [] result }
{
    if at < tokens.len() {
        return Err(unexpected_at(text, tokens, at));
    }
    Ok(())
}

/// A type that is the whole text.
pub fn whole_type_at(alloc: Global, text: &[u8], tokens: &[Token]) -> Result<TypeTree, SyntaxFault>
    requires { Fits text.now tokens.now }
    ensures { Parses fault_of view (whole_type text.now) tokens.now [] result }
{
    let mut at = 0;
    if begins(tokens, at, TokenKind::Bang) {
        take_token(text, tokens, &mut at, TokenKind::Bang)?;
        end_at(text, tokens, at)?;
        return Ok(TypeTree::AnyCall);
    }
    let tree = expression_at(alloc, text, tokens, &mut at)?;
    end_at(text, tokens, at)?;
    Ok(tree)
}
