//! Bare references of constructors.
ghost use Rattle.std.specs.Prelude.{◌≡◌, ◌&&◌, IfOk, OnOk, map, not};
ghost use Rattle.tl_program.specs.Trees.{percent, trees_of};
ghost use Rattle.tl_graph.specs.Paths.{edges_in};
ghost use Rattle.tl_names.specs.MeantViews.{decl_view, kind_view, meant_view};
ghost use Rattle.tl_names.specs.Parts.{HeldBy, IsPart, IsPartOfOne};
ghost use Rattle.tl_names.specs.inner.BareSteps.{Adds, AreReferences, BareIs, Refers};
ghost use Rattle.tl_names.specs.inner.Resolved.{AreResolved, ForDecl, ForKind, ForType, ForTypes};
ghost use Rattle.tl_names.specs.inner.WhatSteps.{HasOnly, constructor_in};

use crate::index::Index;
use crate::meant::{Meant, MeantDecl, MeantKind};
use crate::what::What;
use std::alloc::{AllocError, Global};

/// The constructor that a type is, bare.
pub fn bare_of(index: &Index, meant: &Meant) -> Option<u32>
    ensures { ForType index.now (meant_view meant.now) (λ d t. BareIs index.now d t result) }
{
    match meant {
        Meant::Named { what, .. } => constructor_in(*what),
        Meant::Percent { meant } => only_of(index, meant),
        Meant::AnyCall => None,
    }
}

// The constructor that a type means after `%`: the only one of its type.
fn only_of(index: &Index, meant: &Meant) -> Option<u32>
    ensures { ForType index.now (meant_view meant.now) (λ d t. BareIs index.now d (percent t) result) }
{
    match meant {
        Meant::Named { what, .. } => only_in(index, *what),
        Meant::Percent { .. } => None,
        Meant::AnyCall => None,
    }
}

// The constructor that a name means.
fn constructor_in(what: What) -> Option<u32>
    ensures { result ≡ constructor_in what }
{
    match what {
        What::Constructor { index } => Some(index),
        _ => None,
    }
}

// The only constructor of the type that a name means.
fn only_in(index: &Index, what: What) -> Option<u32>
    ensures { HasOnly index.now what result }
{
    match what {
        What::Type { number } => match index.family(number) {
            Some(constructors) => {
                if constructors.only {
                    Some(constructors.first)
                } else {
                    None
                }
            }
            None => None,
        },
        _ => None,
    }
}

/// For each declaration the constructors that it refers to, where it is a constructor; a declaration that is none refers to nothing.
pub fn references(
    alloc: Global,
    index: &Index,
    decls: &[MeantDecl],
) -> Result<Vec<Vec<u32>>, AllocError>
    requires { AreResolved index.now (map decl_view decls.now) }
    ensures { IfOk result (λ edges. AreReferences index.now (edges_in edges.items)) }
{
    let mut edges = Vec::new(alloc);
    for decl in decls {
        edges.push(referred_by(alloc, index, decl)?)?;
    }
    Ok(edges)
}

// The constructors that one declaration refers to.
fn referred_by(alloc: Global, index: &Index, decl: &MeantDecl) -> Result<Vec<u32>, AllocError>
    ensures { IfOk result (λ js. ForDecl index.now (decl_view decl.now) (λ d. Refers index.now d js.items)) }
{
    let mut nodes = Vec::new(alloc);
    if !is_own(decl) {
        return Ok(nodes);
    }
    for field in &decl.fields {
        add_held(&mut nodes, index, &field.kind)?;
    }
    Ok(nodes)
}

/// Whether a declaration is a constructor, and no line of a built-in type.
pub fn is_own(decl: &MeantDecl) -> bool
    ensures { result ≡ not (decl_view decl.now).function && not (decl_view decl.now).builtin }
{
    !decl.function && !decl.builtin
}

// Adds those that the type of one field refers to.
fn add_held(nodes: &mut Vec<u32>, index: &Index, kind: &MeantKind) -> Result<(), AllocError>
    ensures { OnOk result (ForKind index.now (kind_view kind.now) (λ d k. Adds index.now d (λ u. HeldBy u k) nodes.old.items nodes.new.items)) }
{
    match kind {
        MeantKind::Of { meant } => add_parts(nodes, index, meant),
        MeantKind::Nat => Ok(()),
        MeantKind::Flag => Ok(()),
        MeantKind::Call { .. } => Ok(()),
    }
}

// Adds those that a type and its parts are.
#[cycle(references)]
fn add_parts(nodes: &mut Vec<u32>, index: &Index, meant: &Meant) -> Result<(), AllocError>
    ensures { OnOk result (ForType index.now (meant_view meant.now) (λ d t. Adds index.now d (λ u. IsPart u t) nodes.old.items nodes.new.items)) }
{
    add_own(nodes, index, meant)?;
    match meant {
        Meant::Named { args, .. } => add_parts_of_each(nodes, index, args),
        Meant::Percent { meant } => add_parts(nodes, index, meant),
        Meant::AnyCall => Ok(()),
    }
}

// Adds those that several types and their parts are.
#[cycle(references)]
fn add_parts_of_each(
    nodes: &mut Vec<u32>,
    index: &Index,
    meants: &[Meant],
) -> Result<(), AllocError>
    ensures { OnOk result (ForTypes index.now (map meant_view meants.now) (λ d ts. Adds index.now d (λ u. IsPartOfOne u (trees_of ts)) nodes.old.items nodes.new.items)) }
{
    for meant in meants {
        add_parts(nodes, index, meant)?;
    }
    Ok(())
}

// Adds the constructor that the type itself is.
fn add_own(nodes: &mut Vec<u32>, index: &Index, meant: &Meant) -> Result<(), AllocError>
    ensures { OnOk result (ForType index.now (meant_view meant.now) (λ d t. Adds index.now d (λ u. u ≡ t) nodes.old.items nodes.new.items)) }
{
    match bare_of(index, meant) {
        Some(j) => {
            nodes.push(j)?;
            Ok(())
        }
        None => Ok(()),
    }
}
