//! Constructors that take no bytes.
ghost use Rattle.std.specs.Prelude.{◌<◌, ◌^◌, IfOk, length, map};
ghost use Rattle.std.specs.Option.{option_map};
ghost use Rattle.tl_graph.specs.Needs.{IsMarked, needs_in};
ghost use Rattle.tl_graph.specs.Steps.{IsMet, IsMetBy, MarksMore, unmarked};
ghost use Rattle.tl_names.specs.MeantViews.{decl_view, kind_view};
ghost use Rattle.tl_names.specs.inner.BareSteps.{AreNeeds, BareFieldsAre, HeldIs, MarksEmpty};
ghost use Rattle.tl_names.specs.inner.Resolved.{AreResolved, ForDecl, ForKind};

use crate::bare_references::{bare_of, is_own};
use crate::index::Index;
use crate::meant::{MeantDecl, MeantKind};
use std::alloc::{AllocError, Global};
use tl_graph::marks_of;

/// Marks the constructors that take no bytes. The order is that of the components of their references: there one pass marks
/// them all where there is no cycle.
pub fn empties(
    alloc: Global,
    index: &Index,
    decls: &[MeantDecl],
    order: &[u32],
) -> Result<Vec<bool>, AllocError>
    requires few { length index.now < 2 ^ 32 }
    requires resolved { AreResolved index.now (map decl_view decls.now) }
    ensures { IfOk result (λ marks. MarksEmpty index.now marks.items) }
{
    let needs = needs_of(alloc, index, decls)?;
    marks_of(alloc, &needs, order)
}

// For each declaration its fields as bare constructors, where each is one.
fn needs_of(
    alloc: Global,
    index: &Index,
    decls: &[MeantDecl],
) -> Result<Vec<Option<Vec<u32>>>, AllocError>
    requires { AreResolved index.now (map decl_view decls.now) }
    ensures { IfOk result (λ needs. AreNeeds index.now (needs_in needs.items)) }
{
    let mut needs = Vec::new(alloc);
    for decl in decls {
        needs.push(bare_fields(alloc, index, decl)?)?;
    }
    Ok(needs)
}

// The fields of one declaration as bare constructors.
fn bare_fields(
    alloc: Global,
    index: &Index,
    decl: &MeantDecl,
) -> Result<Option<Vec<u32>>, AllocError>
    ensures { IfOk result (λ o. ForDecl index.now (decl_view decl.now) (λ d. BareFieldsAre index.now d (option_map (λ js. js.items) o))) }
{
    if !is_own(decl) {
        return Ok(None);
    }
    let mut nodes = Vec::new(alloc);
    for field in &decl.fields {
        match held_bare(index, &field.kind) {
            Some(j) => nodes.push(j)?,
            None => return Ok(None),
        }
    }
    Ok(Some(nodes))
}

// The constructor that a field holds bare.
fn held_bare(index: &Index, kind: &MeantKind) -> Option<u32>
    ensures { ForKind index.now (kind_view kind.now) (λ d k. HeldIs index.now d k result) }
{
    match kind {
        MeantKind::Of { meant } => bare_of(index, meant),
        MeantKind::Nat => None,
        MeantKind::Flag => None,
        MeantKind::Call { .. } => None,
    }
}
