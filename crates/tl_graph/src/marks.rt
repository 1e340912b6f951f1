//! Nodes that need other nodes, marked in passes until no pass marks one more.
ghost use Rattle.std.specs.Prelude.{◌≡◌, ◌<◌, ◌^◌, ◌↔◌, ℕ, IsTrue, IsFalse, IfOk, length};
ghost use Rattle.std.specs.Option.{option_map};
ghost use Rattle.tl_graph.specs.Needs.{CanBeMet, IsMarked, needs_in};
ghost use Rattle.tl_graph.specs.Steps.{IsMet, IsMetBy, MarksMore, unmarked};

use std::alloc::{AllocError, Global};

/// Marks exactly the nodes whose needs can be met. The order may be any: where needs come first in it, one pass marks all that has no cycle.
pub fn marks_of(
    alloc: Global,
    needs: &[Option<Vec<u32>>],
    order: &[u32],
) -> Result<Vec<bool>, AllocError>
    requires few { length needs.now < 2 ^ 32 }
    ensures { IfOk result (λ marks. (k : ℕ) → IsMarked marks.items k ↔ CanBeMet (needs_in needs.now) k) }
{
    let mut marks = no_marks(alloc, needs.len())?;
    mark_all(&mut marks, needs, order);
    Ok(marks)
}

/// Whether a node is marked; one past the end is not.
pub fn is_marked(marks: &[bool], k: u32) -> bool
    ensures { IsTrue result ↔ IsMarked marks.now k }
{
    match marks.get(k as usize) {
        Some(mark) => *mark,
        None => false,
    }
}

/// So many nodes, none of which is marked.
pub fn no_marks(alloc: Global, count: usize) -> Result<Vec<bool>, AllocError>
    ensures count { IfOk result (λ marks. length marks.items ≡ count) }
    ensures none { IfOk result (λ marks. (k : ℕ) → IsMarked marks.items k → ⊥) }
{
    Ok(vec![in alloc; false; count]?)
}

// Marks all nodes whose needs can be met, in this order first.
fn mark_all(marks: &mut Vec<bool>, needs: &[Option<Vec<u32>>], order: &[u32])
    requires same { length marks.old.items ≡ length needs.now }
    requires few { length needs.now < 2 ^ 32 }
    ensures more { MarksMore (needs_in needs.now) marks.old.items marks.new.items }
    ensures all { (k : ℕ) → IsMet (needs_in needs.now) marks.new.items k → IsMarked marks.new.items k }
{
    mark_these(marks, needs, order);
    while mark_more(marks, needs) {}
}

// Marks those of these nodes whose needs are met when their turn comes.
fn mark_these(marks: &mut Vec<bool>, needs: &[Option<Vec<u32>>], nodes: &[u32])
    requires { length marks.old.items ≡ length needs.now }
    ensures { MarksMore (needs_in needs.now) marks.old.items marks.new.items }
{
    for k in nodes {
        mark(marks, needs, *k);
    }
}

// Marks all nodes whose needs are met when their turn comes, and tells whether one was not marked before.
fn mark_more(marks: &mut Vec<bool>, needs: &[Option<Vec<u32>>]) -> bool
    requires same { length marks.old.items ≡ length needs.now }
    requires few { length needs.now < 2 ^ 32 }
    ensures more { MarksMore (needs_in needs.now) marks.old.items marks.new.items }
    ensures fewer { IsTrue result → unmarked marks.new.items < unmarked marks.old.items }
    ensures all { IsFalse result → (k : ℕ) → IsMet (needs_in needs.now) marks.new.items k → IsMarked marks.new.items k }
{
    let mut is_more = false;
    for k in 0..needs.len() {
        if mark(marks, needs, k as u32) {
            is_more = true;
        }
    }
    is_more
}

// Marks a node whose needs are met, and tells whether it was not marked before.
fn mark(marks: &mut Vec<bool>, needs: &[Option<Vec<u32>>], k: u32) -> bool
    requires { length marks.old.items ≡ length needs.now }
    ensures more { MarksMore (needs_in needs.now) marks.old.items marks.new.items }
    ensures fewer { IsTrue result → unmarked marks.new.items < unmarked marks.old.items }
    ensures same { IsFalse result → (marks.new.items ≡ marks.old.items) × (IsMet (needs_in needs.now) marks.old.items k → IsMarked marks.old.items k) }
{
    let Some(need) = needs.get(k as usize) else {
        return false;
    };
    if marks[k as usize] || !is_met(marks, need) {
        return false;
    }
    marks[k as usize] = true;
    true
}

// Whether a node needs nodes, and all of them are marked.
fn is_met(marks: &[bool], need: &Option<Vec<u32>>) -> bool
    ensures { IsTrue result ↔ IsMetBy (option_map (λ js. js.items) need.now) marks.now }
{
    match need {
        Some(nodes) => nodes.iter().all(|j| is_marked(marks, *j)),
        None => false,
    }
}
