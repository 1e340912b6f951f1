//! Cycles of a graph, whose nodes are numbered and have each a list of the nodes that they point to.
ghost use Rattle.std.specs.Prelude.{◌≡◌, ◌<◌, ◌^◌, ◌↔◌, ℕ, IsTrue, IfOk, OnOk, length};
ghost use Rattle.tl_graph.specs.Paths.{Edge, IsGraph, IsOnCycle, edges_in};
ghost use Rattle.tl_graph.specs.Steps.{Falls, Rises, Stays, rank};
ghost use Rattle.tl_graph.specs.Firsts.{First};

use crate::marks::is_marked;
use crate::paths::reached_from;
use std::alloc::{AllocError, Global};

/// The first node on a cycle. The ranks may be any: where they are those of the graph's components, this takes time in proportion to the graph.
pub fn first_on_cycle(
    alloc: Global,
    edges: &[Vec<u32>],
    ranks: &[u32],
) -> Result<Option<u32>, AllocError>
    requires graph { IsGraph (edges_in edges.now) }
    requires few { length edges.now < 2 ^ 32 }
    ensures { IfOk result (First (IsOnCycle (Edge (edges_in edges.now)))) }
{
    let is_sorted = falls(edges, ranks);
    for k in 0..edges.len() {
        let may_return = !is_sorted || stays(edges, ranks, k as u32);
        if may_return && returns(alloc, edges, k as u32)? {
            return Ok(Some(k as u32));
        }
    }
    Ok(None)
}

fn rank_of(ranks: &[u32], k: u32) -> u32
    ensures { result ≡ rank ranks.now k }
{
    match ranks.get(k as usize) {
        Some(rank) => *rank,
        None => 0,
    }
}

// Whether no edge leads to a higher rank.
fn falls(edges: &[Vec<u32>], ranks: &[u32]) -> bool
    requires { length edges.now < 2 ^ 32 }
    ensures { IsTrue result ↔ Falls (edges_in edges.now) ranks.now }
{
    for k in 0..edges.len() {
        if rises(edges, ranks, k as u32) {
            return false;
        }
    }
    true
}

// Whether an edge leads from k to a higher rank.
fn rises(edges: &[Vec<u32>], ranks: &[u32], k: u32) -> bool
    requires { k < length edges.now }
    ensures { IsTrue result ↔ Rises (edges_in edges.now) ranks.now k }
{
    let own = rank_of(ranks, k);
    edges[k as usize].iter().any(|j| rank_of(ranks, *j) > own)
}

// Whether an edge leads from k to a node of its own rank.
fn stays(edges: &[Vec<u32>], ranks: &[u32], k: u32) -> bool
    requires { k < length edges.now }
    ensures { IsTrue result ↔ Stays (edges_in edges.now) ranks.now k }
{
    let own = rank_of(ranks, k);
    edges[k as usize].iter().any(|j| rank_of(ranks, *j) == own)
}

// Whether a path leads from k back to it.
fn returns(alloc: Global, edges: &[Vec<u32>], k: u32) -> Result<bool, AllocError>
    requires graph { IsGraph (edges_in edges.now) }
    requires node { k < length edges.now }
    ensures { IfOk result (λ b. IsTrue b ↔ IsOnCycle (Edge (edges_in edges.now)) k) }
{
    let reached = reached_from(alloc, edges, k)?;
    Ok(is_marked(&reached, k))
}
