//! The nodes of a graph to which paths lead.
ghost use Rattle.std.specs.Prelude.{◌≡◌, ◌<◌, ◌↔◌, ℕ, IfOk, OnOk, length};
ghost use Rattle.tl_graph.specs.Needs.{IsMarked};
ghost use Rattle.tl_graph.specs.Paths.{Edge, IsGraph, IsIn, Path, edges_in};
ghost use Rattle.tl_graph.specs.Steps.{Reached};

use crate::marks::no_marks;
use std::alloc::{AllocError, Global};

/// Marks exactly the nodes to which a path leads from k.
pub fn reached_from(alloc: Global, edges: &[Vec<u32>], k: u32) -> Result<Vec<bool>, AllocError>
    requires graph { IsGraph (edges_in edges.now) }
    requires node { k < length edges.now }
    ensures count { IfOk result (λ marks. length marks.items ≡ length edges.now) }
    ensures marks { IfOk result (λ marks. (j : ℕ) → IsMarked marks.items j ↔ Path (Edge (edges_in edges.now)) k j) }
{
    let mut reached = no_marks(alloc, edges.len())?;
    let mut pending = Vec::new(alloc);
    reach(&mut reached, &mut pending, &edges[k as usize])?;
    while let Some(i) = pending.pop() {
        reach(&mut reached, &mut pending, &edges[i as usize])?;
    }
    Ok(reached)
}

// Reaches nodes, of which those that were not reached before are still to be gone on from.
fn reach(reached: &mut Vec<bool>, pending: &mut Vec<u32>, nodes: &[u32]) -> Result<(), AllocError>
    requires { (j : ℕ) → IsIn j nodes.now → j < length reached.old.items }
    ensures { OnOk result (Reached reached.old.items pending.old.items nodes.now reached.new.items pending.new.items) }
{
    for j in nodes {
        if !reached[*j as usize] {
            reached[*j as usize] = true;
            pending.push(*j)?;
        }
    }
    Ok(())
}
