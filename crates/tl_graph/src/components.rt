//! Strongly connected components of a graph, for speed alone: nothing is claimed of what is found here, and nothing rests on it but time.
//! By Tarjan, "Depth-first search and linear graph algorithms", with a stack in place of recursion.

use std::alloc::{AllocError, Global};

/// A node's component isn't known yet.
const UNKNOWN: u32 = u32::MAX;

/// The nodes of a graph in components: each node's component, numbered so that no edge leads to a higher one, and the nodes in the order of these.
#[derive(Drop)]
pub struct Components {
    pub ranks: Vec<u32>,
    pub order: Vec<u32>,
}

// What is known of a node: when it was first seen, counted from 1, the earliest node of its component that it is known to reach,
// how many of its edges were gone along, and its component.
#[derive(Clone, Copy)]
struct Node {
    seen: u32,
    low: u32,
    gone: u32,
    rank: u32,
}

const UNSEEN: Node = Node {
    seen: 0,
    low: 0,
    gone: 0,
    rank: UNKNOWN,
};

// The search: the nodes, those without a component yet, those on the path to where the search stands, how many were seen,
// and those of the components so far.
#[derive(Drop)]
struct Search {
    nodes: Vec<Node>,
    open: Vec<u32>,
    path: Vec<u32>,
    count: u32,
    order: Vec<u32>,
}

// A count of nodes. No caller has more than fit; of such the rest would be left out.
fn number_of(count: usize) -> u32 {
    u32::try_from(count).unwrap_or(u32::MAX)
}

fn unseen(alloc: Global, count: usize) -> Result<Vec<Node>, AllocError> {
    let mut nodes = Vec::new(alloc);
    for _ in 0..count {
        nodes.push(UNSEEN)?;
    }
    Ok(nodes)
}

impl Search {
    fn new(alloc: Global, count: usize) -> Result<Search, AllocError> {
        let nodes = unseen(alloc, count)?;
        Ok(Search {
            nodes,
            open: Vec::new(alloc),
            path: Vec::new(alloc),
            count: 0,
            order: Vec::new(alloc),
        })
    }

    fn node(&self, i: u32) -> Node {
        match self.nodes.get(i as usize) {
            Some(node) => *node,
            None => UNSEEN,
        }
    }

    // Goes to a node that wasn't seen before.
    fn enter(&mut self, i: u32) -> Result<(), AllocError> {
        self.count = self.count.saturating_add(1);
        if let Some(node) = self.nodes.get_mut(i as usize) {
            node.seen = self.count;
            node.low = self.count;
        }
        self.open.push(i)?;
        self.path.push(i)?;
        Ok(())
    }

    // A node is known to reach one that was seen so early.
    fn lower(&mut self, i: u32, seen: u32) {
        if let Some(node) = self.nodes.get_mut(i as usize) {
            node.low = node.low.min(seen);
        }
    }

    // Goes along an edge, from a node of the path to another.
    fn follow(&mut self, from: u32, to: u32) -> Result<(), AllocError> {
        let node = self.node(to);
        if node.seen == 0 {
            return self.enter(to);
        }
        if node.rank == UNKNOWN {
            self.lower(from, node.seen);
        }
        Ok(())
    }

    // Goes back from a node, all of whose edges were gone along.
    fn leave(&mut self, i: u32) -> Result<(), AllocError> {
        self.path.pop();
        let node = self.node(i);
        if let Some(before) = self.path.last().copied() {
            self.lower(before, node.low);
        }
        if node.low == node.seen {
            self.close(i)?;
        }
        Ok(())
    }

    // Takes the component whose earliest node this is.
    fn close(&mut self, first: u32) -> Result<(), AllocError> {
        let rank = number_of(self.order.len());
        while let Some(i) = self.open.pop() {
            if let Some(node) = self.nodes.get_mut(i as usize) {
                node.rank = rank;
            }
            self.order.push(i)?;
            if i == first {
                return Ok(());
            }
        }
        Ok(())
    }

    // The edge of a node that the search goes along next, if one is left.
    fn next(&mut self, edges: &[Vec<u32>], i: u32) -> Option<u32> {
        let node = self.nodes.get_mut(i as usize)?;
        let at = node.gone;
        node.gone = at.saturating_add(1);
        edges.get(i as usize)?.get(at as usize).copied()
    }

    // One step from the end of the path.
    fn step(&mut self, edges: &[Vec<u32>], i: u32) -> Result<(), AllocError> {
        match self.next(edges, i) {
            Some(to) => self.follow(i, to),
            None => self.leave(i),
        }
    }

    // Searches from a node.
    fn search_from(&mut self, edges: &[Vec<u32>], i: u32) -> Result<(), AllocError> {
        if self.node(i).seen != 0 {
            return Ok(());
        }
        self.enter(i)?;
        for _ in 0..usize::MAX {
            match self.path.last().copied() {
                Some(last) => self.step(edges, last)?,
                None => return Ok(()),
            }
        }
        Ok(())
    }
}

fn ranks_of(alloc: Global, nodes: &[Node]) -> Result<Vec<u32>, AllocError> {
    let mut ranks = Vec::new(alloc);
    for node in nodes {
        ranks.push(node.rank)?;
    }
    Ok(ranks)
}

/// The components of a graph.
pub fn components_of(alloc: Global, edges: &[Vec<u32>]) -> Result<Components, AllocError> {
    let mut search = Search::new(alloc, edges.len())?;
    for i in 0..number_of(edges.len()) {
        search.search_from(edges, i)?;
    }
    let ranks = ranks_of(alloc, &search.nodes)?;
    Ok(Components {
        ranks,
        order: search.order,
    })
}
