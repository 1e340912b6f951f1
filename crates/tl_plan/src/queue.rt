//! The types that are reached, in order.
ghost use Rattle.std.specs.Prelude.{◌≡◌, ◌<◌, ◌≤◌, [], OnErr, OnOk, length, slice_get, Some};
ghost use Rattle.tl_plan.specs.inner.Queues.{Adds, KeepsFirst, Meets};

use crate::fault::{MAX_INSTANCES, MAX_LEVELS, PlanFault};
use std::alloc::{AllocError, Global};
use std::collections::BTreeMap;
use std::marker::Model;

/// The numbers of the types that are reached, and at which index each stands first.
pub struct Queue {
    nodes: Vec<u32>,
    indexes: BTreeMap<u32, u32>,
}

// By hand, so that each exit of an owner has one call to prove.
impl Drop for Queue {
    fn drop(self) {
        let Queue {
            nodes: _,
            indexes: _,
        } = self;
    }
}

impl Model for Queue {
    ghost use Rattle.std.specs.Prelude.{List, ℕ};
    ghost use Rattle.tl_plan.specs.inner.Queues.{IsQueue};

    ghost Value = { List ℕ };

    ghost view = { λ q. q.nodes.items };

    ghost invariant = { λ q. IsQueue q.nodes.items q.indexes.entries };
}

impl Queue {
    pub fn new(alloc: Global) -> Queue
        ensures { result ≡ [] }
    {
        Queue {
            nodes: Vec::new(alloc),
            indexes: BTreeMap::new(alloc),
        }
    }

    /// How many types are reached.
    pub fn len(&self) -> u32
        ensures count { result ≡ length self.now }
        ensures few { length self.now ≤ MAX_INSTANCES }
    {
        self.nodes.len() as u32
    }

    /// The type at an index.
    pub fn node(&self, i: u32) -> u32
        requires { i < length self.now }
        ensures { slice_get self.now i ≡ Some result }
    {
        self.nodes[i as usize]
    }

    /// The index of a type of so many levels, which is reached now if it wasn't before.
    pub fn meet(&mut self, node: u32, levels: u32, decl: u32) -> Result<u32, PlanFault>
        ensures { Meets self.old self.new node levels decl result }
    {
        if let Some(index) = self.indexes.get(&node).copied() {
            return Ok(index);
        }
        self.add(node, levels, decl)
    }

    /// Adds a type, whether it is reached already or not.
    pub fn add(&mut self, node: u32, levels: u32, decl: u32) -> Result<u32, PlanFault>
        ensures { Adds self.old self.new node levels decl result }
    {
        if levels > MAX_LEVELS {
            return Err(PlanFault::TypeTooDeep { decl });
        }
        let index = self.nodes.len() as u32;
        if index >= MAX_INSTANCES {
            return Err(PlanFault::TooManyInstances);
        }
        self.nodes.reserve(1)?;
        keep_first(&mut self.indexes, node, index)?;
        self.nodes.push_reserved(node);
        Ok(index)
    }
}

// Notes where a type stands, unless it stands somewhere already.
fn keep_first(indexes: &mut BTreeMap<u32, u32>, node: u32, index: u32) -> Result<(), AllocError>
    ensures kept { OnOk result (KeepsFirst indexes.old.entries indexes.new.entries node index) }
    ensures unchanged { OnErr result (indexes.new.entries ≡ indexes.old.entries) }
{
    if indexes.get(&node).is_none() {
        indexes.insert(node, index)?;
    }
    Ok(())
}
