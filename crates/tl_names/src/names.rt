//! Numbers by name.
ghost use Rattle.std.specs.Prelude.{◌≡◌, [], IfOk, OnOk, OnErr, is_none};
ghost use Rattle.tl_names.specs.NameIndexes.{Notes, index_among};

use crate::name_hash::NameHash;
use indexmap::IndexMap;
use std::alloc::{AllocError, Global};
use std::marker::Model;

/// For each name its number, in a map whose hash no text can aim at: see [`NameHash`].
pub struct Names {
    map: IndexMap<Vec<u8>, u32, NameHash>,
}

// By hand, so that each exit of an owner has one call to prove.
impl Drop for Names {
    fn drop(self) {
        let Names { map: _ } = self;
    }
}

impl Model for Names {
    ghost use Rattle.std.specs.Prelude.{List, ℕ};
    ghost use Rattle.tl_names.specs.NameIndexes.{indexes_in};

    ghost Value = { List (List ℕ × ℕ) };

    ghost view = { λ p. indexes_in p.map.entries };
}

impl Names {
    pub fn new(alloc: Global, hash: NameHash) -> Names
        ensures { result ≡ [] }
    {
        Names {
            map: IndexMap::with_hasher(alloc, hash),
        }
    }

    /// The number of a name.
    pub fn get(&self, name: &[u8]) -> Option<u32>
        ensures { result ≡ index_among self.now name.now }
    {
        self.map.get(name).copied()
    }

    /// Notes the number of a name that has none yet, and tells whether it had none.
    pub fn note(&mut self, alloc: Global, name: &[u8], at: u32) -> Result<bool, AllocError>
        ensures noted { OnOk result (Notes self.old self.new name.now at) }
        ensures fresh { IfOk result (λ fresh. fresh ≡ is_none (index_among self.old name.now)) }
        ensures err { OnErr result (self.new ≡ self.old) }
    {
        if self.get(name).is_some() {
            return Ok(false);
        }
        self.map.insert(Vec::from_slice(alloc, name)?, at)?;
        Ok(true)
    }
}
