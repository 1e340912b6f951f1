//! Lists of ids.
ghost use Rattle.std.specs.Prelude.{◌≡◌, ◌∷◌, ◌++◌, [], IfOk, OnOk, OnErr};

use std::alloc::Global;
use std::marker::Model;
use tl_base::Memory;

/// A list of ids.
#[derive(Drop)]
pub struct Ids {
    items: Vec<i32>,
}

impl Model for Ids {
    ghost use Rattle.std.specs.Prelude.{List, ℤ};

    ghost Value = { List ℤ };

    ghost view = { λ i. i.items.items };
}

impl Ids {
    pub fn new(alloc: Global) -> Ids
        ensures { result ≡ [] }
    {
        Ids {
            items: Vec::new(alloc),
        }
    }

    pub fn from_slice(alloc: Global, ids: &[i32]) -> Result<Ids, Memory>
        ensures { IfOk result (λ i. i ≡ ids.now) }
    {
        Ok(Ids {
            items: Vec::from_slice(alloc, ids)?,
        })
    }

    pub fn as_slice(&self) -> &[i32]
        ensures { result.now ≡ self.now }
    {
        self.items.as_slice()
    }

    pub fn push(&mut self, id: i32) -> Result<(), Memory>
        ensures ok { OnOk result (self.new ≡ self.old ++ id ∷ []) }
        ensures err { OnErr result (self.new ≡ self.old) }
    {
        self.items.push(id)?;
        Ok(())
    }

    pub fn copy(&self) -> Result<Ids, Memory>
        ensures { IfOk result (λ i. i ≡ self.now) }
    {
        Ids::from_slice(*self.items.allocator(), self.as_slice())
    }
}
