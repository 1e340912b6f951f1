//! A keeper that keeps nothing.

use crate::entry::Entry;
use crate::keeper::Keeper;
use crate::store_fault::GetFault;
use tl_base::Failed;

/// Keeps nothing and tells nothing, and never fails: the keeper of a server whose posts aren't kept.
#[derive(Clone, Copy)]
pub struct NoKeeper;

impl Keeper for NoKeeper {
    ghost use Rattle.box_server.specs.Keeping.{nothing_kept};

    ghost state = { λ _. nothing_kept };

    ghost are_few = { λ _. tt };

    fn count(&mut self) -> Result<u32, Failed> {
        Ok(0)
    }

    // There is nothing to get.
    fn get(&mut self, _n: u32) -> Result<Entry, GetFault> {
        Err(GetFault::Memory)
    }

    fn add(&mut self, _entry: Entry) -> Result<(), Failed> {
        Ok(())
    }
}
