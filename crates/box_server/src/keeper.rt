//! Keepers of entries.
ghost use Rattle.std.specs.Prelude.{◌≡◌, ◌<◌, [], ◌∷◌, IfSome, IfOk, OnOk, OnErr, IsErr, IsErrOf, length, ⊤};
ghost use Rattle.box_server.specs.Keeping.{KeeperState, Keeps, IsEntry, with_more, FewEntries};

use crate::entry::Entry;
use crate::store_fault::GetFault;
use tl_base::Failed;

/// Keeps a list of entries.
pub trait Keeper {
    /// The entries, the count of faults, whether it is sound, and its room.
    ghost state: { Self → KeeperState };

    /// How many entries there are.
    fn count(&mut self) -> Result<u32, Failed>
        ensures count { IfOk result (λ n. IfSome (state self.old).entries (λ es. n ≡ length es)) }
        ensures entries { (state self.new).entries ≡ (state self.old).entries }
        ensures used { Keeps (state self.old) (state self.new) (IsErr result) (λ _. ⊤) };

    /// Entry `n`, from 0. A keeper that doesn't tell its entries counts one that is missing as a fault.
    fn get(&mut self, n: u32) -> Result<Entry, GetFault>
        requires there { IfSome (state self.old).entries (λ es. n < length es) }
        ensures entry { IfOk result (λ e. IsEntry (state self.old).entries n e) }
        ensures entries { (state self.new).entries ≡ (state self.old).entries }
        ensures used { Keeps (state self.old) (state self.new) (IsErrOf result GetFault.Failed) (λ _. ⊤) };

    /// Appends an entry. After a fault the entries are as before, of a keeper that tells them; one that tells none, as a database, may have the new one.
    fn add(&mut self, entry: Entry) -> Result<(), Failed>
        ensures added { OnOk result ((state self.new).entries ≡ with_more (entry ∷ []) (state self.old).entries) }
        ensures unchanged { OnErr result ((state self.new).entries ≡ (state self.old).entries) }
        ensures used { Keeps (state self.old) (state self.new) (IsErr result) (λ es. length es < (state self.old).room) };

    /// There are fewer than 2^32 entries.
    ghost are_few: { (k : Self) → IfSome (state k).entries FewEntries };
}
