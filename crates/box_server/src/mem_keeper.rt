//! A keeper in memory.
ghost use Rattle.std.specs.Prelude.{◌≡◌, ◌<◌, ◌≤◌, ◌^◌, [], ◌∷◌, get_or, IfOk, IsErr, IsErrOf, OnOk, OnErr, length, vec_capacity, ⊤};
ghost use Rattle.tl_base.specs.Causes.{count_after};
ghost use Rattle.box_server.specs.Keeping.{Keeps, with_more};

use crate::copying::copy_entry;
use crate::entry::Entry;
use crate::keeper::Keeper;
use crate::store_fault::GetFault;
use std::alloc::Global;
use tl_base::{Failed, Memory};

/// Entries in memory, up to a bound.
pub struct MemKeeper {
    entries: Vec<Entry>,
    room: usize,
    fails: Vec<u64>,
    calls: u64,
    faults: u64,
    ghost reserved: { room ≤ vec_capacity entries },
    ghost fits: { length entries.items ≤ room },
    ghost few: { room < 2 ^ 32 },
}

// By hand, so that each exit of an owner has one call to prove.
impl Drop for MemKeeper {
    fn drop(self) {
        let MemKeeper {
            entries: _,
            room: _,
            fails: _,
            calls: _,
            faults: _,
        } = self;
    }
}

impl MemKeeper {
    ghost use Rattle.box_server.specs.Memory.{keeper_entries, keeper_room, keeper_faults, IsUncalled, CountsCall, FailsByNumber, keeper_state};

    /// Takes memory for `room` entries. Call number k, from 0 over all calls, fails exactly where k is in `fails`, or where it is an `add` and there
    /// are `room` entries.
    pub fn new(alloc: Global, room: u32, fails: Vec<u64>) -> Result<MemKeeper, Memory>
        ensures entries { IfOk result (λ k. keeper_entries k ≡ []) }
        ensures room { IfOk result (λ k. keeper_room k ≡ room) }
        ensures faults { IfOk result (λ k. keeper_faults k ≡ 0) }
        ensures first { IfOk result (λ k. IsUncalled k fails) }
    {
        Ok(MemKeeper {
            entries: Vec::with_capacity(alloc, room as usize)?,
            room: room as usize,
            fails,
            calls: 0,
            faults: 0,
        })
    }

    /// The entries.
    pub fn entries(&self) -> &[Entry]
        ensures { result.now ≡ keeper_entries self.now }
    {
        self.entries.as_slice()
    }

    // Counts a call. It fails where its number is one that fails.
    fn begin(&mut self) -> Result<(), Failed>
        ensures number { FailsByNumber self.old result }
        ensures entries { self.new.entries ≡ self.old.entries }
        ensures room { self.new.room ≡ self.old.room }
        ensures counts { CountsCall self.old self.new }
        ensures exact { keeper_faults self.new ≡ count_after (keeper_faults self.old) result }
        ensures used { Keeps (keeper_state self.old) (keeper_state self.new) (IsErr result) (λ _. ⊤) }
    {
        let number = self.calls;
        self.calls = self.calls.saturating_add(1);
        if self.fails.contains(&number) {
            self.faults = self.faults.saturating_add(1);
            return Err(Failed);
        }
        Ok(())
    }
}

impl Keeper for MemKeeper {
    ghost use Rattle.box_server.specs.Memory.{keeper_state, keeper_entries, keeper_faults, CountsCall, FailsByNumber, GetsByNumber, AddsByNumber};
    ghost use Rattle.box_server.specs.MemoryLaws.{few_entries};

    ghost state = { keeper_state };

    ghost are_few = { λ k. few_entries k.entries k.room k.fits k.few };

    fn count(&mut self) -> Result<u32, Failed>
        ensures count { IfOk result (λ n. n ≡ length (keeper_entries self.old)) }
        ensures entries { (keeper_state self.new).entries ≡ (keeper_state self.old).entries }
        ensures used { Keeps (keeper_state self.old) (keeper_state self.new) (IsErr result) (λ _. ⊤) }
        ensures number { FailsByNumber self.old result }
        ensures counts { CountsCall self.old self.new }
        ensures exact { keeper_faults self.new ≡ count_after (keeper_faults self.old) result }
    {
        match self.begin() {
            Ok(()) => Ok(self.entries.len() as u32),
            Err(_) => Err(Failed),
        }
    }

    fn get(&mut self, n: u32) -> Result<Entry, GetFault>
        requires there { n < length (keeper_entries self.old) }
        ensures entry { IfOk result (λ e. e ≡ get_or (keeper_entries self.old) n e) }
        ensures entries { (keeper_state self.new).entries ≡ (keeper_state self.old).entries }
        ensures used { Keeps (keeper_state self.old) (keeper_state self.new) (IsErrOf result GetFault.Failed) (λ _. ⊤) }
        ensures number { GetsByNumber self.old self.new result }
        ensures counts { CountsCall self.old self.new }
    {
        match self.begin() {
            Ok(()) => {}
            Err(_) => return Err(GetFault::Failed),
        }
        let alloc = *self.entries.allocator();
        match copy_entry(alloc, &self.entries[n as usize]) {
            Ok(entry) => Ok(entry),
            Err(_) => Err(GetFault::Memory),
        }
    }

    fn add(&mut self, entry: Entry) -> Result<(), Failed>
        ensures added { OnOk result ((keeper_state self.new).entries ≡ with_more (entry ∷ []) (keeper_state self.old).entries) }
        ensures unchanged { OnErr result ((keeper_state self.new).entries ≡ (keeper_state self.old).entries) }
        ensures used { Keeps (keeper_state self.old) (keeper_state self.new) (IsErr result) (λ es. length es < (keeper_state self.old).room) }
        ensures number { AddsByNumber self.old result }
        ensures counts { CountsCall self.old self.new }
        ensures exact { keeper_faults self.new ≡ count_after (keeper_faults self.old) result }
    {
        match self.begin() {
            Ok(()) => {}
            Err(_) => return Err(Failed),
        }
        if self.entries.len() >= self.room {
            self.faults = self.faults.saturating_add(1);
            return Err(Failed);
        }
        self.entries.push_reserved(entry);
        Ok(())
    }
}
