//! What a host in memory shows: files, slots, outs, links and moments.
ghost use Rattle.tl_base.specs.MemoryContents.{AreOpenIn, Reserves};
ghost use Rattle.tl_base.specs.MemoryBounds.{AreMoments};
ghost use Rattle.std.specs.Prelude.{◌≡◌, ◌≤◌, ◌<◌, ◌^◌, ◌+◌, ◌-◌, ◌∷◌, ◌++◌, [], length, min, take, get_or, IfOk, OnOk, OnErr, IfSome, IfNone, IsErr, IsTrue, vec_capacity};
ghost use Rattle.std.specs.List.{All};

use crate::fault::{Failed, Memory};
use crate::host::{Out, Slot};
use crate::mem_contents::{MemFile, MemLink, Origin, Reading, Readings};
use crate::mem_lists::{bytes_of, clear_at, index_of, put_at};
use crate::pieces::{give, put};
use std::alloc::Global;
use tl_numbers::Bytes;

/// A name that may be given.
#[derive(Drop)]
pub struct MemName {
    bytes: Vec<u8>,
    given: bool,
}

/// Files, slots, outs, links and moments in memory, with all memory that calls need.
pub struct MemShown {
    files: Vec<MemFile>,
    links: Vec<MemLink>,
    taken: usize,
    readings: Readings,
    output: Vec<u8>,
    errors: Vec<u8>,
    state: Vec<u8>,
    unlinked: Vec<u8>,
    state_name: MemName,
    address: MemName,
    moments: Vec<u32>,
    told: usize,
    room: usize,
    ghost output_room: { room ≤ vec_capacity output },
    ghost errors_room: { room ≤ vec_capacity errors },
    ghost state_room: { room ≤ vec_capacity state },
    ghost unlinked_room: { room ≤ vec_capacity unlinked },
    ghost name_room: { room ≤ vec_capacity state_name.bytes },
    ghost address_room: { room ≤ vec_capacity address.bytes },
    ghost link_room: { All (Reserves room) links.items },
    ghost taken_there: { taken ≤ length links.items },
    ghost opened: { AreOpenIn (length files.items) (length links.items) readings },
    ghost moments_fit: { AreMoments moments.items },
    ghost told_there: { told ≤ length moments.items },
}

// By hand, so that each exit of an owner has one call to prove.
impl Drop for MemShown {
    fn drop(self) {
        let MemShown {
            files: _,
            links: _,
            taken: _,
            readings: _,
            output: _,
            errors: _,
            state: _,
            unlinked: _,
            state_name: _,
            address: _,
            moments: _,
            told: _,
            room: _,
        } = self;
    }
}

impl MemName {
    ghost use Rattle.std.specs.Prelude.{Some, None};
    ghost use Rattle.tl_base.specs.MemoryNames.{name_of};

    // A name that isn't given, with memory for one of so many bytes.
    fn none(alloc: Global, room: usize) -> Result<MemName, Memory>
        ensures none { IfOk result (λ n. name_of n ≡ None) }
        ensures room { IfOk result (λ n. room ≤ vec_capacity n.bytes) }
    {
        Ok(MemName {
            bytes: Vec::with_capacity(alloc, room)?,
            given: false,
        })
    }

    // Gives a name for which there is memory.
    fn set(&mut self, room: usize, name: &[u8])
        requires room { room ≤ vec_capacity self.old.bytes }
        requires fits { length name.now ≤ room }
        ensures given { name_of self.new ≡ Some name.now }
        ensures room { room ≤ vec_capacity self.new.bytes }
    {
        self.bytes.clear();
        match self.bytes.extend_from_slice(name) {
            Ok(()) => self.given = true,
            Err(_) => unreachable!(),
        }
    }
}

impl MemShown {
    ghost use Rattle.tl_base.specs.Outside.{left_of, written_of, with_left, with_written, IsThere};
    ghost use Rattle.tl_base.specs.Calls.{Opens, Gives, Creates, Listens, Connects, Accepts, TellsMoment};
    ghost use Rattle.tl_base.specs.MemoryShown.{view_of, nothing_shown};

    /// Nothing is there, and each out takes `room` bytes.
    pub fn new(alloc: Global, room: u32) -> Result<MemShown, Memory>
        ensures { IfOk result (λ s. view_of s ≡ nothing_shown room) }
    {
        Ok(MemShown {
            files: Vec::new(alloc),
            links: Vec::new(alloc),
            taken: 0,
            readings: Readings::none(),
            output: Vec::with_capacity(alloc, room as usize)?,
            errors: Vec::with_capacity(alloc, room as usize)?,
            state: Vec::with_capacity(alloc, room as usize)?,
            unlinked: Vec::with_capacity(alloc, room as usize)?,
            state_name: MemName::none(alloc, room as usize)?,
            address: MemName::none(alloc, room as usize)?,
            moments: Vec::new(alloc),
            told: 0,
            room: room as usize,
        })
    }

    /// Adds a file after the others.
    pub fn add_file(&mut self, alloc: Global, name: &str, bytes: Bytes) -> Result<(), Memory>
        ensures ok { OnOk result (view_of self.new ≡ record (view_of self.old) { files = (view_of self.old).files ++ (name.now, bytes) ∷ [] }) }
        ensures err { OnErr result (view_of self.new ≡ view_of self.old) }
    {
        let name = Bytes::from_slice(alloc, name.as_bytes())?;
        self.files.push(MemFile { name, bytes })?;
        Ok(())
    }

    /// Adds a link to come after the others.
    pub fn add_link(&mut self, alloc: Global, bytes: Bytes) -> Result<(), Memory>
        ensures ok { OnOk result (view_of self.new ≡ record (view_of self.old) { links = (view_of self.old).links ++ bytes ∷ [] }) }
        ensures err { OnErr result (view_of self.new ≡ view_of self.old) }
    {
        let written = Vec::with_capacity(alloc, self.room)?;
        self.links.push(MemLink { bytes, written })?;
        Ok(())
    }

    /// Adds a moment after the others.
    pub fn add_moment(&mut self, now: u32) -> Result<(), Memory>
        requires { now < 2 ^ 31 }
        ensures ok { OnOk result (view_of self.new ≡ record (view_of self.old) { moments = (view_of self.old).moments ++ now ∷ [] }) }
        ensures err { OnErr result (view_of self.new ≡ view_of self.old) }
    {
        self.moments.push(now)?;
        Ok(())
    }

    /// Opens the first file with the name.
    pub fn open(&mut self, slot: Slot, name: &str) -> Result<(), Failed>
        ensures view { Opens slot name.now result (view_of self.old) (view_of self.new) }
        ensures none { IsErr result → IsThere name.now (view_of self.old) → ⊥ }
    {
        match index_of(&self.files, name) {
            Some(index) => {
                let origin = Origin::File { index };
                self.readings.set(slot, Reading { origin, at: 0 });
                Ok(())
            }
            None => Err(Failed),
        }
    }

    /// Gives as many bytes of a slot as fit and may be given.
    pub fn give(&mut self, slot: Slot, most: usize, into: &mut [u8]) -> usize
        requires { 0 < most }
        ensures view { Gives slot into.new result (view_of self.old) (view_of self.new) }
        ensures count { result ≡ min most (min (length into.old) (length (left_of slot (view_of self.old)))) }
    {
        let Some(reading) = self.readings.of(slot) else {
            return 0;
        };
        let origin = reading.origin;
        let mut at = reading.at;
        let bytes = bytes_of(&self.files, &self.links, origin);
        let count = give(bytes, &mut at, most, into);
        self.readings.set(slot, Reading { origin, at });
        count
    }

    /// Appends what fits of a piece to an out. None where nothing fits.
    pub fn put(&mut self, out: Out, piece: &[u8]) -> Option<usize>
        requires { 0 < length piece.now }
        ensures taken { IfSome result (λ n. (0 < n) × (n ≤ length piece.now) × (view_of self.new ≡ with_written out (written_of out (view_of self.old) ++ take n piece.now) (view_of self.old))) }
        ensures count { IfSome result (λ n. n ≡ min (length piece.now) ((view_of self.old).room - length (written_of out (view_of self.old)))) }
        ensures full { IfNone result ((view_of self.new ≡ view_of self.old) × ((view_of self.old).room ≤ length (written_of out (view_of self.old)))) }
    {
        match out {
            Out::Output => put(&mut self.output, self.room, piece),
            Out::Errors => put(&mut self.errors, self.room, piece),
            Out::State => put(&mut self.state, self.room, piece),
            Out::Link => {
                if self.taken == 0 {
                    put(&mut self.unlinked, self.room, piece)
                } else {
                    put_at(&mut self.links, self.taken - 1, self.room, piece)
                }
            }
        }
    }

    // Empties an out.
    fn clear(&mut self, out: Out)
        ensures { view_of self.new ≡ with_written out [] (view_of self.old) }
    {
        match out {
            Out::Output => self.output.clear(),
            Out::Errors => self.errors.clear(),
            Out::State => self.state.clear(),
            Out::Link => {
                if self.taken == 0 {
                    self.unlinked.clear();
                } else {
                    clear_at(&mut self.links, self.taken - 1, self.room);
                }
            }
        }
    }

    /// Names an out, and empties it.
    pub fn create(&mut self, out: Out, name: &str) -> Result<(), Failed>
        ensures view { Creates out name.now result (view_of self.old) (view_of self.new) }
        ensures long { IsErr result → length name.now ≤ (view_of self.old).room → ⊥ }
    {
        if name.len() > self.room {
            return Err(Failed);
        }
        self.clear(out);
        if out == Out::State {
            self.state_name.set(self.room, name.as_bytes());
        }
        Ok(())
    }

    /// Uses an address.
    pub fn listen(&mut self, address: &str) -> Result<(), Failed>
        ensures view { Listens address.now result (view_of self.old) (view_of self.new) }
        ensures long { IsErr result → length address.now ≤ (view_of self.old).room → ⊥ }
    {
        if address.len() > self.room {
            return Err(Failed);
        }
        self.address.set(self.room, address.as_bytes());
        Ok(())
    }

    /// Takes the first link to come.
    pub fn accept(&mut self) -> Result<(), Failed>
        ensures view { Accepts result (view_of self.old) (view_of self.new) }
        ensures none { IsErr result → 0 < length (view_of self.old).links → ⊥ }
    {
        if self.taken == self.links.len() {
            return Err(Failed);
        }
        let index = self.taken;
        clear_at(&mut self.links, index, self.room);
        self.taken = index + 1;
        let origin = Origin::Link { index };
        self.readings.set(Slot::Link, Reading { origin, at: 0 });
        Ok(())
    }

    /// Uses an address, and takes the first link to come.
    pub fn connect(&mut self, address: &str) -> Result<(), Failed>
        ensures view { Connects address.now result (view_of self.old) (view_of self.new) }
        ensures none { IsErr result → (0 < length (view_of self.old).links) × (length address.now ≤ (view_of self.old).room) → ⊥ }
    {
        if address.len() > self.room {
            return Err(Failed);
        }
        self.accept()?;
        self.address.set(self.room, address.as_bytes());
        Ok(())
    }

    /// Takes the first moment to come; 0 where there is none.
    pub fn now(&mut self) -> u32
        ensures moment { result < 2 ^ 31 }
        ensures view { TellsMoment result (view_of self.old) (view_of self.new) }
    {
        if self.told == self.moments.len() {
            return 0;
        }
        let now = self.moments[self.told];
        self.told += 1;
        now
    }

    /// What was written to an out.
    pub fn written(&self, out: Out) -> &[u8]
        ensures { result.now ≡ written_of out (view_of self.now) }
    {
        match out {
            Out::Output => self.output.as_slice(),
            Out::Errors => self.errors.as_slice(),
            Out::State => self.state.as_slice(),
            Out::Link => {
                if self.taken == 0 {
                    self.unlinked.as_slice()
                } else {
                    self.links[self.taken - 1].written.as_slice()
                }
            }
        }
    }

    /// What was written to a link that was taken.
    pub fn link_written(&self, index: usize) -> &[u8]
        requires { index < length (view_of self.now).written.links }
        ensures { result.now ≡ get_or (view_of self.now).written.links index [] }
    {
        self.links[index].written.as_slice()
    }
}
