//! A source in memory.
ghost use Rattle.std.specs.Prelude.{◌≡◌, ◌<◌, ◌≤◌, IsErr, Ok, length};
ghost use Rattle.std.specs.Io.{ReadsAtMost};
ghost use Rattle.std.specs.Io.KnownBytes.{ReadConsumes};
ghost use Rattle.tl_base.specs.Causes.{count_after};
ghost use Rattle.tl_numbers.specs.Bytes.{AreBytes};
ghost use Rattle.tl_base.specs.Using.{Used};

use crate::fault::Failed;
use crate::pieces::{give, most_at};
use crate::source::Source;
use tl_numbers::Bytes;

/// Bytes in memory, given in pieces.
pub struct MemSource {
    bytes: Bytes,
    at: usize,
    cuts: Vec<u32>,
    fails: Vec<u64>,
    reads: u64,
    faults: u64,
    ghost fits: { AreBytes bytes },
}

// By hand, so that each exit of an owner has one call to prove.
impl Drop for MemSource {
    fn drop(self) {
        let MemSource {
            bytes: _,
            at: _,
            cuts: _,
            fails: _,
            reads: _,
            faults: _,
        } = self;
    }
}

impl MemSource {
    ghost use Rattle.tl_base.specs.Memory.{source_bytes, source_faults, is_sound_source, IsUnread};

    /// Read number k, from 0 and without those into empty buffers, gives at most `cuts[k]` bytes where that stands and is
    /// above 0, and fails exactly where k is in `fails`.
    pub fn new(bytes: Bytes, cuts: Vec<u32>, fails: Vec<u64>) -> MemSource
        ensures bytes { source_bytes result ≡ bytes }
        ensures faults { source_faults result ≡ 0 }
        ensures first { IsUnread result cuts fails }
    {
        MemSource {
            bytes,
            at: 0,
            cuts,
            fails,
            reads: 0,
            faults: 0,
        }
    }
}

impl Source for MemSource {
    ghost use Rattle.tl_base.specs.Memory.{source_state, source_faults, ReadsPiece, CountsRead};
    ghost use Rattle.tl_base.specs.MemoryLaws.{rest_bytes};

    ghost state = { source_state };

    ghost are_bytes = { λ s. rest_bytes s.at s.bytes s.fits };

    fn read(&mut self, into: &mut [u8]) -> Result<usize, Failed>
        ensures bound { ReadsAtMost result into.new }
        ensures empty { length into.old ≡ 0 → result ≡ Ok 0 }
        ensures bytes { ReadConsumes (source_state self.old).left (source_state self.new).left result into.new }
        ensures used { Used (source_state self.old) (source_state self.new) (IsErr result) }
        ensures piece { 0 < length into.old → ReadsPiece self.old (length into.old) result }
        ensures counts { 0 < length into.old → CountsRead self.old self.new }
        ensures exact { source_faults self.new ≡ count_after (source_faults self.old) result }
        ensures still { length into.old ≡ 0 → self.new ≡ self.old }
    {
        if into.is_empty() {
            return Ok(0);
        }
        let number = self.reads;
        self.reads = self.reads.saturating_add(1);
        if self.fails.contains(&number) {
            self.faults = self.faults.saturating_add(1);
            return Err(Failed);
        }
        let most = most_at(&self.cuts, number);
        Ok(give(self.bytes.as_slice(), &mut self.at, most, into))
    }
}
