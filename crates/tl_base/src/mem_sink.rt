//! A sink in memory.
ghost use Rattle.std.specs.Prelude.{◌≡◌, ◌<◌, ◌≤◌, IsErr, Ok, IfOk, length, vec_capacity};
ghost use Rattle.std.specs.Io.{WritesAtMost};
ghost use Rattle.std.specs.Io.KnownBytes.{WriteAppends};
ghost use Rattle.tl_base.specs.Causes.{count_after};
ghost use Rattle.tl_base.specs.Using.{Wrote};

use crate::fault::{Failed, Memory};
use crate::pieces::put;
use crate::sink::Sink;
use std::alloc::Global;

/// Bytes written to memory, up to a bound.
pub struct MemSink {
    bytes: Vec<u8>,
    room: usize,
    fails: Vec<u64>,
    writes: u64,
    faults: u64,
    ghost reserved: { room ≤ vec_capacity bytes },
}

// By hand, so that each exit of an owner has one call to prove.
impl Drop for MemSink {
    fn drop(self) {
        let MemSink {
            bytes: _,
            room: _,
            fails: _,
            writes: _,
            faults: _,
        } = self;
    }
}

impl MemSink {
    ghost use Rattle.std.specs.Prelude.{[]};
    ghost use Rattle.tl_base.specs.Memory.{sink_bytes, sink_room, sink_faults, IsUnwritten};

    /// Takes memory for `room` bytes. Write number k, from 0 and without empty pieces, takes what still fits, and fails exactly
    /// where k is in `fails` or nothing fits.
    pub fn new(alloc: Global, room: u32, fails: Vec<u64>) -> Result<MemSink, Memory>
        ensures bytes { IfOk result (λ s. sink_bytes s ≡ []) }
        ensures room { IfOk result (λ s. sink_room s ≡ room) }
        ensures faults { IfOk result (λ s. sink_faults s ≡ 0) }
        ensures first { IfOk result (λ s. IsUnwritten s fails) }
    {
        Ok(MemSink {
            bytes: Vec::with_capacity(alloc, room as usize)?,
            room: room as usize,
            fails,
            writes: 0,
            faults: 0,
        })
    }

    /// The bytes that were written.
    pub fn as_slice(&self) -> &[u8]
        ensures { result.now ≡ sink_bytes self.now }
    {
        self.bytes.as_slice()
    }
}

impl Sink for MemSink {
    ghost use Rattle.tl_base.specs.Memory.{sink_state, sink_faults, TakesWhatFits, CountsWrite};

    ghost state = { sink_state };

    fn write(&mut self, piece: &[u8]) -> Result<usize, Failed>
        ensures bound { WritesAtMost result piece.now }
        ensures some { 0 < length piece.now → IfOk result (λ n. 0 < n) }
        ensures empty { length piece.now ≡ 0 → result ≡ Ok 0 }
        ensures bytes { WriteAppends (sink_state self.old).written (sink_state self.new).written result piece.now }
        ensures used { Wrote (sink_state self.old) (sink_state self.new) 1 (IsErr result) }
        ensures fits { 0 < length piece.now → TakesWhatFits self.old (length piece.now) result }
        ensures counts { 0 < length piece.now → CountsWrite self.old self.new }
        ensures exact { sink_faults self.new ≡ count_after (sink_faults self.old) result }
        ensures still { length piece.now ≡ 0 → self.new ≡ self.old }
    {
        if piece.is_empty() {
            return Ok(0);
        }
        let number = self.writes;
        self.writes = self.writes.saturating_add(1);
        if self.fails.contains(&number) {
            self.faults = self.faults.saturating_add(1);
            return Err(Failed);
        }
        match put(&mut self.bytes, self.room, piece) {
            Some(count) => Ok(count),
            None => {
                self.faults = self.faults.saturating_add(1);
                Err(Failed)
            }
        }
    }
}
