//! The calls that were made, and how State ended. They stand in proofs alone, and take no memory.
ghost use Rattle.std.specs.Prelude.{◌≡◌, List, [], ◌∷◌, ◌++◌};
ghost use Rattle.std.specs.Borrow.{ftrue};
ghost use Rattle.outside.specs.Events.{Event};
ghost use Rattle.real_host.specs.declared.state_end.StateEnd.{StateEnd};

use crate::state_end::StateEnd;
use std::marker::Model;
use tl_base::{Out, Slot};

/// The events of a run, from its first call on, and what became of State since.
#[derive(Drop)]
pub(crate) struct Log {
    pub ghost events: { List Event },
    pub ghost ends: { List StateEnd },
}

impl Model for Log {
    ghost also_owns = { λ _. ftrue };
}

/// A call as it ended: whether it did its work; of a read the buffer after it, of a write the piece, and how many bytes of it were taken or put, or none
/// where it failed.
#[derive(Clone, Copy, Drop)]
pub(crate) enum Call<'a> {
    Open(Slot, &'a str, bool),
    Read(Slot, &'a [u8], Option<usize>),
    Create(Out, &'a str, bool),
    Write(Out, &'a [u8], Option<usize>),
    Listen(&'a str, bool),
    Connect(&'a str, bool),
    Accept(bool),
    Now(u32),
}

impl Log {
    ghost use Rattle.real_host.specs.Noted.{event_of};

    pub(crate) fn new() -> Log
        ensures { (result.events ≡ []) × (result.ends ≡ []) }
    {
        Log {}
    }

    /// With this call after the others.
    #[inline(always)]
    pub(crate) fn with(&self, _call: &Call<'_>) -> Log
        ensures { (result.events ≡ self.now.events ++ event_of _call.now ∷ []) × (result.ends ≡ self.now.ends) }
    {
        Log {}
    }

    /// With this end of State after the others.
    #[inline(always)]
    pub(crate) fn ended(&self, _end: &StateEnd) -> Log
        ensures { (result.events ≡ self.now.events) × (result.ends ≡ self.now.ends ++ _end.now ∷ []) }
    {
        Log {}
    }
}
