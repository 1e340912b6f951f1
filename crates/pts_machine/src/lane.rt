//! Lanes.
ghost use Rattle.std.specs.Prelude.{◌≡◌, ◌<◌, ◌≤◌, ◌+◌, vec_len, OnOk, OnErr};
ghost use Rattle.std.specs.List.{sum_by};
ghost use Rattle.std.specs.FinMap as map;
ghost use Rattle.pts_machine.specs.Chains.{AreChained};
ghost use Rattle.pts_machine.specs.States.{IsSound};
ghost use Rattle.pts_machine.specs.Steps.{hear, Hears, extend, restart_at, forget, asked, loaded, new_lane};

use crate::Gap;
use crate::chains::settle;
use crate::counted::Counted;
use crate::mode::{Mode, is_next};
use crate::seen::{Seen, outcome_of};
use crate::stretches::{append, end_of};
use std::alloc::Global;
use std::marker::Model;
use tl_base::Memory;

/// The events of a box from a restart on, and held items.
pub struct Lane<E: Counted> {
    restart: u32,
    events: Vec<E>,
    at: u32,
    gap: Gap<E>,
    mode: Mode,
    // for how many more items memory was taken
    spare: u32,
}

// By hand, so that each exit of an owner has one call to prove.
impl<E: Counted> Drop for Lane<E> {
    fn drop(self) {
        let Lane {
            restart: _,
            events: _,
            at: _,
            gap: _,
            mode: _,
            spare: _,
        } = self;
    }
}

impl<E: Counted> Model for Lane<E> {
    ghost use Rattle.pts_machine.specs.States.{LaneView, lane_code};
    ghost use Rattle.pts_machine.specs.Views.{view_of, IsWhole};

    ghost Value = { LaneView E };

    ghost coded = { lane_code E.code };

    ghost view = { view_of };

    ghost invariant = { IsWhole E.count };
}

impl<E: Counted> Lane<E> {
    /// A lane that has heard of nothing.
    pub fn new(alloc: Global) -> Lane<E>
        ensures { result.state ≡ new_lane }
    {
        Lane {
            restart: 0,
            events: Vec::new(alloc),
            at: 0,
            gap: Gap::new(alloc),
            mode: Mode::Live,
            spare: 0,
        }
    }

    /// A lane that began at a restart and has these events since.
    pub fn load(alloc: Global, restart: u32, events: Vec<E>) -> Lane<E>
        requires limit { restart + sum_by E.count events.items ≤ 1000000 }
        ensures { result.state ≡ loaded E.count restart events.items }
    {
        let at = end_of(restart, &events);
        Lane {
            restart,
            events,
            at,
            gap: Gap::new(alloc),
            mode: Mode::Live,
            spare: 0,
        }
    }

    /// Takes memory for so many further items beside everything held.
    pub fn reserve(&mut self, more: u32) -> Result<(), Memory>
        ensures state { self.new.state ≡ self.old.state }
        ensures spare { self.old.spare ≤ self.new.spare }
        ensures ok { OnOk result (more ≤ self.new.spare) }
        ensures err { OnErr result (self.new ≡ self.old) }
    {
        self.gap.reserve(more)?;
        self.events
            .reserve(self.gap.len() as usize + more as usize)?;
        self.spare = self.spare.max(more);
        Ok(())
    }

    /// An item comes: an event with the numbers between which it stands in its box.
    pub fn push(&mut self, start: u32, end: u32, event: E) -> Seen
        requires counts { end ≡ start + E.count event }
        requires limit { end ≤ 1000000 }
        requires room { 0 < self.old.spare }
        ensures step { hear self.old.state start end event ≡ record { state = self.new.state; seen = result } }
        ensures told { Hears self.old.state start end event result self.new.state }
        ensures spare { self.old.spare ≤ self.new.spare + 1 }
    {
        if start < self.at {
            return Seen::Already;
        }
        if is_next(self.mode, start, self.at) {
            self.events.push_reserved(event);
            self.at = settle(&mut self.events, end, &mut self.gap);
            self.spare -= 1;
            return Seen::Applied { to: self.at };
        }
        let end = start + event.count();
        let held = self.gap.hold(start, end, event);
        let (seen, kept) = outcome_of(held, 1);
        self.spare -= kept;
        seen
    }

    /// The lane waits for the answer to the request of this number.
    pub fn ask(&mut self, number: u32)
        ensures step { self.new.state ≡ asked self.old.state number }
        ensures spare { self.old.spare ≤ self.new.spare }
    {
        self.mode = Mode::Asking(number);
    }

    /// An answer comes, with the events that follow: the last part of it, or one after which more is to be asked for.
    pub fn extend(&mut self, events: Vec<E>, last: bool)
        requires limit { self.old.state.at + sum_by E.count events.items ≤ 1000000 }
        requires room { vec_len events ≤ self.old.spare }
        ensures step { self.new.state ≡ extend E.count self.old.state events.items last }
        ensures spare { self.old.spare ≤ self.new.spare + vec_len events }
    {
        let number = events.len();
        self.at = append(&mut self.events, self.at, events);
        self.spare -= number as u32;
        self.gap.drop_to(self.at);
        if last {
            self.mode = Mode::Live;
            self.at = settle(&mut self.events, self.at, &mut self.gap);
        } else {
            self.mode = Mode::Again;
        }
    }

    /// The lane begins anew at this number, since what it missed is too much to be told.
    pub fn restart_at(&mut self, at: u32)
        requires limit { at ≤ 1000000 }
        ensures step { self.new.state ≡ restart_at E.count self.old.state at }
        ensures spare { self.old.spare ≤ self.new.spare }
    {
        self.restart = at;
        self.events.clear();
        self.gap.drop_to(at);
        self.mode = Mode::Live;
        self.at = settle(&mut self.events, at, &mut self.gap);
    }

    /// What is held goes, and no answer is waited for.
    pub fn forget(&mut self)
        ensures step { self.new.state ≡ forget self.old.state }
        ensures spare { self.old.spare ≤ self.new.spare }
    {
        self.gap.clear();
        self.mode = Mode::Live;
    }

    /// Up to where the events reach.
    pub fn at(&self) -> u32
        ensures value { result ≡ self.now.state.at }
        ensures sound { IsSound E.count self.now.state }
    {
        self.at
    }

    /// Where the events begin.
    pub fn restart(&self) -> u32
        ensures { result ≡ self.now.state.restart }
    {
        self.restart
    }

    /// Whether an answer is waited for.
    pub fn mode(&self) -> Mode
        ensures { result ≡ self.now.state.mode }
    {
        self.mode
    }

    /// How many items are held.
    pub fn held(&self) -> u32
        ensures number { result ≡ map.len self.now.state.held }
        ensures most { result ≤ 1024 }
        ensures chained { AreChained self.now.state.held }
    {
        self.gap.len()
    }

    /// The events from the restart to the position.
    pub fn events(&self) -> &[E]
        ensures { result.now ≡ self.now.state.events }
    {
        &self.events
    }
}
