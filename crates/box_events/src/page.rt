//! Pages of a box.
ghost use Rattle.std.specs.Prelude.{◌≡◌, ◌+◌, ◌-◌, ◌<◌, ◌≤◌, ◌∷◌, ◌++◌, [], OnOk, OnErr, length, take, drop, Option, MatchOption};
ghost use Rattle.box_events.specs.Events.{count_of};
ghost use Rattle.box_events.specs.Boxes.{ending};
ghost use Rattle.box_events.specs.BoxViews.{end_of, IsBoundaryOf, BetweenOf};
ghost use Rattle.box_events.specs.inner.Runs.{SuffixAt};

use crate::event::Event;
use crate::limits::{MAX_END, PAGE_EVENTS};
use std::alloc::Global;
use std::marker::Model;
use tl_base::Memory;

/// A box of at most 256 events: the number at which it begins, and where each event ends.
pub struct Page {
    first: u32,
    ends: Vec<u32>,
    events: Vec<Event>,
    spare: usize,
}

// By hand, so that each exit of an owner has one call to prove.
impl Drop for Page {
    fn drop(self) {
        let Page {
            first: _,
            ends: _,
            events: _,
            spare: _,
        } = self;
    }
}

impl Model for Page {
    ghost use Rattle.box_events.specs.BoxViews.{BoxView};
    ghost use Rattle.box_events.specs.inner.Pages.{page_view, IsPage};

    ghost Value = { BoxView };

    ghost view = { page_view };

    ghost invariant = { IsPage };
}

impl Page {
    /// An empty page that begins at a number. No memory is taken.
    pub fn new(alloc: Global, first: u32) -> Page
        requires limit { first ≤ MAX_END }
        ensures { result ≡ record { first = first; events = []; spare = 0 } }
    {
        Page {
            first,
            ends: Vec::new(alloc),
            events: Vec::new(alloc),
            spare: 0,
        }
    }

    /// Takes memory for so many more events.
    pub fn reserve(&mut self, more: usize) -> Result<(), Memory>
        requires few { length self.old.events + more ≤ PAGE_EVENTS }
        ensures first { self.new.first ≡ self.old.first }
        ensures events { self.new.events ≡ self.old.events }
        ensures spare { self.old.spare ≤ self.new.spare }
        ensures ok { OnOk result (more ≤ self.new.spare) }
    {
        if more <= self.spare {
            return Ok(());
        }
        self.ends.reserve(more)?;
        self.events.reserve(more)?;
        self.spare = more;
        Ok(())
    }

    /// An empty page begins at a number.
    pub fn begin(&mut self, first: u32)
        requires empty { self.old.events ≡ [] }
        requires limit { first ≤ MAX_END }
        ensures { self.new ≡ record self.old { first = first } }
    {
        self.first = first;
    }

    /// Appends an event. No memory is taken.
    pub fn push(&mut self, event: Event)
        requires room { 0 < self.old.spare }
        requires limit { end_of self.old + count_of event ≤ MAX_END }
        ensures { self.new ≡ record { first = self.old.first; events = self.old.events ++ event ∷ []; spare = self.old.spare - 1 } }
    {
        let end = self.end() + event.count();
        self.ends.push_reserved(end);
        self.events.push_reserved(event);
        self.spare -= 1;
    }

    /// Drops the first `n` events.
    pub fn drop_first(&mut self, n: usize)
        requires some { n ≤ length self.old.events }
        ensures first { self.new.first ≡ self.old.first + ending (take n self.old.events) }
        ensures events { self.new.events ≡ drop n self.old.events }
        ensures spare { self.new.spare ≡ self.old.spare }
    {
        if n == 0 {
            return;
        }
        self.first = self.ends[n - 1];
        self.ends.drain(..n);
        self.events.drain(..n);
    }

    /// The number at which the page begins.
    pub fn first(&self) -> u32
        ensures { result ≡ self.now.first }
    {
        self.first
    }

    /// The number at which the page ends.
    pub fn end(&self) -> u32
        ensures { result ≡ end_of self.now }
    {
        match self.ends.last() {
            Some(end) => *end,
            None => self.first,
        }
    }

    /// How many events there are.
    pub fn len(&self) -> usize
        ensures value { result ≡ length self.now.events }
        ensures few { result + self.now.spare ≤ PAGE_EVENTS }
    {
        self.events.len()
    }

    /// How many more events may be appended without memory.
    pub fn spare(&self) -> usize
        ensures { result ≡ self.now.spare }
    {
        self.spare
    }

    /// The events from a number on; none where no event ends there and the page doesn't begin there.
    pub fn suffix_at(&self, at: u32) -> Option<&[Event]>
        ensures { MatchOption result (SuffixAt self.now at Option.None) (λ xs. SuffixAt self.now at (Option.Some xs.now)) }
    {
        if at == self.first {
            return Some(&self.events);
        }
        match self.ends.binary_search(&at) {
            Ok(i) => Some(self.events.split_at(i + 1).1),
            Err(_) => None,
        }
    }
}
