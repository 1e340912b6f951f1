//! Boxes.
ghost use Rattle.std.specs.Prelude.{◌≡◌, ◌<◌, ◌≤◌, ◌+◌, ◌∷◌, ◌++◌, [], OnOk, OnErr, IfOk, length, Option, MatchOption};
ghost use Rattle.std.specs.Bool.{Decides};
ghost use Rattle.box_events.specs.Boxes.{AreCounted};
ghost use Rattle.box_events.specs.BoxViews.{end_of, IsBoundaryOf, BetweenOf, KeepsLast};
ghost use Rattle.box_events.specs.Appending.{Appends};
ghost use Rattle.box_events.specs.Finding.{EventAt};
ghost use Rattle.box_events.specs.inner.Runs.{RunAt, Copies};

use crate::event::Event;
use crate::fault::BoxFault;
use crate::limits::MAX_END;
use crate::page::Page;
use crate::paging::{drop_first, make_room, reserve_events, whole_pages};
use std::alloc::Global;
use std::marker::Model;
use tl_base::Memory;

/// A box: events in order, each of which counts for some of its numbers. It ends at the sum of their counts. The first events may have gone.
pub struct EventBox {
    pages: Vec<Page>,
    // Events are appended to this page.
    last: Page,
    // Empty pages with room for 256 events.
    spares: Vec<Page>,
    first: u32,
    end: u32,
    len: u32,
    spare: u32,
}

// By hand, so that each exit of an owner has one call to prove.
impl Drop for EventBox {
    fn drop(self) {
        let EventBox {
            pages: _,
            last: _,
            spares: _,
            first: _,
            end: _,
            len: _,
            spare: _,
        } = self;
    }
}

impl Model for EventBox {
    ghost use Rattle.box_events.specs.BoxViews.{BoxView};
    ghost use Rattle.box_events.specs.inner.Insides.{box_view, IsBox};

    ghost Value = { BoxView };

    ghost view = { box_view };

    ghost invariant = { IsBox };
}

impl EventBox {
    /// An empty box that begins at 0. No memory is taken.
    pub fn new(alloc: Global) -> EventBox
        ensures { result ≡ record { first = 0; events = []; spare = 0 } }
    {
        EventBox {
            pages: Vec::new(alloc),
            last: Page::new(alloc, 0),
            spares: Vec::new(alloc),
            first: 0,
            end: 0,
            len: 0,
            spare: 0,
        }
    }

    /// Takes memory for so many more events.
    pub fn reserve(&mut self, more: u32) -> Result<(), Memory>
        ensures first { self.new.first ≡ self.old.first }
        ensures events { self.new.events ≡ self.old.events }
        ensures spare { self.old.spare ≤ self.new.spare }
        ensures ok { OnOk result (more ≤ self.new.spare) }
        ensures err { OnErr result (self.new ≡ self.old) }
    {
        if more <= self.spare {
            return Ok(());
        }
        reserve_events(
            &mut self.pages,
            &mut self.last,
            &mut self.spares,
            more as usize,
        )?;
        self.spare = more;
        Ok(())
    }

    /// Appends an event. It takes memory only where none is spare.
    pub fn append(&mut self, event: Event) -> Result<(), BoxFault>
        ensures answer { Appends self.old self.new event result }
        ensures stretch { OnOk result (BetweenOf self.new (end_of self.old) (end_of self.new) (event ∷ [])) }
    {
        let count = event.count();
        if count > MAX_END - self.end {
            return Err(BoxFault::BoxFull { at: self.end });
        }
        make_room(
            &mut self.pages,
            &mut self.last,
            &mut self.spares,
            self.spare,
        )?;
        self.last.push(event);
        self.end += count;
        self.len += 1;
        self.spare = self.spare.saturating_sub(1);
        Ok(())
    }

    /// The number at which the kept events begin: the sum of the counts of those that went.
    pub fn first(&self) -> u32
        ensures { result ≡ self.now.first }
    {
        self.first
    }

    /// The number at which the box ends.
    pub fn end(&self) -> u32
        ensures value { result ≡ end_of self.now }
        ensures most { result ≤ MAX_END }
        ensures counted { AreCounted self.now.events }
    {
        self.end
    }

    /// How many events are kept.
    pub fn len(&self) -> u32
        ensures { result ≡ length self.now.events }
    {
        self.len
    }

    /// Whether the kept events begin at this number, or one of them ends there.
    pub fn at_boundary(&self, at: u32) -> bool
        ensures { Decides result (IsBoundaryOf self.now at) }
    {
        self.run_at(at).is_some()
    }

    /// The event that starts at this number.
    pub fn event_at(&self, at: u32) -> Option<&Event>
        ensures { MatchOption result (EventAt self.now at Option.None) (λ e. EventAt self.now at (Option.Some e.now)) }
    {
        self.run_at(at)?.first()
    }

    /// Copies of the events from one number to another.
    pub fn between(&self, from: u32, to: u32) -> Result<Vec<Event>, Memory>
        requires from { IsBoundaryOf self.now from }
        requires to { IsBoundaryOf self.now to }
        requires order { from ≤ to }
        ensures { IfOk result (λ v. BetweenOf self.now from to v.items) }
    {
        let mut copies = Vec::new(*self.pages.allocator());
        let mut at = from;
        while at < to {
            at = self.copy_run(at, to, &mut copies)?;
        }
        Ok(copies)
    }

    /// Drops all but the last `n` events. No memory is taken.
    pub fn keep_last(&mut self, n: u32)
        requires some { 1 ≤ n }
        ensures { KeepsLast self.old self.new n }
    {
        if self.len <= n {
            return;
        }
        let number = (self.len - n) as usize;
        let (whole, rest) = whole_pages(&self.pages, number);
        self.pages.drain(..whole);
        self.first = drop_first(&mut self.pages, &mut self.last, rest);
        self.len = n;
    }

    // The events of a page from a number on.
    fn run_at(&self, at: u32) -> Option<&[Event]>
        ensures { MatchOption result (RunAt self.now at Option.None) (λ xs. RunAt self.now at (Option.Some xs.now)) }
    {
        if self.last.first() <= at {
            return self.last.suffix_at(at);
        }
        let after = self.pages.partition_point(|page| page.first() <= at);
        if after == 0 {
            return None;
        }
        self.pages[after - 1].suffix_at(at)
    }

    // Appends copies of the events from `at` on, up to `to` or the page's end, and answers where they end.
    fn copy_run(&self, at: u32, to: u32, copies: &mut Vec<Event>) -> Result<u32, Memory>
        requires from { IsBoundaryOf self.now at }
        requires to { IsBoundaryOf self.now to }
        requires order { at < to }
        ensures { IfOk result (λ end. Copies self.now at to copies.old.items copies.new.items end) }
    {
        let Some(run) = self.run_at(at) else {
            unreachable!()
        };
        let mut end = at;
        for event in run {
            if end == to {
                return Ok(end);
            }
            copies.push(event.copy()?)?;
            end += event.count();
        }
        Ok(end)
    }
}
