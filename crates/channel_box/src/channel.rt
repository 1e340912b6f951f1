//! One channel.
ghost use Rattle.std.specs.Prelude.{◌≡◌, ◌≢◌, ◌<◌, ◌≤◌, ◌+◌, ◌^◌, length, [], OnOk, OnErr, IfOk, IfErr};
ghost use Rattle.box_events.specs.Events.{count_of};
ghost use Rattle.pts_machine.specs.Steps.{hear};
ghost use Rattle.channel_box.specs.States.{has_id};
ghost use Rattle.box_events.specs.Refusal.{AreOthers};
ghost use Rattle.box_events.specs.DifferenceLaws.{AreCountedOthers};
ghost use Rattle.box_events.specs.Weaves.{woven_of};
ghost use Rattle.channel_box.specs.Steps.{channel_of, heard_by, flagged, forgot, asks_number, channel_is_due, channel_asks, ask_of, grown, replied};
ghost use Rattle.channel_box.specs.Looks.{waits};
ghost use Rattle.channel_box.specs.Calls.{updates_for, IsInRange, Comes};

use crate::woven::{is_dropped, weave_onto};
use box_events::{
    ChannelReply, Event, ListOf, MAX_END, Numbered, Placed, Request, Update, WeaveFault,
};
use pts_machine::{Lane, Mode};
use std::alloc::{AllocError, Global};
use std::marker::Model;
use tl_base::{Bytes, Fault, Memory};

/// A channel that is watched.
pub struct Channel {
    id: i64,
    lane: Lane<Event>,
    flag: bool,
    recent: ListOf<Bytes>,
}

// By hand, so that each exit of an owner has one call to prove.
impl Drop for Channel {
    fn drop(self) {
        let Channel {
            id: _,
            lane: _,
            flag: _,
            recent: _,
        } = self;
    }
}

impl Model for Channel {
    ghost use Rattle.channel_box.specs.States.{ChannelView, view_code};
    ghost use Rattle.channel_box.specs.ChannelViews.{channel_view};

    ghost Value = { ChannelView };

    ghost coded = { view_code };

    ghost view = { channel_view };
}

impl Channel {
    pub fn new(id: i64, lane: Lane<Event>, recent: ListOf<Bytes>) -> Channel
        ensures state { result.state ≡ channel_of id lane.state recent }
    {
        Channel {
            id,
            lane,
            flag: false,
            recent,
        }
    }

    pub fn has_id(&self, id: i64) -> bool
        ensures { result ≡ has_id id self.now.state }
    {
        self.id == id
    }

    pub fn asks_number(&self, number: u32) -> bool
        ensures { result ≡ asks_number number self.now.state }
    {
        match self.lane.mode() {
            Mode::Asking(n) => n == number,
            Mode::Live => false,
            Mode::Again => false,
        }
    }

    pub fn is_waiting(&self) -> bool
        ensures { result ≡ waits self.now.state }
    {
        match self.lane.mode() {
            Mode::Asking(_) => true,
            Mode::Live => false,
            Mode::Again => false,
        }
    }

    pub fn lane(&self) -> &Lane<Event>
        ensures state { result.now.state ≡ self.now.state.lane }
        ensures spare { result.now.spare ≡ self.now.spare }
    {
        &self.lane
    }

    pub fn recent(&self) -> &[Bytes]
        ensures { result.now ≡ self.now.state.recent }
    {
        self.recent.as_slice()
    }

    /// Takes memory for the channel's own updates of a list.
    pub fn reserve(&mut self, updates: &[Update]) -> Result<(), Memory>
        ensures state { self.new.state ≡ self.old.state }
        ensures spare { self.old.spare ≤ self.new.spare }
        ensures ok { OnOk result (updates_for self.old.state.id updates.now ≤ self.new.spare) }
    {
        let number = number_for(self.id, updates);
        if number > u32::MAX as usize {
            return Err(AllocError);
        }
        self.lane.reserve(number as u32)
    }

    pub fn hear(&mut self, start: u32, end: u32, event: Event)
        requires counts { end ≡ start + count_of event }
        requires limit { end ≤ MAX_END }
        requires room { 0 < self.old.spare }
        ensures step { self.new.state ≡ heard_by self.old.state (hear self.old.state.lane start end event) }
        ensures spare { self.old.spare ≤ self.new.spare + 1 }
    {
        let seen = self.lane.push(start, end, event);
        self.flag = self.flag || is_dropped(seen);
    }

    pub fn set_flag(&mut self)
        ensures step { self.new.state ≡ flagged self.old.state }
        ensures spare { self.old.spare ≤ self.new.spare }
    {
        self.flag = true;
    }

    pub fn forget(&mut self)
        ensures step { self.new.state ≡ forgot self.old.state }
        ensures spare { self.old.spare ≤ self.new.spare }
    {
        self.lane.forget();
        self.flag = false;
    }

    pub fn is_due(&self) -> bool
        ensures { result ≡ channel_is_due self.now.state }
    {
        match self.lane.mode() {
            Mode::Live => self.flag || 0 < self.lane.held(),
            Mode::Asking(_) => false,
            Mode::Again => true,
        }
    }

    pub fn ask(&mut self, number: u32) -> Numbered
        ensures step { self.new.state ≡ channel_asks self.old.state number }
        ensures ask { result ≡ ask_of self.old.state number }
        ensures spare { self.old.spare ≤ self.new.spare }
    {
        self.lane.ask(number);
        self.flag = false;
        Numbered {
            number,
            request: Request::Channel {
                id: self.id,
                pts: self.lane.at() as i32,
            },
        }
    }

    pub fn reply(&mut self, alloc: Global, reply: ChannelReply) -> Result<(), Fault<WeaveFault>>
        requires range { IsInRange reply }
        ensures step { Comes self.old.state (replied self.old.state reply) result self.new.state }
    {
        match reply {
            ChannelReply::Empty { pts, last } => {
                self.grow(alloc, pts, ListOf::new(alloc), ListOf::new(alloc), last)
            }
            ChannelReply::Part {
                pts,
                news,
                others,
                last,
            } => self.grow(alloc, pts, news, others, last),
            ChannelReply::TooLong { pts, recent, .. } => {
                self.lane.restart_at(pts);
                self.recent = recent;
                Ok(())
            }
        }
    }

    fn grow(
        &mut self,
        alloc: Global,
        to: u32,
        news: ListOf<Bytes>,
        others: ListOf<Placed>,
        last: bool,
    ) -> Result<(), Fault<WeaveFault>>
        requires to { to ≤ MAX_END }
        requires few { length news < 2 ^ 31 }
        requires others { AreOthers others }
        requires counted { AreCountedOthers others }
        ensures step { Comes self.old.state (grown self.old.state last (woven_of self.old.state.lane.at to news others)) result self.new.state }
    {
        let events = weave_onto(alloc, &mut self.lane, to, news, others)?;
        self.lane.extend(events, last);
        Ok(())
    }
}

// How many of the updates are for a channel.
fn number_for(id: i64, updates: &[Update]) -> usize
    ensures { result ≡ updates_for id updates.now }
{
    let mut number = 0;
    for update in updates {
        match update {
            Update::Channel { id: of, .. } => {
                if *of == id {
                    number += 1;
                }
            }
            Update::Common { .. }
            | Update::Secret { .. }
            | Update::ChannelTooLong { .. }
            | Update::Setting { .. } => {}
        }
    }
    number
}
