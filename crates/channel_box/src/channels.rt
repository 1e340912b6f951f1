//! The channels of a client.
ghost use Rattle.std.specs.Prelude.{◌≡◌, ◌≢◌, ◌<◌, ◌≤◌, ◌+◌, ◌++◌, ◌∷◌, ◌^◌, ℤ, [], map, OnOk, MatchOption, None, Some, length, is_some, true, false};
ghost use Rattle.std.specs.Ordering.{int_eq};
ghost use Rattle.box_events.specs.Events.{count_of};
ghost use Rattle.pts_machine.specs.declared.mode.Mode.TheVariants.{Asking};
ghost use Rattle.pts_machine.specs.Steps.{new_lane};
ghost use Rattle.channel_box.specs.States.{has_id, states, ids_of, first, spare_of, AreDistinct};
ghost use Rattle.channel_box.specs.Steps.{is_watched, channel_of, heard, told_too_long, woken, forgotten, asks_number, ticked};
ghost use Rattle.channel_box.specs.Calls.{Watches, Replies, KeepsRoom, HasRoomFor, IsInRange};
ghost use Rattle.channel_box.specs.Looks.{LaneIs, recent_of, any_asks};

use crate::channel::Channel;
use crate::each::{
    forget_all, index_asking, index_of, is_one_waiting, reserve_all, tick_all, wake_all,
};
use crate::fault::WatchFault;
use box_events::{Asks, ChannelReply, Event, ListOf, MAX_CHANNELS, MAX_END, Update, WeaveFault};
use pts_machine::Lane;
use std::alloc::Global;
use std::marker::Model;
use tl_base::{Bytes, Fault, Memory};

/// The channels that a client watches, 64 at most, in order of watching.
pub struct Channels {
    ids: Vec<i64>,
    channels: Vec<Channel>,
}

// By hand, so that each exit of an owner has one call to prove.
impl Drop for Channels {
    fn drop(self) {
        let Channels {
            ids: _,
            channels: _,
        } = self;
    }
}

impl Model for Channels {
    ghost use Rattle.std.specs.Prelude.{List};
    ghost use Rattle.std.specs.Coded.{coded_list};
    ghost use Rattle.channel_box.specs.States.{ChannelView, view_code};
    ghost use Rattle.channel_box.specs.Views.{view_of, IsWhole};

    ghost Value = { List ChannelView };

    ghost coded = { coded_list view_code };

    ghost view = { view_of };

    ghost invariant = { IsWhole };
}

impl Channels {
    /// No channels.
    pub fn new(alloc: Global) -> Channels
        ensures { result ≡ [] }
    {
        Channels {
            ids: Vec::new(alloc),
            channels: Vec::new(alloc),
        }
    }

    /// Watches a channel from now on, last in order.
    pub fn watch(&mut self, alloc: Global, id: i64) -> Result<(), WatchFault>
        ensures step { Watches self.old (channel_of id new_lane []) result self.new }
    {
        self.add(id, Lane::new(alloc), ListOf::new(alloc))
    }

    /// Watches a channel from now on, last in order, with a lane that isn't waiting for an answer and the bodies of its recent messages.
    pub fn add(
        &mut self,
        id: i64,
        lane: Lane<Event>,
        recent: ListOf<Bytes>,
    ) -> Result<(), WatchFault>
        ensures step { Watches self.old (channel_of id lane.state recent) result self.new }
    {
        if index_of(&self.channels, id).is_some() {
            return Err(WatchFault::Already);
        }
        if self.channels.len() >= MAX_CHANNELS {
            return Err(WatchFault::TooMany);
        }
        self.ids.reserve(1)?;
        self.channels.reserve(1)?;
        self.ids.push_reserved(id);
        self.channels.push_reserved(Channel::new(id, lane, recent));
        Ok(())
    }

    /// Takes memory for the channel updates of a list: each watched channel has room for its own then.
    pub fn reserve(&mut self, updates: &[Update]) -> Result<(), Memory>
        ensures state { states self.new ≡ states self.old }
        ensures spare { KeepsRoom self.old self.new }
        ensures ok { OnOk result (HasRoomFor self.new updates.now) }
    {
        reserve_all(&mut self.channels, updates)
    }

    /// An update of a channel comes: an event with the numbers between which it stands in the channel's box. One that isn't watched changes nothing.
    pub fn push(&mut self, id: i64, start: u32, end: u32, event: Event)
        requires counts { end ≡ start + count_of event }
        requires limit { end ≤ MAX_END }
        requires room { is_watched (states self.old) id ≡ true → 0 < spare_of self.old id }
        ensures step { states self.new ≡ heard (states self.old) id start end event }
        ensures spare { spare_of self.old id ≤ spare_of self.new id + 1 }
        ensures others { (k : ℤ) → int_eq k id ≡ false → spare_of self.old k ≤ spare_of self.new k }
    {
        if let Some(i) = index_of(&self.channels, id) {
            self.channels[i].hear(start, end, event);
        }
    }

    /// More is new in a channel than an update would carry ("updateChannelTooLong").
    pub fn too_long(&mut self, id: i64)
        ensures step { states self.new ≡ told_too_long (states self.old) id }
        ensures spare { KeepsRoom self.old self.new }
    {
        if let Some(i) = index_of(&self.channels, id) {
            self.channels[i].set_flag();
        }
    }

    /// Each channel is to be asked about.
    pub fn wake(&mut self)
        ensures step { states self.new ≡ woken (states self.old) }
        ensures spare { KeepsRoom self.old self.new }
    {
        wake_all(&mut self.channels);
    }

    /// What is held goes, no answer is waited for, and no flag is set.
    pub fn forget(&mut self)
        ensures step { states self.new ≡ forgotten (states self.old) }
        ensures spare { KeepsRoom self.old self.new }
    {
        forget_all(&mut self.channels);
    }

    /// Puts a request for each channel that is due, under the numbers from `next` on, and answers the next number.
    pub fn tick(&mut self, next: u32, asks: &mut Asks) -> u32
        requires limit { next ≤ 2147483583 }
        requires room { length asks.old ≤ 1 }
        ensures next { result ≡ (ticked next (states self.old)).next }
        ensures step { states self.new ≡ (ticked next (states self.old)).channels }
        ensures asks { asks.new ≡ asks.old ++ (ticked next (states self.old)).asks }
        ensures spare { KeepsRoom self.old self.new }
    {
        tick_all(&mut self.channels, next, asks)
    }

    /// An answer comes, which the channel takes that asked under its number. `false` where none did.
    pub fn reply(
        &mut self,
        alloc: Global,
        number: u32,
        reply: ChannelReply,
    ) -> Result<bool, Fault<WeaveFault>>
        requires range { IsInRange reply }
        ensures step { Replies self.old number reply result self.new }
    {
        match index_asking(&self.channels, number) {
            Some(i) => {
                self.channels[i].reply(alloc, reply)?;
                Ok(true)
            }
            None => Ok(false),
        }
    }

    /// The lane of a channel that is watched.
    pub fn lane(&self, id: i64) -> Option<&Lane<Event>>
        ensures { MatchOption result (first (has_id id) (states self.now) ≡ None) (λ lane. LaneIs (first (has_id id) (states self.now)) lane.now.state) }
    {
        let i = index_of(&self.channels, id)?;
        Some(self.channels[i].lane())
    }

    /// The bodies of the messages that were told in place of older events; none for a channel that isn't watched.
    pub fn recent(&self, id: i64) -> &[Bytes]
        ensures { result.now ≡ recent_of (first (has_id id) (states self.now)) }
    {
        match index_of(&self.channels, id) {
            Some(i) => self.channels[i].recent(),
            None => &[],
        }
    }

    /// The ids of the channels, in order of watching.
    pub fn ids(&self) -> &[i64]
        ensures value { result.now ≡ ids_of (states self.now) }
        ensures distinct { AreDistinct result.now }
        ensures few { length result.now ≤ MAX_CHANNELS }
    {
        &self.ids
    }

    /// Whether a channel waits for an answer.
    pub fn asking(&self) -> bool
        ensures { result ≡ any_asks (states self.now) }
    {
        is_one_waiting(&self.channels)
    }

    /// Whether a channel waits for the answer to the request of this number.
    pub fn asks(&self, number: u32) -> bool
        ensures { result ≡ is_some (first (asks_number number) (states self.now)) }
    {
        index_asking(&self.channels, number).is_some()
    }
}
