//! Channels.
ghost use Rattle.std.specs.Prelude.{◌≡◌, ◌≤◌, ◌+◌, ◌++◌, IfOk, OnOk, length};
ghost use Rattle.box_events.specs.declared.limits.TheConstants.{MAX_END};
ghost use Rattle.box_events.specs.Boxes.{ending};
ghost use Rattle.box_events.specs.BoxViews.{end_of};
ghost use Rattle.box_server.specs.Posting.{cut};
ghost use Rattle.box_server.specs.Servers.{empty_channel};
ghost use Rattle.box_server.specs.inner.Insides.{channel_view};

use crate::tail::Tail;
use box_events::{Event, EventBox, KEPT_EVENTS};
use std::alloc::Global;
use tl_base::Memory;

/// A channel and its box, of which the last 500 events are kept.
pub struct Channel {
    pub id: i64,
    pub events: EventBox,
}

// By hand, so that each exit of an owner has one call to prove.
impl Drop for Channel {
    fn drop(self) {
        let Channel { id: _, events: _ } = self;
    }
}

impl Channel {
    /// A channel to which nothing was posted, with room for what comes.
    pub fn open(alloc: Global, tail: &Tail) -> Result<Channel, Memory>
        ensures empty { IfOk result (λ c. channel_view c ≡ empty_channel tail.now.id) }
        ensures room { IfOk result (λ c. length tail.now.events ≤ c.events.spare) }
    {
        let mut events = EventBox::new(alloc);
        events.reserve(tail.len() as u32)?;
        Ok(Channel {
            id: tail.id(),
            events,
        })
    }

    /// Takes memory for what comes.
    pub fn reserve(&mut self, tail: &Tail) -> Result<(), Memory>
        ensures same { channel_view self.new ≡ channel_view self.old }
        ensures ok { OnOk result (length tail.now.events ≤ self.new.events.spare) }
    {
        self.events.reserve(tail.len() as u32)
    }

    /// Appends events, and keeps the last 500. No memory is taken.
    pub fn append(&mut self, events: Vec<Event>)
        requires room { length events.items ≤ self.old.events.spare }
        requires limit { end_of self.old.events + ending events.items ≤ MAX_END }
        ensures { channel_view self.new ≡ cut (record (channel_view self.old) { events = self.old.events.events ++ events.items }) }
    {
        append_all(&mut self.events, events);
        self.events.keep_last(KEPT_EVENTS);
    }
}

/// Appends events to a box. No memory is taken.
pub fn append_all(to: &mut EventBox, events: Vec<Event>)
    requires room { length events.items ≤ to.old.spare }
    requires limit { end_of to.old + ending events.items ≤ MAX_END }
    ensures first { to.new.first ≡ to.old.first }
    ensures events { to.new.events ≡ to.old.events ++ events.items }
{
    for event in events {
        match to.append(event) {
            Ok(()) => {}
            Err(_) => unreachable!(),
        }
    }
}
