//! What comes to boxes, apart from these.
ghost use Rattle.std.specs.Prelude.{◌≡◌, ◌+◌, ◌≤◌, [], length};
ghost use Rattle.box_events.specs.declared.limits.TheConstants.{MAX_END};
ghost use Rattle.box_events.specs.Boxes.{ending};
ghost use Rattle.box_server.specs.Servers.{channel_end};
ghost use Rattle.box_server.specs.inner.Drafts.{AddsTo, AddsToChannel, tail_index};

use crate::fault::PostFault;
use box_events::{Event, LaneName, MAX_END};
use std::alloc::Global;
use std::marker::Model;

/// Events that come to a box: the number at which it ends, and where it will end with them. A channel's have its id.
pub struct Tail {
    id: i64,
    first: u32,
    end: u32,
    events: Vec<Event>,
}

// By hand, so that each exit of an owner has one call to prove.
impl Drop for Tail {
    fn drop(self) {
        let Tail {
            id: _,
            first: _,
            end: _,
            events: _,
        } = self;
    }
}

impl Model for Tail {
    ghost use Rattle.box_server.specs.Servers.{ChannelBox};
    ghost use Rattle.box_server.specs.inner.ServerCodes.{channel_code};
    ghost use Rattle.box_server.specs.inner.Drafts.{tail_view, IsTail};

    ghost Value = { ChannelBox };

    ghost coded = { channel_code };

    ghost view = { tail_view };

    ghost invariant = { IsTail };
}

impl Tail {
    /// No events for a box that ends at a number. No memory is taken.
    pub fn new(alloc: Global, id: i64, first: u32) -> Tail
        requires { first ≤ MAX_END }
        ensures { result ≡ record { id = id; first = first; events = [] } }
    {
        Tail {
            id,
            first,
            end: first,
            events: Vec::new(alloc),
        }
    }

    pub fn id(&self) -> i64
        ensures { result ≡ self.now.id }
    {
        self.id
    }

    /// How many events there are.
    pub fn len(&self) -> usize
        ensures value { result ≡ length self.now.events }
        ensures most { result ≤ MAX_END }
    {
        self.events.len()
    }

    /// Where the box will end.
    pub fn end(&self) -> u32
        ensures value { result ≡ channel_end self.now }
        ensures most { result ≤ MAX_END }
    {
        self.end
    }

    /// Adds an event, and answers where it ends. The box of this lane is full where it would end above 1,000,000.
    pub fn add(&mut self, lane: LaneName, event: Event) -> Result<u32, PostFault>
        ensures { AddsTo lane self.old self.new event result }
    {
        let count = event.count();
        if count > MAX_END - self.end {
            return Err(PostFault::BoxFull { lane, at: self.end });
        }
        self.events.push(event)?;
        self.end += count;
        Ok(self.end)
    }

    /// The events, not copied.
    pub fn into_events(self) -> Vec<Event>
        ensures events { result.items ≡ self.events }
        ensures most { self.first + ending self.events ≤ MAX_END }
    {
        let Tail {
            id: _,
            first: _,
            end: _,
            events,
        } = self;
        events
    }
}

/// Where the tail of a channel stands among others.
pub fn index_of(tails: &[Tail], id: i64) -> Option<usize>
    ensures { result ≡ tail_index 0 id tails.now }
{
    for (i, tail) in tails.iter().enumerate() {
        if tail.id() == id {
            return Some(i);
        }
    }
    None
}

/// Adds an event to a channel's tail, to a new one where it has none, and answers where the event ends.
pub fn add_to(tails: &mut Vec<Tail>, id: i64, event: Event) -> Result<u32, PostFault>
    ensures { AddsToChannel tails.old.items tails.new.items id event result }
{
    let lane = LaneName::Channel { id };
    let Some(i) = index_of(tails, id) else {
        let mut tail = Tail::new(*tails.allocator(), id, 0);
        let end = tail.add(lane, event)?;
        tails.push(tail)?;
        return Ok(end);
    };
    tails[i].add(lane, event)
}
