//! What a difference carries of a box.
ghost use Rattle.std.specs.Prelude.{◌≡◌, [], IfOk, map, length};
ghost use Rattle.box_events.specs.Events.{is_new};
ghost use Rattle.box_events.specs.BoxViews.{IsBoundaryOf};
ghost use Rattle.box_events.specs.Weaving.{bodies};
ghost use Rattle.box_server.specs.Entries.{bytes_of};
ghost use Rattle.box_server.specs.Runs.{recent_of, limited};
ghost use Rattle.box_server.specs.inner.Carrying.{Carries, Fills};

use box_events::{
    Event, EventBox, EventKind, ID_BYTES, ListOf, Parts, RECENT_BYTES, RECENT_EVENTS, RUN_BYTES,
    RUN_EVENTS,
};
use std::alloc::Global;
use tl_base::{Bytes, Memory};

/// The events that a difference carries from a position, where they end, and whether the box ends there.
#[derive(Drop)]
pub struct Run {
    pub parts: Parts,
    pub end: u32,
    pub is_whole: bool,
}

/// What a difference carries from a position of a box; none where that is no boundary.
pub fn run_from(alloc: Global, events: &EventBox, from: u32) -> Result<Option<Run>, Memory>
    ensures { IfOk result (Carries events.now from) }
{
    if !events.at_boundary(from) {
        return Ok(None);
    }
    let mut parts = Parts::new(alloc, from);
    let end = fill(&mut parts, events, from)?;
    let is_whole = end == events.end();
    Ok(Some(Run {
        parts,
        end,
        is_whole,
    }))
}

// Adds what a difference carries from a boundary of a box, and answers where it ends.
fn fill(parts: &mut Parts, events: &EventBox, from: u32) -> Result<u32, Memory>
    requires boundary { IsBoundaryOf events.now from }
    requires from { parts.old.from ≡ from }
    requires empty { parts.old.events ≡ [] }
    ensures { IfOk result (Fills events.now from parts.new) }
{
    let stop = events.end();
    let mut end = from;
    let mut left = RUN_BYTES;
    for _ in 0..RUN_EVENTS {
        let Some(event) = events.event_at(end) else {
            return Ok(end);
        };
        let bytes = bytes_of(event);
        if bytes > left {
            return Ok(end);
        }
        parts.add(event)?;
        end += event.count();
        left -= bytes;
    }
    Ok(end)
}

/// Of how many bytes an event is: a body has its own, an id has four.
pub fn bytes_of(event: &Event) -> usize
    ensures { result ≡ bytes_of event.now }
{
    match event.kind() {
        EventKind::New | EventKind::Edit => event.body().len(),
        EventKind::Delete => ID_BYTES * event.ids().len(),
        EventKind::Read { .. } => ID_BYTES,
    }
}

/// The recent messages of a box, by their bodies.
pub fn recent(alloc: Global, events: &EventBox) -> Result<ListOf<Bytes>, Memory>
    ensures { IfOk result (λ l. l ≡ recent_of events.now.events) }
{
    let mut messages = messages_in(alloc, events)?;
    messages.reverse();
    let mut recent = first_of(alloc, &messages)?;
    recent.reverse();
    Ok(ListOf::from_vec(recent))
}

// The bodies of the messages that a box keeps.
fn messages_in(alloc: Global, events: &EventBox) -> Result<Vec<&[u8]>, Memory>
    ensures { IfOk result (λ v. map (λ b. b.now) v.items ≡ bodies events.now.events) }
{
    let stop = events.end();
    let mut messages = Vec::new(alloc);
    let mut at = events.first();
    while let Some(event) = events.event_at(at) {
        if is_message(event) {
            messages.push(event.body())?;
        }
        at += event.count();
    }
    Ok(messages)
}

fn is_message(event: &Event) -> bool
    ensures { result ≡ is_new event.now }
{
    matches!(event.kind(), EventKind::New)
}

// Copies of the first messages, of which a channel is told where it is too far behind.
fn first_of(alloc: Global, messages: &[&[u8]]) -> Result<Vec<Bytes>, Memory>
    ensures { IfOk result (λ v. v.items ≡ limited length RECENT_EVENTS RECENT_BYTES (map (λ b. b.now) messages.now)) }
{
    let mut copies = Vec::new(alloc);
    let mut left = RECENT_BYTES;
    for message in messages {
        if copies.len() == RECENT_EVENTS {
            return Ok(copies);
        }
        if message.len() > left {
            return Ok(copies);
        }
        copies.push(Bytes::from_slice(alloc, message)?)?;
        left -= message.len();
    }
    Ok(copies)
}
