//! What an answer brings to a lane.
ghost use Rattle.std.specs.Prelude.{◌≡◌, ◌≤◌, ◌<◌, ◌+◌, ◌^◌, IfOk, IfErr, OnOk, length, vec_len};
ghost use Rattle.std.specs.List.{sum_by};
ghost use Rattle.box_events.specs.Events.{count_of};
ghost use Rattle.box_events.specs.Weaving.{Woven};
ghost use Rattle.box_events.specs.Refusal.{AreOthers, Refuses};
ghost use Rattle.box_events.specs.DifferenceLaws.{AreCountedOthers};
ghost use Rattle.channel_box.specs.Steps.{is_dropped};

use box_events::{Event, ListOf, MAX_END, Placed, WeaveFault, weave};
use pts_machine::{Lane, Seen};
use std::alloc::Global;
use tl_base::{Bytes, Fault};

/// The events that an answer brings from a lane's position to another, with room for them in the lane. The lane stays as it was.
pub fn weave_onto(
    alloc: Global,
    lane: &mut Lane<Event>,
    to: u32,
    news: ListOf<Bytes>,
    others: ListOf<Placed>,
) -> Result<Vec<Event>, Fault<WeaveFault>>
    requires to { to ≤ MAX_END }
    requires few { length news < 2 ^ 31 }
    requires others { AreOthers others }
    requires counted { AreCountedOthers others }
    ensures state { lane.new.state ≡ lane.old.state }
    ensures spare { lane.old.spare ≤ lane.new.spare }
    ensures woven { IfOk result (λ events. Woven lane.old.state.at to news others events.items) }
    ensures room { IfOk result (λ events. vec_len events ≤ lane.new.spare) }
    ensures limit { IfOk result (λ events. lane.old.state.at + sum_by count_of events.items ≤ MAX_END) }
    ensures refused { IfErr result (λ fault. Refuses lane.old.state.at to news others fault) }
{
    let events = weave(alloc, lane.at(), to, news, others)?;
    lane.reserve(events.len() as u32)?;
    Ok(events)
}

/// Whether there was no room to hold an item.
pub fn is_dropped(seen: Seen) -> bool
    ensures { result ≡ is_dropped seen }
{
    matches!(seen, Seen::Dropped)
}
