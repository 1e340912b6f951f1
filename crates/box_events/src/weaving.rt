//! Weaving.
ghost use Rattle.std.specs.Prelude.{◌≡◌, ◌≤◌, ◌<◌, ◌+◌, ◌^◌, ℕ, [], IfOk, IfErr, None, length, vec_len, vec_capacity};
ghost use Rattle.std.specs.Vec.Iter.{into_iter_items, into_iter_len};
ghost use Rattle.box_events.specs.Weaving.{Woven};
ghost use Rattle.box_events.specs.Refusal.{AreOthers, Refuses, overlap};
ghost use Rattle.box_events.specs.inner.Merging.{Covers, Moved, merged};

use crate::difference_fault::WeaveFault;
use crate::{Event, ListOf, MAX_END, Placed};
use std::alloc::Global;
use std::vec::IntoIter;
use tl_base::{Bytes, Fault};

/// The list of events from one number of a box to another that has these messages, by their bodies, and these other events, by where they end
/// ("Working with Updates", core.telegram.org/api/updates: pts and pts_count). Each message counts for one number and stands in the first that the
/// other events leave free. Bodies and events are moved; the list's memory is taken at once, after the parts were found to fit.
pub fn weave(
    alloc: Global,
    from: u32,
    to: u32,
    news: ListOf<Bytes>,
    others: ListOf<Placed>,
) -> Result<Vec<Event>, Fault<WeaveFault>>
    requires from { from ≤ MAX_END }
    requires to { to ≤ MAX_END }
    requires few { length news < 2 ^ 31 }
    requires others { AreOthers others }
    ensures woven { IfOk result (λ events. Woven from to news others events.items) }
    ensures refused { IfErr result (λ fault. Refuses from to news others fault) }
{
    let news = news.into_vec();
    let others = others.into_vec();
    let covered = match covered_between(&others, from, to) {
        Ok(counts) => counts + news.len() as u32,
        Err(pts) => return Err(Fault::Refused(WeaveFault::Overlap { pts })),
    };
    if from + covered != to {
        return Err(Fault::Refused(WeaveFault::Uneven { from, covered, to }));
    }
    let events = Vec::with_capacity(alloc, news.len() + others.len())?;
    Ok(merge(events, from, news, others))
}

// For how many numbers the other events count, or where the first ends that overlaps.
fn covered_between(others: &[Placed], from: u32, to: u32) -> Result<u32, u32>
    ensures { Covers from to others.now result }
{
    let mut at = from;
    let mut counts: u32 = 0;
    for placed in others {
        let count = placed.event.count();
        if placed.pts < at || placed.pts - at < count || to < placed.pts {
            return Err(placed.pts);
        }
        counts += count;
        at = placed.pts;
    }
    Ok(counts)
}

// Puts the messages into the numbers that the other events leave free.
fn merge(mut events: Vec<Event>, from: u32, news: Vec<Bytes>, others: Vec<Placed>) -> Vec<Event>
    requires none { events.items ≡ [] }
    requires room { length news.items + length others.items ≤ vec_capacity events }
    requires apart { (to : ℕ) × (overlap from to others.items ≡ None) }
    ensures { result.items ≡ merged from news.items others.items }
{
    let mut news = news.into_iter();
    let mut at = from;
    for placed in others {
        let start = placed.pts - placed.event.count();
        append_messages(&mut events, &mut news, (start - at) as usize);
        events.push_reserved(placed.event);
        at = placed.pts;
    }
    let left = news.len();
    append_messages(&mut events, &mut news, left);
    events
}

// Moves so many of the messages, or all where there are fewer, to the end of the list.
fn append_messages(events: &mut Vec<Event>, news: &mut IntoIter<Bytes>, most: usize)
    requires room { vec_len events.old + into_iter_len news.old ≤ vec_capacity events.old }
    ensures moved { Moved events.old.items events.new.items (into_iter_items news.old) (into_iter_items news.new) most }
    ensures len { vec_len events.new + into_iter_len news.new ≡ vec_len events.old + into_iter_len news.old }
    ensures capacity { vec_capacity events.new ≡ vec_capacity events.old }
{
    for _ in 0..most {
        match news.next() {
            Some(body) => events.push_reserved(Event::new_message(body)),
            None => return,
        }
    }
}
