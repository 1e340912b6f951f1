//! Lists of events, taken apart.
ghost use Rattle.std.specs.Prelude.{◌≡◌, ◌≤◌, ◌+◌, ◌∷◌, ◌++◌, [], IfOk, OnOk, OnErr};
ghost use Rattle.box_events.specs.Events.{count_of, is_new};
ghost use Rattle.box_events.specs.Boxes.{ending};
ghost use Rattle.box_events.specs.Weaving.{Woven};

use crate::{Event, EventKind, ListOf, MAX_END, Placed};
use std::alloc::Global;
use std::marker::Model;
use tl_base::{Bytes, Memory};

/// A list of events that starts at a number of its box and grows at its end, held as a difference gives it: the messages' bodies apart from the
/// other events ("Working with Updates", core.telegram.org/api/updates: new_messages, other_updates).
pub struct Parts {
    from: u32,
    at: u32,
    news: Vec<Bytes>,
    others: Vec<Placed>,
}

// By hand, so that each exit of an owner has one call to prove.
impl Drop for Parts {
    fn drop(self) {
        let Parts {
            from: _,
            at: _,
            news: _,
            others: _,
        } = self;
    }
}

impl Model for Parts {
    ghost use Rattle.box_events.specs.PartsView.{PartsView};
    ghost use Rattle.box_events.specs.inner.Parted.{view_of, AreParts};

    ghost Value = { PartsView };

    ghost view = { view_of };

    ghost invariant = { AreParts };
}

impl Parts {
    /// No events. The first will start at `from`.
    pub fn new(alloc: Global, from: u32) -> Parts
        ensures from { result.from ≡ from }
        ensures none { result.events ≡ [] }
    {
        Parts {
            from,
            at: from,
            news: Vec::new(alloc),
            others: Vec::new(alloc),
        }
    }

    /// Appends a copy of an event. `from` and the counts, its own among them, are 1,000,000 at most.
    pub fn add(&mut self, event: &Event) -> Result<(), Memory>
        requires limit { self.old.from + ending self.old.events + count_of event.now ≤ MAX_END }
        ensures from { self.new.from ≡ self.old.from }
        ensures ok { OnOk result (self.new.events ≡ self.old.events ++ event.now ∷ []) }
        ensures err { OnErr result (self.new ≡ self.old) }
    {
        let end = self.at + event.count();
        if is_message(event) {
            let body = Bytes::from_slice(*self.news.allocator(), event.body())?;
            self.news.push(body)?;
        } else {
            let event = event.copy()?;
            self.others.push(Placed { event, pts: end })?;
        }
        self.at = end;
        Ok(())
    }

    /// The messages' bodies, and the other events, each with the number at which it ends.
    pub fn open(self) -> (ListOf<Bytes>, ListOf<Placed>)
        ensures { Woven self.from (self.from + ending self.events) result.0 result.1 self.events }
    {
        let Parts {
            from: _,
            at: _,
            news,
            others,
        } = self;
        (ListOf::from_vec(news), ListOf::from_vec(others))
    }
}

fn is_message(event: &Event) -> bool
    ensures { result ≡ is_new event.now }
{
    matches!(event.kind(), EventKind::New)
}

/// The messages' bodies of a list of events that starts at `from`, and its other events, each with the number at which it ends; all are copies.
pub fn split(
    alloc: Global,
    events: &[Event],
    from: u32,
) -> Result<(ListOf<Bytes>, ListOf<Placed>), Memory>
    requires limit { from + ending events.now ≤ MAX_END }
    ensures { IfOk result (λ p. Woven from (from + ending events.now) p.0 p.1 events.now) }
{
    let mut parts = Parts::new(alloc, from);
    for event in events {
        parts.add(event)?;
    }
    Ok(parts.open())
}
