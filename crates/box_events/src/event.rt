//! Events.
ghost use Rattle.std.specs.Prelude.{◌≡◌, ◌<◌, ◌≤◌, IfOk, length};
ghost use Rattle.box_events.specs.Events.{added, edited, deleted, read, count_of, body_of, ids_of};
ghost use Rattle.box_events.specs.Views.{kind_of};

use crate::ids::Ids;
use crate::limits::MAX_IDS;
use std::marker::Model;
use tl_base::{Bytes, Memory};

/// What an event does.
#[derive(Clone, Copy)]
pub enum EventKind {
    New,
    Edit,
    Delete,
    /// All up to this id is read.
    Read { max_id: i32 },
}

#[derive(Drop)]
enum Change {
    New(Bytes),
    Edit(Bytes),
    Delete(Ids),
    Read(i32),
}

/// An event of a box: a new message, an edit, a delete of 1 to 4,096 ids, or a read mark. It counts for as many of the box's numbers as it has ids, the others for one ("Working with Updates", core.telegram.org/api/updates: pts_count).
pub struct Event {
    change: Change,
}

// By hand, so that each exit of an owner has one call to prove.
impl Drop for Event {
    fn drop(self) {
        let Event { change: _ } = self;
    }
}

impl Model for Event {
    ghost use Rattle.box_events.specs.Events.{EventView};
    ghost use Rattle.box_events.specs.Views.{event_view, HasCount};

    ghost Value = { EventView };

    ghost view = { λ e. event_view e.change };

    ghost invariant = { λ e. HasCount (event_view e.change) };
}

impl Event {
    pub fn new_message(body: Bytes) -> Event
        ensures { result ≡ added body }
    {
        Event {
            change: Change::New(body),
        }
    }

    pub fn edit(body: Bytes) -> Event
        ensures { result ≡ edited body }
    {
        Event {
            change: Change::Edit(body),
        }
    }

    pub fn delete(ids: Ids) -> Event
        requires some { 0 < length ids }
        requires few { length ids ≤ MAX_IDS }
        ensures { result ≡ deleted ids }
    {
        Event {
            change: Change::Delete(ids),
        }
    }

    /// All up to this id is read. No memory is taken.
    pub fn read(max_id: i32) -> Event
        ensures { result ≡ read max_id }
    {
        Event {
            change: Change::Read(max_id),
        }
    }

    /// For how many of a box's numbers the event counts.
    pub fn count(&self) -> u32
        ensures value { result ≡ count_of self.now }
        ensures some { 1 ≤ result }
        ensures few { result ≤ MAX_IDS }
    {
        match &self.change {
            Change::New(_) | Change::Edit(_) | Change::Read(_) => 1,
            Change::Delete(ids) => ids.as_slice().len() as u32,
        }
    }

    pub fn kind(&self) -> EventKind
        ensures { result ≡ kind_of self.now }
    {
        match &self.change {
            Change::New(_) => EventKind::New,
            Change::Edit(_) => EventKind::Edit,
            Change::Delete(_) => EventKind::Delete,
            Change::Read(max_id) => EventKind::Read { max_id: *max_id },
        }
    }

    /// The body of a message or of an edit; none for the others.
    pub fn body(&self) -> &[u8]
        ensures { result.now ≡ body_of self.now }
    {
        match &self.change {
            Change::New(body) | Change::Edit(body) => body.as_slice(),
            Change::Delete(_) | Change::Read(_) => &[],
        }
    }

    /// The ids of a delete; none for the others.
    pub fn ids(&self) -> &[i32]
        ensures { result.now ≡ ids_of self.now }
    {
        match &self.change {
            Change::New(_) | Change::Edit(_) | Change::Read(_) => &[],
            Change::Delete(ids) => ids.as_slice(),
        }
    }

    pub fn copy(&self) -> Result<Event, Memory>
        ensures { IfOk result (λ e. e ≡ self.now) }
    {
        let change = match &self.change {
            Change::New(body) => Change::New(body.copy()?),
            Change::Edit(body) => Change::Edit(body.copy()?),
            Change::Delete(ids) => Change::Delete(ids.copy()?),
            Change::Read(max_id) => Change::Read(*max_id),
        };
        Ok(Event { change })
    }
}
