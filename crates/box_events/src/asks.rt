//! What a client asks at once.
ghost use Rattle.std.specs.Prelude.{◌≡◌, ◌<◌, ◌≤◌, ◌∷◌, ◌++◌, [], Some, length, slice_get};
ghost use Rattle.box_events.specs.Asking.{IsAsk};

use crate::limits::MAX_ASKS;
use crate::requests::{Numbered, Request};
use std::marker::Model;

// A request that takes no memory.
#[derive(Clone, Copy)]
enum Ask {
    Difference {
        number: u32,
        pts: i32,
        qts: i32,
        date: u32,
    },
    Channel {
        number: u32,
        id: i64,
        pts: i32,
    },
}

/// Up to 65 requests for differences, in the order in which they were put. They take no memory.
#[derive(Drop)]
pub struct Asks {
    slots: [Ask; MAX_ASKS],
    len: u32,
}

impl Model for Asks {
    ghost use Rattle.std.specs.Prelude.{List};
    ghost use Rattle.box_events.specs.declared.requests.Numbered.{Numbered};
    ghost use Rattle.box_events.specs.Asking.{asks_of, IsAskList};

    ghost Value = { List Numbered };

    ghost view = { asks_of };

    ghost invariant = { IsAskList };
}

impl Asks {
    /// No requests.
    pub fn new() -> Asks
        ensures { result ≡ [] }
    {
        let none = Ask::Channel {
            number: 0,
            id: 0,
            pts: 0,
        };
        Asks {
            slots: [none; MAX_ASKS],
            len: 0,
        }
    }

    /// Removes all requests.
    pub fn clear(&mut self)
        ensures { self.new ≡ [] }
    {
        self.len = 0;
    }

    /// Puts a request after the others.
    pub fn put(&mut self, ask: Numbered)
        requires room { length self.old < MAX_ASKS }
        requires ask { IsAsk ask.request }
        ensures { self.new ≡ self.old ++ ask ∷ [] }
    {
        let number = ask.number;
        self.slots[self.len as usize] = match ask.request {
            Request::Difference { pts, qts, date } => Ask::Difference {
                number,
                pts,
                qts,
                date,
            },
            Request::Channel { id, pts } => Ask::Channel { number, id, pts },
            Request::State | Request::Post { .. } => unreachable!(),
        };
        self.len += 1;
    }

    /// The request at an index.
    pub fn get(&self, i: u32) -> Numbered
        requires { i < length self.now }
        ensures value { slice_get self.now i ≡ Some result }
        ensures ask { IsAsk result.request }
    {
        match self.slots[i as usize] {
            Ask::Difference {
                number,
                pts,
                qts,
                date,
            } => Numbered {
                number,
                request: Request::Difference { pts, qts, date },
            },
            Ask::Channel { number, id, pts } => Numbered {
                number,
                request: Request::Channel { id, pts },
            },
        }
    }

    /// How many requests there are.
    pub fn len(&self) -> u32
        ensures value { result ≡ length self.now }
        ensures most { result ≤ MAX_ASKS }
    {
        self.len
    }
}
