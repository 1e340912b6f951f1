//! Updates, and the pushes that carry them.
//! From "Working with Updates" (core.telegram.org/api/updates).

use crate::event::Event;
use crate::list_of::ListOf;
use crate::settings::Setting;
use tl_base::Bytes;

/// An event with the number at which it ends in its box.
#[derive(Drop)]
pub struct Placed {
    pub event: Event,
    pub pts: u32,
}

/// What is new for a client. `pts` and `qts` are the numbers at which the event ends in its box.
#[derive(Drop)]
pub enum Update {
    Common { event: Event, pts: u32 },
    Secret { body: Bytes, qts: u32 },
    Channel { id: i64, event: Event, pts: u32 },
    ChannelTooLong { id: i64 },
    Setting { setting: Setting },
}

/// What a server sends unasked.
#[derive(Drop)]
pub enum Push {
    /// More is new than a push would carry.
    TooLong,
    /// Updates with the server's date in seconds, and the numbers of the first and the last setting among them. Both numbers are 0 where there is none, and are the same where there is one.
    Container {
        updates: ListOf<Update>,
        date: u32,
        seq_start: u32,
        seq: u32,
    },
}
