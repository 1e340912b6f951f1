//! Replies, and the frames that a server sends.
//! From "Working with Updates" (core.telegram.org/api/updates).

use crate::list_of::ListOf;
use crate::positions::{Receipt, State};
use crate::settings::Setting;
use crate::updates::{Placed, Push};
use tl_base::Bytes;

/// What a server answers. `last` says that the answer reaches the end of each box that was asked for.
#[derive(Drop)]
pub enum Reply {
    State(State),
    /// Nothing is new since.
    Empty {
        date: u32,
        seq: u32,
    },
    /// The bodies of the new messages, those of the secret box, the other events by where they end, the settings, and the state that a client reaches with them.
    Difference {
        news: ListOf<Bytes>,
        secrets: ListOf<Bytes>,
        others: ListOf<Placed>,
        settings: ListOf<Setting>,
        state: State,
        last: bool,
    },
    Channel(ChannelReply),
    Receipt(Receipt),
    /// A refusal, as 400 with `PERSISTENT_TIMESTAMP_INVALID`.
    Error {
        code: i32,
        text: Bytes,
    },
}

/// What a server answers about a channel. `pts` is the position that a client reaches with it.
#[derive(Drop)]
pub enum ChannelReply {
    /// Nothing is new since.
    Empty {
        pts: u32,
        last: bool,
    },
    /// The bodies of the new messages, and the other events by where they end.
    Part {
        pts: u32,
        news: ListOf<Bytes>,
        others: ListOf<Placed>,
        last: bool,
    },
    /// The client is too far behind: where the box ends, and the bodies of its recent messages.
    TooLong {
        pts: u32,
        recent: ListOf<Bytes>,
        last: bool,
    },
}

/// What a server sends: a push, or the reply to the request of a number.
#[derive(Drop)]
pub enum Frame {
    Push(Push),
    Reply { number: u32, reply: Reply },
}
