//! Steps of a replay.

use crate::list_of::ListOf;
use crate::requests::Post;

/// A step of a replay. Packets are numbered from 0 in the order in which they were sent, clients from 0.
#[derive(Drop)]
pub enum Step {
    /// The server receives posts, whose push is sent.
    Post { random_id: i64, posts: ListOf<Post> },
    /// The server's clock shows a date, in seconds.
    Date { date: u32 },
    /// The server receives a request, whose reply is sent.
    Serve { packet: u32 },
    /// A client receives a packet.
    Hear { client: u32, packet: u32 },
    /// A client sends what it asks.
    Tick { client: u32 },
    Wake { client: u32 },
    Watch { client: u32, channel_id: i64 },
    Restart { client: u32 },
    /// The server sends that more is new than a push would carry.
    TooLong,
    ChannelTooLong { channel_id: i64 },
}
