//! Requests, and the posts that a request may carry.
//! From "Working with Updates" (core.telegram.org/api/updates). The posts are this project's own.

use crate::ids::Ids;
use crate::list_of::ListOf;
use tl_base::Bytes;

/// What a post appends to a box, or a setting that it sets.
#[derive(Drop)]
pub enum Post {
    Message { body: Bytes },
    Edit { body: Bytes },
    Delete { ids: Ids },
    Secret { body: Bytes },
    ChannelMessage { id: i64, body: Bytes },
    ChannelEdit { id: i64, body: Bytes },
    ChannelDelete { id: i64, ids: Ids },
    Setting { key: Bytes, value: Bytes },
    Read { max_id: i32 },
    ChannelRead { id: i64, max_id: i32 },
}

/// What a client asks a server. Positions are as they were received: a server answers those that it doesn't have by an error.
#[derive(Drop)]
pub enum Request {
    State,
    /// What follows these positions of the common and the secret box, and the settings since a date in seconds.
    Difference { pts: i32, qts: i32, date: u32 },
    /// What follows a position of a channel's box.
    Channel { id: i64, pts: i32 },
    /// Posts that are applied in order, or none of them. A random id that was received before is answered as it was then.
    Post { random_id: i64, posts: ListOf<Post> },
}

/// A request with the number under which it is asked.
#[derive(Drop)]
pub struct Numbered {
    pub number: u32,
    pub request: Request,
}
