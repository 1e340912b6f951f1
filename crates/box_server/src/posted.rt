//! What a server answers to posts.
use box_events::{Push, Receipt};

/// What a server answers to posts: where it was after them, and the push of their updates. A known random id has the receipt that it had, and no push.
#[derive(Drop)]
pub struct Posted {
    pub receipt: Receipt,
    pub push: Option<Push>,
}
