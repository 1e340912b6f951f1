//! What a server would do with posts.
use crate::draft::Draft;
use box_events::Receipt;

/// What a server would do with posts. Nothing has changed yet.
#[derive(Drop)]
pub enum Prepared {
    /// Nothing: the random id has this receipt.
    Known { receipt: Receipt },
    /// It would take a draft. So many keys have a setting then.
    New { keys: usize, draft: Draft },
}
