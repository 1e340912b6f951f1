//! What an answer brings.
use box_events::{ListOf, Placed, Setting, State};
use tl_base::Bytes;

/// What an answer brings to the common group: the messages and the other events of the common box, the messages of the secret box, the
/// settings, and the positions that are reached with them.
#[derive(Drop)]
pub struct Received {
    pub news: ListOf<Bytes>,
    pub secrets: ListOf<Bytes>,
    pub others: ListOf<Placed>,
    pub settings: ListOf<Setting>,
    pub state: State,
    pub last: bool,
}
