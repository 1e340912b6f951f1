//! What a client saves.

use crate::event::Event;
use crate::list_of::ListOf;
use crate::settings::Setting;
use tl_base::Bytes;

/// A client without what it holds and what it asks.
#[derive(Drop)]
pub struct Saved {
    /// The number of the next request, from 1.
    pub next: u32,
    pub common: SavedLane,
    pub secret: SavedLane,
    /// In seconds of the server's clock.
    pub date: u32,
    pub seq: u32,
    /// In byte order of keys.
    pub settings: ListOf<Setting>,
    /// In order of watching.
    pub channels: ListOf<SavedChannel>,
}

/// A lane: the events from the number `restart` to the number `at`.
#[derive(Drop)]
pub struct SavedLane {
    pub restart: u32,
    pub at: u32,
    pub events: ListOf<Event>,
}

/// A watched channel, with the bodies of the messages that were told when it was too far ahead.
#[derive(Drop)]
pub struct SavedChannel {
    pub id: i64,
    pub lane: SavedLane,
    pub recent: ListOf<Bytes>,
}
