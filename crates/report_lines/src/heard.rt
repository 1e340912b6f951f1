//! As what a client heard a packet.

/// As what a client heard a packet.
#[derive(Clone, Copy)]
pub enum HeardAs {
    Push,
    /// A reply that it waited for.
    Reply,
    /// A reply for which it doesn't wait, or no longer.
    Stale,
}
