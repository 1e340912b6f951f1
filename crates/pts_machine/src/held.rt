//! What came of an item that was to be held.

/// What came of an item that was to be held. One that is not held is given back.
#[derive(Drop)]
pub enum Held<E> {
    Kept,
    /// One with its start is held.
    Already(E),
    /// As many are held as can be.
    Full(E),
}
