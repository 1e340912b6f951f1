//! What stands behind a handle.

use tl_codec::Codec;

/// A codec, and the bytes that the last call made: its answer, or the line of its refusal.
pub struct Held {
    pub codec: Codec,
    pub last: Vec<u8>,
}

// By hand, so that each exit of an owner has one call to prove.
impl Drop for Held {
    fn drop(self) {
        let Held { codec: _, last: _ } = self;
    }
}
