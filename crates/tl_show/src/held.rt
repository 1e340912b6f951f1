//! A text that is held whole.
ghost use Rattle.std.specs.Prelude.{◌≡◌, [], false, IfOk};

use crate::sink::TextSink;
use std::alloc::{AllocError, Global};

/// A text that is held whole.
pub struct HeldText {
    bytes: Vec<u8>,
    // Memory ran out.
    is_lost: bool,
}

// By hand, so that each exit of an owner has one call to prove.
impl Drop for HeldText {
    fn drop(self) {
        let HeldText {
            bytes: _,
            is_lost: _,
        } = self;
    }
}

impl TextSink for HeldText {
    ghost use Rattle.tl_show.specs.inner.Held.{Holds, holds_none, holds_both};

    ghost puts = { Holds };

    fn put(&mut self, bytes: &[u8]) {
        if !self.is_lost {
            self.is_lost = self.bytes.extend_from_slice(bytes).is_err();
        }
    }

    ghost puts_none = { holds_none };

    ghost puts_both = { holds_both };
}

impl HeldText {
    ghost use Rattle.std.specs.Prelude.{◌≡◌, [], false, IfOk};

    /// No text yet.
    pub fn new(alloc: Global) -> HeldText
        ensures { (result.bytes.items ≡ []) × (result.is_lost ≡ false) }
    {
        HeldText {
            bytes: Vec::new(alloc),
            is_lost: false,
        }
    }

    /// The text, if there was memory for all of it.
    pub fn into_bytes(self) -> Result<Vec<u8>, AllocError>
        ensures { IfOk result (λ bytes. (self.is_lost ≡ false) × (bytes.items ≡ self.bytes.items)) }
    {
        let HeldText { bytes, is_lost } = self;
        if is_lost { Err(AllocError) } else { Ok(bytes) }
    }
}
