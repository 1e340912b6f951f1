//! Settings.
ghost use Rattle.std.specs.Prelude.{◌≡◌, IfOk};

use tl_base::{Bytes, Memory};

/// A value under a key: a key of at most 64 bytes and a value of at most 1,024 where a server keeps it.
pub struct Setting {
    pub key: Bytes,
    pub value: Bytes,
}

// By hand, so that each exit of an owner has one call to prove.
impl Drop for Setting {
    fn drop(self) {
        let Setting { key: _, value: _ } = self;
    }
}

impl Setting {
    pub fn copy(&self) -> Result<Setting, Memory>
        ensures { IfOk result (λ s. s ≡ self.now) }
    {
        Ok(Setting {
            key: self.key.copy()?,
            value: self.value.copy()?,
        })
    }
}
