//! What runs do with links, and under which names they create State.
ghost use Rattle.std.specs.Prelude.{◌≡◌, ◌↔◌, IfOk, IsTrue};
ghost use Rattle.case_files.specs.Endings.{IsTraffic};

use crate::ending::put_line;
use std::alloc::{AllocError, Global};

/// What a run does with links, and under which names it creates State.
pub struct Traffic {
    /// The addresses that are used, each with a line feed.
    pub addresses: Vec<u8>,
    /// All bytes that are written to links, in order.
    pub sent: Vec<u8>,
    /// For each link that is taken the index in `sent` from which its bytes come.
    pub starts: Vec<usize>,
    /// The names under which State is created, each with a line feed.
    pub created: Vec<u8>,
}

// By hand, so that each exit of an owner has one call to prove.
impl Drop for Traffic {
    fn drop(self) {
        let Traffic {
            addresses: _,
            sent: _,
            starts: _,
            created: _,
        } = self;
    }
}

impl Traffic {
    /// No link is taken, and State isn't created.
    pub fn none(alloc: Global) -> Traffic {
        Traffic {
            addresses: Vec::new(alloc),
            sent: Vec::new(alloc),
            starts: Vec::new(alloc),
            created: Vec::new(alloc),
        }
    }

    /// Tells whether other traffic is the same.
    pub fn is_as(&self, other: &Traffic) -> bool
        ensures { IsTrue result ↔ IsTraffic self.now other.now }
    {
        self.addresses.as_slice() == other.addresses.as_slice()
            && self.sent.as_slice() == other.sent.as_slice()
            && self.starts.as_slice() == other.starts.as_slice()
            && self.created.as_slice() == other.created.as_slice()
    }

    pub fn copy(&self) -> Result<Traffic, AllocError>
        ensures { IfOk result (λ t. IsTraffic t self.now) }
    {
        Ok(Traffic {
            addresses: self.addresses.clone()?,
            sent: self.sent.clone()?,
            starts: self.starts.clone()?,
            created: self.created.clone()?,
        })
    }

    /// Notes that an address is used.
    pub fn use_address(&mut self, address: &str) -> Result<(), AllocError> {
        put_line(&mut self.addresses, address)
    }

    /// Notes that a link is taken.
    pub fn take_link(&mut self) -> Result<(), AllocError> {
        self.starts.push(self.sent.len())?;
        Ok(())
    }

    /// Notes that a link is made to an address.
    pub fn call(&mut self, address: &str) -> Result<(), AllocError> {
        self.use_address(address)?;
        self.take_link()
    }

    /// Notes that State is created.
    pub fn create(&mut self, name: &str) -> Result<(), AllocError> {
        put_line(&mut self.created, name)
    }

    /// Notes that bytes are written to the link that was taken last.
    pub fn send(&mut self, bytes: &[u8]) -> Result<(), AllocError> {
        Ok(self.sent.extend_from_slice(bytes)?)
    }
}
