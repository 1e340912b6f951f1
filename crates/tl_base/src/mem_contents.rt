//! What a host in memory reads and links to: files, links, and where each slot stands in them.
ghost use Rattle.std.specs.Prelude.{◌≡◌};
ghost use Rattle.tl_numbers.specs.Bytes.{AreBytes};

use crate::host::Slot;
use tl_numbers::Bytes;

/// A file in memory.
#[derive(Drop)]
pub struct MemFile {
    pub name: Bytes,
    pub bytes: Bytes,
    ghost fits: { AreBytes bytes },
}

/// A link in memory: what it gives, and what was written to it.
#[derive(Drop)]
pub struct MemLink {
    pub bytes: Bytes,
    pub written: Vec<u8>,
    ghost fits: { AreBytes bytes },
}

/// What is read: a file or a link, by its index.
#[derive(Clone, Copy)]
pub enum Origin {
    File { index: usize },
    Link { index: usize },
}

/// What a slot reads, and how many bytes of it were read.
#[derive(Clone, Copy)]
pub struct Reading {
    pub origin: Origin,
    pub at: usize,
}

/// What each slot reads, where it is open.
#[derive(Clone, Copy)]
pub struct Readings {
    schema: Option<Reading>,
    input: Option<Reading>,
    state: Option<Reading>,
    link: Option<Reading>,
}

impl Readings {
    ghost use Rattle.tl_base.specs.MemoryContents.{no_readings, reading_of, with_reading};

    /// No slot is open.
    pub fn none() -> Readings
        ensures { result ≡ no_readings }
    {
        Readings {
            schema: None,
            input: None,
            state: None,
            link: None,
        }
    }

    /// What a slot reads.
    pub fn of(&self, slot: Slot) -> Option<Reading>
        ensures { result ≡ reading_of slot self.now }
    {
        match slot {
            Slot::Schema => self.schema,
            Slot::Input => self.input,
            Slot::State => self.state,
            Slot::Link => self.link,
        }
    }

    /// Lets a slot read this.
    pub fn set(&mut self, slot: Slot, reading: Reading)
        ensures { self.new ≡ with_reading slot reading self.old }
    {
        match slot {
            Slot::Schema => self.schema = Some(reading),
            Slot::Input => self.input = Some(reading),
            Slot::State => self.state = Some(reading),
            Slot::Link => self.link = Some(reading),
        }
    }
}
