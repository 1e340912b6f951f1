//! How runs end.
ghost use Rattle.std.specs.Prelude.{◌≡◌, ◌↔◌, IfOk, IsTrue};
ghost use Rattle.case_files.specs.Endings.{EndsAs};

use crate::fault::CaseFault;
use crate::traffic::Traffic;
use std::alloc::{AllocError, Global};

/// How a run ends, and what it writes.
pub struct Ending {
    /// The exit status.
    pub status: u8,
    /// All bytes on Output.
    pub output: Vec<u8>,
    /// All bytes on Errors.
    pub errors: Vec<u8>,
    /// All bytes on State.
    pub state: Vec<u8>,
    pub traffic: Traffic,
    /// A line for each entry that the keeper has, in a run of `keep`.
    pub kept: Vec<u8>,
}

// By hand, so that each exit of an owner has one call to prove.
impl Drop for Ending {
    fn drop(self) {
        let Ending {
            status: _,
            output: _,
            errors: _,
            state: _,
            traffic: _,
            kept: _,
        } = self;
    }
}

impl Ending {
    /// The end of a run that writes nothing and takes no link, with status 0.
    pub fn new(alloc: Global) -> Ending {
        Ending {
            status: 0,
            output: Vec::new(alloc),
            errors: Vec::new(alloc),
            state: Vec::new(alloc),
            traffic: Traffic::none(alloc),
            kept: Vec::new(alloc),
        }
    }

    /// Tells whether another run ends so too.
    pub fn ends_as(&self, other: &Ending) -> bool
        ensures { IsTrue result ↔ EndsAs self.now other.now }
    {
        self.status == other.status
            && self.output.as_slice() == other.output.as_slice()
            && self.errors.as_slice() == other.errors.as_slice()
            && self.state.as_slice() == other.state.as_slice()
            && self.traffic.is_as(&other.traffic)
            && self.kept.as_slice() == other.kept.as_slice()
    }

    pub fn copy(&self) -> Result<Ending, AllocError>
        ensures { IfOk result (λ e. EndsAs e self.now) }
    {
        Ok(Ending {
            status: self.status,
            output: self.output.clone()?,
            errors: self.errors.clone()?,
            state: self.state.clone()?,
            traffic: self.traffic.copy()?,
            kept: self.kept.clone()?,
        })
    }

    /// Keeps the first bytes, so many at most, of what is written on Output and on Errors.
    pub fn keep_front(&mut self, count: usize) {
        self.output.truncate(count);
        self.errors.truncate(count);
    }

    /// Sets the status that a text spells.
    pub fn put_status(&mut self, text: &str) -> Result<(), CaseFault> {
        match text.parse::<u8>() {
            Ok(status) => {
                self.status = status;
                Ok(())
            }
            Err(_) => Err(CaseFault::NoNumber),
        }
    }
}

/// Appends a text and a line feed.
pub fn put_line(bytes: &mut Vec<u8>, line: &str) -> Result<(), AllocError> {
    bytes.extend_from_slice(line.as_bytes())?;
    bytes.push(b'\n')?;
    Ok(())
}
