//! What has happened, as it is kept.
ghost use Rattle.std.specs.Prelude.{◌≡◌};
ghost use Rattle.outside.specs.Logs.{LogsAs, Notes, fresh, log_events};
ghost use Rattle.outside.specs.Events.{opened, created, given_event, put, listened, connected};

use std::alloc::{AllocError, Global};
use tl_base::{Out, Slot};

/// An event, as it is kept.
#[derive(Drop)]
pub enum Logged {
    Opened { slot: Slot, name: Vec<u8>, ok: bool },
    Took { slot: Slot, bytes: Vec<u8> },
    Ended { slot: Slot },
    ReadFailed { slot: Slot },
    Created { out: Out, name: Vec<u8>, ok: bool },
    Put { out: Out, bytes: Vec<u8> },
    WriteFailed { out: Out },
    Listened { address: Vec<u8>, ok: bool },
    Connected { address: Vec<u8>, ok: bool },
    Accepted { ok: bool },
    Told { moment: u32 },
}

impl Logged {
    /// A slot was opened, or was not.
    pub fn opened(alloc: Global, slot: Slot, name: &str, ok: bool) -> Result<Logged, AllocError>
        ensures { LogsAs (opened slot name.now ok) result }
    {
        let name = Vec::from_slice(alloc, name.as_bytes())?;
        Ok(Logged::Opened { slot, name, ok })
    }

    /// Bytes were taken, or there were none.
    pub fn given(alloc: Global, slot: Slot, bytes: &[u8]) -> Result<Logged, AllocError>
        ensures { LogsAs (given_event slot bytes.now) result }
    {
        if bytes.is_empty() {
            return Ok(Logged::Ended { slot });
        }
        let bytes = Vec::from_slice(alloc, bytes)?;
        Ok(Logged::Took { slot, bytes })
    }

    /// An out was created, or was not.
    pub fn created(alloc: Global, out: Out, name: &str, ok: bool) -> Result<Logged, AllocError>
        ensures { LogsAs (created out name.now ok) result }
    {
        let name = Vec::from_slice(alloc, name.as_bytes())?;
        Ok(Logged::Created { out, name, ok })
    }

    /// Bytes were put.
    pub fn put(alloc: Global, out: Out, bytes: &[u8]) -> Result<Logged, AllocError>
        ensures { LogsAs (put out bytes.now) result }
    {
        let bytes = Vec::from_slice(alloc, bytes)?;
        Ok(Logged::Put { out, bytes })
    }

    /// Connections are taken at an address from now on, or are not.
    pub fn listened(alloc: Global, address: &str, ok: bool) -> Result<Logged, AllocError>
        ensures { LogsAs (listened address.now ok) result }
    {
        let address = Vec::from_slice(alloc, address.as_bytes())?;
        Ok(Logged::Listened { address, ok })
    }

    /// A link to an address was made, or was not.
    pub fn connected(alloc: Global, address: &str, ok: bool) -> Result<Logged, AllocError>
        ensures { LogsAs (connected address.now ok) result }
    {
        let address = Vec::from_slice(alloc, address.as_bytes())?;
        Ok(Logged::Connected { address, ok })
    }
}

/// Appends an event. Where there is no memory for it, nothing is told from then on.
pub fn note(log: Option<Vec<Logged>>, event: Result<Logged, AllocError>) -> Option<Vec<Logged>>
    ensures { Notes (log_events log) event (log_events result) }
{
    let mut log = log?;
    let Ok(event) = event else {
        return None;
    };
    match log.push(event) {
        Ok(()) => Some(log),
        Err(_) => None,
    }
}

/// The log, where nothing has happened yet.
pub fn fresh(log: Option<Vec<Logged>>) -> Option<Vec<Logged>>
    ensures { log_events result ≡ fresh (log_events log) }
{
    let log = log?;
    if log.is_empty() { Some(log) } else { None }
}
