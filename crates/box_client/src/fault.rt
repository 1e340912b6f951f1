//! What comes of an answer, and why nothing is loaded.
ghost use Rattle.std.specs.Prelude.{◌≡◌};
ghost use Rattle.box_client.specs.Faults.{fault_by};

use box_events::{LaneName, WeaveFault};
use thiserror::Error;
use tl_base::Fault;

/// What came of an answer that isn't refused.
#[derive(Clone, Copy)]
pub enum ReplyOutcome {
    /// It was asked for, and is taken.
    Reply,
    /// Nobody asks its number.
    Stale,
}

/// Why an answer is refused.
#[derive(Clone, Copy, Debug, Error)]
pub enum ClientFault {
    /// The server refuses the request.
    #[error("the server answers error {code}")]
    PeerError { code: i32 },
    /// It is no answer to what was asked.
    #[error("the answer is of another kind")]
    WrongKind,
    /// Its events make no list.
    #[error("the events make no list")]
    Weave(WeaveFault),
    /// The seq of a final answer is below the client's.
    #[error("seq {seq} is below {at}")]
    SeqBack { at: u32, seq: u32 },
}

/// Why a saved client isn't loaded.
#[derive(Clone, Copy, Debug, Error)]
pub enum LoadFault {
    /// The number of the next request is 0 or above 2,000,000,000.
    #[error("request {next} is no next one")]
    BadNext { next: u32 },
    /// The lane doesn't end where its events do, or the secret lane has an event that is no message.
    #[error("the events of {lane:?} don't fit")]
    BadLane { lane: LaneName },
    /// The key at this index, from 0, is not above the one before.
    #[error("setting {place} isn't in order")]
    BadSettings { place: u32 },
    /// The channel at this index, from 0, has the id of one before, or is one more than 64.
    #[error("channel {place} is one too many")]
    BadChannels { place: u32 },
    #[error("out of memory")]
    Memory,
}

/// A fault of weaving, as one of the answer that brought the events.
pub fn of_weave(fault: Fault<WeaveFault>) -> Fault<ClientFault>
    ensures { result ≡ fault_by fault }
{
    match fault {
        Fault::Refused(cause) => Fault::Refused(ClientFault::Weave(cause)),
        Fault::Memory => Fault::Memory,
    }
}
