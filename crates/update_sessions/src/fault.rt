//! Why a session ends before its time.
ghost use Rattle.std.specs.Prelude.{◌≡◌};
ghost use Rattle.update_sessions.specs.Faults.{of_client, of_packet, of_wire};

use box_client::ClientFault;
use thiserror::Error;
use tl_base::{Fault, PacketCause, PacketFault};
use wire_profile::WireFault;

/// How many frames a session takes at most.
pub const MAX_FRAMES: u64 = 1_048_576;

/// Why a session ended.
#[derive(Clone, Copy, Debug, Error)]
pub enum SessionFault {
    /// The next bytes are no packet; `Ended` with 0 bytes where the link has ended and a client still asks.
    #[error(transparent)]
    Packet(PacketCause),
    /// The next packet is no message.
    #[error(transparent)]
    Wire(WireFault),
    /// The client refuses the next frame.
    #[error(transparent)]
    Client(ClientFault),
    /// So many frames as a session takes were taken; a client still asks.
    #[error("too many frames")]
    TooManyFrames,
    #[error("link fault")]
    LinkFault,
}

/// Why no packet was read, as a fault of the session.
pub fn of_packet(fault: PacketFault) -> Fault<SessionFault>
    ensures { result ≡ of_packet fault }
{
    match fault {
        PacketFault::Refused(cause) => Fault::Refused(SessionFault::Packet(cause)),
        PacketFault::ReadFault => Fault::Refused(SessionFault::LinkFault),
        PacketFault::Memory => Fault::Memory,
    }
}

/// Why a packet is no message, as a fault of the session.
pub fn of_wire(fault: Fault<WireFault>) -> Fault<SessionFault>
    ensures { result ≡ of_wire fault }
{
    match fault {
        Fault::Refused(cause) => Fault::Refused(SessionFault::Wire(cause)),
        Fault::Memory => Fault::Memory,
    }
}

/// Why a client refuses a frame, as a fault of the session.
pub fn of_client(fault: Fault<ClientFault>) -> Fault<SessionFault>
    ensures { result ≡ of_client fault }
{
    match fault {
        Fault::Refused(cause) => Fault::Refused(SessionFault::Client(cause)),
        Fault::Memory => Fault::Memory,
    }
}
