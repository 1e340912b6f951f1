//! How a session that fails ends a run.
ghost use Rattle.session_commands.specs.Post.{IsWordLong};
ghost use Rattle.session_commands.specs.SessionEnds.{IsShort, TellsSession, many_frames_line};
ghost use Rattle.fault_lines.specs.Packets.{packet_line};
ghost use Rattle.outside.specs.Loading.{PeerAs};

use fault_lines::{answer_line, packet_stop, wire_line};
use outside::{Stop, unplaced_line};
use std::alloc::Global;
use tl_base::PacketCause;
use update_sessions::SessionFault;

/// The stop of a run whose session failed: the other end's fault, or the link's.
pub fn session_stop(alloc: Global, fault: SessionFault) -> Stop
    ensures stop { TellsSession fault result }
    ensures word { IsShort fault }
{
    match fault {
        SessionFault::Packet(cause) => packet_failed(alloc, cause),
        SessionFault::Wire(fault) => Stop::of_peer(wire_line(alloc, "peer", fault)),
        SessionFault::Client(fault) => Stop::of_peer(answer_line(alloc, fault)),
        SessionFault::TooManyFrames => many_frames(alloc),
        SessionFault::LinkFault => Stop::LinkFault,
    }
}

// The stop of a session whose next bytes are no packet.
fn packet_failed(alloc: Global, cause: PacketCause) -> Stop
    ensures stop { PeerAs (packet_line cause) result }
    ensures word { IsWordLong cause }
{
    match cause {
        PacketCause::BadLength { length } => packet_stop(alloc, PacketCause::BadLength { length }),
        PacketCause::Ended { had } => packet_stop(alloc, PacketCause::Ended { had }),
    }
}

// The stop of a session of too many frames.
fn many_frames(alloc: Global) -> Stop
    ensures { PeerAs many_frames_line result }
{
    Stop::of_peer(unplaced_line(alloc, "peer", "TooManyFrames"))
}
