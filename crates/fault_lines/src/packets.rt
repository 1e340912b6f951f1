//! Packets of links.
ghost use Rattle.std.specs.Prelude.{◌≡◌, IfOk};
ghost use Rattle.outside.specs.Loading.{PeerAs};
ghost use Rattle.fault_lines.specs.Packets.{packet_line};

use outside::{Stop, packet_words, unplaced_line};
use std::alloc::{AllocError, Global};
use tl_base::PacketCause;

// The line of bytes that are no packet.
fn packet_line(alloc: Global, cause: PacketCause) -> Result<Vec<u8>, AllocError>
    ensures { IfOk result (λ line. line.items ≡ packet_line cause) }
{
    let why = packet_words(alloc, cause)?;
    unplaced_line(alloc, "peer", why.as_str())
}

/// The stop of a job whose link gives no packet, which is the other end's fault.
pub fn packet_stop(alloc: Global, cause: PacketCause) -> Stop
    ensures { PeerAs (packet_line cause) result }
{
    Stop::of_peer(packet_line(alloc, cause))
}
