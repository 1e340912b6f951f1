//! Packets: a length in four bytes, and so many bytes.
ghost use Rattle.std.specs.Prelude.{◌≡◌, ◌+◌, ◌↔◌, IfSome, IsErr, IsErrOf, IsTrue, length};
ghost use Rattle.tl_base.specs.Using.{Used, Wrote};
ghost use Rattle.tl_base.specs.Writing.{WritesPiece};
ghost use Rattle.tl_base.specs.Packets.{IsPacketLength, ReadsPacket, PacketInto, packet};
ghost use Rattle.tl_base.specs.declared.packet.PacketCause.TheVariants.{Ended};
ghost use Rattle.tl_base.specs.declared.packet.PacketFault.TheVariants.{Refused};

use crate::sink::{Sink, WriteFault, write_all};
use crate::source::{Source, TakeFault, TextFault, take_up_to, take_word};
use thiserror::Error;
use tl_numbers::{Bytes, bytes_of_u32, u32_of};

/// How many bytes a packet has at most.
pub const PACKET_BYTES: u32 = 1_048_576;

/// Why the next bytes are no packet.
#[derive(Clone, Copy, Debug, Error)]
pub enum PacketCause {
    /// No packet has so many bytes.
    #[error("a packet of {length} bytes")]
    BadLength { length: u32 },
    /// The input ended after so many bytes of the packet.
    #[error("the input ended after {had} bytes")]
    Ended { had: u32 },
}

/// Why no packet was read.
#[derive(Clone, Copy, Debug, Error)]
pub enum PacketFault {
    /// The next bytes are none.
    #[error(transparent)]
    Refused(PacketCause),
    #[error("read fault")]
    ReadFault,
    #[error("out of memory")]
    Memory,
}

impl From<TextFault> for PacketFault {
    ghost use Rattle.std.specs.Prelude.{◌≡◌};
    ghost use Rattle.tl_base.specs.Packets.{as_packet_fault};

    ghost from_gives = { λ fault e. e ≡ as_packet_fault fault };

    fn from(fault: TextFault) -> PacketFault {
        match fault {
            TextFault::ReadFault => PacketFault::ReadFault,
            TextFault::Memory => PacketFault::Memory,
        }
    }
}

// Whether a packet may have so many bytes.
fn is_packet_length(length: u32) -> bool
    ensures { IsTrue result ↔ IsPacketLength length }
{
    length % 4 == 0 && length <= PACKET_BYTES
}

// The input ended after so many bytes of a packet.
fn ended(had: u32) -> PacketFault
    ensures { result ≡ Refused (Ended had) }
{
    PacketFault::Refused(PacketCause::Ended { had })
}

/// Reads a packet. False: the input ended before its first byte. After every other answer than true `into` is empty.
pub fn read_packet<S: Source>(from: &mut S, into: &mut Bytes) -> Result<bool, PacketFault>
    ensures bytes { IfSome (S.state from.old).left (λ bytes. ReadsPacket bytes (S.state from.new).left into.new result) }
    ensures into { PacketInto into.new result }
    ensures used { Used (S.state from.old) (S.state from.new) (IsErrOf result PacketFault.ReadFault) }
{
    into.clear();
    let head = match take_word(from) {
        Ok(head) => head,
        Err(TakeFault::Ended { had: 0 }) => return Ok(false),
        Err(TakeFault::Ended { had }) => return Err(ended(had)),
        Err(TakeFault::ReadFault) => return Err(PacketFault::ReadFault),
    };
    let length = u32_of(head);
    if !is_packet_length(length) {
        return Err(PacketFault::Refused(PacketCause::BadLength { length }));
    }
    match take_up_to(from, length as usize, into) {
        Ok(()) => {}
        Err(fault) => {
            into.clear();
            return Err(PacketFault::from(fault));
        }
    }
    let had = into.len() as u32;
    if had < length {
        into.clear();
        return Err(ended(4 + had));
    }
    Ok(true)
}

/// Writes a packet. After a fault a prefix of it was written.
pub fn write_packet<K: Sink>(to: &mut K, piece: &[u8]) -> Result<(), WriteFault>
    requires { IsPacketLength (length piece.now) }
    ensures bytes { WritesPiece (K.state to.old).written (K.state to.new).written (packet piece.now) result }
    ensures used { Wrote (K.state to.old) (K.state to.new) (4 + length piece.now) (IsErr result) }
{
    write_all(to, &bytes_of_u32(piece.len() as u32))?;
    write_all(to, piece)
}
