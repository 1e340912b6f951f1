//! Packets: a length in four bytes, and so many bytes.
ghost use Rattle.std.specs.Prelude.{◌≡◌, ◌↔◌, IfOk, IsTrue, length, string_bytes};
ghost use Rattle.tl_base.specs.Packets.{IsPacketLength};
ghost use Rattle.tl_numbers.specs.Numbers.{word_number};
ghost use Rattle.outside.specs.Packets.{AfterLength, TakesPacket, cut_off, packet_by, packet_view, packet_words};
ghost use Rattle.outside.specs.Begun.{Did};

use crate::host::Host;
use crate::pieces::{Taken, take_bytes};
use std::alloc::{AllocError, Global};
use tl_base::{PACKET_BYTES, PacketCause, Slot, u32_of};

/// What was taken of a slot, up to the end of a packet.
#[derive(Drop)]
pub enum Packet {
    /// A packet of this content.
    Whole(Vec<u8>),
    /// The input ended before a packet's first byte.
    None,
    /// The next bytes are no packet.
    Wrong(PacketCause),
    /// A read failed.
    Broken,
}

// Whether a packet may have so many bytes.
fn is_packet_length(length: u32) -> bool
    ensures { IsTrue result ↔ IsPacketLength length }
{
    length % 4 == 0 && length <= PACKET_BYTES
}

// The number that four bytes spell.
fn length_of(head: &[u8]) -> u32
    requires { length head.now ≡ 4 }
    ensures { result ≡ word_number head.now }
{
    u32_of([head[0], head[1], head[2], head[3]])
}

// The end of the input, after so many bytes of a length.
fn cut_head(had: u32) -> Packet
    ensures { packet_view result ≡ cut_off had }
{
    if had == 0 {
        Packet::None
    } else {
        Packet::Wrong(PacketCause::Ended { had })
    }
}

// Takes what follows of a packet's length.
fn take_content<H: Host>(
    alloc: Global,
    host: &mut H,
    slot: Slot,
    length: u32,
) -> Result<Packet, AllocError>
    ensures { Did (AfterLength slot length) (H.state host.old) (H.state host.new) (packet_by result) }
{
    if !is_packet_length(length) {
        return Ok(Packet::Wrong(PacketCause::BadLength { length }));
    }
    match take_bytes(alloc, host, slot, length as usize)? {
        Taken::Full(content) => Ok(Packet::Whole(content)),
        Taken::Short(content) => Ok(Packet::Wrong(PacketCause::Ended {
            had: 4 + content.len() as u32,
        })),
        Taken::Broken => Ok(Packet::Broken),
    }
}

/// Why the next bytes are no packet, as lines have it.
pub fn packet_words(alloc: Global, cause: PacketCause) -> Result<String, AllocError>
    ensures { IfOk result (λ words. string_bytes words ≡ packet_words cause) }
{
    match cause {
        PacketCause::BadLength { length } => format!(in alloc; "BadLength {length}"),
        PacketCause::Ended { had } => format!(in alloc; "Ended {had}"),
    }
}

/// Takes the next packet of a slot, and nothing past it. After a length that no packet has nothing more is read.
pub fn take_packet<H: Host>(alloc: Global, host: &mut H, slot: Slot) -> Result<Packet, AllocError>
    ensures { Did (TakesPacket slot) (H.state host.old) (H.state host.new) (packet_by result) }
{
    match take_bytes(alloc, host, slot, 4)? {
        Taken::Full(head) => take_content(alloc, host, slot, length_of(&head)),
        Taken::Short(head) => Ok(cut_head(head.len() as u32)),
        Taken::Broken => Ok(Packet::Broken),
    }
}
