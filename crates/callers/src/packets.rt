//! Packets over a link.
ghost use Rattle.std.specs.Prelude.{◌≡◌, IfOk};
ghost use Rattle.callers.specs.Packets.{Echoes};

use std::alloc::Global;
use thiserror::Error;
use tl_base::{Bytes, Link, PacketFault, WriteFault, read_packet, write_packet};

/// Why a packet isn't sent back.
#[derive(Debug, Drop, Error)]
pub enum EchoFault {
    #[error(transparent)]
    Read(#[from] PacketFault),
    #[error(transparent)]
    Write(#[from] WriteFault),
}

/// Sends the next packet of a link back. False: the link has ended.
pub fn echo_packet<L: Link>(alloc: Global, link: &mut L) -> Result<bool, EchoFault>
    ensures echoes { IfOk result (Echoes (L.Source.state link.old).left (L.Source.state link.new).left (L.Sink.state link.old).written (L.Sink.state link.new).written) }
    ensures beside { L.beside link.new ≡ L.beside link.old }
{
    let mut bytes = Bytes::new(alloc);
    if !read_packet(link, &mut bytes)? {
        return Ok(false);
    }
    write_packet(link, bytes.as_slice())?;
    Ok(true)
}
