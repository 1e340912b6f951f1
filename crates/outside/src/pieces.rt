//! What is taken from a slot and put to an out by pieces.
ghost use Rattle.std.specs.Prelude.{◌≡◌, ◌++◌, OnOk, Some, is_ok};
ghost use Rattle.tl_numbers.specs.Bytes.{AreBytes};
ghost use Rattle.outside.specs.Begun.{Did};
ghost use Rattle.outside.specs.Pieces.{Takes, Writes, Tells, taken_by};

use crate::host::Host;
use std::alloc::{AllocError, Global};
use tl_base::{Failed, Out, Slot};

/// What was taken of a slot.
#[derive(Drop)]
pub enum Taken {
    /// So many bytes as were wanted.
    Full(Vec<u8>),
    /// All the bytes that were left, which are fewer.
    Short(Vec<u8>),
    /// A read failed.
    Broken,
}

// How many bytes are read at once.
const PIECE_BYTES: usize = 4096;

// Appends a piece, of which it is told that it holds bytes.
fn append(text: &mut Vec<u8>, piece: &[u8]) -> Result<(), AllocError>
    ensures ok { OnOk result (text.new.items ≡ text.old.items ++ piece.now) }
    ensures bytes { AreBytes piece.now }
{
    text.extend_from_slice(piece)?;
    Ok(())
}

/// Takes the next bytes of a slot: so many, or all of them where there are fewer. Memory grows with what was read.
pub fn take_bytes<H: Host>(
    alloc: Global,
    host: &mut H,
    slot: Slot,
    count: usize,
) -> Result<Taken, AllocError>
    ensures { Did (Takes slot count) (H.state host.old) (H.state host.new) (taken_by result) }
{
    let mut text = Vec::new(alloc);
    let mut piece = [0u8; PIECE_BYTES];
    while text.len() < count {
        let most = (count - text.len()).min(PIECE_BYTES);
        match host.read(slot, &mut piece[..most]) {
            Ok(0) => return Ok(Taken::Short(text)),
            Ok(size) => append(&mut text, &piece[..size])?,
            Err(_) => return Ok(Taken::Broken),
        }
    }
    Ok(Taken::Full(text))
}

/// Writes all of the bytes to an out. After a fault a prefix of them was written.
pub fn write_out<H: Host>(host: &mut H, out: Out, bytes: &[u8]) -> Result<(), Failed>
    ensures { Did (Writes out bytes.now) (H.state host.old) (H.state host.new) (Some (is_ok result)) }
{
    let mut at = 0usize;
    while at < bytes.len() {
        match host.write(out, &bytes[at..]) {
            Ok(size) => at += size,
            Err(fault) => return Err(fault),
        }
    }
    Ok(())
}

/// Writes a line to Errors. A fault in writing it is passed over.
pub fn tell<H: Host, S: Copy>(host: &mut H, line: &[u8], status: S) -> S
    ensures { Did (Tells line.now status) (H.state host.old) (H.state host.new) (Some result) }
{
    let _ = write_out(host, Out::Errors, line);
    status
}
