//! Whole files.
ghost use Rattle.std.specs.Prelude.{Some, None};
ghost use Rattle.outside.specs.Begun.{Did};
ghost use Rattle.outside.specs.Pieces.{ReadsFile, ReadsSlot, text_by};

use crate::host::Host;
use crate::pieces::{Taken, take_bytes};
use std::alloc::{AllocError, Global};
use tl_base::Slot;

// Reads what is left of a slot.
fn read_slot<H: Host>(
    alloc: Global,
    host: &mut H,
    slot: Slot,
    limit: u32,
) -> Result<Option<Vec<u8>>, AllocError>
    ensures { Did (ReadsSlot slot limit) (H.state host.old) (H.state host.new) (text_by result) }
{
    match take_bytes(alloc, host, slot, limit as usize + 1)? {
        Taken::Full(text) => Ok(Some(text)),
        Taken::Short(text) => Ok(Some(text)),
        Taken::Broken => Ok(None),
    }
}

/// Reads a file to its end, or to one byte past the limit. None means that it isn't there, or that a read failed.
pub fn read_file<H: Host>(
    alloc: Global,
    host: &mut H,
    slot: Slot,
    name: &str,
    limit: u32,
) -> Result<Option<Vec<u8>>, AllocError>
    ensures { Did (ReadsFile slot name.now limit) (H.state host.old) (H.state host.new) (text_by result) }
{
    match host.open_slot(slot, name) {
        Ok(()) => read_slot(alloc, host, slot, limit),
        Err(_) => Ok(None),
    }
}
