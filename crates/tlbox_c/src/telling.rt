//! What was made, told by a status and bytes.
ghost use Rattle.std.specs.Prelude.{◌≡◌, length};
ghost use Rattle.tlbox_c.specs.Telling.{Fills, HandsMade, Tells, TellsFault, TellsNumber};

use outside::LoadError;
use std::alloc::Global;

/// The work is done.
pub const DONE: u32 = 0;
/// Something is refused, and the bytes are the line that says why.
pub const REFUSED: u32 = 1;
/// Memory was refused.
pub const MEMORY: u32 = 5;
/// The handle isn't open.
pub const CLOSED: u32 = 100;
/// No type has the number.
pub const NO_TYPE: u32 = 101;

/// Keeps what was made, or the line of a refusal; nothing, where there was no memory.
pub fn keep(alloc: Global, made: Result<Vec<u8>, LoadError>, last: &mut Vec<u8>) -> u32
    ensures { Tells made result last.new.items }
{
    match made {
        Ok(bytes) => {
            *last = bytes;
            DONE
        }
        Err(fault) => keep_fault(alloc, fault, last),
    }
}

/// Tells a number and keeps nothing, or keeps the line of a refusal.
pub fn keep_number(
    alloc: Global,
    made: Result<u32, LoadError>,
    number: &mut u32,
    last: &mut Vec<u8>,
) -> u32
    ensures { TellsNumber made result number.old number.new last.new.items }
{
    match made {
        Ok(made) => {
            *number = made;
            *last = Vec::new(alloc);
            DONE
        }
        Err(fault) => keep_fault(alloc, fault, last),
    }
}

// Keeps the line of a refusal; nothing, where there was no memory.
fn keep_fault(alloc: Global, fault: LoadError, last: &mut Vec<u8>) -> u32
    ensures { TellsFault fault result last.new.items }
{
    match fault {
        LoadError::Refused(line) => {
            *last = line;
            REFUSED
        }
        LoadError::ReadFault | LoadError::Memory => {
            *last = Vec::new(alloc);
            MEMORY
        }
    }
}

/// Copies bytes to where there is room for them all, and tells their number.
pub fn copy_out(bytes: &[u8], out: &mut [u8], len: &mut usize)
    ensures len { len.new ≡ length bytes.now }
    ensures out { Fills bytes.now out.old out.new }
{
    *len = bytes.len();
    if bytes.len() <= out.len() {
        out[..bytes.len()].copy_from_slice(bytes);
    }
}

/// Hands out what was made, or the line of a refusal; nothing, where there was no memory.
pub fn hand_made(made: Result<Vec<u8>, LoadError>, out: &mut [u8], len: &mut usize) -> u32
    ensures { HandsMade made result out.old out.new len.new }
{
    match made {
        Ok(bytes) => {
            copy_out(&bytes, out, len);
            DONE
        }
        Err(LoadError::Refused(line)) => {
            copy_out(&line, out, len);
            REFUSED
        }
        Err(_) => {
            *len = 0;
            MEMORY
        }
    }
}
