//! What is told of a packet that is refused.
ghost use Rattle.std.specs.Prelude.{◌<◌, ◌+◌, ◌^◌};
ghost use Rattle.outside.specs.Loading.{RefusesAs};
ghost use Rattle.schema_files.specs.Lines.{input_line};
ghost use Rattle.outside.specs.Packets.{packet_words};
ghost use Rattle.call_commands.specs.inner.Tellings.{TellsUnread, TellsUnsent, offset_in};

use crate::lines::result_cause_name;
use outside::{LoadError, packet_words};
use schema_files::cause_error;
use std::alloc::Global;
use tl_base::{Fault, PacketCause};
use tl_calls::SendFault;
use tl_decode::WholeCause;

/// What is told of bytes that are no value. They stand after a packet's length and its first word; the packet begins at this offset.
pub fn unread(alloc: Global, at: u64, fault: Fault<WholeCause>) -> LoadError
    requires { at + (8 + offset_in fault) < 2 ^ 64 }
    ensures { TellsUnread at fault result }
{
    match fault {
        Fault::Refused(WholeCause::Refused { place, cause }) => {
            cause_error(alloc, at + (8 + place), cause)
        }
        Fault::Refused(WholeCause::Trailing { place }) => {
            LoadError::placed(alloc, "input", at + (8 + place), "Trailing")
        }
        Fault::Memory => LoadError::Memory,
    }
}

/// What is told of a call that isn't sent, of the packet at this offset.
pub fn unsent(alloc: Global, at: u64, fault: SendFault) -> LoadError
    ensures { TellsUnsent at fault result }
{
    match fault {
        SendFault::Full => LoadError::placed(alloc, "input", at, "Full"),
        SendFault::Result(cause) => LoadError::placed(alloc, "input", at, result_cause_name(cause)),
        SendFault::Memory => LoadError::Memory,
    }
}

/// What is told of bytes at this offset that are no packet.
pub fn unpacked(alloc: Global, at: u64, cause: PacketCause) -> LoadError
    ensures { RefusesAs (input_line at (packet_words cause)) result }
{
    match packet_words(alloc, cause) {
        Ok(why) => LoadError::placed(alloc, "input", at, why.as_str()),
        Err(_) => LoadError::Memory,
    }
}
