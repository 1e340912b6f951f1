//! The turns of `calls`: a packet is taken, and its line is written, or the run ends.
ghost use Rattle.std.specs.Prelude.{◌≡◌, ◌<◌, ◌≤◌, ◌^◌, IfOk, Some, length};
ghost use Rattle.tl_base.specs.Packets.{IsPacketLength};
ghost use Rattle.tl_base.specs.declared.host.Out.TheVariants.{Output};
ghost use Rattle.tl_schema.specs.CheckedPrograms.{IsSchema};
ghost use Rattle.tl_calls.specs.Calling.{AreOpenIn, StandsFor};
ghost use Rattle.tl_calls.specs.Events.{Log};
ghost use Rattle.outside.specs.Jobs.{of_fault};
ghost use Rattle.outside.specs.Pieces.{Writes};
ghost use Rattle.outside.specs.Runs.{answered};
ghost use Rattle.outside.specs.Begun.{Did, DidIn, to_output};
ghost use Rattle.outside.specs.Steps.{Then};
ghost use Rattle.call_commands.specs.CallsWork.{OfPacket, TellsNext, TellsPackets, after_line, so_far};
ghost use Rattle.call_commands.specs.inner.Turning.{EndsMade, GoesOn, IsNext, Turns, turn_of};

use crate::{MAX_PACKET_END, tell_packet, unpacked};
use outside::{Host, LoadError, Packet, Status, print_made, take_packet, tell, unread, write_out};
use std::alloc::{AllocError, Global};
use tl_base::{Out, Slot};
use tl_calls::Calls;
use tl_schema::Schema;
use tl_show::JsonPrinter;

/// How a turn ends.
#[derive(Clone, Copy)]
pub enum Turn {
    /// The next packet begins at this offset.
    Next(u64),
    /// The run ends.
    Last(Status),
}

// Tells a refusal, which ends the run.
fn refuse<H: Host>(host: &mut H, fault: LoadError) -> Result<Turn, AllocError>
    ensures { EndsMade (of_fault fault) (H.state host.old) (H.state host.new) result }
{
    let status = print_made(host, Err(fault))?;
    Ok(Turn::Last(status))
}

// Writes the line of a packet. The next one begins at this offset.
fn write_line<H: Host>(host: &mut H, line: &[u8], end: u64) -> Turn
    ensures does { (past : Log) → Did (Then (Writes Output line.now) (after_line (so_far past end))) (H.state host.old) (H.state host.new) (Some (turn_of past result)) }
    ensures next { IsNext end result }
{
    match write_out(host, Out::Output, line) {
        Ok(()) => Turn::Next(end),
        Err(_) => Turn::Last(tell(host, b"tlbox: write fault\n", Status::WriteFault)),
    }
}

// Tells a whole packet of this content, which begins at this offset. The printer is that of the schema.
fn tell_whole<H: Host>(
    alloc: Global,
    host: &mut H,
    schema: &Schema,
    printer: &JsonPrinter<'_>,
    calls: &mut Calls,
    at: u64,
    content: &[u8],
) -> Result<Turn, AllocError>
    requires same { printer.now.schema.now ≡ schema.now }
    requires good { IsSchema schema.now }
    requires within { at ≤ MAX_PACKET_END }
    requires few { calls.old.next < 2 ^ 31 }
    requires fitting { AreOpenIn schema.now calls.old }
    requires whole { IsPacketLength (length content.now) }
    ensures does { (past : Log) → StandsFor schema.now calls.old past → Turns (OfPacket schema.now (so_far past at) content.now) schema.now calls.new past (H.state host.old) (H.state host.new) result }
    ensures fitting { AreOpenIn schema.now calls.new }
    ensures on { IfOk result (GoesOn at calls.old calls.new) }
{
    let end = at + 4 + content.len() as u64;
    if end > MAX_PACKET_END as u64 {
        return refuse(host, LoadError::placed(alloc, "input", at, "TooLong"));
    }
    match tell_packet(alloc, schema, printer, calls, at, content) {
        Ok(line) => Ok(write_line(host, &line, end)),
        Err(fault) => refuse(host, fault),
    }
}

// Takes the packet at this offset, and tells it.
fn tell_next<H: Host>(
    alloc: Global,
    host: &mut H,
    schema: &Schema,
    printer: &JsonPrinter<'_>,
    calls: &mut Calls,
    at: u64,
) -> Result<Turn, AllocError>
    requires same { printer.now.schema.now ≡ schema.now }
    requires good { IsSchema schema.now }
    requires within { at ≤ MAX_PACKET_END }
    requires few { calls.old.next < 2 ^ 31 }
    requires fitting { AreOpenIn schema.now calls.old }
    ensures does { (past : Log) → StandsFor schema.now calls.old past → Turns (TellsNext schema.now (so_far past at)) schema.now calls.new past (H.state host.old) (H.state host.new) result }
    ensures fitting { AreOpenIn schema.now calls.new }
    ensures on { IfOk result (GoesOn at calls.old calls.new) }
{
    match take_packet(alloc, host, Slot::Input)? {
        Packet::Whole(content) => tell_whole(alloc, host, schema, printer, calls, at, &content),
        Packet::None => Ok(Turn::Last(Status::Done)),
        Packet::Wrong(cause) => refuse(host, unpacked(alloc, at, cause)),
        Packet::Broken => Ok(Turn::Last(unread(host))),
    }
}

/// Tells the packets of what is left of Input, each when it was taken. The printer is that of the schema.
pub fn tell_packets<H: Host>(
    alloc: Global,
    host: &mut H,
    schema: &Schema,
    printer: &JsonPrinter<'_>,
) -> Result<Status, AllocError>
    requires same { printer.now.schema.now ≡ schema.now }
    requires good { IsSchema schema.now }
    ensures { DidIn to_output (TellsPackets schema.now) (H.state host.old) (H.state host.new) (answered result) }
{
    let mut calls = Calls::new(alloc);
    let mut at = 0u64;
    'packets: loop {
        match tell_next(alloc, host, schema, printer, &mut calls, at)? {
            Turn::Next(end) => at = end,
            Turn::Last(status) => return Ok(status),
        }
    }
}
