//! Messages that are sent over the link in hand.
ghost use Rattle.std.specs.Prelude.{List, is_ok, length, Some, ◌≤◌};
ghost use Rattle.tl_base.specs.Packets.{packet};
ghost use Rattle.tl_base.specs.declared.host.Out.TheVariants.{Link};
ghost use Rattle.box_events.specs.declared.limits.TheConstants.{MAX_FRAME_BYTES};
ghost use Rattle.box_events.specs.declared.requests.Numbered.{Numbered};
ghost use Rattle.outside.specs.Pieces.{Writes};
ghost use Rattle.outside.specs.Begun.{Did};
ghost use Rattle.update_sessions.specs.Packed.{Packed, SpellsCall};
ghost use Rattle.wire_profile.specs.Indexes.{ProfileView};
ghost use Rattle.session_rooms.specs.Sending.{Sends};

use outside::{Host, write_out};
use tl_base::{Bytes, Failed, Out};
use tl_numbers::bytes_of_u32;

/// Sends the packets of calls.
pub fn send_calls<H: Host>(host: &mut H, out: &Bytes) -> Result<(), Failed>
    ensures { (p : ProfileView) (calls : List Numbered) → Packed (SpellsCall p) calls out.now → Did (Sends (SpellsCall p) calls) (H.state host.old) (H.state host.new) (Some (is_ok result)) }
{
    write_out(host, Out::Link, out.as_slice())
}

/// Sends a packet of these bytes.
pub fn send_packet<H: Host>(host: &mut H, bytes: &[u8]) -> Result<(), Failed>
    requires { length bytes.now ≤ MAX_FRAME_BYTES }
    ensures { Did (Writes Link (packet bytes.now)) (H.state host.old) (H.state host.new) (Some (is_ok result)) }
{
    write_out(host, Out::Link, &bytes_of_u32(bytes.len() as u32))?;
    write_out(host, Out::Link, bytes)
}
