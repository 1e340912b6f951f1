//! What a client makes of a frame, and what it asks after that, as packets in a buffer.
ghost use Rattle.std.specs.Prelude.{◌≡◌, ◌≤◌, ◌+◌, OnOk, true};
ghost use Rattle.box_events.specs.declared.limits.TheConstants.{MAX_ASKS};
ghost use Rattle.box_client.specs.Asking.{is_one_asking, ticks, wakes};
ghost use Rattle.box_world.specs.Streams.{begun};
ghost use Rattle.box_world.specs.Fitting.{IsHearable};
ghost use Rattle.update_sessions.specs.Packed.{Packed, SpellsCall};
ghost use Rattle.update_sessions.specs.Turns.{HearsPacket};
ghost use Rattle.update_sessions.specs.inner.Steps.{HearsFrame};

use crate::fault::{SessionFault, of_client, of_wire};
use crate::packing::put_calls;
use box_client::{Client, ClientFault};
use box_events::{Asks, Frame};
use box_wire::read_frame;
use std::alloc::Global;
use tl_base::{Bytes, Fault, Memory};
use wire_profile::Profile;

/// A frame comes.
pub fn hear_frame(
    alloc: Global,
    client: &mut Client,
    frame: Frame,
) -> Result<(), Fault<ClientFault>>
    requires { IsHearable frame }
    ensures { HearsFrame client.old frame result client.new }
{
    match frame {
        Frame::Push(push) => Ok(client.hear_push(alloc, push)?),
        Frame::Reply { number, reply } => {
            let _told = client.hear_reply(alloc, number, reply)?;
            Ok(())
        }
    }
}

/// Puts what is due in place of what stands in `asks`, and its packets in place of what stands in `out`.
pub fn put_asks(
    alloc: Global,
    profile: &Profile,
    client: &mut Client,
    asks: &mut Asks,
    out: &mut Bytes,
) -> Result<(), Memory>
    requires { client.old.next ≤ 2147483582 }
    ensures ticks { client.new ≡ (ticks client.old).client }
    ensures next { client.new.next ≤ client.old.next + MAX_ASKS }
    ensures asks { OnOk result (Packed (SpellsCall profile.now) (ticks client.old).asks out.new) }
{
    client.tick(asks);
    put_calls(alloc, profile, asks, out)
}

/// A session begins: all is asked about. Puts the packets of that in place of what stands in `out`, and what they ask in place of what stands in `asks`.
pub fn ask_all(
    alloc: Global,
    profile: &Profile,
    client: &mut Client,
    asks: &mut Asks,
    out: &mut Bytes,
) -> Result<(), Memory>
    requires next { client.old.next ≤ 2000000000 }
    ensures begins { client.new ≡ begun client.old }
    ensures next { client.new.next ≤ 2000000000 + MAX_ASKS }
    ensures asks { OnOk result (Packed (SpellsCall profile.now) (ticks (wakes client.old)).asks out.new) }
{
    client.wake();
    put_asks(alloc, profile, client, asks, out)
}

/// A packet comes to a client that asks: it takes the frame that the bytes mean. Puts the packets of what is due then in place of what stands in `out`.
/// A frame that is refused leaves the client as it was, and nothing is to be sent.
pub fn hear_packet(
    alloc: Global,
    profile: &Profile,
    client: &mut Client,
    packet: &[u8],
    asks: &mut Asks,
    out: &mut Bytes,
) -> Result<(), Fault<SessionFault>>
    requires next { client.old.next ≤ 2147483582 }
    requires asking { is_one_asking client.old ≡ true }
    ensures hears { HearsPacket profile.now client.old packet.now out.new client.new result }
    ensures next { client.new.next ≤ client.old.next + MAX_ASKS }
{
    let frame = match read_frame(alloc, profile, packet) {
        Ok(frame) => frame,
        Err(fault) => return Err(of_wire(fault)),
    };
    match hear_frame(alloc, client, frame) {
        Ok(()) => {}
        Err(fault) => return Err(of_client(fault)),
    }
    put_asks(alloc, profile, client, asks, out)?;
    Ok(())
}
