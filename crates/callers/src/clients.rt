//! A client that hears what a server sends, and asks.
ghost use Rattle.std.specs.Prelude.{◌≡◌, ◌≤◌, OnErr, OnOk};
ghost use Rattle.box_client.specs.Asking.{ticks};
ghost use Rattle.box_client.specs.Pushes.{pushed};
ghost use Rattle.box_client.specs.Ranges.{IsPushInRange, IsReplyInRange};

use box_client::{Client, ClientFault, Fault, ReplyOutcome};
use box_events::{Asks, Push, Reply};
use std::alloc::Global;
use tl_base::Memory;

/// A push comes, and all that is due is asked about: the requests stand in `asks`.
pub fn hear_and_ask(
    alloc: Global,
    client: &mut Client,
    push: Push,
    asks: &mut Asks,
) -> Result<(), Memory>
    requires range { IsPushInRange push }
    requires limit { client.old.next ≤ 2147483582 }
    ensures client { OnOk result (client.new ≡ (ticks (pushed client.old push)).client) }
    ensures asks { OnOk result (asks.new ≡ (ticks (pushed client.old push)).asks) }
    ensures unchanged { OnErr result (client.new ≡ client.old) }
{
    client.hear_push(alloc, push)?;
    client.tick(asks);
    Ok(())
}

/// The answer to a request comes. Whether it was asked for; a refusal changes nothing.
pub fn take_reply(
    alloc: Global,
    client: &mut Client,
    number: u32,
    reply: Reply,
) -> Result<bool, Fault<ClientFault>>
    requires range { IsReplyInRange reply }
    ensures unchanged { OnErr result (client.new ≡ client.old) }
{
    match client.hear_reply(alloc, number, reply)? {
        ReplyOutcome::Reply => Ok(true),
        ReplyOutcome::Stale => Ok(false),
    }
}
