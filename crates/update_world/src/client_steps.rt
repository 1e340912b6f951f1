//! Steps of a client.
ghost use Rattle.std.specs.Prelude.{◌≡◌, IfOk, OnOk, length};
ghost use Rattle.box_events.specs.declared.steps.Step.TheVariants as step;
ghost use Rattle.wire_profile.specs.Indexes.{ProfileView};
ghost use Rattle.box_world.specs.Fitting.{IsHearable};
ghost use Rattle.update_world.specs.inner.Delivering.{IsTaken, after_frame, frame_as};
ghost use Rattle.update_world.specs.inner.Making.{IsSteady, Makes, shown_by};

use crate::outcome::Outcome;
use crate::parts::WorldParts;
use crate::reading::frame_for;
use crate::spelling::send_calls;
use box_client::{Client, ReplyOutcome};
use box_events::{Asks, Frame};
use box_world::StepFault;
use channel_box::WatchFault;
use report_lines::HeardAs;
use std::alloc::{AllocError, Global};
use tl_base::{Fault, Memory};
use wire_profile::Profile;

/// A client receives a packet.
pub fn hear(
    alloc: Global,
    profile: &Profile,
    parts: &mut WorldParts,
    client: u32,
    packet: u32,
) -> Result<Outcome, Fault<StepFault>>
    requires { IsSteady (shown_by profile.now parts.old) }
    ensures step { Makes profile.now (step.Hear client packet) parts.old result parts.new }
    ensures clients { length parts.new.clients.items ≡ length parts.old.clients.items }
{
    if client as usize >= parts.clients.len() {
        return Err(Fault::Refused(StepFault::NoClient { n: client }));
    }
    let frame = frame_for(alloc, profile, &parts.pool, client, packet)?;
    let told = deliver(alloc, &mut parts.clients[client as usize], frame)?;
    Ok(Outcome::Heard { client, told })
}

// A client hears what the server sent. It refuses nothing of it.
fn deliver(alloc: Global, client: &mut Client, frame: Frame) -> Result<HeardAs, Memory>
    requires range { IsHearable frame }
    requires taken { IsTaken client.old frame }
    ensures client { OnOk result (client.new ≡ after_frame client.old frame) }
    ensures told { IfOk result (λ told. told ≡ frame_as client.old frame) }
{
    match frame {
        Frame::Push(push) => {
            client.hear_push(alloc, push)?;
            Ok(HeardAs::Push)
        }
        Frame::Reply { number, reply } => match client.hear_reply(alloc, number, reply) {
            Ok(ReplyOutcome::Reply) => Ok(HeardAs::Reply),
            Ok(ReplyOutcome::Stale) => Ok(HeardAs::Stale),
            Err(Fault::Refused(_)) => unreachable!(),
            Err(Fault::Memory) => Err(AllocError),
        },
    }
}

/// A client sends what it asks.
pub fn tick(
    alloc: Global,
    profile: &Profile,
    parts: &mut WorldParts,
    client: u32,
) -> Result<Outcome, Fault<StepFault>>
    requires { IsSteady (shown_by profile.now parts.old) }
    ensures step { Makes profile.now (step.Tick client) parts.old result parts.new }
    ensures clients { length parts.new.clients.items ≡ length parts.old.clients.items }
{
    if client as usize >= parts.clients.len() {
        return Err(Fault::Refused(StepFault::NoClient { n: client }));
    }
    let mut asks = Asks::new();
    parts.clients[client as usize].tick(&mut asks);
    let first = send_calls(alloc, profile, &mut parts.pool, &asks, client)?;
    let asks = asks.len();
    Ok(Outcome::Ticked {
        client,
        asks,
        first,
    })
}

/// A client is to ask about all.
pub fn wake(parts: &mut WorldParts, client: u32) -> Result<Outcome, Fault<StepFault>>
    ensures step { (p : ProfileView) → IsSteady (shown_by p parts.old) → Makes p (step.Wake client) parts.old result parts.new }
    ensures clients { length parts.new.clients.items ≡ length parts.old.clients.items }
{
    if client as usize >= parts.clients.len() {
        return Err(Fault::Refused(StepFault::NoClient { n: client }));
    }
    parts.clients[client as usize].wake();
    Ok(Outcome::Woken { client })
}

/// A client watches a channel from now on, unless it watches it already or as many as it may.
pub fn watch(
    alloc: Global,
    parts: &mut WorldParts,
    client: u32,
    id: i64,
) -> Result<Outcome, Fault<StepFault>>
    ensures step { (p : ProfileView) → IsSteady (shown_by p parts.old) → Makes p (step.Watch client id) parts.old result parts.new }
    ensures clients { length parts.new.clients.items ≡ length parts.old.clients.items }
{
    if client as usize >= parts.clients.len() {
        return Err(Fault::Refused(StepFault::NoClient { n: client }));
    }
    let refused = match parts.clients[client as usize].watch(alloc, id) {
        Ok(()) => None,
        Err(WatchFault::Already) => Some(WatchFault::Already),
        Err(WatchFault::TooMany) => Some(WatchFault::TooMany),
        Err(WatchFault::Memory) => return Err(Fault::Memory),
    };
    Ok(Outcome::Watched {
        client,
        id,
        refused,
    })
}

/// A client begins anew.
pub fn restart(parts: &mut WorldParts, client: u32) -> Result<Outcome, Fault<StepFault>>
    ensures step { (p : ProfileView) → IsSteady (shown_by p parts.old) → Makes p (step.Restart client) parts.old result parts.new }
    ensures clients { length parts.new.clients.items ≡ length parts.old.clients.items }
{
    if client as usize >= parts.clients.len() {
        return Err(Fault::Refused(StepFault::NoClient { n: client }));
    }
    parts.clients[client as usize].restart();
    Ok(Outcome::Restarted { client })
}
