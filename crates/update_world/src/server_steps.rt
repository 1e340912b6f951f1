//! Steps of the server.
ghost use Rattle.std.specs.Prelude.{◌≡◌, ◌<◌, ◌^◌, length};
ghost use Rattle.box_events.specs.declared.steps.Step.TheVariants as step;
ghost use Rattle.wire_profile.specs.Indexes.{ProfileView};
ghost use Rattle.update_world.specs.inner.Making.{IsSteady, Makes, shown_by};

use crate::outcome::Outcome;
use crate::parts::WorldParts;
use crate::reading::asked_by;
use crate::sent::End;
use crate::spelling::send_frame;
use box_events::{Frame, ListOf, Post, Push, Update};
use box_server::PostFault;
use box_world::StepFault;
use std::alloc::Global;
use tl_base::Fault;
use wire_profile::Profile;

/// The server receives posts. A new one is sent to every client.
pub fn post(
    alloc: Global,
    profile: &Profile,
    parts: &mut WorldParts,
    random_id: i64,
    posts: ListOf<Post>,
) -> Result<Outcome, Fault<StepFault>>
    requires { IsSteady (shown_by profile.now parts.old) }
    ensures step { Makes profile.now (step.Post random_id posts) parts.old result parts.new }
    ensures clients { parts.new.clients.items ≡ parts.old.clients.items }
{
    match parts.server.post(random_id, posts.as_slice()) {
        Ok(posted) => {
            let push = posted.push;
            match push {
                Some(push) => {
                    let frame = Frame::Push(push);
                    let packet = send_frame(alloc, profile, &mut parts.pool, frame, End::Clients)?;
                    let state = parts.server.state();
                    Ok(Outcome::Posted { state, packet })
                }
                None => Ok(Outcome::Again),
            }
        }
        Err(fault) => match fault {
            PostFault::Memory => Err(Fault::Memory),
            fault => Ok(Outcome::PostRefused { fault }),
        },
    }
}

/// The server's clock shows a date.
pub fn date(parts: &mut WorldParts, date: u32) -> Result<Outcome, Fault<StepFault>>
    requires { date < 2 ^ 31 }
    ensures step { (p : ProfileView) → IsSteady (shown_by p parts.old) → Makes p (step.Date date) parts.old result parts.new }
    ensures clients { parts.new.clients.items ≡ parts.old.clients.items }
{
    parts.server.set_date(date);
    let date = parts.server.state().date;
    Ok(Outcome::Date { date })
}

/// The server receives a request, and sends its reply to the client that asked.
pub fn serve(
    alloc: Global,
    profile: &Profile,
    parts: &mut WorldParts,
    packet: u32,
) -> Result<Outcome, Fault<StepFault>>
    requires { IsSteady (shown_by profile.now parts.old) }
    ensures step { Makes profile.now (step.Serve packet) parts.old result parts.new }
    ensures clients { parts.new.clients.items ≡ parts.old.clients.items }
{
    let asked = asked_by(alloc, profile, &parts.pool, packet)?;
    let reply = parts.server.answer(alloc, &asked.call.request)?;
    let number = asked.call.number;
    let frame = Frame::Reply { number, reply };
    let to = End::Client { client: asked.from };
    let packet = send_frame(alloc, profile, &mut parts.pool, frame, to)?;
    Ok(Outcome::Served { packet })
}

/// The server sends that more is new than a push would carry.
pub fn too_long(
    alloc: Global,
    profile: &Profile,
    parts: &mut WorldParts,
) -> Result<Outcome, Fault<StepFault>>
    requires { IsSteady (shown_by profile.now parts.old) }
    ensures step { Makes profile.now step.TooLong parts.old result parts.new }
    ensures clients { parts.new.clients.items ≡ parts.old.clients.items }
{
    let frame = Frame::Push(Push::TooLong);
    let packet = send_frame(alloc, profile, &mut parts.pool, frame, End::Clients)?;
    let channel = false;
    Ok(Outcome::Pushed { packet, channel })
}

/// The server sends so of a channel.
pub fn channel_too_long(
    alloc: Global,
    profile: &Profile,
    parts: &mut WorldParts,
    channel_id: i64,
) -> Result<Outcome, Fault<StepFault>>
    requires { IsSteady (shown_by profile.now parts.old) }
    ensures step { Makes profile.now (step.ChannelTooLong channel_id) parts.old result parts.new }
    ensures clients { parts.new.clients.items ≡ parts.old.clients.items }
{
    let mut updates = ListOf::new(alloc);
    updates.push(Update::ChannelTooLong { id: channel_id })?;
    let frame = Frame::Push(Push::Container {
        updates,
        date: parts.server.state().date,
        seq_start: 0,
        seq: 0,
    });
    let packet = send_frame(alloc, profile, &mut parts.pool, frame, End::Clients)?;
    let channel = true;
    Ok(Outcome::Pushed { packet, channel })
}
