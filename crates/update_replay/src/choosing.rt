//! Steps that are chosen by draws.
ghost use Rattle.std.specs.Prelude.{◌≡◌, ◌<◌, IfOk, IfSome};
ghost use Rattle.box_world.specs.NumberWorlds.{numbers_of};
ghost use Rattle.box_world.specs.Worlds as worlds;
ghost use Rattle.box_wire.specs.StepReading.{IsDated};
ghost use Rattle.update_replay.specs.Made.{drawn_hear, drawn_last, drawn_posted, drawn_rest, hears_drawn, hears_last, made_step, or_date, served_last, serves_last};
ghost use Rattle.update_world.specs.Shown.{StandsFor};
ghost use Rattle.update_replay.specs.Making.{Chooses, Draws};

use crate::drawing::draw_post;
use crate::generator::Generator;
use crate::wanted::{Receiver, goes_to, last_packet};
use box_events::{ListOf, Step};
use std::alloc::Global;
use tl_base::Memory;
use update_world::World;

/// The step of a number in a made run, chosen by draws on the world as it stands. Where what they choose can't be made, the clock shows one
/// second more.
pub fn make_step(
    alloc: Global,
    world: &World,
    number: u32,
    from: &mut Generator,
) -> Result<Step, Memory>
    requires date { world.now.server.date < 2147483647 }
    ensures step { (w : worlds.World) → StandsFor world.now w → Draws (made_step (numbers_of w) number from.old.number) result from.new.number }
    ensures dated { IfOk result IsDated }
{
    match from.below(8) {
        2 => Ok(or_date(world, None)),
        3 => Ok(hear_drawn(world, from)),
        4 => Ok(hear_last(world, from)),
        5 => {
            let client = from.below(2);
            Ok(Step::Tick { client })
        }
        6 => Ok(serve_last(world)),
        7 => Ok(draw_rest(from)),
        _ => draw_posted(alloc, number, from),
    }
}

// A step, or that the clock shows one second more.
fn or_date(world: &World, step: Option<Step>) -> Step
    requires date { world.now.server.date < 2147483647 }
    requires dated { IfSome step IsDated }
    ensures step { result ≡ or_date world.now.server.date step }
    ensures dated { IsDated result }
{
    match step {
        Some(step) => step,
        None => Step::Date {
            date: world.state().date + 1,
        },
    }
}

// A client hears a packet that is drawn.
fn hear_drawn(world: &World, from: &mut Generator) -> Step
    requires date { world.now.server.date < 2147483647 }
    ensures step { (w : worlds.World) → StandsFor world.now w → Chooses (drawn_hear (numbers_of w) from.old.number) result from.new.number }
    ensures dated { IsDated result }
{
    let client = from.below(2);
    let step = hear_any(world, client, from);
    or_date(world, step)
}

// A client hears a packet that is drawn, where there are packets and it may.
fn hear_any(world: &World, client: u32, from: &mut Generator) -> Option<Step>
    ensures step { (w : worlds.World) → StandsFor world.now w → Chooses (hears_drawn w.pool client from.old.number) result from.new.number }
    ensures dated { IfSome result IsDated }
{
    let packets = world.packets();
    if packets == 0 {
        return None;
    }
    let packet = from.below(packets);
    if !goes_to(Receiver::Client { client }, world.packet(packet).to) {
        return None;
    }
    Some(Step::Hear { client, packet })
}

// A client hears the last packet that it may.
fn hear_last(world: &World, from: &mut Generator) -> Step
    requires date { world.now.server.date < 2147483647 }
    ensures step { (w : worlds.World) → StandsFor world.now w → Chooses (drawn_last (numbers_of w) from.old.number) result from.new.number }
    ensures dated { IsDated result }
{
    let client = from.below(2);
    let packet = last_packet(world, Receiver::Client { client });
    or_date(world, heard(client, packet))
}

// That a client hears a packet, if there is one.
fn heard(client: u32, packet: Option<u32>) -> Option<Step>
    ensures step { result ≡ hears_last client packet }
    ensures dated { IfSome result IsDated }
{
    match packet {
        Some(packet) => Some(Step::Hear { client, packet }),
        None => None,
    }
}

// The last request is answered.
fn serve_last(world: &World) -> Step
    requires date { world.now.server.date < 2147483647 }
    ensures step { (w : worlds.World) → StandsFor world.now w → result ≡ served_last (numbers_of w) }
    ensures dated { IsDated result }
{
    let packet = last_packet(world, Receiver::Server);
    or_date(world, served(packet))
}

// That a request is answered, if there is one.
fn served(packet: Option<u32>) -> Option<Step>
    ensures step { result ≡ serves_last packet }
    ensures dated { IfSome result IsDated }
{
    match packet {
        Some(packet) => Some(Step::Serve { packet }),
        None => None,
    }
}

// What begins anew, or is pushed, or is woken.
fn draw_rest(from: &mut Generator) -> Step
    ensures step { Chooses (drawn_rest from.old.number) result from.new.number }
    ensures dated { IsDated result }
{
    match from.below(16) {
        0 => {
            let client = from.below(2);
            Step::Restart { client }
        }
        1 => Step::TooLong,
        _ => {
            let client = from.below(2);
            Step::Wake { client }
        }
    }
}

// One post, under the step's number.
fn draw_posted(alloc: Global, number: u32, from: &mut Generator) -> Result<Step, Memory>
    ensures step { Draws (drawn_posted number from.old.number) result from.new.number }
    ensures dated { IfOk result IsDated }
{
    let post = draw_post(alloc, from)?;
    let mut posts = ListOf::new(alloc);
    posts.push(post)?;
    let random_id = number as i64;
    Ok(Step::Post { random_id, posts })
}
