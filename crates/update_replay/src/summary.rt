//! The summary of a made run.
ghost use Rattle.std.specs.Prelude.{◌≡◌, ◌++◌, IfOk, OnOk, map};
ghost use Rattle.box_client.specs.Numbers.{client_numbers};
ghost use Rattle.update_replay.specs.Summaries.{standing_lines};
ghost use Rattle.update_replay.specs.MadeSteps.{shown_summary};

use report_lines::{put_made, put_server, put_standing};
use std::alloc::Global;
use tl_base::{Bytes, Memory};
use update_world::World;

/// The summary of a world after so many steps.
pub fn summary_of(alloc: Global, world: &World, steps: u32) -> Result<Bytes, Memory>
    ensures { IfOk result (λ text. text ≡ shown_summary steps world.now) }
{
    let mut lines = Vec::new(alloc);
    put_made(&mut lines, steps, world.packets(), world.bytes())?;
    put_server(&mut lines, world.state())?;
    put_standings(&mut lines, world)?;
    Ok(Bytes::from_vec(lines))
}

// Puts where each client is.
fn put_standings(lines: &mut Vec<u8>, world: &World) -> Result<(), Memory>
    ensures { OnOk result (lines.new.items ≡ lines.old.items ++ standing_lines 0 (map client_numbers world.now.clients)) }
{
    for client in 0..world.clients() {
        put_standing(lines, client, world.client(client))?;
    }
    Ok(())
}
