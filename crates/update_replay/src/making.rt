//! Made runs.
ghost use Rattle.std.specs.Prelude.{◌≡◌, ◌<◌, ◌≤◌, IfOk, None, OnOk, length};
ghost use Rattle.wire_profile.specs.Profiles.{IsProfile};
ghost use Rattle.box_world.specs.NumberWorlds.{numbers_of};
ghost use Rattle.box_world.specs.Worlds as worlds;
ghost use Rattle.box_world.specs.Worlds.{start};
ghost use Rattle.box_world.specs.Sizes.{step_size};
ghost use Rattle.update_replay.specs.Made.{made_step};
ghost use Rattle.update_world.specs.Shown.{StandsFor};
ghost use Rattle.update_replay.specs.MadeRuns.{MakesRun};
ghost use Rattle.update_replay.specs.MadeSteps.{GoesOn, GoesThrough};
ghost use Rattle.update_replay.specs.declared.making.TheConstants.{MAX_MADE_STEPS};

use crate::choosing::make_step;
use crate::generator::Generator;
use crate::made_fault::MadeFault;
use crate::summary::summary_of;
use box_events::Step;
use box_wire::spell_step;
use box_world::StepFault;
use std::alloc::Global;
use tl_base::{Bytes, Fault, Memory};
use update_world::World;
use wire_profile::Profile;

/// A made run has so many steps at most, as a journal has.
pub const MAX_MADE_STEPS: u32 = 100_000;

// A made run's world has two clients.
const MADE_CLIENTS: u32 = 2;

/// Makes a run of so many steps over a new world with two clients, chosen by the draws of a number, and answers its summary. A step whose packets
/// the pool has no place for is answered by its offset in the journal that the steps before it are.
pub fn made_run<'s>(
    alloc: Global,
    profile: Profile<'s>,
    number: u64,
    steps: u32,
) -> Result<Bytes, MadeFault>
    requires some { 1 ≤ steps }
    requires few { steps ≤ MAX_MADE_STEPS }
    ensures { MakesRun number steps result }
{
    let mut world = World::new(alloc, profile, MADE_CLIENTS)?;
    make_steps(alloc, &mut world, number, steps)?;
    let text = summary_of(alloc, &world, steps)?;
    Ok(text)
}

// Makes the steps, each on the world as it stands.
fn make_steps(alloc: Global, world: &mut World, number: u64, count: u32) -> Result<(), MadeFault>
    requires few { count ≤ MAX_MADE_STEPS }
    requires new { StandsFor world.old (start 2) }
    requires fine { world.old.spoiled ≡ None }
    ensures { GoesThrough number count result world.new }
{
    let mut from = Generator::new(number);
    let mut at = 0;
    for k in 0..count {
        at += make_one(alloc, world, k, at, &mut from)?;
    }
    Ok(())
}

// Makes a step, and answers how many bytes it has in the journal, where it stands at an offset.
fn make_one(
    alloc: Global,
    world: &mut World,
    number: u32,
    at: u32,
    from: &mut Generator,
) -> Result<u32, MadeFault>
    requires stands { (w : worlds.World) × StandsFor world.old w }
    requires fine { world.old.spoiled ≡ None }
    requires two { length world.old.clients ≡ 2 }
    requires date { world.old.server.date < 2147483647 }
    ensures goes { (w : worlds.World) → StandsFor world.old w → GoesOn w at (made_step (numbers_of w) number from.old.number) result world.new from.new.number }
    ensures clients { length world.new.clients ≡ length world.old.clients }
    ensures sound { OnOk result (IsProfile world.new.profile) }
{
    let step = make_step(alloc, world, number, from)?;
    let size = spelled_len(alloc, world.profile(), &step)?;
    match world.step(alloc, step) {
        Ok(_) => Ok(size),
        Err(Fault::Refused(cause)) => match cause {
            StepFault::PoolFull { bytes } => Err(MadeFault::PoolFull { at, bytes }),
            _ => unreachable!(),
        },
        Err(Fault::Memory) => Err(MadeFault::Memory),
    }
}

// How many bytes a step has in the journal.
fn spelled_len(alloc: Global, profile: &Profile, step: &Step) -> Result<u32, Memory>
    requires sound { IsProfile profile.now }
    requires short { step_size step.now ≤ 48 }
    ensures { IfOk result (λ n. n ≡ step_size step.now) }
{
    let bytes = spell_step(alloc, profile, step)?;
    Ok(bytes.len() as u32)
}
