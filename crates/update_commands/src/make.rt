//! `make`: the summary of a run that is made of draws over a schema with the protocol.
ghost use Rattle.std.specs.Prelude.{◌≤◌};
ghost use Rattle.outside.specs.Loading.{RefusesAs};
ghost use Rattle.update_commands.specs.Make.{TellsRun, full_line};
ghost use Rattle.update_replay.specs.declared.making.TheConstants.{MAX_MADE_STEPS};

use outside::LoadError;
use std::alloc::Global;
use update_replay::{MadeFault, made_run};
use wire_profile::Profile;

// The refusal of a run whose pool would be too full.
fn too_full(alloc: Global, at: u32, bytes: u32) -> LoadError
    ensures { RefusesAs (full_line at bytes) result }
{
    match format!(in alloc; "PoolFull {bytes}") {
        Ok(why) => LoadError::placed(alloc, "journal", at as u64, why.as_str()),
        Err(_) => LoadError::Memory,
    }
}

/// The summary of a run of so many steps by the draws of a number, or its refusal: the schema changes nothing but that it is a profile.
pub fn run_text(
    alloc: Global,
    profile: Profile,
    number: u64,
    steps: u32,
) -> Result<Vec<u8>, LoadError>
    requires some { 1 ≤ steps }
    requires few { steps ≤ MAX_MADE_STEPS }
    ensures { TellsRun number steps result }
{
    match made_run(alloc, profile, number, steps) {
        Ok(text) => Ok(text.into_vec()),
        Err(MadeFault::PoolFull { at, bytes }) => Err(too_full(alloc, at, bytes)),
        Err(MadeFault::Memory) => Err(LoadError::Memory),
    }
}
