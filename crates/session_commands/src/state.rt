//! The client of a state file.
ghost use Rattle.std.specs.Prelude.{◌≤◌, IfOk};
ghost use Rattle.box_client.specs.Ranges.{IsSavedInRange};
ghost use Rattle.wire_profile.specs.Profiles.{IsProfile};
ghost use Rattle.outside.specs.Loading.{Gives};
ghost use Rattle.session_commands.specs.Client.{HasClient, TellsNoClient};
ghost use Rattle.session_commands.specs.inner.Recovering.{LoadsClient, ReadsSaved};

use box_client::Client;
use box_events::Saved;
use box_wire::{Fault, read_saved};
use fault_lines::{load_line, wire_line};
use outside::LoadError;
use std::alloc::Global;
use wire_profile::Profile;

/// The most bytes that a state file may have.
pub const MAX_STATE_BYTES: u32 = 268_435_456;

/// The client of a state's bytes, which is a new one where there are none.
pub fn client_in(alloc: Global, profile: &Profile, bytes: &[u8]) -> Result<Client, LoadError>
    requires sound { IsProfile profile.now }
    ensures gives { Gives (HasClient profile.now) (TellsNoClient profile.now) bytes.now result }
    ensures next { IfOk result (λ client. client.next ≤ 2000000000) }
{
    if bytes.is_empty() {
        return Ok(Client::new(alloc));
    }
    if bytes.len() > MAX_STATE_BYTES as usize {
        return Err(LoadError::unplaced(alloc, "state", "TooLong"));
    }
    let saved = saved_in(alloc, profile, bytes)?;
    client_of(alloc, saved)
}

// What is saved in a state's bytes.
fn saved_in(alloc: Global, profile: &Profile, bytes: &[u8]) -> Result<Saved, LoadError>
    requires sound { IsProfile profile.now }
    ensures reads { ReadsSaved profile.now bytes.now result }
    ensures range { IfOk result IsSavedInRange }
{
    match read_saved(alloc, profile, bytes) {
        Ok(saved) => Ok(saved),
        Err(Fault::Refused(cause)) => Err(LoadError::of_line(wire_line(alloc, "state", cause))),
        Err(Fault::Memory) => Err(LoadError::Memory),
    }
}

// The client that was saved.
fn client_of(alloc: Global, saved: Saved) -> Result<Client, LoadError>
    requires range { IsSavedInRange saved }
    ensures loads { LoadsClient saved result }
    ensures next { IfOk result (λ client. client.next ≤ 2000000000) }
{
    match Client::load(alloc, saved) {
        Ok(client) => Ok(client),
        Err(fault) => Err(LoadError::of_line(load_line(alloc, fault))),
    }
}
