//! `client`: the client of a state file is brought up to date over a link, saved, and told.
ghost use Rattle.std.specs.Prelude.{codes, ◌≤◌, IfOk, true};
ghost use Rattle.outside.specs.Runs.{RanIn, answered};
ghost use Rattle.outside.specs.Begun.{DidIn, to_link};
ghost use Rattle.tl_schema.specs.CheckedPrograms.{IsSchema};
ghost use Rattle.wire_profile.specs.Profiles.{IsProfile};
ghost use Rattle.codec_rooms.specs.Typed.{OfText};
ghost use Rattle.update_commands.specs.Profile.{OfProfile};
ghost use Rattle.session_rooms.specs.Client.{OfState, OfStateFile, Recovers, after_connect, recovers};
ghost use Rattle.session_rooms.specs.inner.Ends.{MakesClient};

use crate::conversing::converse;
use crate::saving::{save_client, tell_session};
use box_client::Client;
use fault_lines::profile_of;
use outside::{Host, LoadError, Status, finish, print_made, read_file, tell};
use schema_files::{SCHEMA_BYTES, schema_of};
use session_commands::{MAX_STATE_BYTES, client_in, watch_all};
use std::alloc::{AllocError, Global};
use tl_base::{Fault, Slot};
use tl_schema::Schema;
use wire_profile::Profile;

/// Brings the client of a state file, which watches these channels too, up to date over a link to an address, saves it, and writes where it is.
pub fn recover_client<H: Host>(
    alloc: Global,
    host: &mut H,
    schema: &str,
    address: &str,
    state: &str,
    channels: &[i64],
) -> Result<Status, AllocError>
    ensures { DidIn to_link (recovers schema.now address.now state.now channels.now) (H.state host.old) (H.state host.new) (answered result) }
{
    match read_file(alloc, host, Slot::Schema, schema, SCHEMA_BYTES)? {
        Some(text) => recover_text(alloc, host, &text, address, state, channels),
        None => Ok(tell(host, b"tlbox: read fault\n", Status::ReadFault)),
    }
}

/// Likewise, to the end of the run: out of memory is told.
pub fn run_client<H: Host>(
    alloc: Global,
    host: &mut H,
    schema: &str,
    address: &str,
    state: &str,
    channels: &[i64],
) -> Status
    ensures { RanIn to_link (recovers schema.now address.now state.now channels.now) (H.state host.old) (H.state host.new) result }
{
    let done = recover_client(alloc, host, schema, address, state, channels);
    finish(host, done)
}

// What follows of the schema's text.
fn recover_text<H: Host>(
    alloc: Global,
    host: &mut H,
    text: &[u8],
    address: &str,
    state: &str,
    channels: &[i64],
) -> Result<Status, AllocError>
    ensures { DidIn to_link (OfText (codes "schema") (OfProfile (OfStateFile address.now state.now channels.now)) text.now) (H.state host.old) (H.state host.new) (answered result) }
{
    match schema_of(alloc, "schema", text) {
        Ok(schema) => recover_schema(alloc, host, &schema, address, state, channels),
        Err(fault) => print_made(host, Err(fault)),
    }
}

// What follows of a schema.
fn recover_schema<H: Host>(
    alloc: Global,
    host: &mut H,
    schema: &Schema,
    address: &str,
    state: &str,
    channels: &[i64],
) -> Result<Status, AllocError>
    requires { IsSchema schema.now }
    ensures { DidIn to_link (OfProfile (OfStateFile address.now state.now channels.now) schema.now) (H.state host.old) (H.state host.new) (answered result) }
{
    match profile_of(alloc, schema) {
        Ok(profile) => recover_state(alloc, host, &profile, address, state, channels),
        Err(fault) => print_made(host, Err(fault)),
    }
}

// What follows of a profile.
fn recover_state<H: Host>(
    alloc: Global,
    host: &mut H,
    profile: &Profile,
    address: &str,
    state: &str,
    channels: &[i64],
) -> Result<Status, AllocError>
    requires sound { IsProfile profile.now }
    ensures { DidIn to_link (OfStateFile address.now state.now channels.now profile.now) (H.state host.old) (H.state host.new) (answered result) }
{
    match read_file(alloc, host, Slot::State, state, MAX_STATE_BYTES)? {
        Some(bytes) => recover_bytes(alloc, host, profile, address, state, channels, &bytes),
        None => Ok(tell(host, b"tlbox: read fault\n", Status::ReadFault)),
    }
}

// What follows of a state's bytes.
fn recover_bytes<H: Host>(
    alloc: Global,
    host: &mut H,
    profile: &Profile,
    address: &str,
    state: &str,
    channels: &[i64],
    bytes: &[u8],
) -> Result<Status, AllocError>
    requires sound { IsProfile profile.now }
    ensures { DidIn to_link (OfState profile.now address.now state.now channels.now bytes.now) (H.state host.old) (H.state host.new) (answered result) }
{
    match watching(alloc, profile, bytes, channels) {
        Ok(client) => recover(alloc, host, profile, address, state, client),
        Err(fault) => print_made(host, Err(fault)),
    }
}

// The client of a state's bytes, which watches these channels too.
fn watching(
    alloc: Global,
    profile: &Profile,
    bytes: &[u8],
    channels: &[i64],
) -> Result<Client, LoadError>
    requires sound { IsProfile profile.now }
    ensures makes { MakesClient profile.now channels.now bytes.now result }
    ensures next { IfOk result (λ client. client.next ≤ 2000000000) }
{
    let mut client = client_in(alloc, profile, bytes)?;
    watch_all(alloc, &mut client, channels)?;
    Ok(client)
}

// What follows of a client.
fn recover<H: Host>(
    alloc: Global,
    host: &mut H,
    profile: &Profile,
    address: &str,
    state: &str,
    mut client: Client,
) -> Result<Status, AllocError>
    requires sound { IsProfile profile.now }
    requires next { client.next ≤ 2000000000 }
    ensures { DidIn to_link (Recovers profile.now address.now state.now client) (H.state host.old) (H.state host.new) (answered result) }
{
    match host.connect(address) {
        Ok(()) => recover_linked(alloc, host, profile, state, &mut client),
        Err(_) => Ok(tell(host, b"tlbox: link fault\n", Status::LinkFault)),
    }
}

// What follows of a link.
fn recover_linked<H: Host>(
    alloc: Global,
    host: &mut H,
    profile: &Profile,
    state: &str,
    client: &mut Client,
) -> Result<Status, AllocError>
    requires sound { IsProfile profile.now }
    requires next { client.old.next ≤ 2000000000 }
    ensures { DidIn to_link (after_connect profile.now state.now client.old true) (H.state host.old) (H.state host.new) (answered result) }
{
    match converse(alloc, host, profile, client) {
        Ok(()) => save_client(alloc, host, profile, state, client),
        Err(Fault::Refused(fault)) => tell_session(alloc, host, fault),
        Err(Fault::Memory) => Err(AllocError),
    }
}
