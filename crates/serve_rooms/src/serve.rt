//! `serve`: sessions at an address from one new server.
ghost use Rattle.std.specs.Prelude.{◌≡◌, Some, option_map};
ghost use Rattle.box_server.specs.Servers.{new_server};
ghost use Rattle.outside.specs.Runs.{RanIn, answered};
ghost use Rattle.outside.specs.Begun.{DidIn};
ghost use Rattle.tl_schema.specs.CheckedPrograms.{IsSchema};
ghost use Rattle.serve_rooms.specs.Doing.{Spares, to_serve};
ghost use Rattle.serve_rooms.specs.Serve.{OfSchema, serves};
ghost use Rattle.serve_rooms.specs.Sessions.{ServesAll};
ghost use Rattle.serve_rooms.specs.declared.status.KeptStatus.TheVariants.{KeepFault, Run};

use crate::loading::{Loaded, load_schema};
use crate::sessions::serve_all;
use crate::status::KeptStatus;
use box_server::{Server, Stored};
use fault_lines::profile_of;
use outside::{Host, Status, finish, print_made};
use std::alloc::{AllocError, Global};
use tl_schema::Schema;
use wire_profile::Profile;

/// Serves so many sessions at an address, one after the other, from one new server.
pub fn serve_sessions<H: Host>(
    alloc: Global,
    host: &mut H,
    schema: &str,
    address: &str,
    sessions: u32,
) -> Result<Status, AllocError>
    ensures { DidIn to_serve (serves schema.now address.now sessions) (H.state host.old) (H.state host.new) (answered result) }
{
    match load_schema(alloc, host, schema)? {
        Loaded::Schema(schema) => serve_schema(alloc, host, &schema, address, sessions),
        Loaded::Ended(status) => Ok(status),
    }
}

/// Likewise, to the end of the run: out of memory is told.
pub fn run_serve<H: Host>(
    alloc: Global,
    host: &mut H,
    schema: &str,
    address: &str,
    sessions: u32,
) -> Status
    ensures { RanIn to_serve (serves schema.now address.now sessions) (H.state host.old) (H.state host.new) result }
{
    let done = serve_sessions(alloc, host, schema, address, sessions);
    finish(host, done)
}

// What follows of a schema.
fn serve_schema<H: Host>(
    alloc: Global,
    host: &mut H,
    schema: &Schema,
    address: &str,
    sessions: u32,
) -> Result<Status, AllocError>
    requires { IsSchema schema.now }
    ensures { DidIn to_serve (Spares (OfSchema (ServesAll address.now sessions new_server) schema.now)) (H.state host.old) (H.state host.new) (answered result) }
{
    match profile_of(alloc, schema) {
        Ok(profile) => serve_new(alloc, host, &profile, address, sessions),
        Err(fault) => print_made(host, Err(fault)),
    }
}

// What follows of a profile. A keeper that keeps nothing never fails.
fn serve_new<H: Host>(
    alloc: Global,
    host: &mut H,
    profile: &Profile,
    address: &str,
    sessions: u32,
) -> Result<Status, AllocError>
    ensures { DidIn to_serve (Spares (ServesAll address.now sessions new_server profile.now)) (H.state host.old) (H.state host.new) (answered result) }
{
    let mut store = Stored::over(Server::new(alloc));
    spared(serve_all(alloc, host, profile, address, sessions, &mut store))
}

// The end of a run whose keeper never failed, as that of one without a keeper.
fn spared(end: Result<KeptStatus, AllocError>) -> Result<Status, AllocError>
    requires never { answered end ≡ Some KeepFault → ⊥ }
    ensures { answered end ≡ option_map (λ status. Run status) (answered result) }
{
    match end {
        Ok(KeptStatus::Run(status)) => Ok(status),
        Ok(KeptStatus::KeepFault) => unreachable!(),
        Err(fault) => Err(fault),
    }
}
