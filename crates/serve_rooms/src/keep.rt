//! `keep`: sessions at an address from the server that a keeper's entries rebuild.
ghost use Rattle.std.specs.Prelude.{◌≡◌, option_map};
ghost use Rattle.outside.specs.declared.status.Status.TheVariants.{Refused};
ghost use Rattle.outside.specs.Pieces.{Tells};
ghost use Rattle.outside.specs.Runs.{answered};
ghost use Rattle.outside.specs.Begun.{Did};
ghost use Rattle.session_commands.specs.Keep.{bad_entry_line};
ghost use Rattle.tl_schema.specs.CheckedPrograms.{IsSchema};
ghost use Rattle.serve_rooms.specs.Acts.{beside};
ghost use Rattle.serve_rooms.specs.Doing.{DidKept, RanKept};
ghost use Rattle.serve_rooms.specs.inner.Ends.{TellsUnopened};
ghost use Rattle.serve_rooms.specs.Serve.{OfSchema, OpensAndServes, keeps};
ghost use Rattle.serve_rooms.specs.declared.status.KeptStatus.TheVariants.{Run};

use crate::loading::{Loaded, load_schema};
use crate::sessions::serve_all;
use crate::status::{KeptRun, KeptStatus};
use box_server::{Keeper, OpenFault, Stored};
use fault_lines::profile_of;
use outside::{Host, Status, placed_line, print_made, tell};
use std::alloc::{AllocError, Global};
use tl_schema::Schema;
use wire_profile::Profile;

/// Serves so many sessions at an address, one after the other, from the server that a keeper's entries rebuild, and keeps what is posted.
pub fn serve_kept<H: Host, K: Keeper>(
    alloc: Global,
    host: &mut H,
    schema: &str,
    address: &str,
    sessions: u32,
    keeper: K,
) -> KeptRun<K>
    ensures { DidKept (keeps schema.now address.now sessions) (beside (H.state host.old) (K.state keeper)) (beside (H.state host.new) (K.state result.keeper)) (answered result.end) }
{
    match load_schema(alloc, host, schema) {
        Ok(Loaded::Schema(schema)) => keep_schema(alloc, host, &schema, address, sessions, keeper),
        Ok(Loaded::Ended(status)) => KeptRun {
            keeper,
            end: Ok(KeptStatus::Run(status)),
        },
        Err(fault) => KeptRun {
            keeper,
            end: Err(fault),
        },
    }
}

/// Likewise, to the end of the run: out of memory is told.
pub fn run_kept<H: Host, K: Keeper>(
    alloc: Global,
    host: &mut H,
    schema: &str,
    address: &str,
    sessions: u32,
    keeper: K,
) -> (KeptStatus, K)
    ensures { RanKept (keeps schema.now address.now sessions) (beside (H.state host.old) (K.state keeper)) (beside (H.state host.new) (K.state result.1)) result.0 }
{
    let KeptRun { keeper, end } = serve_kept(alloc, host, schema, address, sessions, keeper);
    match end {
        Ok(status) => (status, keeper),
        Err(_) => {
            let status = tell(host, b"tlbox: memory\n", Status::Memory);
            (KeptStatus::Run(status), keeper)
        }
    }
}

// What follows of a schema.
fn keep_schema<H: Host, K: Keeper>(
    alloc: Global,
    host: &mut H,
    schema: &Schema,
    address: &str,
    sessions: u32,
    keeper: K,
) -> KeptRun<K>
    requires { IsSchema schema.now }
    ensures { DidKept (OfSchema (OpensAndServes address.now sessions) schema.now) (beside (H.state host.old) (K.state keeper)) (beside (H.state host.new) (K.state result.keeper)) (answered result.end) }
{
    match profile_of(alloc, schema) {
        Ok(profile) => open_and_serve(alloc, host, &profile, address, sessions, keeper),
        Err(fault) => KeptRun {
            keeper,
            end: as_kept(print_made(host, Err(fault))),
        },
    }
}

// What follows of a profile: nothing listens before the entries are read.
fn open_and_serve<H: Host, K: Keeper>(
    alloc: Global,
    host: &mut H,
    profile: &Profile,
    address: &str,
    sessions: u32,
    keeper: K,
) -> KeptRun<K>
    ensures { DidKept (OpensAndServes address.now sessions profile.now) (beside (H.state host.old) (K.state keeper)) (beside (H.state host.new) (K.state result.keeper)) (answered result.end) }
{
    let mut store = match Stored::open(alloc, keeper) {
        Ok(store) => store,
        Err(unopened) => {
            let end = tell_unopened(alloc, host, unopened.fault);
            return KeptRun {
                keeper: unopened.keeper,
                end,
            };
        }
    };
    let end = serve_all(alloc, host, profile, address, sessions, &mut store);
    KeptRun {
        keeper: store.into_keeper(),
        end,
    }
}

// Tells why the entries aren't read.
fn tell_unopened<H: Host>(
    alloc: Global,
    host: &mut H,
    fault: OpenFault,
) -> Result<KeptStatus, AllocError>
    ensures { TellsUnopened fault (H.state host.old) (H.state host.new) (answered result) }
{
    match fault {
        OpenFault::BadEntry { n } => as_kept(tell_entry(alloc, host, n)),
        OpenFault::Failed => Ok(tell(host, b"tlbox: keep fault\n", KeptStatus::KeepFault)),
        OpenFault::Memory => Err(AllocError),
    }
}

// Tells that the entry with this number isn't accepted.
fn tell_entry<H: Host>(alloc: Global, host: &mut H, n: u32) -> Result<Status, AllocError>
    ensures { Did (Tells (bad_entry_line n) Refused) (H.state host.old) (H.state host.new) (answered result) }
{
    let line = placed_line(alloc, "keeper", n as u64, "BadEntry")?;
    Ok(tell(host, &line, Status::Refused))
}

// The end of a run without a keeper, as that of one.
fn as_kept(end: Result<Status, AllocError>) -> Result<KeptStatus, AllocError>
    ensures { answered result ≡ option_map (λ status. Run status) (answered end) }
{
    match end {
        Ok(status) => Ok(KeptStatus::Run(status)),
        Err(fault) => Err(fault),
    }
}
