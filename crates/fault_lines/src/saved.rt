//! Saved clients.
ghost use Rattle.std.specs.Prelude.{◌≡◌, IfOk, Some, string_bytes};
ghost use Rattle.fault_lines.specs.SavedClients.{lane_words, load_line};

use box_client::LoadFault;
use box_events::LaneName;
use outside::{placed_line, unplaced_line};
use std::alloc::{AllocError, Global};

// A lane by its name, a channel's by its id.
fn lane_words(alloc: Global, lane: LaneName) -> Result<String, AllocError>
    ensures { IfOk result (λ s. string_bytes s ≡ lane_words lane) }
{
    match lane {
        LaneName::Common => String::from_str(alloc, "common"),
        LaneName::Secret => String::from_str(alloc, "secret"),
        LaneName::Channel { id } => format!(in alloc; "channel {id}"),
        LaneName::Seq => String::from_str(alloc, "seq"),
    }
}

/// The line of a saved client that isn't loaded, of the input `state`.
pub fn load_line(alloc: Global, fault: LoadFault) -> Result<Vec<u8>, AllocError>
    ensures { IfOk result (λ line. load_line fault ≡ Some line.items) }
{
    match fault {
        LoadFault::BadNext { next } => {
            let why = format!(in alloc; "BadNext {next}")?;
            unplaced_line(alloc, "state", why.as_str())
        }
        LoadFault::BadLane { lane } => {
            let lane = lane_words(alloc, lane)?;
            let why = format!(in alloc; "BadLane {lane}")?;
            unplaced_line(alloc, "state", why.as_str())
        }
        LoadFault::BadSettings { place } => {
            placed_line(alloc, "state", place as u64, "BadSettings")
        }
        LoadFault::BadChannels { place } => {
            placed_line(alloc, "state", place as u64, "BadChannels")
        }
        LoadFault::Memory => Err(AllocError),
    }
}
