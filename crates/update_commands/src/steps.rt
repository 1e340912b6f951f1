//! Steps that aren't made in a world.
ghost use Rattle.std.specs.Prelude.{◌≡◌, IfOk, string_bytes};
ghost use Rattle.update_commands.specs.Steps.{cause_words, step_fault_line};

use box_world::StepFault;
use outside::placed_line;
use std::alloc::{AllocError, Global};

// The cause, and its value.
fn cause_words(alloc: Global, fault: StepFault) -> Result<String, AllocError>
    ensures { IfOk result (λ s. string_bytes s ≡ cause_words fault) }
{
    match fault {
        StepFault::NoClient { n } => format!(in alloc; "NoClient {n}"),
        StepFault::NoPacket { n } => format!(in alloc; "NoPacket {n}"),
        StepFault::WrongEnd { n } => format!(in alloc; "WrongEnd {n}"),
        StepFault::PoolFull { bytes } => format!(in alloc; "PoolFull {bytes}"),
    }
}

/// The line of a step that isn't made, at the offset where it begins in the journal.
pub fn step_fault_line(alloc: Global, at: u64, fault: StepFault) -> Result<Vec<u8>, AllocError>
    ensures { IfOk result (λ line. line.items ≡ step_fault_line at fault) }
{
    let why = cause_words(alloc, fault)?;
    placed_line(alloc, "journal", at, why.as_str())
}
