//! Why lines are not written, and why a replay stops before its journal's end.
use box_world::StepFault;
use std::alloc::AllocError;
use thiserror::Error;
use tl_base::{TextFault, WriteFault};
use wire_profile::WireFault;

/// Why lines are not written. A prefix of them may be.
#[derive(Clone, Copy, Debug, Error)]
pub enum LineFault {
    #[error("write fault")]
    WriteFault,
    #[error("out of memory")]
    Memory,
}

impl From<AllocError> for LineFault {
    ghost use Rattle.std.specs.Prelude.{◌≡◌};
    ghost use Rattle.update_replay.specs.declared.fault.LineFault.TheVariants.{Memory};

    ghost from_gives = { λ _ e. e ≡ Memory };

    fn from(_e: AllocError) -> LineFault {
        LineFault::Memory
    }
}

impl From<WriteFault> for LineFault {
    ghost use Rattle.std.specs.Prelude.{◌≡◌};
    ghost use Rattle.update_replay.specs.declared.fault.LineFault.TheVariants as line;

    ghost from_gives = { λ _ e. e ≡ line.WriteFault };

    fn from(_e: WriteFault) -> LineFault {
        LineFault::WriteFault
    }
}

/// Why a replay stopped before its journal's end. `at` is the offset in the journal at which the step begins.
#[derive(Clone, Copy, Debug, Error)]
pub enum ReplayFault {
    /// The bytes there are no step.
    #[error("no step at {at}: {fault}")]
    Wire { at: u32, fault: WireFault },
    /// The step there is not made.
    #[error("no step at {at}: {fault}")]
    Step { at: u32, fault: StepFault },
    /// The step there is one too many, or ends after the journal's limit.
    #[error("the journal is too long at {at}")]
    TooLong { at: u32 },
    #[error("read fault")]
    ReadFault,
    #[error("write fault")]
    WriteFault,
    #[error("out of memory")]
    Memory,
}

impl From<TextFault> for ReplayFault {
    ghost use Rattle.std.specs.Prelude.{◌≡◌};
    ghost use Rattle.update_replay.specs.Endings.{of_text};

    ghost from_gives = { λ e f. f ≡ of_text e };

    fn from(e: TextFault) -> ReplayFault {
        match e {
            TextFault::ReadFault => ReplayFault::ReadFault,
            TextFault::Memory => ReplayFault::Memory,
        }
    }
}

impl From<WriteFault> for ReplayFault {
    ghost use Rattle.std.specs.Prelude.{◌≡◌};
    ghost use Rattle.update_replay.specs.declared.fault.ReplayFault.TheVariants as replay;

    ghost from_gives = { λ _ e. e ≡ replay.WriteFault };

    fn from(_e: WriteFault) -> ReplayFault {
        ReplayFault::WriteFault
    }
}
