//! Why a job ends before its work is done.
ghost use Rattle.std.specs.Prelude.{◌≡◌};
ghost use Rattle.outside.specs.Answer.{decl_line, placed_line, unplaced_line};
ghost use Rattle.outside.specs.Jobs.{RefusedBy};
ghost use Rattle.outside.specs.Loading.{PeerBy, RefusesAs};

use crate::lines::{decl_line, placed_line, unplaced_line};
use std::alloc::{AllocError, Global};
use thiserror::Error;
use tl_base::{TextFault, WriteFault};

/// Why a job ended.
#[derive(Debug, Error, Drop)]
pub enum Stop {
    /// Something is refused, and this is the whole line that says so on Errors.
    #[error("refused")]
    Refused(Vec<u8>),
    #[error("read fault")]
    ReadFault,
    #[error("write fault")]
    WriteFault,
    #[error("link fault")]
    LinkFault,
    /// The other end of a link sent what can't be taken, and this is the whole line that says so on Errors.
    #[error("the other end's fault")]
    Peer(Vec<u8>),
    #[error("out of memory")]
    Memory,
}

/// Why a text for Output is not made.
#[derive(Debug, Error, Drop)]
pub enum LoadError {
    /// Something is refused, and this is the whole line that says so on Errors.
    #[error("refused")]
    Refused(Vec<u8>),
    #[error("read fault")]
    ReadFault,
    #[error("out of memory")]
    Memory,
}

impl Stop {
    /// The other end's fault that a line tells; out of memory, where there was none for the line.
    pub fn of_peer(line: Result<Vec<u8>, AllocError>) -> Stop
        ensures { PeerBy line result }
    {
        match line {
            Ok(line) => Stop::Peer(line),
            Err(_) => Stop::Memory,
        }
    }
}

impl LoadError {
    /// The refusal that a line tells; out of memory, where there was none for the line.
    pub fn of_line(line: Result<Vec<u8>, AllocError>) -> LoadError
        ensures { RefusedBy line result }
    {
        match line {
            Ok(line) => LoadError::Refused(line),
            Err(_) => LoadError::Memory,
        }
    }

    /// The refusal of what is refused at an offset.
    pub fn placed(alloc: Global, what: &str, place: u64, why: &str) -> LoadError
        ensures { RefusesAs (placed_line what.now place why.now) result }
    {
        LoadError::of_line(placed_line(alloc, what, place, why))
    }

    /// The refusal of what is refused for a cause without an offset.
    pub fn unplaced(alloc: Global, what: &str, why: &str) -> LoadError
        ensures { RefusesAs (unplaced_line what.now why.now) result }
    {
        LoadError::of_line(unplaced_line(alloc, what, why))
    }

    /// The refusal of a declaration, by its number, counted from 0.
    pub fn of_decl(alloc: Global, what: &str, decl: u32, why: &str) -> LoadError
        ensures { RefusesAs (decl_line what.now decl why.now) result }
    {
        LoadError::of_line(decl_line(alloc, what, decl, why))
    }
}

impl From<TextFault> for LoadError {
    ghost use Rattle.std.specs.Prelude.{◌≡◌};
    ghost use Rattle.outside.specs.Loading.{of_text};

    ghost from_gives = { λ e fault. fault ≡ of_text e };

    fn from(fault: TextFault) -> LoadError {
        match fault {
            TextFault::ReadFault => LoadError::ReadFault,
            TextFault::Memory => LoadError::Memory,
        }
    }
}

impl From<AllocError> for LoadError {
    ghost use Rattle.std.specs.Prelude.{◌≡◌};
    ghost use Rattle.outside.specs.declared.stop.LoadError.TheVariants.{Memory};

    ghost from_gives = { λ _ fault. fault ≡ Memory };

    fn from(_fault: AllocError) -> LoadError {
        LoadError::Memory
    }
}

impl From<LoadError> for Stop {
    ghost use Rattle.std.specs.Prelude.{◌≡◌};
    ghost use Rattle.outside.specs.Jobs.{of_load_error};

    ghost from_gives = { λ e stop. stop ≡ of_load_error e };

    fn from(fault: LoadError) -> Stop {
        match fault {
            LoadError::Refused(line) => Stop::Refused(line),
            LoadError::ReadFault => Stop::ReadFault,
            LoadError::Memory => Stop::Memory,
        }
    }
}

impl From<WriteFault> for Stop {
    ghost use Rattle.std.specs.Prelude.{◌≡◌};
    ghost use Rattle.outside.specs.declared.stop.Stop.TheVariants.{WriteFault};

    ghost from_gives = { λ _ stop. stop ≡ WriteFault };

    fn from(_fault: WriteFault) -> Stop {
        Stop::WriteFault
    }
}
