//! Why a keeper gives no entry, why a store is not opened, and why it takes no posts.
use crate::PostFault;
use std::alloc::{AllocError, AllocFailed};
use thiserror::Error;
use tl_base::Failed;

/// Why a keeper gives no entry.
#[derive(Clone, Copy, Debug, Error)]
pub enum GetFault {
    #[error("a call to the keeper failed")]
    Failed,
    #[error("out of memory")]
    Memory,
}

impl From<AllocError> for GetFault {
    ghost use Rattle.std.specs.Prelude.{◌≡◌};
    ghost use Rattle.box_server.specs.declared.store_fault.GetFault.TheVariants.{Memory};

    ghost from_gives = { λ _ e. e ≡ Memory };

    fn from(_e: AllocError) -> GetFault {
        GetFault::Memory
    }
}

/// Why a store is not opened.
#[derive(Clone, Copy)]
pub enum OpenFault {
    /// Entry `n`, from 0, is not accepted.
    BadEntry { n: u32 },
    /// A call to the keeper failed.
    Failed,
    Memory,
}

impl From<Failed> for OpenFault {
    ghost use Rattle.std.specs.Prelude.{◌≡◌};
    ghost use Rattle.box_server.specs.declared.store_fault.OpenFault.TheVariants as opening;

    ghost from_gives = { λ _ e. e ≡ opening.Failed };

    fn from(_e: Failed) -> OpenFault {
        OpenFault::Failed
    }
}

impl From<AllocError> for OpenFault {
    ghost use Rattle.std.specs.Prelude.{◌≡◌};
    ghost use Rattle.box_server.specs.declared.store_fault.OpenFault.TheVariants as opening;

    ghost from_gives = { λ _ e. e ≡ opening.Memory };

    fn from(_e: AllocError) -> OpenFault {
        OpenFault::Memory
    }
}

/// A keeper that was not opened, and why.
#[derive(Drop)]
pub struct Unopened<K> {
    pub keeper: K,
    pub fault: OpenFault,
}

/// Why a post is not kept, and so not taken.
#[derive(Clone, Copy)]
pub enum KeepFault {
    /// A call to the keeper failed.
    Failed,
    Memory,
}

impl From<AllocError> for KeepFault {
    ghost use Rattle.std.specs.Prelude.{◌≡◌};
    ghost use Rattle.box_server.specs.declared.store_fault.KeepFault.TheVariants as keeping;

    ghost from_gives = { λ _ e. e ≡ keeping.Memory };

    fn from(_e: AllocError) -> KeepFault {
        KeepFault::Memory
    }
}

impl<T: Drop> From<AllocFailed<T>> for KeepFault {
    ghost use Rattle.std.specs.Prelude.{◌≡◌};
    ghost use Rattle.box_server.specs.declared.store_fault.KeepFault.TheVariants as keeping;

    ghost from_gives = { λ _ e. e ≡ keeping.Memory };

    fn from(_e: AllocFailed<T>) -> KeepFault {
        KeepFault::Memory
    }
}

/// Why a store takes no posts. Its server is as before, and so are the entries of a keeper that tells them.
#[derive(Clone, Copy)]
pub enum StoreFault {
    /// The server refuses them, not for memory.
    Refused { fault: PostFault },
    /// A call to the keeper failed. One that tells no entries is to be opened anew.
    Failed,
    Memory,
}
