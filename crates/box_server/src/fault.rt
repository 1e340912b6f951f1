//! Why a server refuses a post.
ghost use Rattle.std.specs.Prelude.{◌≡◌};
ghost use Rattle.box_server.specs.FaultNames.{name_of};

use box_events::LaneName;
use std::alloc::{AllocError, AllocFailed};
use thiserror::Error;

/// Why a server refuses a post. Where several causes hold, the first in this order is answered.
#[derive(Clone, Copy, Debug, Error)]
pub enum PostFault {
    #[error("there are no posts")]
    NoPosts,
    /// There are more than 1,000 posts.
    #[error("there are too many posts")]
    TooManyPosts,
    #[error("a delete has no ids")]
    NoIds,
    /// A delete has more than 4,096 ids.
    #[error("a delete has too many ids")]
    TooManyIds,
    /// A body has more than 65,536 bytes.
    #[error("a body is too long")]
    BodyTooLong,
    /// A key has more than 64 bytes.
    #[error("a key is too long")]
    KeyTooLong,
    /// A value has more than 1,024 bytes.
    #[error("a value is too long")]
    ValueTooLong,
    /// Bodies, keys and values, with 4 bytes for each id of a delete and for each read mark, come to more than 262,144 bytes.
    #[error("the posts are too large")]
    PostTooLarge,
    /// A 65th channel would have a box.
    #[error("there are too many channels")]
    TooManyChannels,
    /// A 257th key would have a setting.
    #[error("there are too many settings")]
    TooManySettings,
    /// A box, or the seq, would pass 1,000,000. It is that of the first such post, and ends at `at` with the posts before.
    #[error("a box is full at {at}")]
    BoxFull { lane: LaneName, at: u32 },
    #[error("out of memory")]
    Memory,
}

impl PostFault {
    /// The cause in one word.
    pub fn name(self) -> &'static str
        ensures { result.now ≡ name_of self }
    {
        match self {
            PostFault::NoPosts => "NoPosts",
            PostFault::TooManyPosts => "TooManyPosts",
            PostFault::NoIds => "NoIds",
            PostFault::TooManyIds => "TooManyIds",
            PostFault::BodyTooLong => "BodyTooLong",
            PostFault::KeyTooLong => "KeyTooLong",
            PostFault::ValueTooLong => "ValueTooLong",
            PostFault::PostTooLarge => "PostTooLarge",
            PostFault::TooManyChannels => "TooManyChannels",
            PostFault::TooManySettings => "TooManySettings",
            PostFault::BoxFull { .. } => "BoxFull",
            PostFault::Memory => "Memory",
        }
    }
}

impl From<AllocError> for PostFault {
    ghost use Rattle.std.specs.Prelude.{◌≡◌};
    ghost use Rattle.box_server.specs.declared.fault.PostFault.TheVariants.{Memory};

    ghost from_gives = { λ _ e. e ≡ Memory };

    fn from(_e: AllocError) -> PostFault {
        PostFault::Memory
    }
}

impl<T: Drop> From<AllocFailed<T>> for PostFault {
    ghost use Rattle.std.specs.Prelude.{◌≡◌};
    ghost use Rattle.box_server.specs.declared.fault.PostFault.TheVariants.{Memory};

    ghost from_gives = { λ _ e. e ≡ Memory };

    fn from(_e: AllocFailed<T>) -> PostFault {
        PostFault::Memory
    }
}
