//! Limits of boxes and messages, each with its unit in its name.
use tl_base::PACKET_BYTES;

/// No box ends above this number, and no seq is above it.
pub const MAX_END: u32 = 1_000_000;

/// So many ids stand in one delete at most.
pub const MAX_IDS: usize = 4_096;

/// So many channels have a box, and so many are watched.
pub const MAX_CHANNELS: usize = 64;

/// So many keys have a setting.
pub const MAX_KEYS: usize = 256;

/// A page of a box has so many events at most.
pub const PAGE_EVENTS: usize = 256;

/// So many events of a channel are kept.
pub const KEPT_EVENTS: u32 = 500;

/// A call has so many posts at most.
pub const MAX_POSTS: usize = 1_000;

/// A message's body has so many bytes at most.
pub const MAX_BODY_BYTES: usize = 65_536;

/// A setting's key has so many bytes at most.
pub const MAX_KEY_BYTES: usize = 64;

/// A setting's value has so many bytes at most.
pub const MAX_VALUE_BYTES: usize = 1_024;

/// The posts of a call have so many bytes of bodies, keys, values, ids and read marks at most.
pub const MAX_POST_BYTES: usize = 262_144;

/// An id of a delete, and that of a read mark, counts for so many bytes.
pub const ID_BYTES: usize = 4;

/// A difference carries so many events at most from a position.
pub const RUN_EVENTS: usize = 100;

/// A difference carries so many bytes of bodies at most from a position.
pub const RUN_BYTES: usize = 262_144;

/// A channel's difference is `TooLong` where its box ends more than so many numbers after the position.
pub const MAX_BEHIND: u32 = 1_000;

/// A channel's `TooLong` carries so many recent messages at most.
pub const RECENT_EVENTS: usize = 20;

/// A channel's `TooLong` carries so many bytes of recent messages at most.
pub const RECENT_BYTES: usize = 262_144;

/// A frame has so many bytes at most: those of a packet.
pub const MAX_FRAME_BYTES: u32 = PACKET_BYTES;

/// A client asks so many requests at once: one for each watched channel, and one for its common box, its secret box and its settings.
pub const MAX_ASKS: usize = 65;
