//! The limits of worlds.

/// All packets of a world come to so many bytes at most.
pub const MAX_POOL_BYTES: u32 = 67_108_864;

/// A world has so many clients at most.
pub const MAX_CLIENTS: u32 = 16;
