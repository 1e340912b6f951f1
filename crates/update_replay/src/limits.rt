//! Limits of a replay.

/// A journal has so many bytes at most.
pub const MAX_JOURNAL_BYTES: u32 = 33_554_432;

/// A replay has so many steps at most.
pub const MAX_STEPS: u32 = 100_000;
