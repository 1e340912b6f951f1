//! Limits of a file of packets.

/// A packet ends at this offset at most.
pub const MAX_PACKET_END: u32 = 33_554_432;
