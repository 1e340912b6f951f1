//! Why bytes are no message.
use thiserror::Error;
use tl_types::Cause;

/// Why bytes are no message. Numbers are as they are spelled.
#[derive(Clone, Copy, Debug, Error)]
pub enum WireFault {
    /// The bytes begin no spelling of a value: the item at this offset in bytes is none, for this cause.
    #[error("refused at byte {place}: {cause}")]
    Refused { place: u64, cause: Cause },
    /// Bytes follow the spelling, from this offset on.
    #[error("bytes after the value, from byte {place} on")]
    Trailing { place: u64 },
    /// The call at this offset in bytes is none that a server answers.
    #[error("a call that no server answers at byte {place}")]
    NotServed { place: u32 },
    /// A saved client's version is neither 1 nor 2, or it is 1 and an event is a read mark.
    #[error("the unknown version {version}")]
    BadVersion { version: i32 },
    /// The number of a request or reply is below 1, or a client's, a packet's or the next request's below 0.
    #[error("the number {number} out of range")]
    BadNumber { number: i32 },
    /// An update of a difference, by its index among the others, isn't one that may stand there.
    #[error("the update {place} of a difference that may not stand there")]
    WrongUpdate { place: u32 },
    /// An event's count isn't 1, or not that of its ids, or a delete has no ids or too many.
    #[error("the count {count} of the event that ends at {pts}")]
    BadCount { pts: i32, count: i32 },
    /// The number at which something ends in a box is below its count, or out of range.
    #[error("the end {pts} out of range")]
    BadEnd { pts: i32 },
    /// A date is below 0.
    #[error("the date {date} below 0")]
    BadDate { date: i32 },
    /// A container without a seq has a setting.
    #[error("a setting in a container without a seq")]
    UnorderedSetting,
    /// A seq is out of range, or the settings of a container aren't those of its stretch of seqs.
    #[error("the seqs {seq_start} to {seq}")]
    BadSeq { seq_start: i32, seq: i32 },
}
