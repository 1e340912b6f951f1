//! Why bytes begin no spelling.
use thiserror::Error;

/// Why bytes begin no spelling of a type's values. A word in place of a number, and a count, are as they were read.
#[derive(Clone, Copy, Debug, Error)]
pub enum Cause {
    /// A list, a record or a call would be the 121st level.
    #[error("a value deeper than 120 levels")]
    TooDeep,
    /// The input ends inside the item.
    #[error("the input ends inside an item")]
    Truncated,
    /// The word in place of a number is 3072cfa1, that of packed values.
    #[error("a packed value")]
    Packed,
    /// The word in place of a number is no constructor's of the type, no function's, or not that of a boxed vector.
    #[error("the unknown number {word:08x}")]
    UnknownNumber { word: u32 },
    /// A vector's count is 2^31 or more.
    #[error("a vector of {word} elements")]
    BadCount { word: u32 },
    /// A string's first byte is 255.
    #[error("a string whose first byte is 255")]
    LongString,
    /// A string of at most 253 bytes has the head of a longer one.
    #[error("a short string with a long string's head")]
    LooseString,
    /// A byte of a string's padding isn't zero.
    #[error("a string's padding that isn't zero")]
    BadPadding,
}
