//! What is wrong with a line of a case file.
use std::alloc::{AllocError, AllocFailed};

/// Why a line of a case file can't be used.
#[derive(Clone, Copy)]
pub enum CaseFault {
    NoWord,
    NoNumber,
    NoDigits,
    NoRange,
    NoForm,
    NoQuote,
    NoCall,
    NoCase,
    NoFile,
    NoName,
    NoProfile,
    NoLink,
    NoMoment,
    LongFile,
    ShortFile,
    NoRun,
    EmptyCase,
    Unused,
    NoEnd,
    NoBlock,
    NoRead,
    Memory,
}

impl CaseFault {
    /// The fault in words.
    pub fn text(self) -> &'static str {
        match self {
            CaseFault::NoWord => "no line begins with this word",
            CaseFault::NoNumber => "a number is wanted",
            CaseFault::NoDigits => "pairs of hexadecimal digits are wanted",
            CaseFault::NoRange => "a range of numbers is wanted, as 0..16",
            CaseFault::NoForm => {
                "the number of a block is written {n}, {n+1}, {n-1}, {n:x} or {n:le}"
            }
            CaseFault::NoQuote => "a quote isn't closed",
            CaseFault::NoCall => "no such call",
            CaseFault::NoCase => "no case is begun",
            CaseFault::NoFile => "no file or link is begun",
            CaseFault::NoName => "no file has this name",
            CaseFault::NoProfile => "the file isn't the text that has the protocol's declarations",
            CaseFault::NoLink => "no link is wanted before",
            CaseFault::NoMoment => "a moment is below 2147483648",
            CaseFault::LongFile => "it is longer",
            CaseFault::ShortFile => "it is shorter",
            CaseFault::NoRun => "nothing was run",
            CaseFault::EmptyCase => "the case has no run",
            CaseFault::Unused => "no run comes after this line",
            CaseFault::NoEnd => "the block isn't ended",
            CaseFault::NoBlock => "no block is begun",
            CaseFault::NoRead => "the file can't be read",
            CaseFault::Memory => "out of memory",
        }
    }
}

impl From<AllocError> for CaseFault {
    fn from(_fault: AllocError) -> CaseFault {
        CaseFault::Memory
    }
}

impl<T: Drop> From<AllocFailed<T>> for CaseFault {
    fn from(_fault: AllocFailed<T>) -> CaseFault {
        CaseFault::Memory
    }
}
