//! Sources of bytes.
ghost use Rattle.std.specs.Prelude.{◌≡◌, ◌≤◌, ◌<◌, ◌+◌, ◌^◌, [], IsErrOf, IsErr, IfSome, IfOk, Ok, length};
ghost use Rattle.std.specs.Io.{ReadsAtMost};
ghost use Rattle.std.specs.Io.KnownBytes.{ReadConsumes};
ghost use Rattle.tl_numbers.specs.Bytes.{AreBytes};
ghost use Rattle.tl_base.specs.Using.{SourceState, Used};
ghost use Rattle.tl_base.specs.Taking.{TakesBytes, TakesInto, TakesPiece, TakesUpTo, TakesText, TakesEnd, EndsBelow};

use crate::fault::Failed;
use std::alloc::{AllocError, Global};
use thiserror::Error;
use tl_numbers::Bytes;

/// Why no more bytes were taken.
#[derive(Clone, Copy, Debug, Error)]
pub enum TakeFault {
    /// The input ended after so many of the bytes wanted.
    #[error("the input ended after {had} bytes")]
    Ended { had: u32 },
    #[error("read fault")]
    ReadFault,
}

/// Why a text was not taken.
#[derive(Clone, Copy, Debug, Error)]
pub enum TextFault {
    #[error("read fault")]
    ReadFault,
    #[error("out of memory")]
    Memory,
}

impl From<AllocError> for TextFault {
    ghost use Rattle.std.specs.Prelude.{◌≡◌};
    ghost use Rattle.tl_base.specs.declared.source.TextFault.TheVariants.{Memory};

    ghost from_gives = { λ _ e. e ≡ Memory };

    fn from(_e: AllocError) -> TextFault {
        TextFault::Memory
    }
}

/// A source of bytes.
pub trait Source {
    /// The bytes still to come, its count of faults, what stands beside it, and whether it is sound.
    ghost state: { Self → SourceState };

    /// Takes up to as many bytes as the buffer holds. None, for a buffer with room, means the end of input.
    fn read(&mut self, into: &mut [u8]) -> Result<usize, Failed>
        ensures bound { ReadsAtMost result into.new }
        ensures empty { length into.old ≡ 0 → result ≡ Ok 0 }
        ensures bytes { ReadConsumes (state self.old).left (state self.new).left result into.new }
        ensures used { Used (state self.old) (state self.new) (IsErr result) };

    /// What is left are bytes.
    ghost are_bytes: { (s : Self) → IfSome (state s).left AreBytes };
}

/// Fills the buffer with the next bytes.
pub fn take_bytes<S: Source>(from: &mut S, into: &mut [u8]) -> Result<(), TakeFault>
    requires { length into.old < 2 ^ 32 }
    ensures bytes { IfSome (S.state from.old).left (λ bytes. TakesInto into.new bytes (S.state from.new).left result) }
    ensures had { EndsBelow (length into.old) result }
    ensures used { Used (S.state from.old) (S.state from.new) (IsErrOf result TakeFault.ReadFault) }
    ensures length { length into.new ≡ length into.old }
{
    let mut had = 0usize;
    while had < into.len() {
        match from.read(&mut into[had..]) {
            Ok(0) => return Err(TakeFault::Ended { had: had as u32 }),
            Ok(count) => had += count,
            Err(_) => return Err(TakeFault::ReadFault),
        }
    }
    Ok(())
}

/// Takes the next four bytes.
pub fn take_word<S: Source>(from: &mut S) -> Result<[u8; 4], TakeFault>
    ensures bytes { IfSome (S.state from.old).left (λ bytes. TakesBytes 4 bytes (S.state from.new).left result) }
    ensures had { EndsBelow 4 result }
    ensures used { Used (S.state from.old) (S.state from.new) (IsErrOf result TakeFault.ReadFault) }
{
    let mut word = [0u8; 4];
    take_bytes(from, &mut word)?;
    Ok(word)
}

/// Tells whether no byte is left. A byte that is left is taken.
pub fn take_end<S: Source>(from: &mut S) -> Result<bool, Failed>
    ensures bytes { IfSome (S.state from.old).left (λ bytes. TakesEnd bytes (S.state from.new).left result) }
    ensures used { Used (S.state from.old) (S.state from.new) (IsErr result) }
{
    let mut byte = [0u8; 1];
    Ok(from.read(&mut byte)? == 0)
}

// How many bytes are read at once.
const PIECE_BYTES: usize = 4096;

// Reads a piece of at most so many bytes, and appends it to the text.
fn take_piece<S: Source>(from: &mut S, most: usize, text: &mut Bytes) -> Result<usize, TextFault>
    ensures bytes { IfSome (S.state from.old).left (λ bytes. TakesPiece most text.old text.new bytes (S.state from.new).left result) }
    ensures bound { IfOk result (λ n. (n ≤ most) × (length text.new ≡ length text.old + n)) }
    ensures kept { IsErr result → text.new ≡ text.old }
    ensures end { 0 < most → result ≡ Ok 0 → IfSome (S.state from.old).left (λ bytes. bytes ≡ []) }
    ensures used { Used (S.state from.old) (S.state from.new) (IsErrOf result TextFault.ReadFault) }
{
    let mut piece = [0u8; PIECE_BYTES];
    let size = most.min(PIECE_BYTES);
    match from.read(&mut piece[..size]) {
        Ok(count) => {
            text.append(&piece[..count])?;
            Ok(count)
        }
        Err(_) => Err(TextFault::ReadFault),
    }
}

/// Takes the next bytes into an empty list: so many, or all of them where there are fewer. Memory grows with what was read.
pub fn take_up_to<S: Source>(from: &mut S, most: usize, text: &mut Bytes) -> Result<(), TextFault>
    requires { text.old ≡ [] }
    ensures bytes { IfSome (S.state from.old).left (λ bytes. TakesUpTo most text.new bytes (S.state from.new).left result) }
    ensures bound { length text.new ≤ most }
    ensures used { Used (S.state from.old) (S.state from.new) (IsErrOf result TextFault.ReadFault) }
{
    while text.len() < most {
        if take_piece(from, most - text.len(), text)? == 0 {
            return Ok(());
        }
    }
    Ok(())
}

/// Takes all the bytes up to the end, or one more than the limit where there are more.
pub fn take_text<S: Source>(alloc: Global, from: &mut S, limit: u32) -> Result<Vec<u8>, TextFault>
    ensures bytes { IfSome (S.state from.old).left (λ bytes. TakesText limit bytes (S.state from.new).left result) }
    ensures used { Used (S.state from.old) (S.state from.new) (IsErrOf result TextFault.ReadFault) }
{
    let mut text = Bytes::new(alloc);
    take_up_to(from, limit as usize + 1, &mut text)?;
    Ok(text.into_vec())
}
