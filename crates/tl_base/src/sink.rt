//! Sinks of bytes.
ghost use Rattle.std.specs.Prelude.{◌≡◌, ◌≤◌, ◌<◌, IfOk, IsErr, Ok, length};
ghost use Rattle.std.specs.Io.{WritesAtMost};
ghost use Rattle.std.specs.Io.KnownBytes.{WriteAppends};
ghost use Rattle.tl_base.specs.Using.{SinkState, Wrote};
ghost use Rattle.tl_base.specs.Writing.{WritesPiece};

use crate::fault::Failed;
use thiserror::Error;

/// A piece was not written whole.
#[derive(Clone, Copy, Debug, Error)]
#[error("write fault")]
pub struct WriteFault;

/// A sink of bytes.
pub trait Sink {
    /// The bytes that were written, its count of faults, what stands beside it, whether it is sound, and its room.
    ghost state: { Self → SinkState };

    /// Appends a prefix of the piece, at least one byte of a piece that has any.
    fn write(&mut self, piece: &[u8]) -> Result<usize, Failed>
        ensures bound { WritesAtMost result piece.now }
        ensures some { 0 < length piece.now → IfOk result (λ n. 0 < n) }
        ensures empty { length piece.now ≡ 0 → result ≡ Ok 0 }
        ensures bytes { WriteAppends (state self.old).written (state self.new).written result piece.now }
        ensures used { Wrote (state self.old) (state self.new) 1 (IsErr result) };
}

/// Writes all of a piece. After a fault a prefix of it was written.
pub fn write_all<K: Sink>(to: &mut K, piece: &[u8]) -> Result<(), WriteFault>
    ensures bytes { WritesPiece (K.state to.old).written (K.state to.new).written piece.now result }
    ensures used { Wrote (K.state to.old) (K.state to.new) (length piece.now) (IsErr result) }
{
    let mut at = 0usize;
    while at < piece.len() {
        match to.write(&piece[at..]) {
            Ok(count) => at += count,
            Err(_) => return Err(WriteFault),
        }
    }
    Ok(())
}
