//! Spellings into a sink.
ghost use Rattle.std.specs.Prelude.{length, IsErrOf};
ghost use Rattle.tl_base.specs.Using.{WritesOnly, Wrote};
ghost use Rattle.tl_encode.specs.Encoding.{KeepsSink, WritesSpelling};

use crate::fault::EncodeFault;
use tl_base::{Sink, write_all};

/// Writes the bytes of a spelling, and answers their number.
pub fn write_bytes<K: Sink>(bytes: &[u8], to: &mut K) -> Result<u64, EncodeFault>
    ensures written { WritesSpelling (K.state to.old).written (K.state to.new).written bytes.now result }
    ensures kept { KeepsSink to.old to.new result }
    ensures used { WritesOnly (K.state to.old) (K.state to.new) (IsErrOf result EncodeFault.WriteFault) }
    ensures room { Wrote (K.state to.old) (K.state to.new) (length bytes.now) (IsErrOf result EncodeFault.WriteFault) }
{
    write_all(to, bytes)?;
    Ok(bytes.len() as u64)
}
