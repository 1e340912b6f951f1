//! A decoder that is fed piece by piece.
ghost use Rattle.std.specs.Prelude.{◌<◌, IsErrOf};
ghost use Rattle.tl_base.specs.Using.{Used};

use std::alloc::Global;
use tl_base::Source;
use tl_decode::{DecodeFault, Decoder, Fed};
use tl_plan::Plan;
use tl_types::{Cause, Value};

// How many bytes are read at once.
const PIECE_BYTES: usize = 512;

/// Reads the value of a plan's first type from a source, piece by piece; what follows it in its last piece is dropped.
pub fn value_from<S: Source>(alloc: Global, plan: &Plan, from: &mut S) -> Result<Value, DecodeFault>
    requires root { 0 < plan.now.roots }
    ensures used { Used (S.state from.old) (S.state from.new) (IsErrOf result DecodeFault.ReadFault) }
{
    let mut decoder = Decoder::new(alloc, plan, 0);
    let mut piece = [0u8; PIECE_BYTES];
    if let Fed::Done { .. } = decoder.feed(&[])? {
        return Ok(decoder.into_value());
    }
    'pieces: loop {
        let size = match from.read(&mut piece) {
            Ok(size) => size,
            Err(_) => return Err(DecodeFault::ReadFault),
        };
        if size == 0 {
            return Err(DecodeFault::Refused {
                place: decoder.ended(),
                cause: Cause::Truncated,
            });
        }
        if let Fed::Done { .. } = decoder.feed(&piece[..size])? {
            return Ok(decoder.into_value());
        }
    }
}
