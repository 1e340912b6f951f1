//! An input that is read piece by piece into a decoder.
ghost use Rattle.std.specs.Prelude.{◌<◌, [], IfOk};
ghost use Rattle.outside.specs.Begun.{Did};
ghost use Rattle.tl_plan.specs.Plans.{IsPlan};
ghost use Rattle.tl_plan.specs.PlanLaws.{IsInstance};
ghost use Rattle.tl_schema.specs.Formed.{IsFormed};
ghost use Rattle.tl_schema.specs.Types.{Shape};
ghost use Rattle.tl_numbers.specs.Bytes.{AreBytes};
ghost use Rattle.tl_types.specs.Values.{ValueView};
ghost use Rattle.tl_decode.specs.Decoders.{Feeds, HasTaken, HasValue};
ghost use Rattle.codec_rooms.specs.Decode.{ReadsValue, verdict};
ghost use Rattle.codec_rooms.specs.inner.Feeding.{EndsInput, FeedsEach};

use outside::Host;
use std::alloc::Global;
use tl_base::Slot;
use tl_decode::{DecodeFault, Decoder, Fed, WholeFault};
use tl_plan::Plan;
use tl_types::{Cause, Value};

// How many bytes are read at once.
const PIECE_BYTES: usize = 8192;

/// The value that all the bytes of the slot Input spell, by the plan of its type. It is read no further than what it is was open.
pub fn read_value<H: Host>(alloc: Global, host: &mut H, plan: &Plan) -> Result<Value, WholeFault>
    requires root { 0 < plan.now.roots }
    ensures { (T : Shape) → IsInstance plan.now 0 T → IsFormed plan.now.schema T → Did (ReadsValue plan.now.schema T) (H.state host.old) (H.state host.new) (verdict result) }
{
    let mut decoder = Decoder::new(alloc, plan, 0);
    feed_input(host, &mut decoder)?;
    Ok(decoder.into_value())
}

// Feeds a decoder that has taken nothing with the input, piece by piece.
fn feed_input<H: Host>(host: &mut H, decoder: &mut Decoder<'_, '_>) -> Result<(), WholeFault>
    requires sound { IsPlan decoder.old.plan }
    requires first { HasTaken decoder.old [] }
    ensures value { IfOk result (λ _. (v : ValueView) × HasValue decoder.new v) }
    ensures reads { FeedsEach decoder.old decoder.new (H.state host.old) (H.state host.new) result }
{
    let mut piece = [0u8; PIECE_BYTES];
    if let Fed::Done { .. } = decoder.feed(&[])? {
        return end_input(host, 0);
    }
    let mut at = 0u64;
    'pieces: loop {
        let Ok(size) = host.read(Slot::Input, &mut piece) else {
            return Err(WholeFault::ReadFault);
        };
        if size == 0 {
            return Err(WholeFault::Refused {
                place: decoder.ended(),
                cause: Cause::Truncated,
            });
        }
        match feed_piece(decoder, &piece[..size])? {
            Fed::More => at = at.saturating_add(size as u64),
            Fed::Done { used } => {
                let place = at.saturating_add(used as u64);
                if used < size {
                    return Err(WholeFault::Trailing { place });
                }
                return end_input(host, place);
            }
        }
    }
}

// Feeds a piece, of which it is told that it holds bytes.
fn feed_piece(decoder: &mut Decoder<'_, '_>, piece: &[u8]) -> Result<Fed, DecodeFault>
    ensures feeds { Feeds decoder.old decoder.new piece.now result }
    ensures bytes { AreBytes piece.now }
{
    decoder.feed(piece)
}

// The end of the input after a value, unless bytes follow it.
fn end_input<H: Host>(host: &mut H, place: u64) -> Result<(), WholeFault>
    ensures { EndsInput place (H.state host.old) (H.state host.new) result }
{
    let mut byte = [0u8; 1];
    match host.read(Slot::Input, &mut byte) {
        Ok(0) => Ok(()),
        Ok(_) => Err(WholeFault::Trailing { place }),
        Err(_) => Err(WholeFault::ReadFault),
    }
}
