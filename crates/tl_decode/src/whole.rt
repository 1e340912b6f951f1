//! Values that are the whole of a source.
ghost use Rattle.std.specs.Prelude.{◌<◌, [], IfOk, IfSome, IsErrOf};
ghost use Rattle.tl_base.specs.Using.{Used};
ghost use Rattle.tl_schema.specs.Types.{Shape};
ghost use Rattle.tl_schema.specs.Formed.{IsFormed};
ghost use Rattle.tl_plan.specs.Plans.{IsPlan};
ghost use Rattle.tl_plan.specs.PlanLaws.{IsInstance};
ghost use Rattle.tl_types.specs.Values.{ValueView};
ghost use Rattle.tl_decode.specs.Decoders.{HasTaken, HasValue};
ghost use Rattle.tl_decode.specs.Wholes.{ReadsWhole};
ghost use Rattle.tl_decode.specs.inner.FedWholes.{EndsAfter, FeedsWhole};

use crate::fault::DecodeFault;
use crate::piecewise::Decoder;
use crate::stack::Fed;
use std::alloc::Global;
use thiserror::Error;
use tl_base::{Failed, Source, take_end};
use tl_plan::Plan;
use tl_types::{Cause, Value};

/// Why bytes in memory are no value of a type.
#[derive(Clone, Copy, Debug, Error)]
pub enum WholeCause {
    /// They begin no spelling of a value: the item at this offset is none, for this cause.
    #[error("refused at byte {place}: {cause}")]
    Refused { place: u64, cause: Cause },
    /// They go on at this offset, after a spelling.
    #[error("more bytes from byte {place} on")]
    Trailing { place: u64 },
}

/// Why the bytes of a source are no value of a type.
#[derive(Clone, Copy, Debug, Error)]
pub enum WholeFault {
    /// They begin no spelling of a value: the item at this offset is none, for this cause.
    #[error("refused at byte {place}: {cause}")]
    Refused { place: u64, cause: Cause },
    /// They go on at this offset, after a spelling.
    #[error("more bytes from byte {place} on")]
    Trailing { place: u64 },
    /// The source failed.
    #[error("read fault")]
    ReadFault,
    #[error("out of memory")]
    Memory,
}

impl From<DecodeFault> for WholeFault {
    ghost use Rattle.std.specs.Prelude.{◌≡◌};
    ghost use Rattle.tl_decode.specs.Wholes.{whole_fault};

    ghost from_gives = { λ d e. e ≡ whole_fault d };

    fn from(fault: DecodeFault) -> WholeFault {
        match fault {
            DecodeFault::Refused { place, cause } => WholeFault::Refused { place, cause },
            DecodeFault::ReadFault => WholeFault::ReadFault,
            DecodeFault::Memory => WholeFault::Memory,
        }
    }
}

impl From<Failed> for WholeFault {
    ghost use Rattle.std.specs.Prelude.{◌≡◌};
    ghost use Rattle.tl_decode.specs.declared.whole.WholeFault.TheVariants.{ReadFault};

    ghost from_gives = { λ _ e. e ≡ ReadFault };

    fn from(_e: Failed) -> WholeFault {
        WholeFault::ReadFault
    }
}

// How many bytes are read at once.
const PIECE_BYTES: usize = 8192;

/// Reads the value of a root of a plan that is all of the source, up to its end.
pub fn decode_whole<S: Source>(
    alloc: Global,
    plan: &Plan,
    root: u32,
    from: &mut S,
) -> Result<Value, WholeFault>
    requires root { root < plan.now.roots }
    ensures whole { (T : Shape) → IsInstance plan.now root T → IsFormed plan.now.schema T → IfSome (S.state from.old).left (λ bytes. ReadsWhole plan.now.schema T bytes result) }
    ensures used { Used (S.state from.old) (S.state from.new) (IsErrOf result WholeFault.ReadFault) }
{
    let mut decoder = Decoder::new(alloc, plan, root);
    feed_all(&mut decoder, from)?;
    Ok(decoder.into_value())
}

// Feeds a decoder that has taken nothing with all that is left, piece by piece.
fn feed_all<'p, 's, S: Source>(
    decoder: &mut Decoder<'p, 's>,
    from: &mut S,
) -> Result<(), WholeFault>
    requires sound { IsPlan decoder.old.plan }
    requires first { HasTaken decoder.old [] }
    ensures value { IfOk result (λ _. (v : ValueView) × HasValue decoder.new v) }
    ensures whole { (T : Shape) → IsInstance decoder.old.plan decoder.old.root T → IsFormed decoder.old.plan.schema T → IfSome (S.state from.old).left (λ bytes. FeedsWhole decoder.old.plan.schema T bytes decoder.new result) }
    ensures used { Used (S.state from.old) (S.state from.new) (IsErrOf result WholeFault.ReadFault) }
{
    let mut piece = [0u8; PIECE_BYTES];
    if let Fed::Done { .. } = decoder.feed(&[])? {
        return after_value(0, false, from);
    }
    let mut at = 0u64;
    'pieces: loop {
        let size = from.read(&mut piece)?;
        if size == 0 {
            return Err(WholeFault::Refused {
                place: decoder.ended(),
                cause: Cause::Truncated,
            });
        }
        match decoder.feed(&piece[..size])? {
            Fed::More => at = at.saturating_add(size as u64),
            Fed::Done { used } => {
                return after_value(at.saturating_add(used as u64), used < size, from);
            }
        }
    }
}

// The end of the source after a value, unless bytes follow it in its piece or after that.
fn after_value<S: Source>(place: u64, more: bool, from: &mut S) -> Result<(), WholeFault>
    ensures end { IfSome (S.state from.old).left (λ bytes. EndsAfter place more bytes result) }
    ensures used { Used (S.state from.old) (S.state from.new) (IsErrOf result WholeFault.ReadFault) }
{
    if more {
        return Err(WholeFault::Trailing { place });
    }
    if !take_end(from)? {
        return Err(WholeFault::Trailing { place });
    }
    Ok(())
}
