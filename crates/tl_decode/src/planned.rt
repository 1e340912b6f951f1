//! Values of a plan's roots, from a source.
ghost use Rattle.std.specs.Prelude.{◌≡◌, ◌≤◌, ◌<◌, ◌^◌, ◌++◌, ℕ, List, IfSome, IfOk, IsErrOf};
ghost use Rattle.tl_base.specs.Using.{Used};
ghost use Rattle.tl_schema.specs.Types.{Shape};
ghost use Rattle.tl_plan.specs.PlanLaws.{IsInstance};
ghost use Rattle.tl_types.specs.Offsets.{moved};
ghost use Rattle.tl_types.specs.Refusal.{Refused};
ghost use Rattle.tl_types.specs.Seen.{view};
ghost use Rattle.tl_types.specs.Spelling.{Spells};
ghost use Rattle.tl_types.specs.Values.{ValueView, depth};
ghost use Rattle.tl_types.specs.declared.cause.Cause.{Cause};
ghost use Rattle.tl_types.specs.inner.Reading.{value_at};
ghost use Rattle.tl_decode.specs.Decoding.{GivesFault, GivesFew, GivesValue};
ghost use Rattle.tl_decode.specs.inner.Frames.{AreWell, IsFound, IsInPlan, IsStop, IsWellFound, IsWellNext, IsWellWanted, ReadsOn, SettlesAt, found_at, found_work, next_at, next_work, type_in, views};
ghost use Rattle.tl_decode.specs.inner.Steps.{ReadsAs};

use crate::fault::DecodeFault;
use crate::items::item_of;
use crate::machine::settle;
use crate::stack::{Found, Next, StackFrame, WantedItem};
use crate::taking::take;
use std::alloc::Global;
use tl_base::{Fault, Source};
use tl_plan::Plan;
use tl_types::{Cause, MAX_LEVELS, Value};

/// Reads the value of a root of a plan, and takes exactly its bytes. `at` rises by their number, up to 2^64 - 1. After a refusal the source isn't
/// read again. Memory is taken for what was read, never for a length or a count that was only announced.
pub fn decode<S: Source>(
    alloc: Global,
    plan: &Plan,
    root: u32,
    at: &mut u64,
    from: &mut S,
) -> Result<Value, DecodeFault>
    requires root { root < plan.now.roots }
    // What is spelled is read, and exactly its bytes are taken.
    ensures spelled { IfSome (S.state from.old).left (λ bytes. (T : Shape) → IsInstance plan.now root T → (v : ValueView) (x rest : List ℕ) → bytes ≡ x ++ rest → Spells plan.now.schema T v x → depth v ≤ MAX_LEVELS → GivesValue result (S.state from.new).left at.old at.new v x rest) }
    // What is refused is refused at its offset, for its cause.
    ensures refused { IfSome (S.state from.old).left (λ bytes. (T : Shape) → IsInstance plan.now root T → (offset : ℕ) (cause : Cause) → Refused plan.now.schema MAX_LEVELS T bytes offset cause → GivesFault result (moved at.old offset) cause) }
    // What is given has few nodes for the bytes that were taken.
    ensures bounded { IfSome (S.state from.old).left (λ bytes. (T : Shape) → IsInstance plan.now root T → GivesFew plan.now.schema T bytes (S.state from.new).left result) }
    ensures used { Used (S.state from.old) (S.state from.new) (IsErrOf result DecodeFault.ReadFault) }
{
    root_of(alloc, plan, plan.root(root), at, from)
}

fn root_of<S: Source>(
    alloc: Global,
    plan: &Plan,
    root: u32,
    at: &mut u64,
    from: &mut S,
) -> Result<Value, DecodeFault>
    requires within { IsInPlan plan.now root }
    ensures read { ReadsAs view (S.state from.old).left (S.state from.new).left at.old at.new result (value_at plan.now.schema.decls MAX_LEVELS (type_in plan.now root)) }
    ensures start { at.old < 2 ^ 64 }
    ensures used { Used (S.state from.old) (S.state from.new) (IsErrOf result DecodeFault.ReadFault) }
{
    let mut frames = Vec::new(alloc);
    let found = settle_at(alloc, plan, &mut frames, Next::Open { of: root }, *at)?;
    finish(alloc, plan, &mut frames, found, at, from)
}

/// All that comes after what was found.
pub fn finish<S: Source>(
    alloc: Global,
    plan: &Plan,
    frames: &mut Vec<StackFrame>,
    first: Found,
    at: &mut u64,
    from: &mut S,
) -> Result<Value, DecodeFault>
    requires frames { AreWell plan.now frames.old.items }
    requires well { IsWellFound plan.now first }
    ensures read { ReadsAs view (S.state from.old).left (S.state from.new).left at.old at.new result (found_at plan.now (views plan.now frames.old.items) first) }
    ensures used { Used (S.state from.old) (S.state from.new) (IsErrOf result DecodeFault.ReadFault) }
{
    let mut found = first;
    'items: loop {
        match found {
            Found::Done { value } => return Ok(value),
            Found::Wants { wanted } => {
                found = one_item(alloc, plan, frames, wanted, at, from)?;
            }
        }
    }
}

// The item that is looked for, and all after it that needs no bytes.
fn one_item<S: Source>(
    alloc: Global,
    plan: &Plan,
    frames: &mut Vec<StackFrame>,
    wanted: WantedItem,
    at: &mut u64,
    from: &mut S,
) -> Result<Found, DecodeFault>
    requires frames { AreWell plan.now frames.old.items }
    requires wanted { IsWellWanted plan.now wanted }
    ensures found { IsFound plan.now frames.new.items result }
    ensures read { ReadsOn (found_at plan.now (views plan.now frames.old.items) (Found.Wants wanted)) (S.state from.old).left (S.state from.new).left at.old at.new result (found_at plan.now (views plan.now frames.new.items)) }
    ensures work { IfOk result (λ f. found_work plan.now (views plan.now frames.new.items) f < found_work plan.now (views plan.now frames.old.items) (Found.Wants wanted)) }
    ensures used { Used (S.state from.old) (S.state from.new) (IsErrOf result DecodeFault.ReadFault) }
{
    let place = *at;
    let item = item_of(alloc, wanted, at, from)?;
    match take(alloc, plan, wanted, item) {
        Ok(next) => settle_at(alloc, plan, frames, next, *at),
        Err(stop) => Err(stopped(stop, place)),
    }
}

/// Everything that needs no bytes; a refusal is one at the place.
pub fn settle_at(
    alloc: Global,
    plan: &Plan,
    frames: &mut Vec<StackFrame>,
    next: Next,
    place: u64,
) -> Result<Found, DecodeFault>
    requires frames { AreWell plan.now frames.old.items }
    requires next { IsWellNext plan.now next }
    ensures { SettlesAt plan.now (next_at plan.now (views plan.now frames.old.items) next) (next_work plan.now (views plan.now frames.old.items) next) place frames.new.items result }
{
    match settle(alloc, plan, frames, next) {
        Ok(found) => Ok(found),
        Err(stop) => Err(stopped(stop, place)),
    }
}

/// The fault of a stop at a place.
pub fn stopped(stop: Fault<Cause>, place: u64) -> DecodeFault
    ensures { IsStop stop place result }
{
    match stop {
        Fault::Refused(cause) => DecodeFault::Refused { place, cause },
        Fault::Memory => DecodeFault::Memory,
    }
}
