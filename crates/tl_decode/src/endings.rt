//! Values of a plan's roots, from a source that may have ended.
ghost use Rattle.std.specs.Prelude.{◌≡◌, ◌≢◌, ◌≤◌, ◌<◌, ◌^◌, ◌++◌, ℕ, List, IfSome, IsErrOf, length, true, false};
ghost use Rattle.tl_base.specs.Using.{Used};
ghost use Rattle.tl_schema.specs.Types.{Shape};
ghost use Rattle.tl_plan.specs.Plans.{IsPlan};
ghost use Rattle.tl_plan.specs.PlanLaws.{IsInstance};
ghost use Rattle.tl_types.specs.Offsets.{moved};
ghost use Rattle.tl_types.specs.Refusal.{Refused};
ghost use Rattle.tl_types.specs.Seen.{view};
ghost use Rattle.tl_types.specs.Spelling.{Spells};
ghost use Rattle.tl_types.specs.Values.{ValueView, depth};
ghost use Rattle.tl_types.specs.declared.cause.Cause.{Cause};
ghost use Rattle.tl_types.specs.inner.Reading.{value_at};
ghost use Rattle.tl_decode.specs.Endings.{BeginsWithItem, GivesFewOrNone, GivesNone, GivesSome, RefusesFirst, TakesFour};
ghost use Rattle.tl_decode.specs.inner.Frames.{AreWell, IsInPlan, IsWellWanted, RefusesAt, found_at, type_in, views};
ghost use Rattle.tl_decode.specs.inner.Steps.{OrEnds};

use crate::fault::DecodeFault;
use crate::feeding::{Span, after_item};
use crate::items::item_or_end;
use crate::planned::{finish, settle_at};
use crate::stack::{Found, Next, StackFrame, WantedItem};
use std::alloc::Global;
use tl_base::{Source, take_end};
use tl_plan::{Plan, TypeForm};
use tl_types::{MAX_LEVELS, Value};

/// Reads as `decode` the value of a root of a plan that takes four bytes at least; None where the input has ended before it.
pub fn decode_or_end<S: Source>(
    alloc: Global,
    plan: &Plan,
    root: u32,
    at: &mut u64,
    from: &mut S,
) -> Result<Option<Value>, DecodeFault>
    requires root { root < plan.now.roots }
    requires four { (T : Shape) → IsInstance plan.now root T → TakesFour plan.now.schema T }
    // None is answered exactly where no byte is left.
    ensures none { IfSome (S.state from.old).left (λ bytes. GivesNone bytes (S.state from.new).left at.old at.new result) }
    // What is spelled is read, and exactly its bytes are taken.
    ensures spelled { IfSome (S.state from.old).left (λ bytes. (T : Shape) → IsInstance plan.now root T → (v : ValueView) (x rest : List ℕ) → bytes ≡ x ++ rest → Spells plan.now.schema T v x → depth v ≤ MAX_LEVELS → GivesSome result (S.state from.new).left at.old at.new v x rest) }
    // What is refused is refused at its offset, for its cause, unless no byte is left.
    ensures refused { IfSome (S.state from.old).left (λ bytes. 0 < length bytes → (T : Shape) → IsInstance plan.now root T → (offset : ℕ) (cause : Cause) → Refused plan.now.schema MAX_LEVELS T bytes offset cause → RefusesFirst result (moved at.old offset) cause) }
    // What is given has few nodes for the bytes that were taken.
    ensures bounded { IfSome (S.state from.old).left (λ bytes. (T : Shape) → IsInstance plan.now root T → GivesFewOrNone plan.now.schema T bytes (S.state from.new).left result) }
    ensures used { Used (S.state from.old) (S.state from.new) (IsErrOf result DecodeFault.ReadFault) }
{
    root_or_end(alloc, plan, plan.root(root), at, from)
}

/// Whether each value of a root takes four bytes at least, as the kind of its type tells: that of a flag takes none, and that of a bare record as
/// many as its fields.
pub fn takes_four(plan: &Plan, root: u32) -> bool
    requires { root < plan.now.roots }
    ensures takes { result ≡ true → (T : Shape) → IsInstance plan.now root T → TakesFour plan.now.schema T }
    ensures only { result ≡ false → (T : Shape) → IsInstance plan.now root T → BeginsWithItem T → ⊥ }
{
    match plan.instance(plan.root(root)).form {
        TypeForm::Flag => false,
        TypeForm::Bare { .. } => false,
        _ => true,
    }
}

fn root_or_end<S: Source>(
    alloc: Global,
    plan: &Plan,
    root: u32,
    at: &mut u64,
    from: &mut S,
) -> Result<Option<Value>, DecodeFault>
    requires sound { IsPlan plan.now }
    requires within { IsInPlan plan.now root }
    requires four { (T : Shape) → IsInstance plan.now root T → TakesFour plan.now.schema T }
    ensures read { OrEnds view (S.state from.old).left (S.state from.new).left at.old at.new result (value_at plan.now.schema.decls MAX_LEVELS (type_in plan.now root)) }
    ensures start { at.old < 2 ^ 64 }
    ensures used { Used (S.state from.old) (S.state from.new) (IsErrOf result DecodeFault.ReadFault) }
{
    let mut frames = Vec::new(alloc);
    match settle_at(alloc, plan, &mut frames, Next::Open { of: root }, *at) {
        Ok(Found::Wants { wanted }) => first_of(alloc, plan, &mut frames, wanted, at, from),
        Ok(Found::Done { .. }) => unreachable!(),
        Err(fault) => refused_or_end(fault, from),
    }
}

// The value whose first item is looked for.
fn first_of<S: Source>(
    alloc: Global,
    plan: &Plan,
    frames: &mut Vec<StackFrame>,
    wanted: WantedItem,
    at: &mut u64,
    from: &mut S,
) -> Result<Option<Value>, DecodeFault>
    requires frames { AreWell plan.now frames.old.items }
    requires wanted { IsWellWanted plan.now wanted }
    ensures read { OrEnds view (S.state from.old).left (S.state from.new).left at.old at.new result (found_at plan.now (views plan.now frames.old.items) (Found.Wants wanted)) }
    ensures used { Used (S.state from.old) (S.state from.new) (IsErrOf result DecodeFault.ReadFault) }
{
    let place = *at;
    match item_or_end(alloc, wanted, at, from)? {
        None => Ok(None),
        Some(item) => {
            let span = Span { place, end: *at };
            let found = after_item(alloc, plan, frames, wanted, item, span)?;
            let value = finish(alloc, plan, frames, found, at, from)?;
            Ok(Some(value))
        }
    }
}

// A fault before the first item, unless the input has ended.
fn refused_or_end<S: Source>(fault: DecodeFault, from: &mut S) -> Result<Option<Value>, DecodeFault>
    requires { fault ≢ DecodeFault.ReadFault }
    ensures end { IfSome (S.state from.old).left (λ bytes. RefusesAt fault bytes (S.state from.new).left result) }
    ensures used { Used (S.state from.old) (S.state from.new) (IsErrOf result DecodeFault.ReadFault) }
{
    match take_end(from) {
        Ok(true) => Ok(None),
        Ok(false) => Err(fault),
        Err(_) => Err(DecodeFault::ReadFault),
    }
}
