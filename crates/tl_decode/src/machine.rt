//! The steps that need no bytes: values are opened, their parts come in order, and values close.
ghost use Rattle.std.specs.Prelude.{◌<◌, List, IfOk, length};
ghost use Rattle.tl_decode.specs.inner.Frames.{AreWell, ClosesPart, GoesOn, IsWellFrame, IsWellNext, SettlesFrom, StepsFrom};

use crate::opening::{onward, open};
use crate::parts::{add, part};
use crate::stack::{Advance, Found, Next, Onward, StackFrame, WantedItem};
use std::alloc::{AllocError, Global};
use tl_base::Fault;
use tl_plan::Plan;
use tl_types::{Cause, Value};

/// Everything that needs no bytes, until an item is looked for or the value is there.
pub fn settle(
    alloc: Global,
    plan: &Plan,
    frames: &mut Vec<StackFrame>,
    first: Next,
) -> Result<Found, Fault<Cause>>
    requires frames { AreWell plan.now frames.old.items }
    requires first { IsWellNext plan.now first }
    ensures { SettlesFrom plan.now frames.old.items first frames.new.items result }
{
    let mut next = first;
    'steps: loop {
        match step(alloc, plan, frames, next)? {
            Advance::Goes { next: later } => next = later,
            Advance::Stops { found } => return Ok(found),
        }
    }
}

fn step(
    alloc: Global,
    plan: &Plan,
    frames: &mut Vec<StackFrame>,
    next: Next,
) -> Result<Advance, Fault<Cause>>
    requires frames { AreWell plan.now frames.old.items }
    requires next { IsWellNext plan.now next }
    ensures { StepsFrom plan.now frames.old.items next frames.new.items result }
{
    match next {
        Next::Open { of } => open(alloc, plan, frames, of),
        Next::Part { top } => part(alloc, plan, frames, top),
        Next::Close { value } => close(alloc, plan, frames, value),
        Next::Begin { item } => Ok(Advance::Stops {
            found: Found::Wants {
                wanted: WantedItem::Count { item },
            },
        }),
    }
}

// A value becomes a part of the innermost list or record, whose next part is opened at once; without one it is the whole.
fn close(
    alloc: Global,
    plan: &Plan,
    frames: &mut Vec<StackFrame>,
    value: Value,
) -> Result<Advance, Fault<Cause>>
    requires frames { AreWell plan.now frames.old.items }
    ensures { StepsFrom plan.now frames.old.items (Next.Close value) frames.new.items result }
{
    match frames.last_mut() {
        None => Ok(Advance::Stops {
            found: Found::Done { value },
        }),
        Some(top) => match add(plan, top, value)? {
            Some(of) => open(alloc, plan, frames, of),
            None => Ok(Advance::Goes {
                next: Next::Part {
                    top: frames.take_last(),
                },
            }),
        },
    }
}

/// A value becomes a part of the innermost list or record. This is the first step of `settle`, told without a value.
#[inline(always)]
pub fn close_part(plan: &Plan, top: &mut StackFrame, value: Value) -> Result<Onward, AllocError>
    requires { IsWellFrame plan.now top.old }
    ensures { IfOk result (ClosesPart plan.now top.old value top.new) }
{
    match add(plan, top, value)? {
        Some(of) => Ok(onward(plan, of)),
        None => Ok(Onward::Rest),
    }
}

/// All that comes after such a step.
#[inline(never)]
pub fn go_on(
    alloc: Global,
    plan: &Plan,
    frames: &mut Vec<StackFrame>,
    onward: Onward,
) -> Result<Found, Fault<Cause>>
    requires goes { (old : List StackFrame) × (v : Value) × GoesOn plan.now old v frames.old.items onward }
    requires some { 0 < length frames.old.items }
    ensures { (old : List StackFrame) (v : Value) → GoesOn plan.now old v frames.old.items onward → SettlesFrom plan.now old (Next.Close v) frames.new.items result }
{
    match onward {
        Onward::Item { wanted } => Ok(Found::Wants { wanted }),
        Onward::Value { of } => settle(alloc, plan, frames, Next::Open { of }),
        Onward::Rest => {
            let top = frames.take_last();
            settle(alloc, plan, frames, Next::Part { top })
        }
    }
}
