//! The beginning of a value of an instance.
ghost use Rattle.std.specs.Prelude.{◌≡◌, ◌<◌, IfOk, IfSome, List, Ok, length};
ghost use Rattle.tl_plan.specs.Plans.{IsPlan};
ghost use Rattle.tl_decode.specs.inner.Frames.{AreWell, GoesOn, IsBare, IsFresh, IsInPlan, IsItem, IsList, IsNumbered, StepsFrom, members_in, type_in};

use crate::stack::{Advance, Found, Next, Onward, StackFrame, WantedItem};
use std::alloc::{AllocError, Global};
use tl_base::Fault;
use tl_plan::{Plan, TypeForm};
use tl_types::{Cause, MAX_LEVELS, Value};

/// A value of this instance is to be read: its first item is looked for, or it has none.
// Each of its four calls stands on the path of every value: as a call of its own it costs a tenth of `decode`.
#[inline(always)]
pub fn open(
    alloc: Global,
    plan: &Plan,
    frames: &Vec<StackFrame>,
    of: u32,
) -> Result<Advance, Fault<Cause>>
    requires frames { AreWell plan.now frames.now.items }
    requires within { IsInPlan plan.now of }
    ensures { StepsFrom plan.now frames.now.items (Next.Open of) frames.now.items result }
{
    match plan.instance(of).form {
        TypeForm::Int => Ok(wants(WantedItem::Int)),
        TypeForm::Long => Ok(wants(WantedItem::Long)),
        TypeForm::Nat => Ok(wants(WantedItem::Nat)),
        TypeForm::Double => Ok(wants(WantedItem::Opaque { width: 8 })),
        TypeForm::Int128 => Ok(wants(WantedItem::Opaque { width: 16 })),
        TypeForm::Int256 => Ok(wants(WantedItem::Opaque { width: 32 })),
        TypeForm::Str => Ok(wants(WantedItem::Text)),
        TypeForm::Raw => Ok(wants(WantedItem::Text)),
        TypeForm::Flag => Ok(closes(Value::Truth)),
        TypeForm::Var { .. } => Ok(closes(Value::Absent)),
        TypeForm::Vector { boxed } => open_list(plan, frames, of, boxed),
        TypeForm::Boxed { .. } => open_numbered(plan, frames, of),
        TypeForm::Call => open_numbered(plan, frames, of),
        TypeForm::Bare { entry } => open_bare(alloc, plan, frames, of, entry),
    }
}

/// What comes where the next part is a value of this instance.
#[inline(always)]
pub fn onward(plan: &Plan, of: u32) -> Onward
    requires { IsInPlan plan.now of }
    ensures { (old new : List StackFrame) (v : Value) → StepsFrom plan.now old (Next.Close v) new (Ok (Advance.Goes (Next.Open of))) → GoesOn plan.now old v new result }
{
    match item_of(plan, of) {
        Some(wanted) => Onward::Item { wanted },
        None => Onward::Value { of },
    }
}

// The item that a value of this instance is, if it is one.
#[inline(always)]
fn item_of(plan: &Plan, of: u32) -> Option<WantedItem>
    requires { IsInPlan plan.now of }
    ensures { IfSome result (IsItem plan.now of) }
{
    match plan.instance(of).form {
        TypeForm::Int => Some(WantedItem::Int),
        TypeForm::Long => Some(WantedItem::Long),
        TypeForm::Nat => Some(WantedItem::Nat),
        TypeForm::Double => Some(WantedItem::Opaque { width: 8 }),
        TypeForm::Int128 => Some(WantedItem::Opaque { width: 16 }),
        TypeForm::Int256 => Some(WantedItem::Opaque { width: 32 }),
        TypeForm::Str => Some(WantedItem::Text),
        TypeForm::Raw => Some(WantedItem::Text),
        _ => None,
    }
}

fn wants(wanted: WantedItem) -> Advance
    ensures { result ≡ Advance.Stops (Found.Wants wanted) }
{
    Advance::Stops {
        found: Found::Wants { wanted },
    }
}

fn closes(value: Value) -> Advance
    ensures { result ≡ Advance.Goes (Next.Close value) }
{
    Advance::Goes {
        next: Next::Close { value },
    }
}

// A vector: its number is looked for where it is boxed, else its count.
fn open_list(
    plan: &Plan,
    frames: &Vec<StackFrame>,
    of: u32,
    boxed: bool,
) -> Result<Advance, Fault<Cause>>
    requires frames { AreWell plan.now frames.now.items }
    requires within { IsInPlan plan.now of }
    requires list { IsList (type_in plan.now of) boxed }
    ensures { StepsFrom plan.now frames.now.items (Next.Open of) frames.now.items result }
{
    if frames.len() >= MAX_LEVELS as usize {
        return Err(Fault::Refused(Cause::TooDeep));
    }
    match plan.instance(of).item {
        Some(item) => {
            if boxed {
                Ok(wants(WantedItem::ListNumber { item }))
            } else {
                Ok(wants(WantedItem::Count { item }))
            }
        }
        None => unreachable!(),
    }
}

// A boxed value or a call: its number is looked for.
fn open_numbered(plan: &Plan, frames: &Vec<StackFrame>, of: u32) -> Result<Advance, Fault<Cause>>
    requires frames { AreWell plan.now frames.now.items }
    requires within { IsInPlan plan.now of }
    requires numbered { IsNumbered (type_in plan.now of) }
    ensures { StepsFrom plan.now frames.now.items (Next.Open of) frames.now.items result }
{
    if frames.len() >= MAX_LEVELS as usize {
        return Err(Fault::Refused(Cause::TooDeep));
    }
    Ok(wants(WantedItem::Number { of }))
}

// A bare record: its fields come next.
fn open_bare(
    alloc: Global,
    plan: &Plan,
    frames: &Vec<StackFrame>,
    of: u32,
    entry: u32,
) -> Result<Advance, Fault<Cause>>
    requires frames { AreWell plan.now frames.now.items }
    requires within { IsInPlan plan.now of }
    requires bare { IsBare (type_in plan.now of) entry }
    requires sound { IsPlan plan.now }
    ensures { StepsFrom plan.now frames.now.items (Next.Open of) frames.now.items result }
{
    if frames.len() >= MAX_LEVELS as usize {
        return Err(Fault::Refused(Cause::TooDeep));
    }
    let top = begin(alloc, plan, of, 0)?;
    Ok(Advance::Goes {
        next: Next::Part { top },
    })
}

/// A record of a member of an instance, before its first field.
pub fn begin(alloc: Global, plan: &Plan, of: u32, member: usize) -> Result<StackFrame, AllocError>
    requires within { IsInPlan plan.now of }
    requires member { member < length (members_in plan.now of) }
    ensures { IfOk result (IsFresh plan.now of member) }
{
    let count = plan.instance(of).members[member].fields.len();
    let fields = Vec::with_capacity(alloc, count)?;
    Ok(StackFrame::Record { of, member, fields })
}
