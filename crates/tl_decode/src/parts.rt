//! The parts of a list or a record, in order.
ghost use Rattle.std.specs.Prelude.{◌≡◌, ◌<◌, IfOk, length};
ghost use Rattle.tl_types.specs.Seen.{view, views as values};
ghost use Rattle.tl_decode.specs.inner.Frames.{Adds, AreWell, Comes, IsWellFrame, StepsFrom, made, type_in};

use crate::opening::open;
use crate::stack::{Advance, Coming, Next, StackFrame};
use std::alloc::{AllocError, Global};
use tl_base::Fault;
use tl_plan::{Plan, TypeForm};
use tl_types::{Cause, Value, stands};

/// The next part is opened, or the list or record is whole.
pub fn part(
    alloc: Global,
    plan: &Plan,
    frames: &mut Vec<StackFrame>,
    top: StackFrame,
) -> Result<Advance, Fault<Cause>>
    requires frames { AreWell plan.now frames.old.items }
    requires top { IsWellFrame plan.now top }
    ensures { StepsFrom plan.now frames.old.items (Next.Part top) frames.new.items result }
{
    match top {
        StackFrame::List { item, left, items } => element(alloc, plan, frames, item, left, items),
        StackFrame::Record { of, member, fields } => field(alloc, plan, frames, of, member, fields),
    }
}

fn element(
    alloc: Global,
    plan: &Plan,
    frames: &mut Vec<StackFrame>,
    item: u32,
    left: u32,
    items: Vec<Value>,
) -> Result<Advance, Fault<Cause>>
    requires frames { AreWell plan.now frames.old.items }
    requires top { IsWellFrame plan.now (StackFrame.List item left items) }
    ensures { StepsFrom plan.now frames.old.items (Next.Part (StackFrame.List item left items)) frames.new.items result }
{
    if left == 0 {
        return Ok(Advance::Goes {
            next: Next::Close {
                value: Value::List(items),
            },
        });
    }
    frames.push(StackFrame::List {
        item,
        left: left - 1,
        items,
    })?;
    open(alloc, plan, frames, item)
}

// A field is read, or it isn't there, since its bit is clear.
fn field(
    alloc: Global,
    plan: &Plan,
    frames: &mut Vec<StackFrame>,
    of: u32,
    member: usize,
    mut fields: Vec<Value>,
) -> Result<Advance, Fault<Cause>>
    requires frames { AreWell plan.now frames.old.items }
    requires top { IsWellFrame plan.now (StackFrame.Record of member fields) }
    ensures { StepsFrom plan.now frames.old.items (Next.Part (StackFrame.Record of member fields)) frames.new.items result }
{
    match coming(plan, of, member, &fields) {
        Coming::End { entry } => Ok(Advance::Goes {
            next: Next::Close {
                value: record_of(plan, of, entry, fields),
            },
        }),
        Coming::Absent => {
            fields.push(Value::Absent)?;
            Ok(Advance::Goes {
                next: Next::Part {
                    top: StackFrame::Record { of, member, fields },
                },
            })
        }
        Coming::Field { of: next } => {
            frames.push(StackFrame::Record { of, member, fields })?;
            open(alloc, plan, frames, next)
        }
    }
}

/// A value becomes the next part of a list or a record. The instance of the part after it is answered; None where no part is left, or a field isn't
/// there.
#[inline(always)]
pub fn add(plan: &Plan, top: &mut StackFrame, value: Value) -> Result<Option<u32>, AllocError>
    requires { IsWellFrame plan.now top.old }
    ensures { IfOk result (Adds plan.now top.old value top.new) }
{
    match top {
        StackFrame::List { item, left, items } => {
            items.push(value)?;
            if *left == 0 {
                return Ok(None);
            }
            *left -= 1;
            Ok(Some(*item))
        }
        StackFrame::Record { of, member, fields } => {
            fields.push(value)?;
            match coming(plan, *of, *member, fields) {
                Coming::Field { of: next } => Ok(Some(next)),
                _ => Ok(None),
            }
        }
    }
}

// What comes after the fields that are there.
#[inline(always)]
fn coming(plan: &Plan, of: u32, member: usize, fields: &Vec<Value>) -> Coming
    requires { IsWellFrame plan.now (StackFrame.Record of member fields.now) }
    ensures { Comes plan.now of member fields.now result }
{
    let instance = plan.instance(of);
    let here = &instance.members[member];
    let k = fields.len();
    if k >= here.fields.len() {
        return Coming::End { entry: here.entry };
    }
    let slot = &plan.schema().entry(here.entry).fields[k];
    if !stands(slot.cond, fields) {
        return Coming::Absent;
    }
    Coming::Field { of: here.fields[k] }
}

// A call of a function, or a record of a constructor.
fn record_of(plan: &Plan, of: u32, entry: u32, fields: Vec<Value>) -> Value
    requires within { of < length plan.now.instances }
    ensures { view result ≡ made (type_in plan.now of) entry (values fields.items) }
{
    match plan.instance(of).form {
        TypeForm::Call => Value::Call { entry, fields },
        _ => Value::Node { entry, fields },
    }
}
