//! The numbers of a list, taken in one loop.
ghost use Rattle.std.specs.Prelude.{◌≡◌, ℕ, None, Ok, IfOk, IsTrue};
ghost use Rattle.tl_plan.specs.Plans.{PlanView};
ghost use Rattle.tl_types.specs.Offsets.{moved};
ghost use Rattle.tl_decode.specs.inner.Frames.{IsInPlan, IsItem, IsNumber, IsWellFrame, Takes, word as word_item};
ghost use Rattle.tl_decode.specs.inner.Needs.{AddsNumbers, IsInOrder, TakesWords, WorksLess, reads_on};

use crate::held_items::word_in;
use crate::stack::{Next, Reading, StackFrame, WantedItem};
use std::alloc::AllocError;
use tl_plan::{Plan, TypeForm};
use tl_types::Value;

/// Takes the words that are elements of a list of numbers, where it may begin here, one is looked for and no byte of it is held: all that are whole in
/// the next bytes, but for the list's last. How many bytes these are is answered. Reading goes on from there as it would have from before.
pub fn take_numbers(
    plan: &Plan,
    reading: &mut Reading,
    at: &mut u64,
    next: &[u8],
    may_begin: bool,
) -> Result<usize, AllocError>
    requires { IsInOrder plan.now reading.old }
    ensures takes { IfOk result (λ n. TakesWords plan.now (reads_on plan.now reading.old at.old) next.now reading.new at.new (Ok (None, n))) }
    ensures less { IfOk result (WorksLess plan.now reading.old reading.new) }
{
    if !may_begin {
        return Ok(0);
    }
    let wanted = reading.wanted;
    if !reading.held.is_empty() {
        return Ok(0);
    }
    match reading.frames.last_mut() {
        None => Ok(0),
        Some(top) => {
            let used = add_to(plan, wanted, top, next)?;
            *at = at.saturating_add(used as u64);
            Ok(used)
        }
    }
}

/// Whether numbers of a list may come after this item: it is a count, or a number that was cut. Elsewhere they aren't looked for, which is for speed
/// alone.
pub fn begins_numbers(wanted: WantedItem) -> bool {
    matches!(
        wanted,
        WantedItem::Count { .. } | WantedItem::Int | WantedItem::Nat
    )
}

// The numbers become elements, if the innermost is a list of them.
fn add_to(
    plan: &Plan,
    wanted: WantedItem,
    top: &mut StackFrame,
    next: &[u8],
) -> Result<usize, AllocError>
    requires { IsWellFrame plan.now top.old }
    ensures { IfOk result (AddsNumbers plan.now wanted next.now top.old top.new) }
{
    match top {
        StackFrame::List { item, left, items } => {
            if !are_numbers(plan, *item, wanted) {
                return Ok(0);
            }
            add_numbers(wanted, left, items, next)
        }
        StackFrame::Record { .. } => Ok(0),
    }
}

// Each value of this instance is the number that is looked for.
fn are_numbers(plan: &Plan, of: u32, wanted: WantedItem) -> bool
    requires { IsInPlan plan.now of }
    ensures { IsTrue result → IsNumber wanted × IsItem plan.now of wanted }
{
    match plan.instance(of).form {
        TypeForm::Int => matches!(wanted, WantedItem::Int),
        TypeForm::Nat => matches!(wanted, WantedItem::Nat),
        _ => false,
    }
}

// As many numbers as there are words become elements, and one at least is left.
fn add_numbers(
    wanted: WantedItem,
    left: &mut u32,
    items: &mut Vec<Value>,
    next: &[u8],
) -> Result<usize, AllocError>
    requires { IsNumber wanted }
    ensures { IfOk result (λ n. (p : PlanView) (j : ℕ) → IsInPlan p j → IsItem p j wanted → AddsNumbers p wanted next.now (StackFrame.List j left.old items.old) (StackFrame.List j left.new items.new) n) }
{
    let words = next.len() / 4;
    let count = words.min(*left as usize);
    // Room for the list's last number too, if it is there: the list needn't grow by it.
    items.reserve(words.min(*left as usize + 1))?;
    let mut n = 0usize;
    while n < count {
        items.push_reserved(number_of(wanted, word_in(&next[4 * n..])));
        n += 1;
    }
    *left -= count as u32;
    Ok(4 * count)
}

// The number that is looked for.
#[inline(always)]
fn number_of(wanted: WantedItem, word: u32) -> Value
    requires { IsNumber wanted }
    ensures { (p : PlanView) → Takes p wanted (word_item word) (Ok (Next.Close result)) }
{
    match wanted {
        WantedItem::Int => Value::Int(word.cast_signed()),
        _ => Value::Nat(word),
    }
}
