//! What comes after an item.
ghost use Rattle.std.specs.Prelude.{◌≡◌, ◌<◌, ℕ, Some, None, IfSome, IfNone, List, length, slice_get};
ghost use Rattle.tl_plan.specs.PlanLaws.{StandsIn};
ghost use Rattle.tl_decode.specs.inner.Frames.{IsInPlan, IsWellWanted, Takes, entries_shown, entry_in, find_in, item_view, members_in, type_in};

use crate::decoder::wrong;
use crate::members::{function, member};
use crate::opening::begin;
use crate::stack::{Item, Next, StackFrame, WantedItem};
use std::alloc::Global;
use tl_base::{BOXED_VECTOR, Fault};
use tl_plan::{Member, Plan, TypeForm};
use tl_types::{Cause, Value};

/// The item that was looked for is there.
#[inline(always)]
pub fn take(
    alloc: Global,
    plan: &Plan,
    wanted: WantedItem,
    item: Item,
) -> Result<Next, Fault<Cause>>
    requires { IsWellWanted plan.now wanted }
    ensures { Takes plan.now wanted (item_view item) result }
{
    match item {
        Item::Word { word } => take_word(alloc, plan, wanted, word),
        Item::Plain { value } => Ok(Next::Close { value }),
    }
}

fn take_word(
    alloc: Global,
    plan: &Plan,
    wanted: WantedItem,
    word: u32,
) -> Result<Next, Fault<Cause>>
    requires { IsWellWanted plan.now wanted }
    ensures { Takes plan.now wanted (item_view (Item.Word word)) result }
{
    match wanted {
        WantedItem::Int => Ok(Next::Close {
            value: Value::Int(word.cast_signed()),
        }),
        WantedItem::Number { of } => take_number(alloc, plan, of, word),
        WantedItem::ListNumber { item } => take_list_number(plan, item, word),
        WantedItem::Count { item } => take_count(alloc, plan, item, word),
        WantedItem::Nat => Ok(Next::Close {
            value: Value::Nat(word),
        }),
        WantedItem::Long => Ok(Next::Close {
            value: Value::Nat(word),
        }),
        WantedItem::Opaque { .. } => Ok(Next::Close {
            value: Value::Nat(word),
        }),
        WantedItem::Text => Ok(Next::Close {
            value: Value::Nat(word),
        }),
    }
}

fn take_list_number(plan: &Plan, item: u32, word: u32) -> Result<Next, Fault<Cause>>
    requires { IsInPlan plan.now item }
    ensures { Takes plan.now (WantedItem.ListNumber item) (item_view (Item.Word word)) result }
{
    if word != BOXED_VECTOR {
        return Err(Fault::Refused(wrong(word)));
    }
    Ok(Next::Begin { item })
}

fn take_count(alloc: Global, plan: &Plan, item: u32, word: u32) -> Result<Next, Fault<Cause>>
    requires { IsInPlan plan.now item }
    ensures { Takes plan.now (WantedItem.Count item) (item_view (Item.Word word)) result }
{
    if word >= 0x8000_0000 {
        return Err(Fault::Refused(Cause::BadCount { word }));
    }
    Ok(Next::Part {
        top: StackFrame::List {
            item,
            left: word,
            items: Vec::new(alloc),
        },
    })
}

fn take_number(alloc: Global, plan: &Plan, of: u32, word: u32) -> Result<Next, Fault<Cause>>
    requires { IsInPlan plan.now of }
    ensures { Takes plan.now (WantedItem.Number of) (item_view (Item.Word word)) result }
{
    match found(plan, of, word) {
        None => Err(Fault::Refused(wrong(word))),
        Some(member) => Ok(Next::Part {
            top: begin(alloc, plan, of, member)?,
        }),
    }
}

// The member of an instance whose declaration has this number.
fn found(plan: &Plan, of: u32, word: u32) -> Option<usize>
    requires { IsInPlan plan.now of }
    ensures found { IfSome result (λ m. (m < length (members_in plan.now of)) × (find_in plan.now.schema.decls (type_in plan.now of) word ≡ Some (entry_in plan.now of m))) }
    ensures none { IfNone result (find_in plan.now.schema.decls (type_in plan.now of) word ≡ None) }
{
    let entry = numbered(plan, of, word)?;
    Some(index_of(&plan.instance(of).members, entry))
}

// The declaration with this number among those of an instance.
fn numbered(plan: &Plan, of: u32, word: u32) -> Option<u32>
    requires { IsInPlan plan.now of }
    ensures { result ≡ find_in plan.now.schema.decls (type_in plan.now of) word }
{
    match plan.instance(of).form {
        TypeForm::Boxed { head } => member(plan.schema(), head, word),
        TypeForm::Call => function(plan.schema(), word),
        _ => None,
    }
}

// The index of the member of a declaration, which is there; they stand in the order of declarations.
fn index_of(members: &[Member], entry: u32) -> usize
    requires some { StandsIn (entries_shown members.now) entry }
    requires order { (j k i h : ℕ) → j < k → slice_get (entries_shown members.now) j ≡ Some i → slice_get (entries_shown members.now) k ≡ Some h → i < h }
    ensures { slice_get (entries_shown members.now) result ≡ Some entry }
{
    let mut low = 0usize;
    let mut high = members.len();
    while high - low > 1 {
        let middle = low + (high - low) / 2;
        if members[middle].entry <= entry {
            low = middle;
        } else {
            high = middle;
        }
    }
    low
}
