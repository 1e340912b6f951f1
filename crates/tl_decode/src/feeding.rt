//! A piece of the input, taken item by item.
ghost use Rattle.std.specs.Prelude.{◌<◌, List, IfNone, IfOk, IfSome, length};
ghost use Rattle.tl_decode.specs.inner.Frames.{AreWell, GoesOn, IsWellWanted, SettlesAt, found_work, goes_after, item_view, next_at, next_work, views};
ghost use Rattle.tl_decode.specs.inner.Needs.{IsInOrder, IsNextValue, ItemLess, PieceLess, TakesItem, TakesPiece, TakesWords, WorksLess, piece_work, reads_on};

use crate::fault::DecodeFault;
use crate::held_items::{next_item, next_word};
use crate::machine::{close_part, go_on};
use crate::numbers::{begins_numbers, take_numbers};
use crate::planned::{settle_at, stopped};
use crate::stack::{Found, Item, Next, Onward, Reading, StackFrame, WantedItem};
use crate::taking::take;
use std::alloc::Global;
use tl_plan::Plan;
use tl_types::Value;

/// Takes a piece: all items that it ends, and all after these that needs no bytes. The value is answered, and how many bytes of the piece it takes;
/// None where it isn't whole: what begins an item is held then.
pub fn take_piece(
    alloc: Global,
    plan: &Plan,
    reading: &mut Reading,
    at: &mut u64,
    piece: &[u8],
) -> Result<Option<(Value, usize)>, DecodeFault>
    requires { IsInOrder plan.now reading.old }
    ensures takes { TakesPiece plan.now (reads_on plan.now reading.old at.old) piece.now reading.new at.new result }
    ensures less { PieceLess plan.now (piece_work plan.now reading.old) piece.now reading.new result }
{
    let mut used = 0usize;
    let mut may_begin = true;
    'items: loop {
        let (value, words) = take_words(alloc, plan, reading, at, &piece[used..], may_begin)?;
        used += words;
        match value {
            Some(value) => return Ok(Some((value, used))),
            None => {}
        }
        may_begin = begins_numbers(reading.wanted);
        match take_item(alloc, plan, reading, at, &piece[used..])? {
            None => return Ok(None),
            Some((found, count)) => {
                used += count;
                match found {
                    Found::Done { value } => return Ok(Some((value, used))),
                    Found::Wants { wanted } => reading.wanted = wanted,
                }
            }
        }
    }
}

// Takes the words that are values, and all after each that needs no bytes. How many bytes these are is answered, and the value, if it is whole then.
// Most items are such words: `take_item` would do the same, by a longer path.
fn take_words(
    alloc: Global,
    plan: &Plan,
    reading: &mut Reading,
    at: &mut u64,
    next: &[u8],
    may_begin: bool,
) -> Result<(Option<Value>, usize), DecodeFault>
    requires { IsInOrder plan.now reading.old }
    ensures takes { TakesWords plan.now (reads_on plan.now reading.old at.old) next.now reading.new at.new result }
    ensures less { IfOk result (λ x. IfNone x.0 (WorksLess plan.now reading.old reading.new x.1)) }
{
    let mut used = take_numbers(plan, reading, at, next, may_begin)?;
    'words: loop {
        let Some(value) = next_value(reading.wanted, &reading.held, &next[used..]) else {
            return Ok((None, used));
        };
        used += 4;
        *at = at.saturating_add(4);
        match after_value(alloc, plan, &mut reading.frames, value, *at)? {
            Found::Done { value } => return Ok((Some(value), used)),
            Found::Wants { wanted } => reading.wanted = wanted,
        }
    }
}

// All after a value that needs no bytes; a refusal is one at the place. After most values an item is looked for.
#[inline(always)]
fn after_value(
    alloc: Global,
    plan: &Plan,
    frames: &mut Vec<StackFrame>,
    value: Value,
    place: u64,
) -> Result<Found, DecodeFault>
    requires { AreWell plan.now frames.old.items }
    ensures { SettlesAt plan.now (next_at plan.now (views plan.now frames.old.items) (Next.Close value)) (next_work plan.now (views plan.now frames.old.items) (Next.Close value)) place frames.new.items result }
{
    match frames.last_mut() {
        None => Ok(Found::Done { value }),
        Some(top) => {
            let onward = close_part(plan, top, value)?;
            found_after(alloc, plan, frames, onward, place)
        }
    }
}

// What is found after a value that became a part; a refusal is one at the place.
#[inline(always)]
fn found_after(
    alloc: Global,
    plan: &Plan,
    frames: &mut Vec<StackFrame>,
    onward: Onward,
    place: u64,
) -> Result<Found, DecodeFault>
    requires goes { (old : List StackFrame) × (v : Value) × GoesOn plan.now old v frames.old.items onward }
    requires some { 0 < length frames.old.items }
    ensures { (old : List StackFrame) (v : Value) → GoesOn plan.now old v frames.old.items onward → SettlesAt plan.now (next_at plan.now (views plan.now old) (Next.Close v)) (next_work plan.now (views plan.now old) (Next.Close v)) place frames.new.items result }
{
    match onward {
        Onward::Item { wanted } => Ok(Found::Wants { wanted }),
        _ => match go_on(alloc, plan, frames, onward) {
            Ok(found) => Ok(found),
            Err(stop) => Err(stopped(stop, place)),
        },
    }
}

// The value that the next four bytes are, where a number is looked for that is one, and no byte of it is held.
#[inline(always)]
fn next_value(wanted: WantedItem, held: &[u8], next: &[u8]) -> Option<Value>
    ensures { IfSome result (IsNextValue wanted held.now next.now) }
{
    let word = next_word(wanted, held, next)?;
    match wanted {
        WantedItem::Int => Some(Value::Int(word.cast_signed())),
        WantedItem::Nat => Some(Value::Nat(word)),
        _ => None,
    }
}

// The item that is looked for, and all after it that needs no bytes.
fn take_item(
    alloc: Global,
    plan: &Plan,
    reading: &mut Reading,
    at: &mut u64,
    next: &[u8],
) -> Result<Option<(Found, usize)>, DecodeFault>
    requires { IsInOrder plan.now reading.old }
    ensures takes { TakesItem plan.now (reads_on plan.now reading.old at.old) (found_work plan.now (views plan.now reading.old.frames.items) (Found.Wants reading.old.wanted)) next.now reading.new at.new result }
    ensures less { ItemLess plan.now (piece_work plan.now reading.old) next.now reading.new result }
{
    let place = *at;
    let wanted = reading.wanted;
    let had = reading.held.len() as u64;
    match next_item(alloc, wanted, &mut reading.held, next) {
        Ok(None) => Ok(None),
        Ok(Some((item, count))) => {
            *at = at.saturating_add(had).saturating_add(count as u64);
            let span = Span { place, end: *at };
            let found = after_item(alloc, plan, &mut reading.frames, wanted, item, span)?;
            Ok(Some((found, count)))
        }
        Err(stop) => Err(stopped(stop, place)),
    }
}

/// From where to where an item's bytes are.
#[derive(Clone, Copy)]
pub struct Span {
    pub place: u64,
    pub end: u64,
}

/// All after an item that needs no bytes.
pub fn after_item(
    alloc: Global,
    plan: &Plan,
    frames: &mut Vec<StackFrame>,
    wanted: WantedItem,
    item: Item,
    at: Span,
) -> Result<Found, DecodeFault>
    requires frames { AreWell plan.now frames.old.items }
    requires wanted { IsWellWanted plan.now wanted }
    ensures goes { SettlesAt plan.now (goes_after plan.now (views plan.now frames.old.items) wanted at.place (item_view item)) (found_work plan.now (views plan.now frames.old.items) (Found.Wants wanted)) at.end frames.new.items result }
    ensures less { IfOk result (λ f. found_work plan.now (views plan.now frames.new.items) f < found_work plan.now (views plan.now frames.old.items) (Found.Wants wanted)) }
{
    match take(alloc, plan, wanted, item) {
        Ok(Next::Close { value }) => after_value(alloc, plan, frames, value, at.end),
        Ok(next) => settle_at(alloc, plan, frames, next, at.end),
        Err(stop) => Err(stopped(stop, at.place)),
    }
}
