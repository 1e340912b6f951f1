//! Gaps.
ghost use Rattle.std.specs.Prelude.{◌≡◌, ◌<◌, ◌≤◌, ◌+◌, OnOk, OnErr, leb, length, drop, slice_index_or};
ghost use Rattle.std.specs.List.{remove};
ghost use Rattle.std.specs.VecDeque.{deque_len, deque_capacity};
ghost use Rattle.std.specs.Ordering.{nat_cmp};
ghost use Rattle.std.specs.FinMap as map;
ghost use Rattle.std.specs.FinMap.Entries.{where_key};
ghost use Rattle.pts_machine.specs.Holding.{Holds, TakesBelow, from};
ghost use Rattle.pts_machine.specs.inner.Indexes.{AreRising, IsIndex};

use crate::held::Held;
use std::alloc::Global;
use std::collections::VecDeque;
use std::marker::Model;
use tl_base::Memory;

/// So many items are held at most.
const MOST: usize = 1_024;

/// Held items by their starts, each with its end, in order of start. They stand in a ring, so that an item at either end is put and taken without
/// moving the others.
pub struct Gap<E> {
    items: VecDeque<(u32, (u32, E))>,
    // for how many more items memory was taken
    spare: u32,
}

// By hand, so that each exit of an owner has one call to prove.
impl<E: Drop> Drop for Gap<E> {
    fn drop(self) {
        let Gap { items: _, spare: _ } = self;
    }
}

impl<E> Model for Gap<E> {
    ghost use Rattle.pts_machine.specs.Holding.{GapView, gap_code};
    ghost use Rattle.pts_machine.specs.BufferViews.{view_of, IsWhole};

    ghost Value = { GapView E };

    ghost coded = { gap_code E.code };

    ghost view = { view_of };

    ghost invariant = { IsWhole };
}

// Where the item with a start stands among items whose starts rise, or else where it belongs.
fn index_of<E>(items: &VecDeque<(u32, E)>, start: u32) -> Result<usize, usize>
    requires rising { AreRising items.now.items }
    ensures index { IsIndex items.now.items start result }
{
    items.binary_search_by(|held| held.0.cmp(&start))
}

// How many items start below a position: they are the first.
fn number_below<E>(items: &VecDeque<(u32, E)>, at: u32) -> usize
    requires rising { AreRising items.now.items }
    ensures within { result ≤ length items.now.items }
    ensures rest { drop result items.now.items ≡ where_key nat_cmp (leb at) items.now.items }
{
    match index_of(items, at) {
        Ok(i) => i,
        Err(i) => i,
    }
}

// Takes the item at an index. The items on its shorter side move.
fn remove_at<E>(items: &mut VecDeque<(u32, E)>, index: usize) -> (u32, E)
    requires within { index < length items.old.items }
    ensures value { result ≡ slice_index_or items.old.items index result }
    ensures items { items.new.items ≡ remove items.old.items index }
    ensures len { deque_len items.new + 1 ≡ deque_len items.old }
    ensures capacity { deque_capacity items.new ≡ deque_capacity items.old }
{
    match items.remove(index) {
        Some(item) => item,
        None => unreachable!(),
    }
}

// Drops so many of the first items.
fn drop_first<E: Drop>(items: &mut VecDeque<(u32, E)>, number: usize)
    requires within { number ≤ length items.old.items }
    ensures items { items.new.items ≡ drop number items.old.items }
    ensures len { deque_len items.new + number ≡ deque_len items.old }
    ensures capacity { deque_capacity items.new ≡ deque_capacity items.old }
{
    for _ in 0..number {
        let _first = items.pop_front();
    }
}

impl<E> Gap<E> {
    /// Nothing is held.
    pub fn new(alloc: Global) -> Gap<E>
        ensures { result.held ≡ map.empty }
    {
        Gap {
            items: VecDeque::new(alloc),
            spare: 0,
        }
    }

    /// Takes memory for so many more items.
    pub fn reserve(&mut self, more: u32) -> Result<(), Memory>
        ensures held { self.new.held ≡ self.old.held }
        ensures spare { self.old.spare ≤ self.new.spare }
        ensures ok { OnOk result (more ≤ self.new.spare) }
        ensures err { OnErr result (self.new ≡ self.old) }
    {
        self.items.reserve(more as usize)?;
        self.spare = self.spare.max(more);
        Ok(())
    }

    /// Holds an item. There is to be room for it.
    pub fn hold(&mut self, start: u32, end: u32, item: E) -> Held<E>
        requires order { start < end }
        requires room { 1 ≤ self.old.spare }
        ensures { Holds self.old self.new start end item result }
    {
        let i = match index_of(&self.items, start) {
            Ok(_) => return Held::Already(item),
            Err(i) => i,
        };
        if self.items.len() >= MOST {
            return Held::Full(item);
        }
        match self.items.insert(i, (start, (end, item))) {
            Ok(()) => {}
            Err(_) => unreachable!(),
        }
        self.spare -= 1;
        Held::Kept
    }

    /// Takes the item that starts here, with its end.
    pub fn take(&mut self, at: u32) -> Option<(u32, E)>
        ensures value { result ≡ map.get self.old.held at }
        ensures rest { self.new.held ≡ map.remove self.old.held at }
        ensures spare { self.old.spare ≤ self.new.spare }
    {
        match index_of(&self.items, at) {
            Ok(i) => {
                let (_, held) = remove_at(&mut self.items, i);
                Some(held)
            }
            Err(_) => None,
        }
    }

    /// Takes an item that starts below this position, with its end.
    pub fn take_below(&mut self, at: u32) -> Option<(u32, E)>
        ensures taken { TakesBelow self.old self.new at result }
        ensures spare { self.old.spare ≤ self.new.spare }
    {
        let start = self.items.front()?.0;
        if at <= start {
            return None;
        }
        let (_, held) = remove_at(&mut self.items, 0);
        Some(held)
    }

    /// Drops the items that start below this position, and answers how many.
    pub fn drop_to(&mut self, at: u32) -> u32
    where
        E: Drop,
        ensures rest { self.new.held ≡ from at self.old.held }
        ensures number { result + map.len self.new.held ≡ map.len self.old.held }
        ensures spare { self.old.spare ≤ self.new.spare }
    {
        let below = number_below(&self.items, at);
        drop_first(&mut self.items, below);
        below as u32
    }

    /// Drops every item.
    pub fn clear(&mut self)
    where
        E: Drop,
        ensures rest { self.new.held ≡ map.empty }
        ensures spare { self.old.spare ≤ self.new.spare }
    {
        self.items.clear();
    }

    /// How many items are held.
    pub fn len(&self) -> u32
        ensures number { result ≡ map.len self.now.held }
        ensures most { result ≤ 1024 }
    {
        self.items.len() as u32
    }
}
