//! Items of bytes that are there.
ghost use Rattle.std.specs.Prelude.{◌≡◌, ◌≤◌, ◌<◌, IfOk, IfSome, Ok, Some, length, take};
ghost use Rattle.std.specs.Int.{w32, w64, cast_signed, from_le_bytes};
ghost use Rattle.tl_types.specs.Seen.{view};
ghost use Rattle.tl_types.specs.Values.{long};
ghost use Rattle.tl_types.specs.inner.Reading.{text_head_of};
ghost use Rattle.tl_decode.specs.inner.Needs.{Fills, FindsItem, IsWhole, head_needs, needs, text_needs};

use crate::stack::{Item, WantedItem};
use crate::texts::{head_of, is_zero, missing_of};
use std::alloc::{AllocError, Global};
use tl_base::{Bytes, Fault};
use tl_types::{Cause, Value};

/// The item that begins in the held bytes and goes on in the next ones, and how many of these it takes. Where it isn't whole there, these are held too.
/// An item that is whole in the next bytes is not copied.
pub fn next_item(
    alloc: Global,
    wanted: WantedItem,
    held: &mut Vec<u8>,
    next: &[u8],
) -> Result<Option<(Item, usize)>, Fault<Cause>>
    requires { length held.old.items < needs wanted held.old.items }
    ensures { FindsItem wanted held.old.items held.new.items next.now result }
{
    // Most items are words: these go by a short path.
    if let Some(word) = next_word(wanted, held, next) {
        return Ok(Some((Item::Word { word }, 4)));
    }
    if held.is_empty() {
        let size = need_of(wanted, next);
        if size <= next.len() {
            let item = whole_item(alloc, wanted, &next[..size])?;
            return Ok(Some((item, size)));
        }
    }
    let count = fill(wanted, held, next)?;
    if held.len() < need_of(wanted, held) {
        return Ok(None);
    }
    let item = whole_item(alloc, wanted, held)?;
    held.clear();
    Ok(Some((item, count)))
}

/// The four bytes that are looked for, where no byte of them is held and all of them are in the next ones.
pub fn next_word(wanted: WantedItem, held: &[u8], next: &[u8]) -> Option<u32>
    ensures { IfSome result (λ word. FindsItem wanted held.now held.now next.now (Ok (Some (Item.Word word, 4)))) }
{
    if !held.is_empty() {
        return None;
    }
    if next.len() < 4 {
        return None;
    }
    match wanted {
        WantedItem::Long => None,
        WantedItem::Opaque { .. } => None,
        WantedItem::Text => None,
        WantedItem::Int => Some(word_in(next)),
        WantedItem::Nat => Some(word_in(next)),
        WantedItem::Number { .. } => Some(word_in(next)),
        WantedItem::ListNumber { .. } => Some(word_in(next)),
        WantedItem::Count { .. } => Some(word_in(next)),
    }
}

// Holds the next bytes of an item, until it is whole.
fn fill(wanted: WantedItem, held: &mut Vec<u8>, next: &[u8]) -> Result<usize, AllocError>
    requires { length held.old.items < needs wanted held.old.items }
    ensures { IfOk result (Fills wanted held.old.items held.new.items next.now) }
{
    let mut used = 0usize;
    while used < next.len() {
        let size = need_of(wanted, held);
        if held.len() >= size {
            return Ok(used);
        }
        let count = (size - held.len()).min(next.len() - used);
        held.extend_from_slice(&next[used..used + count])?;
        used += count;
    }
    Ok(used)
}

/// How many bytes the item has that is looked for, as far as its first bytes tell.
pub fn need_of(wanted: WantedItem, bytes: &[u8]) -> usize
    ensures { result ≡ needs wanted bytes.now }
{
    match wanted {
        WantedItem::Long => 8,
        WantedItem::Opaque { width } => width as usize,
        WantedItem::Text => text_need_of(bytes),
        WantedItem::Int => 4,
        WantedItem::Nat => 4,
        WantedItem::Number { .. } => 4,
        WantedItem::ListNumber { .. } => 4,
        WantedItem::Count { .. } => 4,
    }
}

fn text_need_of(bytes: &[u8]) -> usize
    ensures { result ≡ text_needs bytes.now }
{
    if bytes.len() < 4 {
        return 4;
    }
    match head_of(four_bytes(bytes)) {
        Ok((head, length)) => (head + length + missing_of(head + length)) as usize,
        Err(_) => 4,
    }
}

fn four_bytes(bytes: &[u8]) -> [u8; 4]
    requires { 4 ≤ length bytes.now }
    ensures { result ≡ take 4 bytes.now }
{
    let mut word = [0u8; 4];
    word.copy_from_slice(&bytes[..4]);
    word
}

fn eight_bytes(bytes: &[u8]) -> [u8; 8]
    requires { 8 ≤ length bytes.now }
    ensures { result ≡ take 8 bytes.now }
{
    let mut word = [0u8; 8];
    word.copy_from_slice(&bytes[..8]);
    word
}

/// The item that these bytes are.
pub fn whole_item(alloc: Global, wanted: WantedItem, bytes: &[u8]) -> Result<Item, Fault<Cause>>
    requires { length bytes.now ≡ needs wanted bytes.now }
    ensures { IsWhole wanted bytes.now result }
{
    match wanted {
        WantedItem::Long => Ok(Item::Plain {
            value: long_value(bytes),
        }),
        WantedItem::Opaque { .. } => Ok(Item::Plain {
            value: Value::Opaque(Bytes::from_slice(alloc, bytes)?),
        }),
        WantedItem::Text => whole_text(alloc, bytes),
        WantedItem::Int => Ok(whole_word(bytes)),
        WantedItem::Nat => Ok(whole_word(bytes)),
        WantedItem::Number { .. } => Ok(whole_word(bytes)),
        WantedItem::ListNumber { .. } => Ok(whole_word(bytes)),
        WantedItem::Count { .. } => Ok(whole_word(bytes)),
    }
}

fn long_value(bytes: &[u8]) -> Value
    requires { length bytes.now ≡ 8 }
    ensures { view result ≡ long (cast_signed w64 (from_le_bytes w64 bytes.now)) }
{
    Value::Long(u64::from_le_bytes(eight_bytes(bytes)).cast_signed())
}

fn whole_word(bytes: &[u8]) -> Item
    requires { length bytes.now ≡ 4 }
    ensures { IsWhole WantedItem.Nat bytes.now (Ok result) }
{
    Item::Word {
        word: word_in(bytes),
    }
}

/// The four bytes that are first, as a number.
pub fn word_in(bytes: &[u8]) -> u32
    requires { 4 ≤ length bytes.now }
    ensures { result ≡ from_le_bytes w32 (take 4 bytes.now) }
{
    u32::from_le_bytes(four_bytes(bytes))
}

fn whole_text(alloc: Global, bytes: &[u8]) -> Result<Item, Fault<Cause>>
    requires { length bytes.now ≡ text_needs bytes.now }
    ensures { IsWhole WantedItem.Text bytes.now result }
{
    match head_of(four_bytes(bytes)) {
        Ok((head, length)) => text_item(alloc, bytes, head as usize, length as usize),
        Err(cause) => Err(Fault::Refused(cause)),
    }
}

// A string with such a head and text.
fn text_item(alloc: Global, bytes: &[u8], head: usize, size: usize) -> Result<Item, Fault<Cause>>
    requires head { text_head_of (take 4 bytes.now) ≡ Ok (head, size) }
    requires few { head ≤ 4 }
    requires all { length bytes.now ≡ head_needs (Ok (head, size)) }
    requires some { 4 ≤ length bytes.now }
    ensures { IsWhole WantedItem.Text bytes.now result }
{
    if !is_zero(&bytes[head + size..]) {
        return Err(Fault::Refused(Cause::BadPadding));
    }
    let text = Bytes::from_slice(alloc, &bytes[head..head + size])?;
    Ok(Item::Plain {
        value: Value::Text(text),
    })
}
