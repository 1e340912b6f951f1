//! Items from a source.
ghost use Rattle.std.specs.Prelude.{◌≡◌, ◌≤◌, ◌<◌, ◌^◌, ◌++◌, ℕ, List, IsErrOf, OnOk, length};
ghost use Rattle.tl_base.specs.Using.{Used};
ghost use Rattle.tl_types.specs.Offsets.{moved};
ghost use Rattle.tl_types.specs.inner.Reading.{added_at, spot, word_at};
ghost use Rattle.tl_decode.specs.inner.Frames.{item_at, item_view};
ghost use Rattle.tl_decode.specs.inner.Needs.{IsWholeAt, needs};
ghost use Rattle.tl_decode.specs.inner.Steps.{OrEnds, ReadsAs};

use crate::fault::DecodeFault;
use crate::held_items::{need_of, whole_item};
use crate::planned::stopped;
use crate::stack::{Item, WantedItem};
use std::alloc::Global;
use tl_base::{Source, TakeFault, take_bytes, take_word};
use tl_types::Cause;

// How many bytes are taken at once.
const PIECE_BYTES: u64 = 1024;

/// The next four bytes as a number.
pub fn word_of<S: Source>(at: &mut u64, from: &mut S) -> Result<u32, DecodeFault>
    ensures read { ReadsAs (λ w. w) (S.state from.old).left (S.state from.new).left at.old at.new result word_at }
    ensures used { Used (S.state from.old) (S.state from.new) (IsErrOf result DecodeFault.ReadFault) }
{
    match take_word(from) {
        Ok(word) => {
            *at = at.saturating_add(4);
            Ok(u32::from_le_bytes(word))
        }
        Err(TakeFault::Ended { .. }) => Err(DecodeFault::Refused {
            place: *at,
            cause: Cause::Truncated,
        }),
        Err(TakeFault::ReadFault) => Err(DecodeFault::ReadFault),
    }
}

/// The item that is looked for.
pub fn item_of<S: Source>(
    alloc: Global,
    wanted: WantedItem,
    at: &mut u64,
    from: &mut S,
) -> Result<Item, DecodeFault>
    requires { (b : List ℕ) → 4 ≤ needs wanted b }
    ensures read { ReadsAs item_view (S.state from.old).left (S.state from.new).left at.old at.new result (item_at wanted) }
    ensures used { Used (S.state from.old) (S.state from.new) (IsErrOf result DecodeFault.ReadFault) }
{
    let place = *at;
    match item_or_end(alloc, wanted, at, from)? {
        Some(item) => Ok(item),
        None => Err(DecodeFault::Refused {
            place,
            cause: Cause::Truncated,
        }),
    }
}

/// The item that is looked for, or None where the input has ended.
pub fn item_or_end<S: Source>(
    alloc: Global,
    wanted: WantedItem,
    at: &mut u64,
    from: &mut S,
) -> Result<Option<Item>, DecodeFault>
    requires { (b : List ℕ) → 4 ≤ needs wanted b }
    ensures read { OrEnds item_view (S.state from.old).left (S.state from.new).left at.old at.new result (item_at wanted) }
    ensures used { Used (S.state from.old) (S.state from.new) (IsErrOf result DecodeFault.ReadFault) }
{
    let place = *at;
    match take_word(from) {
        Ok(word) => {
            *at = at.saturating_add(4);
            let item = item_after(alloc, wanted, word, place, at, from)?;
            Ok(Some(item))
        }
        Err(TakeFault::Ended { had }) => {
            if had == 0 {
                return Ok(None);
            }
            Err(DecodeFault::Refused {
                place,
                cause: Cause::Truncated,
            })
        }
        Err(TakeFault::ReadFault) => Err(DecodeFault::ReadFault),
    }
}

// The item at the place that begins with these four bytes.
fn item_after<S: Source>(
    alloc: Global,
    wanted: WantedItem,
    word: [u8; 4],
    place: u64,
    at: &mut u64,
    from: &mut S,
) -> Result<Item, DecodeFault>
    requires four { (b : List ℕ) → 4 ≤ needs wanted b }
    requires at { at.old ≡ moved place 4 }
    ensures read { ReadsAs item_view (S.state from.old).left (S.state from.new).left at.old at.new result (λ s. item_at wanted (spot place (word ++ s.bytes))) }
    ensures used { Used (S.state from.old) (S.state from.new) (IsErrOf result DecodeFault.ReadFault) }
{
    let more = need_of(wanted, &word) - 4;
    if more == 0 {
        return item_in(alloc, wanted, &word, place);
    }
    let mut bytes = Vec::from_slice(alloc, &word)?;
    exact_of(place, more as u64, &mut bytes, at, from)?;
    item_in(alloc, wanted, &bytes, place)
}

// The item that these bytes at a place are.
fn item_in(alloc: Global, wanted: WantedItem, bytes: &[u8], place: u64) -> Result<Item, DecodeFault>
    requires { length bytes.now ≡ needs wanted bytes.now }
    ensures { IsWholeAt wanted bytes.now place result }
{
    match whole_item(alloc, wanted, bytes) {
        Ok(item) => Ok(item),
        Err(stop) => Err(stopped(stop, place)),
    }
}

// Appends the next bytes, piece by piece: memory is taken for bytes that are there. Where the input ends inside, the fault is at `place`.
fn exact_of<S: Source>(
    place: u64,
    count: u64,
    out: &mut Vec<u8>,
    at: &mut u64,
    from: &mut S,
) -> Result<(), DecodeFault>
    requires { at.old < 2 ^ 64 }
    ensures read { ReadsAs (λ _. out.new.items) (S.state from.old).left (S.state from.new).left at.old at.new result (added_at out.old.items place count) }
    ensures grows { OnOk result ((more : List ℕ) × (out.new.items ≡ out.old.items ++ more) × (length more ≡ count)) }
    ensures used { Used (S.state from.old) (S.state from.new) (IsErrOf result DecodeFault.ReadFault) }
{
    let mut piece = [0u8; PIECE_BYTES as usize];
    let mut left = count;
    while left > 0 {
        let size = left.min(PIECE_BYTES);
        match take_bytes(from, &mut piece[..size as usize]) {
            Ok(()) => {}
            Err(TakeFault::Ended { .. }) => {
                return Err(DecodeFault::Refused {
                    place,
                    cause: Cause::Truncated,
                });
            }
            Err(TakeFault::ReadFault) => return Err(DecodeFault::ReadFault),
        }
        *at = at.saturating_add(size);
        out.extend_from_slice(&piece[..size as usize])?;
        left -= size;
    }
    Ok(())
}
