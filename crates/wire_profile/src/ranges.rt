//! Numbers that a message may have.
ghost use Rattle.std.specs.Prelude.{◌≡◌};
ghost use Rattle.tl_types.specs.Seen.{views};
ghost use Rattle.tl_types.specs.Values.{count};
ghost use Rattle.wire_profile.specs.Ranges as defined;
ghost use Rattle.wire_forms.specs.Parts as parts;
ghost use Rattle.wire_forms.specs.Parts.{at};

use crate::wire_fault::WireFault;
use box_events::{MAX_END, MAX_IDS};
use tl_types::Value;
use wire_forms::{count_in, int_in, word_in};

/// The greatest number of 32 bits with a sign.
const MAX_NUMBER: u32 = 0x7fff_ffff;

/// The fault, unless this holds.
pub fn unless(holds: bool, fault: WireFault) -> Option<WireFault>
    ensures { result ≡ defined.unless holds fault }
{
    if holds { None } else { Some(fault) }
}

/// `BadNumber`, where a field's number is below `least`.
pub fn bad_number(least: u32, fields: &[Value], index: usize) -> Option<WireFault>
    ensures { result ≡ defined.bad_number least (at index (views fields.now)) }
{
    let number = word_in(fields, index);
    unless(
        least <= number && number <= MAX_NUMBER,
        WireFault::BadNumber {
            number: int_in(fields, index),
        },
    )
}

/// `BadEnd`, where a field's number is below `least` or above the end that a box may have.
pub fn bad_end(least: u32, fields: &[Value], index: usize) -> Option<WireFault>
    ensures { result ≡ defined.bad_end least (at index (views fields.now)) }
{
    let pts = word_in(fields, index);
    unless(
        least <= pts && pts <= MAX_END,
        WireFault::BadEnd {
            pts: int_in(fields, index),
        },
    )
}

/// `BadDate`, where a field's number is below 0.
pub fn bad_date(fields: &[Value], index: usize) -> Option<WireFault>
    ensures { result ≡ defined.bad_date (at index (views fields.now)) }
{
    unless(
        word_in(fields, index) <= MAX_NUMBER,
        WireFault::BadDate {
            date: int_in(fields, index),
        },
    )
}

/// `BadSeq`, where the seq in a field is out of range.
pub fn bad_seq(fields: &[Value], index: usize) -> Option<WireFault>
    ensures { result ≡ defined.bad_seq (at index (views fields.now)) }
{
    unless(
        word_in(fields, index) <= MAX_END,
        WireFault::BadSeq {
            seq_start: int_in(fields, index),
            seq: int_in(fields, index),
        },
    )
}

fn bad_count(holds: bool, fields: &[Value], pts: usize, count: usize) -> Option<WireFault>
    ensures { result ≡ defined.bad_count holds (at pts (views fields.now)) (at count (views fields.now)) }
{
    unless(
        holds,
        WireFault::BadCount {
            pts: int_in(fields, pts),
            count: int_in(fields, count),
        },
    )
}

/// `BadCount`, where an event that counts 1 states another count.
pub fn not_one(fields: &[Value], pts: usize, count: usize) -> Option<WireFault>
    ensures { result ≡ defined.not_one (at pts (views fields.now)) (at count (views fields.now)) }
{
    bad_count(word_in(fields, count) == 1, fields, pts, count)
}

// Whether so many ids may stand in a delete.
fn are_few(ids: usize) -> bool
    ensures { result ≡ defined.are_few ids }
{
    1 <= ids && ids <= MAX_IDS
}

fn is_count(ids: usize, count: u32) -> bool
    ensures { result ≡ defined.is_count ids count }
{
    are_few(ids) && count as usize == ids
}

/// `BadCount`, where an event that counts its ids states another count, or has none or too many.
pub fn not_of_ids(fields: &[Value], ids: usize, pts: usize, count: usize) -> Option<WireFault>
    ensures { result ≡ defined.not_of_ids (at ids (views fields.now)) (at pts (views fields.now)) (at count (views fields.now)) }
{
    let holds = is_count(count_in(fields, ids), word_in(fields, count));
    bad_count(holds, fields, pts, count)
}

// A number of elements, as far as 32 bits with a sign hold it.
fn small(n: usize) -> i32
    ensures { result ≡ defined.small n }
{
    if n < 0x7fff_ffff {
        n as i32
    } else {
        0x7fff_ffff
    }
}

/// `BadCount`, where an event whose count isn't stated has no ids or too many.
pub fn bad_ids(fields: &[Value], ids: usize) -> Option<WireFault>
    ensures { result ≡ defined.bad_ids (at ids (views fields.now)) }
{
    let many = count_in(fields, ids);
    unless(
        are_few(many),
        WireFault::BadCount {
            pts: 0,
            count: small(many),
        },
    )
}
