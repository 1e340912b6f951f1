//! The updates of a container, and those of a difference.
ghost use Rattle.std.specs.Prelude.{◌≡◌};
ghost use Rattle.tl_types.specs.Seen.{views};
ghost use Rattle.wire_profile.specs.Updates as defined;
ghost use Rattle.wire_forms.specs.Parts as parts;
ghost use Rattle.wire_forms.specs.Parts.{at};

use crate::ranges::unless;
use crate::wire_fault::WireFault;
use box_events::MAX_END;
use tl_types::Value;
use wire_forms::numbers::{
    UPDATE_DELETE_MESSAGES, UPDATE_EDIT_MESSAGE, UPDATE_READ_HISTORY, UPDATE_SETTING,
};
use wire_forms::{entry_of, int_in, parts_in, word_in};

// How many of the updates are settings.
fn settings(updates: &[Value]) -> u64
    ensures { result ≡ defined.settings (views updates.now) }
{
    let mut count = 0;
    for update in updates {
        if entry_of(update) == UPDATE_SETTING {
            count += 1;
        }
    }
    count
}

/// `UnorderedSetting`, where a container without a seq has a setting.
pub fn unordered(fields: &[Value], updates: usize, seq: usize) -> Option<WireFault>
    ensures { result ≡ defined.unordered (at updates (views fields.now)) (at seq (views fields.now)) }
{
    let count = settings(parts_in(fields, updates));
    unless(
        1 <= word_in(fields, seq) || count == 0,
        WireFault::UnorderedSetting,
    )
}

// Whether so many settings have the seqs from `start` to `seq`, or there is no seq.
fn is_pack(many: u64, start: u32, seq: u32) -> bool
    ensures { result ≡ defined.is_pack many start seq }
{
    seq == 0 || (1 <= start && start <= seq && seq <= MAX_END && many == (seq - start) as u64 + 1)
}

/// `BadSeq`, where a container's settings aren't those of its seqs.
pub fn bad_pack(fields: &[Value], updates: usize, start: usize, seq: usize) -> Option<WireFault>
    ensures { result ≡ defined.bad_pack (at updates (views fields.now)) (at start (views fields.now)) (at seq (views fields.now)) }
{
    let count = settings(parts_in(fields, updates));
    unless(
        is_pack(count, word_in(fields, start), word_in(fields, seq)),
        WireFault::BadSeq {
            seq_start: int_in(fields, start),
            seq: int_in(fields, seq),
        },
    )
}

// Whether an update of this form may stand in a difference, beside new messages.
fn is_other(with_settings: bool, form: u32) -> bool
    ensures { result ≡ defined.is_other with_settings form }
{
    match form {
        UPDATE_EDIT_MESSAGE | UPDATE_DELETE_MESSAGES | UPDATE_READ_HISTORY => true,
        UPDATE_SETTING => with_settings,
        _ => false,
    }
}

// An index, as far as 32 bits hold it.
fn held(n: usize) -> u32
    ensures { result ≡ parts.held n }
{
    if n < 0xffff_ffff {
        n as u32
    } else {
        0xffff_ffff
    }
}

// The first of the updates that may not stand in a difference.
fn wrong_among(with_settings: bool, updates: &[Value]) -> Option<WireFault>
    ensures { result ≡ defined.wrong_among with_settings 0 (views updates.now) }
{
    for (index, update) in updates.iter().enumerate() {
        if !is_other(with_settings, entry_of(update)) {
            return Some(WireFault::WrongUpdate { place: held(index) });
        }
    }
    None
}

/// `WrongUpdate`, where one of a difference's other updates may not stand there.
pub fn wrong_update(with_settings: bool, fields: &[Value], others: usize) -> Option<WireFault>
    ensures { result ≡ defined.wrong_update with_settings (at others (views fields.now)) }
{
    wrong_among(with_settings, parts_in(fields, others))
}
