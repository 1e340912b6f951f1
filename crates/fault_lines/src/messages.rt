//! Messages as bytes.
ghost use Rattle.std.specs.Prelude.{◌≡◌, IfOk, Some, string_bytes};
ghost use Rattle.fault_lines.specs.Messages.{count_words, seq_words, spell_line, step_line, wire_line, wire_place, wire_words};

use box_wire::SpellFault;
use outside::{placed_line, unplaced_line};
use schema_files::cause_text;
use std::alloc::{AllocError, Global};
use wire_profile::WireFault;

// The offset or the index of what is refused, where the cause has one.
fn wire_place(fault: WireFault) -> Option<u64>
    ensures { result ≡ wire_place fault }
{
    match fault {
        WireFault::Refused { place, .. } => Some(place),
        WireFault::Trailing { place } => Some(place),
        WireFault::NotServed { place } => Some(place as u64),
        WireFault::WrongUpdate { place } => Some(place as u64),
        WireFault::BadVersion { .. } => None,
        WireFault::BadNumber { .. } => None,
        WireFault::BadCount { .. } => None,
        WireFault::BadEnd { .. } => None,
        WireFault::BadDate { .. } => None,
        WireFault::UnorderedSetting => None,
        WireFault::BadSeq { .. } => None,
    }
}

// The cause of a count.
fn count_words(alloc: Global, pts: i32, count: i32) -> Result<String, AllocError>
    ensures { IfOk result (λ s. string_bytes s ≡ count_words pts count) }
{
    let text = format!(in alloc; "BadCount {pts} {count}")?;
    Ok(text)
}

// The cause of a seq.
fn seq_words(alloc: Global, seq_start: i32, seq: i32) -> Result<String, AllocError>
    ensures { IfOk result (λ s. string_bytes s ≡ seq_words seq_start seq) }
{
    let text = format!(in alloc; "BadSeq {seq_start} {seq}")?;
    Ok(text)
}

// The cause, and its values.
fn wire_words(alloc: Global, fault: WireFault) -> Result<String, AllocError>
    ensures { IfOk result (λ s. string_bytes s ≡ wire_words fault) }
{
    match fault {
        WireFault::Refused { cause, .. } => cause_text(alloc, cause),
        WireFault::Trailing { .. } => String::from_str(alloc, "Trailing"),
        WireFault::NotServed { .. } => String::from_str(alloc, "NotServed"),
        WireFault::WrongUpdate { .. } => String::from_str(alloc, "WrongUpdate"),
        WireFault::BadVersion { version } => format!(in alloc; "BadVersion {version}"),
        WireFault::BadNumber { number } => format!(in alloc; "BadNumber {number}"),
        WireFault::BadCount { pts, count } => count_words(alloc, pts, count),
        WireFault::BadEnd { pts } => format!(in alloc; "BadEnd {pts}"),
        WireFault::BadDate { date } => format!(in alloc; "BadDate {date}"),
        WireFault::UnorderedSetting => String::from_str(alloc, "UnorderedSetting"),
        WireFault::BadSeq { seq_start, seq } => seq_words(alloc, seq_start, seq),
    }
}

/// The line of bytes that are no message, by what their input is called: at the place of the cause, where it has one.
pub fn wire_line(alloc: Global, what: &str, fault: WireFault) -> Result<Vec<u8>, AllocError>
    ensures { IfOk result (λ line. line.items ≡ wire_line what.now fault) }
{
    let why = wire_words(alloc, fault)?;
    match wire_place(fault) {
        Some(place) => placed_line(alloc, what, place, why.as_str()),
        None => unplaced_line(alloc, what, why.as_str()),
    }
}

/// The line of bytes in a journal that begin no step: of the cause's place after the offset at which the step begins, and of that offset where it has none.
pub fn step_line(alloc: Global, at: u64, fault: WireFault) -> Result<Vec<u8>, AllocError>
    ensures { IfOk result (λ line. line.items ≡ step_line at fault) }
{
    let why = wire_words(alloc, fault)?;
    match wire_place(fault) {
        Some(place) => placed_line(alloc, "journal", at.saturating_add(place), why.as_str()),
        None => placed_line(alloc, "journal", at, why.as_str()),
    }
}

/// The line of a call that is too long to be sent.
pub fn spell_line(alloc: Global, fault: SpellFault) -> Result<Vec<u8>, AllocError>
    ensures { IfOk result (λ line. spell_line fault ≡ Some line.items) }
{
    match fault {
        SpellFault::TooLong { length } => {
            let why = format!(in alloc; "TooLong {length}")?;
            unplaced_line(alloc, "input", why.as_str())
        }
        SpellFault::Memory => Err(AllocError),
    }
}
