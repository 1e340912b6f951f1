//! Answers that a client refuses.
ghost use Rattle.std.specs.Prelude.{◌≡◌, IfOk, string_bytes};
ghost use Rattle.fault_lines.specs.Answers.{answer_line, answer_words, seq_words, uneven_words, weave_words};

use box_client::ClientFault;
use box_events::WeaveFault;
use outside::unplaced_line;
use std::alloc::{AllocError, Global};

// The cause of counts that don't meet.
fn uneven_words(alloc: Global, from: u32, covered: u32, to: u32) -> Result<String, AllocError>
    ensures { IfOk result (λ s. string_bytes s ≡ uneven_words from covered to) }
{
    let text = format!(in alloc; "Uneven {from} {covered} {to}")?;
    Ok(text)
}

// The cause of a seq that goes back.
fn seq_words(alloc: Global, at: u32, seq: u32) -> Result<String, AllocError>
    ensures { IfOk result (λ s. string_bytes s ≡ seq_words at seq) }
{
    let text = format!(in alloc; "SeqBack {at} {seq}")?;
    Ok(text)
}

// Why events make no list, with its numbers.
fn weave_words(alloc: Global, fault: WeaveFault) -> Result<String, AllocError>
    ensures { IfOk result (λ s. string_bytes s ≡ weave_words fault) }
{
    match fault {
        WeaveFault::Overlap { pts } => format!(in alloc; "Overlap {pts}"),
        WeaveFault::Uneven { from, covered, to } => uneven_words(alloc, from, covered, to),
    }
}

// The cause, and its values.
fn answer_words(alloc: Global, fault: ClientFault) -> Result<String, AllocError>
    ensures { IfOk result (λ s. string_bytes s ≡ answer_words fault) }
{
    match fault {
        ClientFault::PeerError { code } => format!(in alloc; "PeerError {code}"),
        ClientFault::WrongKind => String::from_str(alloc, "WrongKind"),
        ClientFault::Weave(fault) => weave_words(alloc, fault),
        ClientFault::SeqBack { at, seq } => seq_words(alloc, at, seq),
    }
}

/// The line of an answer that a client refuses: the other end's fault.
pub fn answer_line(alloc: Global, fault: ClientFault) -> Result<Vec<u8>, AllocError>
    ensures { IfOk result (λ line. line.items ≡ answer_line fault) }
{
    let why = answer_words(alloc, fault)?;
    unplaced_line(alloc, "peer", why.as_str())
}
