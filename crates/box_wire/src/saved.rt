//! Saved clients as bytes, and back.
ghost use Rattle.std.specs.Prelude.{IfOk};
ghost use Rattle.tl_types.specs.Seen.{view};
ghost use Rattle.wire_profile.specs.Causes.{cause_of};
ghost use Rattle.wire_profile.specs.declared.rule.Root.TheVariants as root;
ghost use Rattle.wire_values.specs.Carried.{IsSaved};
ghost use Rattle.wire_values.specs.SavedClients.{saved_in as saved_by, saved_tree};
ghost use Rattle.box_wire.specs.Answers.{IsOnly, Reads};
ghost use Rattle.box_wire.specs.Framing.{Framed, Means, WireRefused};
ghost use Rattle.box_wire.specs.Kinds.{saved_clients};
ghost use Rattle.box_wire.specs.inner.Wholes.{AnswersMessage};

use crate::wholes::{bytes_of, value_in};
use box_events::Saved;
use std::alloc::Global;
use tl_base::{Bytes, Fault, Memory};
use tl_types::Value;
use wire_profile::{Profile, WireFault, saved_cause};
use wire_values::{saved_of, saved_value};

// The plan's root for saved clients.
const SAVED_ROOT: u32 = 2;

/// Spells a saved client, with version 2. Each of which `FitsSaved` has a spelling; another is answered as out of memory.
pub fn spell_saved(alloc: Global, profile: &Profile, saved: &Saved) -> Result<Bytes, Memory>
    ensures { IfOk result (IsOnly (Framed profile.now saved_clients (saved_tree saved.now))) }
{
    let mut value = saved_value(alloc, saved)?;
    profile.put_indexes(&mut value);
    let bytes = bytes_of(alloc, profile.plan(), SAVED_ROOT, &value)?;
    Ok(Bytes::from_vec(bytes))
}

/// Reads a saved client, of version 2, or of version 1 without read marks.
pub fn read_saved(alloc: Global, profile: &Profile, bytes: &[u8]) -> Result<Saved, Fault<WireFault>>
    ensures { Reads IsSaved (λ m. Means profile.now saved_clients (saved_tree m) bytes.now) (WireRefused profile.now saved_clients bytes.now) result }
{
    let mut value = value_in(alloc, profile.plan(), SAVED_ROOT, bytes)?;
    profile.put_forms(&mut value);
    saved_in(alloc, value)
}

// The saved client of a value, or its first cause.
fn saved_in(alloc: Global, value: Value) -> Result<Saved, Fault<WireFault>>
    ensures { AnswersMessage (cause_of root.Saved (view value)) (saved_by (view value)) result }
{
    match saved_cause(&value) {
        Some(cause) => Err(Fault::Refused(cause)),
        None => Ok(saved_of(alloc, value)?),
    }
}
