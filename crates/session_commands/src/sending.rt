//! The call that an input's value is, as the bytes that are sent.
ghost use Rattle.std.specs.Prelude.{List, ℕ};
ghost use Rattle.tl_numbers.specs.Bytes.{AreBytes};
ghost use Rattle.outside.specs.Loading.{RefusesAs};
ghost use Rattle.tl_schema.specs.Types.{call};
ghost use Rattle.tl_types.specs.Seen.{view};
ghost use Rattle.tl_types.specs.Spelling.{Spells};
ghost use Rattle.session_commands.specs.Lines.{long_call_line};
ghost use Rattle.session_commands.specs.inner.Posting.{NumbersCall, Sends};

use box_events::MAX_FRAME_BYTES;
use box_wire::{Fault, SpellFault, read_call};
use fault_lines::{spell_line, wire_line};
use outside::LoadError;
use std::alloc::Global;
use tl_base::Bytes;
use tl_encode::spell;
use tl_schema::TypeRef;
use tl_types::Value;
use wire_profile::Profile;

/// A call that may be sent: its number and its bytes.
#[derive(Drop)]
pub struct Sending {
    pub number: u32,
    pub bytes: Bytes,
}

/// The call that a value is, unless a server refuses it or it is too long.
pub fn call_of(alloc: Global, profile: &Profile, value: &Value) -> Result<Sending, LoadError>
    ensures { (b : List ℕ) → Spells profile.now.schema call (view value.now) b → Sends profile.now b result }
{
    let mut spelling = Vec::new(alloc);
    spell(
        alloc,
        value,
        profile.schema(),
        &TypeRef::Call,
        &mut spelling,
    )?;
    let bytes = Bytes::from_vec(spelling);
    let number = call_number(alloc, profile, &bytes)?;
    let length = bytes.len();
    if length > MAX_FRAME_BYTES as usize {
        return Err(long_call(alloc, length as u64));
    }
    Ok(Sending { number, bytes })
}

// The number of the call that bytes mean.
fn call_number(alloc: Global, profile: &Profile, bytes: &Bytes) -> Result<u32, LoadError>
    ensures numbers { NumbersCall profile.now bytes.now result }
    ensures bytes { AreBytes bytes.now }
{
    match read_call(alloc, profile, bytes.as_slice()) {
        Ok(call) => Ok(call.number),
        Err(Fault::Refused(cause)) => Err(LoadError::of_line(wire_line(alloc, "input", cause))),
        Err(Fault::Memory) => Err(LoadError::Memory),
    }
}

// What is told of a call that is too long.
fn long_call(alloc: Global, length: u64) -> LoadError
    ensures { RefusesAs (long_call_line length) result }
{
    LoadError::of_line(spell_line(alloc, SpellFault::TooLong { length }))
}
