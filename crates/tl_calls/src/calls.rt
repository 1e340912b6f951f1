//! Calls that are open.
ghost use Rattle.std.specs.Prelude.{◌≡◌, ◌<◌, ◌^◌, [], length};
ghost use Rattle.std.specs.Option.{option_copied, option_map};
ghost use Rattle.tl_numbers.specs.Bytes.{AreBytes};
ghost use Rattle.tl_schema.specs.Schemas.{Declared};
ghost use Rattle.tl_types.specs.Seen.{view};
ghost use Rattle.tl_calls.specs.Calling.{Answers, AreOpenIn, LogsCame, LogsSent, Sends, StandsFor, open_at};

use crate::fault::SendFault;
use crate::result::{made_type, result_cause};
use std::alloc::Global;
use std::collections::BTreeMap;
use std::marker::Model;
use tl_base::Fault;
use tl_decode::{WholeCause, decode_bytes_as};
use tl_schema::Schema;
use tl_types::Value;

/// How many calls may be open.
pub const MAX_OPEN: u32 = 1024;

/// Calls that are open, under their numbers. Contracts see the next number and the calls in the order of their numbers.
#[derive(Drop)]
pub struct Calls {
    next: u32,
    calls: BTreeMap<u32, Value>,
}

impl Model for Calls {
    ghost use Rattle.tl_calls.specs.Calling.{CallsView, IsCalls};
    ghost use Rattle.tl_calls.specs.Seen.{calls_of};
    ghost use Rattle.tl_calls.specs.inner.ValueCodes.{calls_code};

    ghost Value = { CallsView };

    ghost coded = { calls_code };

    ghost view = { λ s. calls_of s.next s.calls.entries };

    ghost invariant = { λ s. IsCalls (calls_of s.next s.calls.entries) };
}

impl Calls {
    /// No calls; the first will have the number 1.
    pub fn new(alloc: Global) -> Calls
        ensures none { result ≡ record { next = 1; calls = [] } }
        ensures stands { (schema : Declared) → StandsFor schema result [] }
        ensures fitting { (schema : Declared) → AreOpenIn schema result }
    {
        Calls {
            next: 1,
            calls: BTreeMap::new(alloc),
        }
    }

    /// How many calls are open.
    pub fn open(&self) -> u32
        ensures { result ≡ length self.now.calls }
    {
        self.calls.len() as u32
    }

    /// The open call with the number.
    pub fn call(&self, number: u32) -> Option<&Value>
        ensures { option_map view (option_copied result) ≡ open_at self.now number }
    {
        self.calls.get(&number)
    }

    /// Sends a call: it gets the next number, and is open. A refusal changes nothing.
    pub fn send(&mut self, alloc: Global, schema: &Schema, call: Value) -> Result<u32, SendFault>
        requires few { self.old.next < 2 ^ 31 }
        requires fitting { AreOpenIn schema.now self.old }
        ensures sends { Sends schema.now self.old self.new (view call) result }
        ensures fitting { AreOpenIn schema.now self.new }
        ensures logs { LogsSent schema.now self.old self.new (view call) result }
    {
        if self.open() >= MAX_OPEN {
            return Err(SendFault::Full);
        }
        let cause = match result_cause(alloc, schema, &call) {
            Ok(cause) => cause,
            Err(_) => return Err(SendFault::Memory),
        };
        if let Some(cause) = cause {
            return Err(SendFault::Result(cause));
        }
        let number = self.next;
        match self.calls.insert(number, call) {
            Ok(_) => {
                self.next += 1;
                Ok(number)
            }
            Err(_) => Err(SendFault::Memory),
        }
    }

    /// Takes the bytes that came as the answer of a call: its value, which closes the call, or None where no open call has the number. A refusal
    /// changes nothing: the call stays open.
    pub fn answer(
        &mut self,
        alloc: Global,
        schema: &Schema,
        number: u32,
        bytes: &[u8],
    ) -> Result<Option<Value>, Fault<WholeCause>>
        requires fitting { AreOpenIn schema.now self.old }
        ensures answers { Answers schema.now self.old self.new number bytes.now result }
        ensures fitting { AreOpenIn schema.now self.new }
        ensures logs { LogsCame schema.now self.old self.new number bytes.now result }
    {
        let Some(call) = self.calls.get(&number) else {
            return Ok(None);
        };
        let of = made_type(call, alloc, schema)?;
        let value = match decode_bytes_as(alloc, schema, &of, bytes) {
            Ok(value) => value,
            Err(fault) => return Err(fault),
        };
        self.calls.remove(&number);
        Ok(Some(value))
    }
}
