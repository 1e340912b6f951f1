//! Values that are the whole of some bytes, and the bytes of values.
ghost use Rattle.std.specs.Prelude.{◌≡◌, ◌<◌, IfOk};
ghost use Rattle.tl_numbers.specs.Bytes.{AreBytes};
ghost use Rattle.tl_schema.specs.Types.{Shape, call};
ghost use Rattle.tl_schema.specs.Formed.{IsFormed};
ghost use Rattle.tl_plan.specs.PlanLaws.{IsInstance};
ghost use Rattle.tl_types.specs.Seen.{view};
ghost use Rattle.box_wire.specs.Answers.{GivesSpelling};
ghost use Rattle.box_wire.specs.inner.Wholes.{IsSpelling, ReadsValue, as_wire_fault};

use crate::fault::SpellFault;
use box_events::MAX_FRAME_BYTES;
use std::alloc::{AllocError, Global};
use tl_base::{Bytes, Fault};
use tl_decode::{WholeCause, decode_bytes, decode_bytes_as};
use tl_encode::{spelling_as, spelling_of};
use tl_plan::Plan;
use tl_schema::{Schema, TypeRef};
use tl_types::Value;
use wire_profile::WireFault;

// Why bytes are no value, as a message's fault.
fn wire_fault(fault: Fault<WholeCause>) -> Fault<WireFault>
    ensures { result ≡ as_wire_fault fault }
{
    match fault {
        Fault::Refused(WholeCause::Refused { place, cause }) => {
            Fault::Refused(WireFault::Refused { place, cause })
        }
        Fault::Refused(WholeCause::Trailing { place }) => {
            Fault::Refused(WireFault::Trailing { place })
        }
        Fault::Memory => Fault::Memory,
    }
}

/// The value of a root of a plan that is the whole of the bytes.
pub fn value_in(
    alloc: Global,
    plan: &Plan,
    root: u32,
    bytes: &[u8],
) -> Result<Value, Fault<WireFault>>
    requires { root < plan.now.roots }
    ensures whole { (T : Shape) → IsInstance plan.now root T → IsFormed plan.now.schema T → ReadsValue plan.now.schema T bytes.now result }
    ensures bytes { AreBytes bytes.now }
{
    match decode_bytes(alloc, plan, root, bytes) {
        Ok(value) => Ok(value),
        Err(fault) => Err(wire_fault(fault)),
    }
}

/// The call of any function of a schema that is the whole of the bytes.
pub fn value_of_call(
    alloc: Global,
    schema: &Schema,
    bytes: &[u8],
) -> Result<Value, Fault<WireFault>>
    ensures whole { ReadsValue schema.now call bytes.now result }
    ensures bytes { AreBytes bytes.now }
{
    match decode_bytes_as(alloc, schema, &TypeRef::Call, bytes) {
        Ok(value) => Ok(value),
        Err(fault) => Err(wire_fault(fault)),
    }
}

/// The spelling of a value of a root of a plan. A value that has none is answered as out of memory: a text of it has 2^24 bytes or more, or a list 2^31
/// elements.
pub fn bytes_of(alloc: Global, plan: &Plan, root: u32, value: &Value) -> Result<Vec<u8>, AllocError>
    requires { root < plan.now.roots }
    ensures { (T : Shape) → IsInstance plan.now root T → IsFormed plan.now.schema T → IfOk result (λ bytes. IsSpelling plan.now.schema T (view value.now) bytes.items) }
{
    match spelling_of(alloc, plan, root, value) {
        Ok(bytes) => Ok(bytes),
        Err(_) => Err(AllocError),
    }
}

/// The spelling of a call of a function of a schema; a value that has none is answered as out of memory.
pub fn bytes_of_call(alloc: Global, schema: &Schema, value: &Value) -> Result<Vec<u8>, AllocError>
    ensures { IfOk result (λ bytes. IsSpelling schema.now call (view value.now) bytes.items) }
{
    match spelling_as(alloc, schema, &TypeRef::Call, value) {
        Ok(bytes) => Ok(bytes),
        Err(_) => Err(AllocError),
    }
}

/// The spelling of a frame or call, unless it is too long.
pub fn within(bytes: Vec<u8>) -> Result<Bytes, SpellFault>
    ensures { GivesSpelling bytes.items result }
{
    let length = bytes.len();
    if length > MAX_FRAME_BYTES as usize {
        return Err(SpellFault::TooLong {
            length: length as u64,
        });
    }
    Ok(Bytes::from_vec(bytes))
}
