//! Values that are the whole of bytes in memory.
ghost use Rattle.std.specs.Prelude.{◌≡◌, ◌≢◌, ◌<◌};
ghost use Rattle.tl_numbers.specs.Bytes.{AreBytes};
ghost use Rattle.tl_schema.specs.CheckedPrograms.{IsSchema};
ghost use Rattle.tl_schema.specs.Types.{Shape};
ghost use Rattle.tl_schema.specs.Formed.{IsFormed};
ghost use Rattle.tl_schema.specs.Seen.{shape};
ghost use Rattle.tl_plan.specs.PlanLaws.{IsInstance};
ghost use Rattle.tl_decode.specs.Wholes.{ReadsBytes, of_bytes, whole_fault};

use crate::fault::DecodeFault;
use crate::piecewise::Decoder;
use crate::stack::Fed;
use crate::walk::decode_walk;
use crate::whole::WholeCause;
use std::alloc::Global;
use tl_base::{Fault, SliceSource};
use tl_plan::Plan;
use tl_schema::{Schema, TypeRef};
use tl_types::{Cause, Value};

// A fault over bytes in memory, which are always read.
fn bytes_fault(fault: DecodeFault) -> Fault<WholeCause>
    requires { fault ≢ DecodeFault.ReadFault }
    ensures { of_bytes result ≡ whole_fault fault }
{
    match fault {
        DecodeFault::Refused { place, cause } => {
            Fault::Refused(WholeCause::Refused { place, cause })
        }
        DecodeFault::ReadFault => unreachable!(),
        DecodeFault::Memory => Fault::Memory,
    }
}

/// Reads the value of a root of a plan that is all of the bytes.
pub fn decode_bytes(
    alloc: Global,
    plan: &Plan,
    root: u32,
    bytes: &[u8],
) -> Result<Value, Fault<WholeCause>>
    requires root { root < plan.now.roots }
    ensures whole { (T : Shape) → IsInstance plan.now root T → IsFormed plan.now.schema T → ReadsBytes plan.now.schema T bytes.now result }
    ensures bytes { AreBytes bytes.now }
{
    let mut decoder = Decoder::new(alloc, plan, root);
    let fed = match decoder.feed(bytes) {
        Ok(fed) => fed,
        Err(fault) => return Err(bytes_fault(fault)),
    };
    match fed {
        Fed::More => Err(Fault::Refused(WholeCause::Refused {
            place: decoder.ended(),
            cause: Cause::Truncated,
        })),
        Fed::Done { used } => {
            if used < bytes.len() {
                return Err(Fault::Refused(WholeCause::Trailing {
                    place: 0u64.saturating_add(used as u64),
                }));
            }
            Ok(decoder.into_value())
        }
    }
}

/// Reads the value of a closed type that is all of the bytes.
pub fn decode_bytes_as(
    alloc: Global,
    schema: &Schema,
    of: &TypeRef,
    bytes: &[u8],
) -> Result<Value, Fault<WholeCause>>
    requires formed { IsFormed schema.now (shape of.now) }
    ensures whole { ReadsBytes schema.now (shape of.now) bytes.now result }
    ensures bytes { AreBytes bytes.now }
    ensures sound { IsSchema schema.now }
{
    let mut from = SliceSource::new(bytes);
    let mut at = 0;
    let value = match decode_walk(alloc, schema, of, &mut at, &mut from) {
        Ok(value) => value,
        Err(fault) => return Err(bytes_fault(fault)),
    };
    if !from.is_empty() {
        return Err(Fault::Refused(WholeCause::Trailing { place: at }));
    }
    Ok(value)
}
