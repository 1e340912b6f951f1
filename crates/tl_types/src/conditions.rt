//! Which fields are there.
ghost use Rattle.std.specs.Prelude.{◌≡◌, map};
ghost use Rattle.tl_types.specs.Conditions.{is_bit, stands_by};
ghost use Rattle.tl_types.specs.Seen.{view};

use crate::value::Value;

/// Whether a field with this condition is there, after fields with these values.
pub fn stands(cond: Option<(u32, u32)>, before: &[Value]) -> bool
    ensures { result ≡ stands_by cond (map view before.now) }
{
    match cond {
        None => true,
        Some((place, bit)) => match before.get(place as usize) {
            Some(Value::Nat(bits)) => is_set(*bits, bit),
            _ => false,
        },
    }
}

fn is_set(bits: u32, bit: u32) -> bool
    ensures { result ≡ is_bit bits bit }
{
    if bit >= 32 {
        return false;
    }
    (bits >> bit) % 2 == 1
}
