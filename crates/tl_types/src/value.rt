//! Values of a schema's types.
ghost use Rattle.std.specs.Prelude.{◌≡◌, IfOk};
ghost use Rattle.tl_types.specs.Seen.{view, views};

use std::alloc::{AllocError, Global};
use tl_numbers::Bytes;

/// The most levels of lists, records and calls, one in the other, that a value may have.
pub const MAX_LEVELS: u32 = 120;

/// A value. Records and calls name their declaration by its index in the schema, and have one value for each of its fields.
/// From "Binary data serialization" (core.telegram.org/mtproto/serialize).
#[derive(Debug)]
pub enum Value {
    Int(i32),
    Long(i64),
    /// `#`: 32 bits, unsigned; all its bits are kept, also those that no field names.
    Nat(u32),
    /// The bytes of a double, an int128 or an int256.
    Opaque(Bytes),
    /// The bytes of a `string` or of `bytes`.
    Text(Bytes),
    /// A flag `?true` that is set.
    Truth,
    /// A field whose bit is clear.
    Absent,
    List(Vec<Value>),
    Node { entry: u32, fields: Vec<Value> },
    Call { entry: u32, fields: Vec<Value> },
}

// By hand, so that each exit of an owner has one call to prove.
impl Drop for Value {
    fn drop(self) {
        match self {
            Value::Int(_) | Value::Long(_) | Value::Nat(_) | Value::Truth | Value::Absent => {}
            Value::Opaque(_) | Value::Text(_) => {}
            Value::List(_) => {}
            Value::Node {
                entry: _,
                fields: _,
            } => {}
            Value::Call {
                entry: _,
                fields: _,
            } => {}
        }
    }
}

impl Value {
    /// A copy of the value.
    #[cycle(copy)]
    pub fn copy(&self, alloc: Global) -> Result<Value, AllocError>
        ensures copy { IfOk result (λ v. view v ≡ view self.now) }
    {
        match self {
            Value::Int(number) => Ok(Value::Int(*number)),
            Value::Long(number) => Ok(Value::Long(*number)),
            Value::Nat(number) => Ok(Value::Nat(*number)),
            Value::Opaque(bytes) => Ok(Value::Opaque(bytes.copy()?)),
            Value::Text(bytes) => Ok(Value::Text(bytes.copy()?)),
            Value::Truth => Ok(Value::Truth),
            Value::Absent => Ok(Value::Absent),
            Value::List(items) => Ok(Value::List(copy_all(items, alloc)?)),
            Value::Node { entry, fields } => Ok(Value::Node {
                entry: *entry,
                fields: copy_all(fields, alloc)?,
            }),
            Value::Call { entry, fields } => Ok(Value::Call {
                entry: *entry,
                fields: copy_all(fields, alloc)?,
            }),
        }
    }
}

// Copies of values, in order.
#[cycle(copy)]
fn copy_all(values: &Vec<Value>, alloc: Global) -> Result<Vec<Value>, AllocError>
    ensures copies { IfOk result (λ vs. views vs.items ≡ views values.now.items) }
{
    let mut copies = Vec::new(alloc);
    for value in values {
        copies.push(value.copy(alloc)?)?;
    }
    Ok(copies)
}
