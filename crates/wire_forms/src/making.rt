//! Values from what stands in them.
ghost use Rattle.std.specs.Prelude.{◌≡◌, IfOk};
ghost use Rattle.tl_types.specs.Seen.{view, views};
ghost use Rattle.tl_types.specs.Values.{int, list, text};
ghost use Rattle.tl_types.specs.Values as values;
ghost use Rattle.wire_forms.specs.Parts as parts;
ghost use Rattle.wire_forms.specs.Parts.{held, row};

use std::alloc::Global;
use tl_base::{Bytes, Memory};
use tl_types::Value;

/// A number of 32 bits as an int.
pub fn number(n: u32) -> Value
    ensures { view result ≡ parts.number n }
{
    Value::Int(n.cast_signed())
}

/// A count, as far as 32 bits hold it.
pub fn counted(n: usize) -> Value
    ensures { view result ≡ parts.number (held n) }
{
    number(if n < 0xffff_ffff {
        n as u32
    } else {
        0xffff_ffff
    })
}

/// A copy of bytes.
pub fn text_value(alloc: Global, content: &[u8]) -> Result<Value, Memory>
    ensures { IfOk result (λ v. view v ≡ text content.now) }
{
    Ok(Value::Text(Bytes::from_slice(alloc, content)?))
}

/// A list of ids.
pub fn ids_value(alloc: Global, ids: &[i32]) -> Result<Value, Memory>
    ensures { IfOk result (λ v. view v ≡ list (row int ids.now)) }
{
    let mut items = Vec::new(alloc);
    for id in ids {
        items.push(Value::Int(*id))?;
    }
    Ok(Value::List(items))
}

/// A list of copies of bodies.
pub fn bodies_value(alloc: Global, bodies: &[Bytes]) -> Result<Value, Memory>
    ensures { IfOk result (λ v. view v ≡ list (row text bodies.now)) }
{
    let mut items = Vec::new(alloc);
    for body in bodies {
        items.push(text_value(alloc, body.as_slice())?)?;
    }
    Ok(Value::List(items))
}

/// A record of this form.
pub fn node<const N: usize>(alloc: Global, form: u32, fields: [Value; N]) -> Result<Value, Memory>
    ensures { IfOk result (λ v. view v ≡ values.node form (views fields.entry)) }
{
    Ok(Value::Node {
        entry: form,
        fields: Vec::from_array(alloc, fields)?,
    })
}

/// A call of this function.
pub fn call<const N: usize>(alloc: Global, form: u32, fields: [Value; N]) -> Result<Value, Memory>
    ensures { IfOk result (λ v. view v ≡ values.call form (views fields.entry)) }
{
    Ok(Value::Call {
        entry: form,
        fields: Vec::from_array(alloc, fields)?,
    })
}
