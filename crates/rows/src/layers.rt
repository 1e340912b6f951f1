//! Rows `lift TYPE DIGITS`: a value of bytes by the old schema, lifted to the new one.
use crate::codec::value_of;
use crate::row::Row;
use tl_layers::{Layers, compare};
use tl_schema::{Schema, type_of};
use tl_types::Value;

fn tell_lifted(layers: &Layers, value: &Value, row: &mut Row) {
    match layers.lift(row.alloc(), value) {
        Ok(lifted) => row.show(&lifted),
        Err(_) => row.short(),
    }
}

fn lift(old: &Schema, new: &Schema, of: &str, value: &Value, row: &mut Row) {
    let Ok(of) = type_of(row.alloc(), old, of.as_bytes()) else {
        return row.put("no type");
    };
    match compare(row.alloc(), old, new, &of) {
        Ok(layers) => tell_lifted(&layers, value, row),
        Err(fault) => row.show(&fault),
    }
}

/// The lifted value, or why the new schema doesn't read its bytes.
pub fn lift_call(old: &Schema, new: &Schema, row: &mut Row) {
    let of = row.word();
    match value_of(old, of, row) {
        Some(value) => lift(old, new, of, &value, row),
        None => row.put("no value"),
    }
}
