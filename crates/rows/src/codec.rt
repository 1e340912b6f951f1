//! Rows `encode TYPE DIGITS` and `walk TYPE DIGITS`: a value of bytes by the old schema, written to the sink by the new one.
use crate::row::Row;
use crate::schemas::plan_of;
use tl_base::MemSink;
use tl_decode::decode_bytes;
use tl_encode::{encode, encode_walk};
use tl_plan::Plan;
use tl_schema::{Schema, type_of};
use tl_types::Value;

// The value of a plan that the next word's digits spell.
fn read(plan: &Plan, row: &mut Row) -> Option<Value> {
    let bytes = row.bytes();
    if plan.roots() == 0 {
        return None;
    }
    decode_bytes(row.alloc(), plan, 0, bytes.as_slice()).ok()
}

/// The value of a type that the next word's digits spell.
pub fn value_of(schema: &Schema, of: &str, row: &mut Row) -> Option<Value> {
    match plan_of(row.alloc(), schema, of) {
        Some(plan) => read(&plan, row),
        None => None,
    }
}

// Writes a value by its plan.
fn encode_to(plan: &Plan, value: &Value, to: &mut MemSink, row: &mut Row) {
    if plan.roots() == 0 {
        return row.put("no root");
    }
    row.show_came(encode(row.alloc(), plan, 0, value, to));
}

fn encode_by(schema: &Schema, of: &str, value: &Value, to: &mut MemSink, row: &mut Row) {
    match plan_of(row.alloc(), schema, of) {
        Some(plan) => encode_to(&plan, value, to, row),
        None => row.put("no plan"),
    }
}

// Writes a value by its type.
fn walk_by(schema: &Schema, of: &str, value: &Value, to: &mut MemSink, row: &mut Row) {
    match type_of(row.alloc(), schema, of.as_bytes()) {
        Ok(of) => row.show_came(encode_walk(row.alloc(), schema, &of, value, to)),
        Err(_) => row.put("no type"),
    }
}

/// Writes a value to the sink, and tells the answer and what the sink has then.
pub fn call_by(call: &str, old: &Schema, new: &Schema, to: &mut MemSink, row: &mut Row) {
    let of = row.word();
    let Some(value) = value_of(old, of, row) else {
        return row.put("no value");
    };
    match call {
        "encode" => encode_by(new, of, &value, to, row),
        "walk" => walk_by(new, of, &value, to, row),
        _ => row.unknown(),
    }
    row.put(" ");
    row.digits(to.as_slice());
}
