//! Values of a source one after the other, and of bytes in pieces.
use crate::row::Row;
use crate::schemas::plan_of;
use tl_base::MemSource;
use tl_decode::{Decoder, Fed, decode_or_end, decode_whole, takes_four};
use tl_plan::Plan;
use tl_schema::Schema;

// The next value or that the source has ended, and the offset then; or the fault.
fn tell_next(plan: &Plan, from: &mut MemSource, at: &mut u64, row: &mut Row) {
    if plan.roots() == 0 || !takes_four(plan, 0) {
        return row.put("no root");
    }
    match decode_or_end(row.alloc(), plan, 0, at, from) {
        Ok(value) => {
            row.show(&value);
            row.put(" to ");
            row.show(at);
        }
        Err(fault) => row.show(&fault),
    }
}

/// `next TYPE`: the next value of the source.
pub fn next_call(schema: &Schema, from: &mut MemSource, at: &mut u64, row: &mut Row) {
    match plan_of(row.alloc(), schema, row.word()) {
        Some(plan) => tell_next(&plan, from, at, row),
        None => row.put("no plan"),
    }
}

// The value that is all that the source has left, or the fault.
fn tell_whole(plan: &Plan, from: &mut MemSource, row: &mut Row) {
    if plan.roots() == 0 {
        return row.put("no root");
    }
    row.show_came(decode_whole(row.alloc(), plan, 0, from))
}

/// `whole TYPE`: the value that is all that the source has left.
pub fn whole_call(schema: &Schema, from: &mut MemSource, row: &mut Row) {
    match plan_of(row.alloc(), schema, row.word()) {
        Some(plan) => tell_whole(&plan, from, row),
        None => row.put("no plan"),
    }
}

// Feeds a piece, and tells the offset at which the input would be cut off where more is wanted, or how many bytes of the piece the value took.
fn fed<'p, 's>(
    mut decoder: Decoder<'p, 's>,
    piece: &[u8],
    row: &mut Row,
) -> Option<Decoder<'p, 's>> {
    match decoder.feed(piece) {
        Ok(Fed::More) => {
            row.show(&decoder.ended());
            row.put("..");
            Some(decoder)
        }
        Ok(Fed::Done { used }) => {
            row.put("done by ");
            row.show(&used);
            row.put(" ");
            row.show(&decoder.into_value());
            None
        }
        Err(fault) => {
            row.show(&fault);
            None
        }
    }
}

// The answers to pieces of so many bytes, up to a refusal or the value.
fn feed_all(plan: &Plan, size: usize, row: &mut Row) {
    let bytes = row.bytes();
    if plan.roots() == 0 || size == 0 {
        return row.put("no root");
    }
    let mut decoder = Decoder::new(row.alloc(), plan, 0);
    for piece in bytes.chunks(size) {
        match fed(decoder, piece, row) {
            Some(next) => decoder = next,
            None => return,
        }
    }
}

/// `feed TYPE SIZE DIGITS`.
pub fn feed_call(schema: &Schema, row: &mut Row) {
    match plan_of(row.alloc(), schema, row.word()) {
        Some(plan) => {
            let size = row.number() as usize;
            feed_all(&plan, size, row)
        }
        None => row.put("no plan"),
    }
}
