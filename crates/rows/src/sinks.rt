//! Rows `sink CALL`.
use crate::row::Row;
use tl_base::{MemSink, write_all};

// A sink by `ROOM FAILS`: with so much room, and the numbers of its writes that fail.
fn make(to: &mut MemSink, row: &mut Row) {
    let room = row.number();
    let fails = row.word();
    let fails = row.numbers(fails);
    match MemSink::new(row.alloc(), room, fails) {
        Ok(sink) => {
            *to = sink;
            row.put("made");
        }
        Err(_) => row.short(),
    }
}

// Writes bytes, and tells whether all were written and what the sink has then.
fn write(to: &mut MemSink, row: &mut Row) {
    let piece = row.bytes();
    let came = write_all(to, piece.as_slice());
    row.show_came(came);
    row.put(" ");
    row.digits(to.as_slice());
}

/// Makes a call of the sink.
pub fn sink_call(to: &mut MemSink, row: &mut Row) {
    match row.word() {
        "room" => make(to, row),
        "write" => write(to, row),
        _ => row.unknown(),
    }
}
