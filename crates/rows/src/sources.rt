//! Rows `source CALL`.
use crate::row::Row;
use tl_base::{Bytes, MemSource, Source, take_end, take_text, take_word};

// How many bytes a read into four gave, and what the four are then.
fn read(from: &mut MemSource, row: &mut Row) {
    let mut four = [0u8; 4];
    let came = from.read(&mut four);
    row.show_came(came);
    row.put(" ");
    row.digits(&four);
}

// The next four bytes.
fn word(from: &mut MemSource, row: &mut Row) {
    match take_word(from) {
        Ok(word) => row.digits(&word),
        Err(fault) => row.show(&fault),
    }
}

// The rest of the source, or one byte more than the limit.
fn rest(from: &mut MemSource, row: &mut Row) {
    let limit = row.number();
    match take_text(row.alloc(), from, limit) {
        Ok(text) => row.digits(text.as_slice()),
        Err(fault) => row.show(&fault),
    }
}

// A source by `CUTS FAILS DIGITS`: its bytes, at how many of them its reads are cut, and the numbers of those that fail.
fn make(from: &mut MemSource, row: &mut Row) {
    let cuts = row.word();
    let cuts = row.numbers(cuts);
    let fails = row.word();
    let fails = row.numbers(fails);
    *from = MemSource::new(Bytes::from_vec(row.bytes()), cuts, fails);
    row.put("made");
}

/// Makes a call of the source. A new one has its next value at the offset 0.
pub fn source_call(from: &mut MemSource, at: &mut u64, row: &mut Row) {
    match row.word() {
        "cuts" => {
            *at = 0;
            make(from, row)
        }
        "read" => read(from, row),
        "word" => word(from, row),
        "end" => row.show_came(take_end(from)),
        "rest" => rest(from, row),
        _ => row.unknown(),
    }
}
