//! What rows speak of, and which call a row's first word is.
use crate::codec::call_by;
use crate::layers::lift_call;
use crate::pieces::{feed_call, next_call, whole_call};
use crate::row::Row;
use crate::schemas::{made, print_call, schema_of};
use crate::sinks::sink_call;
use crate::sources::source_call;
use std::alloc::{AllocError, Global};
use tl_base::{Bytes, MemSink, MemSource};
use tl_schema::Schema;

/// A source with the offset of its next value, a sink, and two schemas: those that rows made last.
pub struct Objects {
    source: MemSource,
    at: u64,
    sink: MemSink,
    old: Schema,
    new: Schema,
}

// By hand, so that each exit of an owner has one call to prove.
impl Drop for Objects {
    fn drop(self) {
        let Objects {
            source: _,
            at: _,
            sink: _,
            old: _,
            new: _,
        } = self;
    }
}

impl Objects {
    /// Empty ones.
    pub fn new(alloc: Global) -> Result<Objects, AllocError> {
        Ok(Objects {
            source: MemSource::new(Bytes::new(alloc), Vec::new(alloc), Vec::new(alloc)),
            at: 0,
            sink: MemSink::new(alloc, 0, Vec::new(alloc))?,
            old: schema_of(alloc, "")?,
            new: schema_of(alloc, "")?,
        })
    }

    /// Makes the call that a row says, which is told what comes of it.
    pub fn call(&mut self, row: &mut Row) {
        match row.word() {
            "source" => source_call(&mut self.source, &mut self.at, row),
            "sink" => sink_call(&mut self.sink, row),
            "old" => made(&mut self.old, row),
            "new" => made(&mut self.new, row),
            "print" => print_call(row),
            "next" => next_call(&self.new, &mut self.source, &mut self.at, row),
            "whole" => whole_call(&self.new, &mut self.source, row),
            "feed" => feed_call(&self.new, row),
            "lift" => lift_call(&self.old, &self.new, row),
            call => call_by(call, &self.old, &self.new, &mut self.sink, row),
        }
    }
}
