//! The schema of a server.
ghost use Rattle.outside.specs.Begun.{Did};
ghost use Rattle.outside.specs.Runs.{answered};
ghost use Rattle.serve_rooms.specs.Serve.{LoadsSchema, OfText};

use outside::{Host, Status, print_made, read_file, unread};
use schema_files::{SCHEMA_BYTES, schema_of};
use std::alloc::{AllocError, Global};
use tl_base::Slot;
use tl_schema::Schema;

/// A schema, or the status with which the run has ended.
#[derive(Drop)]
pub enum Loaded {
    Schema(Schema),
    Ended(Status),
}

/// Reads the schema's file.
pub fn load_schema<H: Host>(alloc: Global, host: &mut H, schema: &str) -> Result<Loaded, AllocError>
    ensures { Did (LoadsSchema schema.now) (H.state host.old) (H.state host.new) (answered result) }
{
    match read_file(alloc, host, Slot::Schema, schema, SCHEMA_BYTES)? {
        Some(text) => load_text(alloc, host, &text),
        None => Ok(Loaded::Ended(unread(host))),
    }
}

// The schema of a text; that it is none is told.
fn load_text<H: Host>(alloc: Global, host: &mut H, text: &[u8]) -> Result<Loaded, AllocError>
    ensures { Did (OfText text.now) (H.state host.old) (H.state host.new) (answered result) }
{
    match schema_of(alloc, "schema", text) {
        Ok(schema) => Ok(Loaded::Schema(schema)),
        Err(fault) => Ok(Loaded::Ended(print_made(host, Err(fault))?)),
    }
}
