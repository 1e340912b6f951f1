//! The calls of an open handle.
ghost use Rattle.std.specs.Prelude.{◌≡◌, length, option_map};
ghost use Rattle.tl_codec.specs.Codings.{Decodes, Encodes};
ghost use Rattle.tlbox_c.specs.Serving.{AddsTo, Boxes, Lists, Opened, Serves};
ghost use Rattle.tlbox_c.specs.Telling.{Fills};

use crate::held::Held;
use crate::telling::{DONE, MEMORY, NO_TYPE, REFUSED, copy_out, keep, keep_number};
use outside::LoadError;
use std::alloc::Global;
use tl_codec::Codec;

/// What is behind a handle after an opening, and its status.
pub fn opened(
    alloc: Global,
    made: Result<Codec, LoadError>,
    out: &mut [u8],
    len: &mut usize,
) -> (u32, Option<Box<Held>>)
    ensures { Opened made result.0 (option_map (λ b. b.value) result.1) out.old out.new len.new }
{
    *len = 0;
    match made {
        Ok(codec) => boxed(alloc, codec),
        Err(LoadError::Refused(line)) => {
            copy_out(&line, out, len);
            (REFUSED, None)
        }
        Err(_) => (MEMORY, None),
    }
}

// A codec in its box, and the status.
fn boxed(alloc: Global, codec: Codec) -> (u32, Option<Box<Held>>)
    ensures { Boxes codec result.0 (option_map (λ b. b.value) result.1) }
{
    let held = Held {
        codec,
        last: Vec::new(alloc),
    };
    match Box::new(alloc, held) {
        Ok(held) => (DONE, Some(held)),
        Err(_) => (MEMORY, None),
    }
}

/// Keeps a type.
pub fn add_type(alloc: Global, held: &mut Held, name: &[u8], number: &mut u32) -> u32
    ensures { AddsTo name.now result held.old held.new number.old number.new }
{
    let made = held.codec.add_type(alloc, name);
    keep_number(alloc, made, number, &mut held.last)
}

/// Lists the declarations of the schema.
pub fn check(alloc: Global, held: &mut Held) -> u32
    ensures { Lists result held.old held.new }
{
    match held.codec.check(alloc) {
        Ok(text) => {
            held.last = text;
            DONE
        }
        Err(_) => {
            held.last = Vec::new(alloc);
            MEMORY
        }
    }
}

/// Decodes bytes to a line of JSON.
pub fn decode(alloc: Global, held: &mut Held, of: u32, bytes: &[u8]) -> u32
    ensures { Serves Decodes of bytes.now result held.old held.new }
{
    if of as usize >= held.codec.types() {
        held.last = Vec::new(alloc);
        return NO_TYPE;
    }
    let made = held.codec.decode(alloc, of, bytes);
    keep(alloc, made, &mut held.last)
}

/// Encodes JSON to bytes.
pub fn encode(alloc: Global, held: &mut Held, of: u32, text: &[u8]) -> u32
    ensures { Serves Encodes of text.now result held.old held.new }
{
    if of as usize >= held.codec.types() {
        held.last = Vec::new(alloc);
        return NO_TYPE;
    }
    let made = held.codec.encode(alloc, of, text);
    keep(alloc, made, &mut held.last)
}

/// Hands out the bytes that are kept.
pub fn hand(held: &Held, out: &mut [u8], len: &mut usize)
    ensures len { len.new ≡ length held.now.last.items }
    ensures out { Fills held.now.last.items out.old out.new }
{
    copy_out(&held.last, out, len);
}
