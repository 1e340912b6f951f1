//! What C calls.
ghost use Rattle.std.specs.Prelude.{◌≡◌};
ghost use Rattle.std.specs.declared.option.Option.TheVariants.{None};
ghost use Rattle.tl_codec.specs.Codings.{Decodes, Encodes};
ghost use Rattle.tlbox_c.specs.Serving.{AddsAt, ComparesAt, Hands, ListsAt, OpensAt, ServesAt};

use crate::handle::Handle;
use crate::serving::{add_type, check, decode, encode, hand, opened};
use crate::telling::{CLOSED, hand_made};
use std::alloc::Global;
use tl_codec::{Codec, layers};

/// The version of this interface.
pub const VERSION: u32 = 1;

/// Opens a schema from its text; what was open is closed. Status 0, 1 with the line of the refusal, or 5.
#[unsafe(no_mangle)]
pub extern "C" fn tlbox_open(
    alloc: Global,
    h: &mut Handle,
    text: &[u8],
    out: &mut [u8],
    len: &mut usize,
) -> u32
    ensures { OpensAt text.now result h.new.held out.old out.new len.new }
{
    let (status, held) = opened(alloc, Codec::open(alloc, text), out, len);
    let _old = h.exchange(alloc, held);
    status
}

/// Keeps a type, and tells its number. Status 0, 1 with the line of the refusal, 5, or 100.
#[unsafe(no_mangle)]
pub extern "C" fn tlbox_type(
    alloc: Global,
    h: &mut Handle,
    name: &[u8],
    number: &mut u32,
    out: &mut [u8],
    len: &mut usize,
) -> u32
    ensures adds { AddsAt name.now result h.old.held h.new.held number.old number.new }
    ensures hands { Hands h.new.held out.old out.new len.new }
{
    let Some(mut held) = h.exchange(alloc, None) else {
        *len = 0;
        return CLOSED;
    };
    let status = add_type(alloc, &mut held, name, number);
    hand(&held, out, len);
    let _old = h.exchange(alloc, Some(held));
    status
}

/// Lists the declarations of the schema. Status 0, 5, or 100.
#[unsafe(no_mangle)]
pub extern "C" fn tlbox_check(alloc: Global, h: &mut Handle, out: &mut [u8], len: &mut usize) -> u32
    ensures lists { ListsAt result h.old.held h.new.held }
    ensures hands { Hands h.new.held out.old out.new len.new }
{
    let Some(mut held) = h.exchange(alloc, None) else {
        *len = 0;
        return CLOSED;
    };
    let status = check(alloc, &mut held);
    hand(&held, out, len);
    let _old = h.exchange(alloc, Some(held));
    status
}

/// Decodes bytes to a line of JSON. Status 0, 1 with the line of the refusal, 5, 100, or 101.
#[unsafe(no_mangle)]
pub extern "C" fn tlbox_decode(
    alloc: Global,
    h: &mut Handle,
    of: u32,
    bytes: &[u8],
    out: &mut [u8],
    len: &mut usize,
) -> u32
    ensures serves { ServesAt Decodes of bytes.now result h.old.held h.new.held }
    ensures hands { Hands h.new.held out.old out.new len.new }
{
    let Some(mut held) = h.exchange(alloc, None) else {
        *len = 0;
        return CLOSED;
    };
    let status = decode(alloc, &mut held, of, bytes);
    hand(&held, out, len);
    let _old = h.exchange(alloc, Some(held));
    status
}

/// Encodes JSON to bytes. Status 0, 1 with the line of the refusal, 5, 100, or 101.
#[unsafe(no_mangle)]
pub extern "C" fn tlbox_encode(
    alloc: Global,
    h: &mut Handle,
    of: u32,
    text: &[u8],
    out: &mut [u8],
    len: &mut usize,
) -> u32
    ensures serves { ServesAt Encodes of text.now result h.old.held h.new.held }
    ensures hands { Hands h.new.held out.old out.new len.new }
{
    let Some(mut held) = h.exchange(alloc, None) else {
        *len = 0;
        return CLOSED;
    };
    let status = encode(alloc, &mut held, of, text);
    hand(&held, out, len);
    let _old = h.exchange(alloc, Some(held));
    status
}

/// Compares two schemas, whose texts these are, by a type of the old one. Status 0, 1 with the line of the refusal, or 5.
#[unsafe(no_mangle)]
pub extern "C" fn tlbox_layers(
    alloc: Global,
    old: &[u8],
    new: &[u8],
    of: &[u8],
    out: &mut [u8],
    len: &mut usize,
) -> u32
    ensures { ComparesAt old.now new.now of.now result out.old out.new len.new }
{
    hand_made(layers(alloc, old, new, of), out, len)
}

/// Hands out the last bytes again, for a caller that had no room for them.
#[unsafe(no_mangle)]
pub extern "C" fn tlbox_last(alloc: Global, h: &mut Handle, out: &mut [u8], len: &mut usize)
    ensures same { h.new.held ≡ h.old.held }
    ensures hands { Hands h.new.held out.old out.new len.new }
{
    let Some(held) = h.exchange(alloc, None) else {
        *len = 0;
        return;
    };
    hand(&held, out, len);
    let _old = h.exchange(alloc, Some(held));
}

/// The version of this interface. What it says stands as long as this number does.
#[unsafe(no_mangle)]
pub extern "C" fn tlbox_version() -> u32
    ensures { result ≡ VERSION }
{
    VERSION
}

/// Closes a handle, if it is open, and gives back what it owned.
#[unsafe(no_mangle)]
pub extern "C" fn tlbox_close(alloc: Global, h: &mut Handle)
    ensures { h.new.held ≡ None }
{
    let _old = h.exchange(alloc, None);
}
