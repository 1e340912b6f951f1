//! Strings.
ghost use Rattle.std.specs.Prelude.{◌≡◌, ◌<◌, ◌^◌, ◌++◌, OnOk, length, replicate};
ghost use Rattle.tl_types.specs.Texts.{missing, text_bytes, text_head};

use std::alloc::AllocError;

// The most bytes of a string whose head is one byte.
const SHORT_BYTES: u32 = 253;

/// Appends a string. One of 2^24 bytes or more has no spelling, and nothing is appended.
pub fn put_text(text: &[u8], out: &mut Vec<u8>) -> Result<(), AllocError>
    ensures { length text.now < 2 ^ 24 → OnOk result (out.new.items ≡ out.old.items ++ text_bytes text.now) }
{
    if text.len() >= 0x100_0000 {
        return Ok(());
    }
    let count = text.len() as u32;
    put_head(count, out)?;
    out.extend_from_slice(text)?;
    put_zeros(missing_of(head_bytes(count) + count), out)
}

/// How many bytes a string of fewer than 2^24 bytes takes.
pub fn text_len(text: &[u8]) -> u64
    requires { length text.now < 2 ^ 24 }
    ensures { result ≡ length (text_bytes text.now) }
{
    let count = text.len() as u32;
    let bytes = head_bytes(count) + count;
    (bytes + missing_of(bytes)) as u64
}

// How many bytes the head of a string of so many bytes has.
fn head_bytes(count: u32) -> u32
    ensures { result ≡ length (text_head count) }
{
    if count <= SHORT_BYTES { 1 } else { 4 }
}

// Appends the head of a string of so many bytes.
fn put_head(count: u32, out: &mut Vec<u8>) -> Result<(), AllocError>
    requires { count < 2 ^ 24 }
    ensures { OnOk result (out.new.items ≡ out.old.items ++ text_head count) }
{
    if count <= SHORT_BYTES {
        out.push(count as u8)?;
        return Ok(());
    }
    let head = [
        254,
        (count % 256) as u8,
        (count / 256 % 256) as u8,
        (count / 65536) as u8,
    ];
    out.extend_from_slice(&head)?;
    Ok(())
}

// How many zeros make a multiple of 4.
fn missing_of(count: u32) -> u32
    ensures { result ≡ missing count }
{
    (4 - count % 4) % 4
}

// Appends up to three zeros.
fn put_zeros(count: u32, out: &mut Vec<u8>) -> Result<(), AllocError>
    requires { count < 4 }
    ensures { OnOk result (out.new.items ≡ out.old.items ++ replicate count 0) }
{
    let zeros = [0u8; 3];
    out.extend_from_slice(&zeros[..count as usize])?;
    Ok(())
}
