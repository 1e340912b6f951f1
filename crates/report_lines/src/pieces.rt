//! Pieces of lines.
ghost use Rattle.std.specs.Prelude.{◌≡◌, ◌++◌, ◌∷◌, [], ◌/◌, ◌%◌, ◌<◌, OnOk, codes, slice_index};
ghost use Rattle.hex.specs.Hex.{encode_lower, lower_digits};

use itoa::{Buffer, Integer};
use tl_base::Memory;

const DIGITS: &[u8; 16] = b"0123456789abcdef";

pub fn put_text(lines: &mut Vec<u8>, text: &str) -> Result<(), Memory>
    ensures { OnOk result (lines.new.items ≡ lines.old.items ++ text.now) }
{
    lines.extend_from_slice(text.as_bytes())?;
    Ok(())
}

/// Puts a text, and a number in decimal after it.
pub fn put_number<I: Integer>(lines: &mut Vec<u8>, text: &str, number: I) -> Result<(), Memory>
    ensures { OnOk result (lines.new.items ≡ lines.old.items ++ (text.now ++ I.text number)) }
{
    let mut buffer = Buffer::new();
    put_text(lines, text)?;
    put_text(lines, buffer.format(number))
}

/// Puts bytes as lower-case hexadecimal digits.
pub fn put_hex(lines: &mut Vec<u8>, bytes: &[u8]) -> Result<(), Memory>
    ensures { OnOk result (lines.new.items ≡ lines.old.items ++ encode_lower bytes.now) }
{
    lines.reserve(bytes.len() * 2)?;
    for byte in bytes {
        lines.push_reserved(DIGITS[(*byte >> 4) as usize]);
        lines.push_reserved(DIGITS[(*byte & 15) as usize]);
    }
    Ok(())
}

/// Ends a line.
pub fn put_line_end(lines: &mut Vec<u8>) -> Result<(), Memory>
    ensures { OnOk result (lines.new.items ≡ lines.old.items ++ codes "\n") }
{
    lines.push(b'\n')?;
    Ok(())
}
