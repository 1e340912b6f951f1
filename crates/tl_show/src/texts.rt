//! Strings and bytes as JSON text.
ghost use Rattle.std.specs.Prelude.{◌≤◌, length};
ghost use Rattle.hex.specs.Hex.{encode_lower};
ghost use Rattle.json.specs.Print.{escape};
ghost use Rattle.serde_json.specs.Written.{compact_text};
ghost use Rattle.tl_schema.specs.Seen.{shape};
ghost use Rattle.tl_show.specs.Shown.{hex_data, string_data, text_data};

use crate::parts::is_string;
use crate::quoting::{write_escaped, write_quoted};
use crate::sink::TextSink;
use tl_schema::TypeRef;

// How many bytes are made digits at once.
const HEX_BYTES: usize = 64;

/// Writes the bytes of a `string` or of `bytes`.
pub fn write_text<S: TextSink>(of: &TypeRef, bytes: &[u8], out: &mut S)
    ensures { S.puts out.old out.new (compact_text (text_data (shape of.now) bytes.now)) }
{
    if is_string(of) {
        write_string(bytes, out);
    } else {
        write_hex(bytes, out);
    }
}

/// Writes bytes as hexadecimal digits.
pub fn write_hex<S: TextSink>(bytes: &[u8], out: &mut S)
    ensures { S.puts out.old out.new (compact_text (hex_data bytes.now)) }
{
    out.put(b"\"");
    write_digits(bytes, out);
    out.put(b"\"");
}

// Writes the digits of bytes, a piece after the other.
fn write_digits<S: TextSink>(bytes: &[u8], out: &mut S)
    ensures { S.puts out.old out.new (escape (encode_lower bytes.now)) }
{
    let mut rest = bytes;
    while rest.len() > HEX_BYTES {
        let (piece, more) = rest.split_at(HEX_BYTES);
        write_few(piece, out);
        rest = more;
    }
    write_few(rest, out);
}

// Writes the digits of a few bytes.
fn write_few<S: TextSink>(bytes: &[u8], out: &mut S)
    requires { length bytes.now ≤ 64 }
    ensures { S.puts out.old out.new (escape (encode_lower bytes.now)) }
{
    let mut digits = [0u8; 2 * HEX_BYTES];
    let digits = &mut digits[..2 * bytes.len()];
    match hex::encode_to_slice(bytes, digits) {
        Ok(()) => write_escaped(digits, out),
        Err(_) => unreachable!(),
    }
}

// Writes the bytes of a `string`: their text, where they are one.
fn write_string<S: TextSink>(bytes: &[u8], out: &mut S)
    ensures { S.puts out.old out.new (compact_text (string_data bytes.now)) }
{
    match str::from_utf8(bytes) {
        Ok(text) => write_quoted(text.as_bytes(), out),
        Err(_) => {
            out.put(b"{\"hex\":");
            write_hex(bytes, out);
            out.put(b"}");
        }
    }
}
