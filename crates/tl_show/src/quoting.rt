//! A text as a JSON string.
ghost use Rattle.std.specs.Prelude.{◌≡◌, ◌+◌, ◌<◌, ◌≤◌, IfOk, length};
ghost use Rattle.std.specs.Bool.{OnTrue};
ghost use Rattle.std.specs.Char.{digit_char};
ghost use Rattle.json.specs.Print.{escape, escape_byte, escape_letter, quoted};
ghost use Rattle.json.specs.Written.{PlainBetween};

use crate::sink::TextSink;
use json::Writer;
use std::alloc::{AllocError, Global};
use std::simd::prelude::*;

/// Writes a text as a JSON string.
pub fn write_quoted<S: TextSink>(text: &[u8], out: &mut S)
    ensures { S.puts out.old out.new (quoted text.now) }
{
    out.put(b"\"");
    write_escaped(text, out);
    out.put(b"\"");
}

/// Writes what stands for a text in a JSON string.
pub fn write_escaped<S: TextSink>(text: &[u8], out: &mut S)
    ensures { S.puts out.old out.new (escape text.now) }
{
    if is_plain(text) {
        out.put(text);
    } else {
        write_runs(text, out);
    }
}

// Writes runs of bytes that need no escape, and what stands for the bytes between them.
fn write_runs<S: TextSink>(text: &[u8], out: &mut S)
    ensures { S.puts out.old out.new (escape text.now) }
{
    let mut rest = text;
    loop {
        let (run, after) = rest.split_at(run_len(rest));
        out.put(run);
        let [byte, more @ ..] = after else {
            return;
        };
        write_byte(*byte, out);
        rest = more;
    }
}

// How many bytes before the first that needs an escape.
fn run_len(text: &[u8]) -> usize
    ensures within { result ≤ length text.now }
    ensures plain { PlainBetween text.now 0 result }
{
    let mut at = 0;
    while text.len() - at >= 32 {
        if !plain_32(text, at) {
            break;
        }
        at += 32;
    }
    while at < text.len() {
        let byte = text[at];
        if byte == b'"' || byte == b'\\' || byte < 0x20 {
            break;
        }
        at += 1;
    }
    at
}

// Writes what stands for a byte.
#[tactic(auto, unfolding(json::specs::Print::escape_byte))]
fn write_byte<S: TextSink>(byte: u8, out: &mut S)
    ensures { S.puts out.old out.new (escape_byte byte) }
{
    let letter = escape_letter(byte);
    if letter > 0 {
        out.put(&[b'\\', letter]);
    } else if byte < 32 {
        out.put(&[b'\\', b'u', b'0', b'0', digit(byte / 16), digit(byte % 16)]);
    } else {
        out.put(&[byte]);
    }
}

// The letter of a byte's short escape, or 0 where it has none.
fn escape_letter(byte: u8) -> u8
    ensures { result ≡ escape_letter byte }
{
    if byte == b'"' || byte == b'\\' {
        byte
    } else if byte == 8 {
        b'b'
    } else if byte == 12 {
        b'f'
    } else if byte == b'\n' {
        b'n'
    } else if byte == b'\r' {
        b'r'
    } else if byte == b'\t' {
        b't'
    } else {
        0
    }
}

// A hexadecimal digit.
fn digit(value: u8) -> u8
    requires { value < 16 }
    ensures { result ≡ digit_char value }
{
    if value < 10 {
        b'0' + value
    } else {
        b'a' - 10 + value
    }
}

/// A text as a JSON string.
pub fn quoted_of(alloc: Global, text: &str) -> Result<Vec<u8>, AllocError>
    ensures { IfOk result (λ made. made.items ≡ quoted text.now) }
{
    let mut out = Writer::new(Vec::new(alloc));
    out.string(text)?;
    Ok(out.into_inner())
}

// Whether a text needs no escape. Two loads that overlap cover a short text.
fn is_plain(text: &[u8]) -> bool
    ensures { OnTrue result (escape text.now ≡ text.now) }
{
    if text.len() < 32 {
        plain_short(text)
    } else {
        plain_long(text)
    }
}

#[inline(always)]
fn plain_4(text: &[u8], at: usize) -> bool
    requires { at + 4 ≤ length text.now }
    ensures { OnTrue result (PlainBetween text.now at (at + 4)) }
{
    let v = u8x4::from_slice(&text[at..]);
    (v.simd_eq(u8x4::splat(b'"'))
        | v.simd_eq(u8x4::splat(b'\\'))
        | v.simd_lt(u8x4::splat(0x20))).to_bitmask()
        == 0
}

#[inline(always)]
fn plain_8(text: &[u8], at: usize) -> bool
    requires { at + 8 ≤ length text.now }
    ensures { OnTrue result (PlainBetween text.now at (at + 8)) }
{
    let v = u8x8::from_slice(&text[at..]);
    (v.simd_eq(u8x8::splat(b'"'))
        | v.simd_eq(u8x8::splat(b'\\'))
        | v.simd_lt(u8x8::splat(0x20))).to_bitmask()
        == 0
}

#[inline(always)]
fn plain_16(text: &[u8], at: usize) -> bool
    requires { at + 16 ≤ length text.now }
    ensures { OnTrue result (PlainBetween text.now at (at + 16)) }
{
    let v = u8x16::from_slice(&text[at..]);
    (v.simd_eq(u8x16::splat(b'"'))
        | v.simd_eq(u8x16::splat(b'\\'))
        | v.simd_lt(u8x16::splat(0x20))).to_bitmask()
        == 0
}

#[inline(always)]
fn plain_32(text: &[u8], at: usize) -> bool
    requires { at + 32 ≤ length text.now }
    ensures { OnTrue result (PlainBetween text.now at (at + 32)) }
{
    let v = u8x32::from_slice(&text[at..]);
    (v.simd_eq(u8x32::splat(b'"'))
        | v.simd_eq(u8x32::splat(b'\\'))
        | v.simd_lt(u8x32::splat(0x20))).to_bitmask()
        == 0
}

#[inline(always)]
fn plain_few(text: &[u8]) -> bool
    ensures { OnTrue result (PlainBetween text.now 0 (length text.now)) }
{
    for &byte in text {
        if byte == b'"' || byte == b'\\' || byte < 0x20 {
            return false;
        }
    }
    true
}

#[inline(always)]
fn plain_long(text: &[u8]) -> bool
    requires { 32 ≤ length text.now }
    ensures { OnTrue result (PlainBetween text.now 0 (length text.now)) }
{
    let mut at = 0;
    while text.len() - at > 32 {
        if !plain_32(text, at) {
            return false;
        }
        at += 32;
    }
    plain_32(text, text.len() - 32)
}

#[inline(always)]
fn plain_short(text: &[u8]) -> bool
    requires { length text.now ≤ 32 }
    ensures { OnTrue result (PlainBetween text.now 0 (length text.now)) }
{
    let len = text.len();
    if len >= 16 {
        plain_16(text, 0) && plain_16(text, len - 16)
    } else if len >= 8 {
        plain_8(text, 0) && plain_8(text, len - 8)
    } else if len >= 4 {
        plain_4(text, 0) && plain_4(text, len - 4)
    } else {
        plain_few(text)
    }
}
