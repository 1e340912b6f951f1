//! The heads and the padding of strings.
ghost use Rattle.std.specs.Prelude.{◌≡◌, ◌^◌, ◌<◌, ◌≤◌, IfOk};
ghost use Rattle.tl_types.specs.Texts.{missing};
ghost use Rattle.tl_types.specs.inner.Reading.{all_zero, text_head_of};

use tl_types::Cause;

/// How many bytes the head of a string has, and how many its text.
pub fn head_of(word: [u8; 4]) -> Result<(u64, u64), Cause>
    ensures head { result ≡ text_head_of word }
    ensures bounds { IfOk result (λ h. (1 ≤ h.0) × (h.0 ≤ 4) × (h.1 < 2 ^ 24)) }
{
    if word[0] == 255 {
        return Err(Cause::LongString);
    }
    if word[0] != 254 {
        return Ok((1, word[0] as u64));
    }
    let length = word[1] as u64 + 256 * word[2] as u64 + 65536 * word[3] as u64;
    if length <= 253 {
        return Err(Cause::LooseString);
    }
    Ok((4, length))
}

/// Whether all of them are zero.
pub fn is_zero(bytes: &[u8]) -> bool
    ensures { result ≡ all_zero bytes.now }
{
    for byte in bytes {
        if *byte != 0 {
            return false;
        }
    }
    true
}

/// How many zeros make a multiple of 4.
pub fn missing_of(count: u64) -> u64
    ensures { result ≡ missing count }
{
    (4 - count % 4) % 4
}
