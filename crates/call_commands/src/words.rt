//! The first word of a packet.
ghost use Rattle.std.specs.Prelude.{◌≡◌, ◌<◌, ◌^◌, ◌++◌, length, MatchOption};
ghost use Rattle.tl_numbers.specs.Numbers.{word};

use tl_numbers::u32_of;

/// The number that the first four bytes spell, and the bytes after them; none where there are fewer.
pub fn first_word(content: &[u8]) -> Option<(u32, &[u8])>
    ensures { MatchOption result (length content.now < 4) (λ p. (p.0 < 2 ^ 32) × (content.now ≡ word p.0 ++ p.1.now)) }
{
    let (word, rest) = content.split_first_chunk::<4>()?;
    Some((u32_of(*word), rest))
}
