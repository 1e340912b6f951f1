//! A source of bytes that lie in memory.
ghost use Rattle.std.specs.Prelude.{◌≡◌, ◌<◌, [], ◌++◌, drop, take, length, min};
ghost use Rattle.tl_numbers.specs.Bytes.{AreBytes};
ghost use Rattle.tl_base.specs.Slices.{IsEnd};

use crate::fault::Failed;
use crate::source::Source;

/// Bytes that are lent, and how many of them were taken. Each read gives what fits, and none fails.
#[derive(Drop)]
pub struct SliceSource<'a> {
    bytes: &'a [u8],
    at: usize,
    ghost fits: { AreBytes bytes.now },
}

impl<'a> SliceSource<'a> {
    /// The bytes as a source, none of them taken.
    pub fn new(bytes: &'a [u8]) -> SliceSource<'a>
        ensures bytes { result.bytes.now ≡ bytes.now }
        ensures at { result.at ≡ 0 }
    {
        SliceSource { bytes, at: 0 }
    }

    /// Whether all bytes were taken.
    pub fn is_empty(&self) -> bool
        ensures { IsEnd (drop self.now.at self.now.bytes.now) result }
    {
        self.at >= self.bytes.len()
    }
}

impl<'a> Source for SliceSource<'a> {
    ghost use Rattle.tl_base.specs.MemoryLaws.{rest_bytes};
    ghost use Rattle.tl_base.specs.Slices.{slice_state};

    ghost state = { λ s. slice_state s.at s.bytes.now };

    ghost are_bytes = { λ s. rest_bytes s.at s.bytes.now s.fits };

    fn read(&mut self, into: &mut [u8]) -> Result<usize, Failed> {
        Ok(give(self.bytes, &mut self.at, into))
    }
}

// Copies as many bytes as there are and fit, and moves on.
fn give(bytes: &[u8], at: &mut usize, into: &mut [u8]) -> usize
    ensures bytes { drop at.old bytes.now ≡ take result into.new ++ drop at.new bytes.now }
    ensures count { result ≡ min (length into.old) (length (drop at.old bytes.now)) }
    ensures end { result ≡ 0 → 0 < length into.new → drop at.new bytes.now ≡ [] }
{
    if *at >= bytes.len() {
        return 0;
    }
    let rest = &bytes[*at..];
    let count = into.len().min(rest.len());
    into[..count].copy_from_slice(&rest[..count]);
    *at += count;
    count
}
