//! At most so many bytes of another source.
ghost use Rattle.std.specs.Prelude.{◌≡◌, ◌-◌};
ghost use Rattle.tl_base.specs.Limits.{limited_state};
ghost use Rattle.tl_base.specs.LimitLaws.{limited_bytes};

use crate::fault::Failed;
use crate::source::Source;

/// At most so many bytes of another source. It tells how many it gave.
#[derive(Drop)]
pub struct Limited<'a, S: Source> {
    from: &'a mut S,
    limit: u64,
    rest: u64,
}

impl<'a, S: Source> Limited<'a, S> {
    /// Lends the next `limit` bytes.
    pub fn new(from: &'a mut S, limit: u64) -> Limited<'a, S>
        ensures same_reference { result.from.ghost_name ≡ from.entry.ghost_name }
        ensures value { result.from.now ≡ from.old }
        ensures limit { result.limit ≡ limit }
        ensures rest { result.rest ≡ limit }
    {
        Limited {
            from,
            limit,
            rest: limit,
        }
    }

    /// How many bytes were given.
    pub fn taken(&self) -> u64
        ensures { result ≡ self.now.limit - self.now.rest }
    {
        self.limit.saturating_sub(self.rest)
    }
}

impl<'a, S: Source> Source for Limited<'a, S> {
    ghost state = { λ s. limited_state s.limit s.rest (S.state s.from.now) s.from.ghost_name };

    ghost are_bytes = { λ s. limited_bytes s.rest (S.state s.from.now).left (S.are_bytes s.from.now) };

    fn read(&mut self, into: &mut [u8]) -> Result<usize, Failed> {
        let room = into.len().min(self.rest as usize);
        let count = self.from.read(&mut into[..room])?;
        self.rest -= count as u64;
        Ok(count)
    }
}
