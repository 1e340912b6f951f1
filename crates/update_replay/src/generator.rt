//! The draws of a made run.
ghost use Rattle.std.specs.Prelude.{◌≡◌, ◌<◌, ◌%◌, ◌^◌};
ghost use Rattle.update_replay.specs.Draws.{drawn, draw_of};
ghost use Rattle.update_replay.specs.Made.{drawn_below};

const FACTOR: u64 = 6_364_136_223_846_793_005;

const SUMMAND: u64 = 1_442_695_040_888_963_407;

/// A linear congruential generator with the multiplier of Knuth's MMIX (The Art of Computer Programming, volume 2, 3.3.4): each draw leaves a
/// number of 64 bits, and gives its upper 31 bits.
#[derive(Clone, Copy)]
pub struct Generator {
    pub number: u64,
}

impl Generator {
    /// Begins with a number: with each number the same draws.
    pub fn new(number: u64) -> Generator
        ensures { result.number ≡ number }
    {
        Generator { number }
    }

    /// The next draw, which is below 2^31.
    pub fn draw(&mut self) -> u32
        ensures value { result ≡ draw_of self.old.number }
        ensures next { self.new.number ≡ drawn self.old.number }
        ensures small { result < 2 ^ 31 }
    {
        self.number = self.number.wrapping_mul(FACTOR).wrapping_add(SUMMAND);
        (self.number >> 33) as u32
    }

    /// The next draw, modulo a bound.
    pub fn below(&mut self, bound: u32) -> u32
        requires some { 0 < bound }
        ensures value { result ≡ (drawn_below bound self.old.number).it }
        ensures next { self.new.number ≡ (drawn_below bound self.old.number).x }
        ensures small { result < bound }
    {
        self.draw() % bound
    }
}
