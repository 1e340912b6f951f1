//! What counts for some of a box's numbers.
ghost use Rattle.std.specs.Prelude.{◌≡◌, ◌<◌, ℕ};
ghost use Rattle.box_events.specs.Events.{count_of};

use box_events::Event;

/// What stands in a box, and counts for some of its numbers.
pub trait Counted: Drop {
    ghost count: { Self → ℕ };

    fn count(&self) -> u32
        ensures value { result ≡ count self.now }
        ensures some { 0 < result };
}

impl Counted for Event {
    ghost count = { count_of };

    fn count(&self) -> u32 {
        Event::count(self)
    }
}
