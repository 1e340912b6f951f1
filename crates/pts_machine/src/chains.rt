//! Held items that follow one another.
ghost use Rattle.std.specs.Prelude.{◌≡◌, ◌≤◌, ◌+◌, ◌++◌, ℕ, vec_len, vec_capacity, None, length};
ghost use Rattle.std.specs.FinMap as map;
ghost use Rattle.pts_machine.specs.Holding.{from};
ghost use Rattle.pts_machine.specs.Chains.{chain, reach, EndsAfter};
ghost use Rattle.pts_machine.specs.Takings.{InTurn};

use crate::Gap;
use crate::counted::Counted;
use crate::takes::Takes;

/// Gives the held items that follow from a position to what takes them, and answers where they end.
pub fn follow<E: Drop, T: Takes<E>>(into: &mut T, at: u32, gap: &mut Gap<E>) -> u32
    requires room { T.has_room into.old gap.old.held }
    requires after { EndsAfter gap.old.held }
    ensures took { InTurn T.took into.old (chain (map.len gap.old.held) at gap.old.held) into.new }
    ensures room { T.has_room into.new gap.new.held }
    ensures reach { result ≡ reach (map.len gap.old.held) at gap.old.held }
    ensures free { map.get gap.old.held result ≡ None }
    ensures held { (q : ℕ) → result ≤ q → map.get gap.new.held q ≡ map.get gap.old.held q }
    ensures number { map.len gap.new.held + length (chain (map.len gap.old.held) at gap.old.held) ≡ map.len gap.old.held }
    ensures spare { gap.old.spare ≤ gap.new.spare }
{
    let mut at = at;
    'items: while let Some((end, item)) = gap.take(at) {
        into.take_in(item);
        at = end;
    }
    at
}

/// Appends to the events the held items that follow from a position, and answers where they end. What is held below that goes.
pub fn settle<E: Counted>(events: &mut Vec<E>, at: u32, gap: &mut Gap<E>) -> u32
    requires room { vec_len events.old + map.len gap.old.held ≤ vec_capacity events.old }
    requires after { EndsAfter gap.old.held }
    ensures events { events.new.items ≡ events.old.items ++ chain (map.len gap.old.held) at gap.old.held }
    ensures reach { result ≡ reach (map.len gap.old.held) at gap.old.held }
    ensures free { map.get gap.old.held result ≡ None }
    ensures held { gap.new.held ≡ from result gap.old.held }
    ensures sum { vec_len events.new + map.len gap.new.held ≤ vec_len events.old + map.len gap.old.held }
    ensures capacity { vec_capacity events.old ≤ vec_capacity events.new }
    ensures spare { gap.old.spare ≤ gap.new.spare }
{
    let at = follow(events, at, gap);
    gap.drop_to(at);
    at
}
