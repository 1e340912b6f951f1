//! Events in a row, and where their numbers end.
ghost use Rattle.std.specs.Prelude.{◌≡◌, ◌≤◌, ◌+◌, ◌++◌, vec_len, vec_capacity};
ghost use Rattle.std.specs.List.{sum_by};

use crate::counted::Counted;

/// Appends events to those that end at a position, and answers where they end.
pub fn append<E: Counted>(into: &mut Vec<E>, at: u32, events: Vec<E>) -> u32
    requires room { vec_len into.old + vec_len events ≤ vec_capacity into.old }
    requires limit { at + sum_by E.count events.items ≤ 1000000 }
    ensures items { into.new.items ≡ into.old.items ++ events.items }
    ensures sum { result ≡ at + sum_by E.count events.items }
    ensures len { vec_len into.new ≡ vec_len into.old + vec_len events }
    ensures capacity { vec_capacity into.old ≤ vec_capacity into.new }
{
    let mut at = at;
    for event in events {
        at += event.count();
        into.push_reserved(event);
    }
    at
}

/// Where events that begin at a position end.
pub fn end_of<E: Counted>(at: u32, events: &[E]) -> u32
    requires limit { at + sum_by E.count events.now ≤ 1000000 }
    ensures sum { result ≡ at + sum_by E.count events.now }
{
    let mut at = at;
    for event in events {
        at += event.count();
    }
    at
}
