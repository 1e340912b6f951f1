//! What came of an item.
ghost use Rattle.std.specs.Prelude.{◌≡◌};
ghost use Rattle.pts_machine.specs.Outcomes.{seen_by, kept_by};

use crate::Held;

/// What came of an item.
#[derive(Clone, Copy)]
pub enum Seen {
    /// It was applied, and what was held and followed: the lane stands there now.
    Applied { to: u32 },
    /// It was applied or is held already.
    Already,
    Held,
    /// There was no room to hold it.
    Dropped,
}

/// What came of an item, by how it was held; and how many of its parts are held now, where it has so many.
pub fn outcome_of<E: Drop>(held: Held<E>, number: u32) -> (Seen, u32)
    ensures seen { result.0 ≡ seen_by held }
    ensures number { result.1 ≡ kept_by held number }
{
    match held {
        Held::Kept => (Seen::Held, number),
        Held::Already(_) => (Seen::Already, 0),
        Held::Full(_) => (Seen::Dropped, 0),
    }
}
