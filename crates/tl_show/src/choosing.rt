//! Which of those parts stands that may stand at a key.
ghost use Rattle.tl_types.specs.Seen.{views};
ghost use Rattle.tl_show.specs.inner.Forms.{IsThere, Stands};
ghost use Rattle.tl_show.specs.inner.FormViews.{part_view, parts_view};

use crate::form::{KeyParts, Part};
use tl_types::{Value, is_absent};

/// The last of these parts that is there, in a record with these values; the first, where none is.
pub fn part_there<'p>(parts: &'p KeyParts, fields: &[Value]) -> &'p Part
    ensures { Stands (views fields.now) (parts_view parts.now) (part_view result.now) }
{
    let mut there = &parts.first;
    for part in &parts.later {
        if is_there(part, fields) {
            there = part;
        }
    }
    there
}

// Whether a part is there.
fn is_there(part: &Part, fields: &[Value]) -> bool
    ensures { IsThere (views fields.now) (part_view part.now) result }
{
    match part {
        Part::Name => true,
        Part::Field { index, .. } => match fields.get(*index) {
            Some(value) => !is_absent(value),
            None => false,
        },
    }
}
