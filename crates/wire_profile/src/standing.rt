//! Whether a form stands in a value.
ghost use Rattle.std.specs.Prelude.{◌≡◌};
ghost use Rattle.tl_types.specs.Seen.{view, views};
ghost use Rattle.wire_profile.specs.Rules as defined;

use tl_types::Value;

#[cycle(stands)]
fn stands_in(form: u32, value: &Value) -> bool
    ensures { result ≡ defined.stands_in form (view value.now) }
{
    match value {
        Value::List(items) => stands_among(form, items),
        Value::Node { entry, fields } => *entry == form || stands_among(form, fields),
        Value::Call { entry, fields } => *entry == form || stands_among(form, fields),
        _ => false,
    }
}

/// Whether a record or call of this form stands in one of the values.
#[cycle(stands)]
pub fn stands_among(form: u32, values: &[Value]) -> bool
    ensures { result ≡ defined.stands_among form (views values.now) }
{
    for value in values {
        if stands_in(form, value) {
            return true;
        }
    }
    false
}
