//! The numbers of a value's records and calls, by a table.
ghost use Rattle.std.specs.Prelude.{◌≡◌, get_or};
ghost use Rattle.tl_types.specs.Seen.{view, views};
ghost use Rattle.wire_profile.specs.Renaming.{renamed, renamed_each};

use tl_types::Value;

/// Replaces the number of each record and call by what the table has at it, or by another where it ends before.
#[cycle(rename)]
#[inline(always)]
pub fn rename(value: &mut Value, table: &[u32], other: u32)
    ensures { view value.new ≡ renamed (λ n. get_or table.now n other) (view value.old) }
{
    match value {
        Value::List(items) => rename_each(items, table, other),
        Value::Node { entry, fields } => {
            *entry = number_at(table, *entry, other);
            rename_each(fields, table, other)
        }
        Value::Call { entry, fields } => {
            *entry = number_at(table, *entry, other);
            rename_each(fields, table, other)
        }
        _ => {}
    }
}

#[cycle(rename)]
fn rename_each(values: &mut Vec<Value>, table: &[u32], other: u32)
    ensures { views values.new.items ≡ renamed_each (λ n. get_or table.now n other) (views values.old.items) }
{
    for i in 0..values.len() {
        rename(&mut values[i], table, other);
    }
}

fn number_at(table: &[u32], n: u32, other: u32) -> u32
    ensures { result ≡ get_or table.now n other }
{
    match table.get(n as usize) {
        Some(number) => *number,
        None => other,
    }
}
