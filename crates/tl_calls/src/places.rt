//! Lists whose items are replaced.
ghost use Rattle.std.specs.Prelude.{◌≡◌, set};

/// Puts an item in place of the one at an index, if there is one.
pub fn put<T: Drop>(items: &mut Vec<T>, at: u32, item: T)
    ensures { items.new.items ≡ set items.old.items at item }
{
    let at = at as usize;
    if at < items.len() {
        items[at] = item;
    }
}
