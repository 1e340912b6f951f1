//! What becomes of the file that State was written to.

/// It takes State's name, or it is removed. Where no such file was begun, nothing is done of it.
#[derive(Clone, Copy)]
pub enum StateEnd {
    Named,
    Removed,
}
