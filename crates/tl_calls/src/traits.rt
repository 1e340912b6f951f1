//! What is judged of a type without making it.
ghost use Rattle.std.specs.Prelude.{◌≡◌, ◌||◌};

/// How deep a type is, whether it takes no bytes, and whether an argument in it takes none.
#[derive(Clone, Copy)]
pub struct Traits {
    pub levels: u64,
    pub empty: bool,
    pub holds_empty: bool,
}

impl Traits {
    /// Whether it takes no bytes, or an argument in it takes none.
    pub fn has_empty(&self) -> bool
        ensures { result ≡ (self.now.empty || self.now.holds_empty) }
    {
        self.empty || self.holds_empty
    }
}
