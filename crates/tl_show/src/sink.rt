//! What a text is put to, piece by piece.
ghost use Rattle.std.specs.Prelude.{◌++◌, ℕ, List, []};

/// What a text is put to, piece by piece. Where a piece can't be taken, none after it is, and that is told when all is put.
pub trait TextSink {
    /// These bytes were put from the first state to the second.
    ghost puts: { Self → Self → List ℕ → Type 0 };

    /// Puts bytes.
    fn put(&mut self, bytes: &[u8])
        ensures { puts self.old self.new bytes.now };

    ghost puts_none: { (x : Self) → puts x x [] };

    ghost puts_both: { (x y z : Self) (a b : List ℕ) → puts x y a → puts y z b → puts x z (a ++ b) };
}
