//! Laws of boxes.
ghost use Rattle.std.specs.Prelude.{◌≡◌, ◌+◌, ◌≤◌, ◌++◌, ℕ, List};
ghost use Rattle.box_events.specs.Events.{EventView};
ghost use Rattle.box_events.specs.Boxes.{ending, IsBoundary, Between, AreCounted};
ghost use Rattle.box_events.specs.BoxViews.{BoxView, end_of, IsBoundaryOf, BetweenOf, KeepsLast};
ghost use Rattle.box_events.specs.Laws.{StretchesStay, KeptStretchesStay};

/// What lies between two numbers of a box.
pub fn stretches_of_boxes()
    ensures grows { (box more : List EventView) (p q : ℕ) (xs : List EventView) → Between box p q xs → Between (box ++ more) p q xs }
    ensures joins { (box : List EventView) (p q r : ℕ) (xs ys : List EventView) → AreCounted box → Between box p q xs → Between box q r ys → Between box p r (xs ++ ys) }
    ensures appended { (box xs : List EventView) → Between (box ++ xs) (ending box) (ending box + ending xs) xs }
    ensures starts { (box : List EventView) (p q : ℕ) (xs : List EventView) → Between box p q xs → IsBoundary box p }
    ensures stops { (box : List EventView) (p q : ℕ) (xs : List EventView) → Between box p q xs → IsBoundary box q }
    ensures counts { (box : List EventView) (p q : ℕ) (xs : List EventView) → Between box p q xs → p + ending xs ≡ q }
    ensures inside { (box : List EventView) (p q : ℕ) (xs : List EventView) → Between box p q xs → q ≤ ending box }
    ensures one { (box : List EventView) (p q : ℕ) (xs ys : List EventView) → AreCounted box → Between box p q xs → Between box p q ys → xs ≡ ys }
{}

/// What lies between two numbers of a box that may have dropped its first events.
pub fn stretches_of_kept_boxes()
    ensures grows { StretchesStay }
    ensures cut { (old new : BoxView) (n p q : ℕ) (xs : List EventView) → AreCounted old.events → KeepsLast old new n → new.first ≤ p → BetweenOf old p q xs → BetweenOf new p q xs }
    ensures was { (old new : BoxView) (n p q : ℕ) (xs : List EventView) → KeepsLast old new n → BetweenOf new p q xs → BetweenOf old p q xs }
    ensures whole { (gone : List EventView) (b : BoxView) (p q : ℕ) (xs : List EventView) → b.first ≡ ending gone → BetweenOf b p q xs → Between (gone ++ b.events) p q xs }
    ensures kept { KeptStretchesStay }
    ensures joins { (b : BoxView) (p q r : ℕ) (xs ys : List EventView) → AreCounted b.events → BetweenOf b p q xs → BetweenOf b q r ys → BetweenOf b p r (xs ++ ys) }
    ensures starts { (b : BoxView) (p q : ℕ) (xs : List EventView) → BetweenOf b p q xs → IsBoundaryOf b p }
    ensures stops { (b : BoxView) (p q : ℕ) (xs : List EventView) → BetweenOf b p q xs → IsBoundaryOf b q }
    ensures counts { (b : BoxView) (p q : ℕ) (xs : List EventView) → BetweenOf b p q xs → p + ending xs ≡ q }
    ensures inside { (b : BoxView) (p q : ℕ) (xs : List EventView) → BetweenOf b p q xs → q ≤ end_of b }
    ensures one { (b : BoxView) (p q : ℕ) (xs ys : List EventView) → AreCounted b.events → BetweenOf b p q xs → BetweenOf b p q ys → xs ≡ ys }
{}
