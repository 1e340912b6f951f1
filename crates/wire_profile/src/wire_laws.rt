//! Laws of the definitions, carried by a function that does nothing.
ghost use Rattle.std.specs.Prelude.{◌≡◌, ℕ, None, IsTrue};
ghost use Rattle.tl_types.specs.Values.{ValueView, ValueViews, node};
ghost use Rattle.wire_profile.specs.Causes.{broken, call_cause, cause_of, is_for};
ghost use Rattle.wire_profile.specs.Clear.{AreClear, IsClear};
ghost use Rattle.wire_profile.specs.Rules.{not_served};
ghost use Rattle.wire_profile.specs.declared.rule.Root.TheVariants.{Call};
ghost use Rattle.wire_profile.specs.declared.rule.Root.{Root};
ghost use Rattle.wire_profile.specs.declared.rule.Rule.{Rule};
ghost use Rattle.wire_forms.specs.Parts.{at, parts_of};

/// A value has no cause exactly where it breaks none of its root's rules; then neither its own record nor any part of it does.
pub fn values_without_a_cause()
    ensures clear { (root : Root) (v : ValueView) → cause_of root v ≡ None → IsClear root v }
    ensures no_cause { (root : Root) (v : ValueView) → IsClear root v → cause_of root v ≡ None }
    ensures clear_call { (v : ValueView) → call_cause v ≡ None → (not_served v ≡ None) × IsClear Call v }
    ensures no_call_cause { (v : ValueView) → not_served v ≡ None → IsClear Call v → call_cause v ≡ None }
    ensures record { (root : Root) (k : ℕ) (vs : ValueViews) → IsClear root (node k vs) → (rule : Rule) → IsTrue (is_for root rule) → broken rule k vs ≡ None }
    ensures parts { (root : Root) (v : ValueView) → IsClear root v → AreClear root (parts_of v) }
    ensures part { (root : Root) (i : ℕ) (vs : ValueViews) → AreClear root vs → IsClear root (at i vs) }
{}
