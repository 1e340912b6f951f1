//! Laws of lanes, and of lanes and boxes.
ghost use Rattle.std.specs.Prelude.{◌≡◌, ◌<◌, ◌≤◌, ◌+◌, ◌++◌, ℕ, Bool, List, false};
ghost use Rattle.std.specs.List.{sum_by};
ghost use Rattle.box_events.specs.Events.{EventView, count_of};
ghost use Rattle.box_events.specs.Boxes.{ending, Between, IsBoundary, AreCounted};
ghost use Rattle.pts_machine.specs.declared.mode.Mode.TheVariants.{Live};
ghost use Rattle.pts_machine.specs.declared.seen.Seen.{Seen};
ghost use Rattle.pts_machine.specs.States.{LaneState, IsSound, StartAfter, is_live};
ghost use Rattle.pts_machine.specs.Chains.{EndsAfter};
ghost use Rattle.pts_machine.specs.Steps.{hear, Hears, extend, restart_at, forget, asked, loaded, new_lane};
ghost use Rattle.pts_machine.specs.Fitting.{Fits};
ghost use Rattle.pts_machine.specs.Laws.{StaysSound, FitsAsItHears, FitsAsItExtends, ReachesTheEnd, WaitsAfterAGap, IsNextInTurn, IsHeldStill};

/// What is said of a step by cases on its answer is the step, and each step is said so.
pub fn hearing_is_told<E>()
    ensures one { (t u : LaneState E) (start end : ℕ) (item : E) (seen : Seen) → Hears t start end item seen u → hear t start end item ≡ record { state = u; seen = seen } }
    ensures each { (t : LaneState E) (start end : ℕ) (item : E) → Hears t start end item (hear t start end item).seen (hear t start end item).state }
{}

/// Hearing leaves the mode and the restart, and all but held items where the lane isn't live. A position never falls, an answer's
/// end is reached, and so is the number of a restart.
pub fn lanes_move_on<E>()
    ensures mode { (t : LaneState E) (start end : ℕ) (item : E) → (hear t start end item).state.mode ≡ t.mode }
    ensures restart { (t : LaneState E) (start end : ℕ) (item : E) → (hear t start end item).state.restart ≡ t.restart }
    ensures stands { (t : LaneState E) (start end : ℕ) (item : E) → is_live t.mode ≡ false → (hear t start end item).state.at ≡ t.at }
    ensures events { (t : LaneState E) (start end : ℕ) (item : E) → is_live t.mode ≡ false → (hear t start end item).state.events ≡ t.events }
    ensures rises { (t : LaneState E) (start end : ℕ) (item : E) → EndsAfter t.held → start < end → t.at ≤ (hear t start end item).state.at }
    ensures extended { (count : E → ℕ) (t : LaneState E) (events : List E) (last : Bool) → EndsAfter t.held → t.at + sum_by count events ≤ (extend count t events last).at }
    ensures restarted { (count : E → ℕ) (t : LaneState E) (p : ℕ) → EndsAfter t.held → p ≤ (restart_at count t p).at }
{}

/// Each step keeps what holds of every lane.
pub fn lanes_stay_sound<E>()
    ensures new { (count : E → ℕ) → IsSound count new_lane }
    ensures load { (count : E → ℕ) (p : ℕ) (events : List E) → p + sum_by count events ≤ 1000000 → IsSound count (loaded count p events) }
    ensures hear { StaysSound E }
    ensures ask { (count : E → ℕ) (t : LaneState E) (number : ℕ) → IsSound count t → IsSound count (asked t number) }
    ensures extend { (count : E → ℕ) (t : LaneState E) (events : List E) (last : Bool) → IsSound count t → t.at + sum_by count events ≤ 1000000 → IsSound count (extend count t events last) }
    ensures restart { (count : E → ℕ) (t : LaneState E) (p : ℕ) → IsSound count t → p ≤ 1000000 → IsSound count (restart_at count t p) }
    ensures forget { (count : E → ℕ) (t : LaneState E) → IsSound count t → IsSound count (forget t) }
    ensures after { (count : E → ℕ) (t : LaneState E) → IsSound count t → EndsAfter t.held }
{}

/// A lane holds what lies in its box.
pub fn lanes_fit_boxes()
    ensures new { (box : List EventView) → Fits box new_lane }
    ensures hear { FitsAsItHears }
    ensures ask { (box : List EventView) (t : LaneState EventView) (number : ℕ) → Fits box t → Fits box (asked t number) }
    ensures extend { FitsAsItExtends }
    ensures restart { (box : List EventView) (t : LaneState EventView) (p : ℕ) → AreCounted box → Fits box t → IsBoundary box p → Fits box (restart_at count_of t p) }
    ensures forget { (box : List EventView) (t : LaneState EventView) → Fits box t → Fits box (forget t) }
    ensures load { (box : List EventView) (p to : ℕ) (events : List EventView) → Between box p to events → Fits box (loaded count_of p events) }
    ensures grows { (box more : List EventView) (t : LaneState EventView) → Fits box t → Fits (box ++ more) t }
{}

/// What fits a box ends within it, and reaches the end of an answer from it.
pub fn lanes_lie_within_boxes()
    ensures inside { (box : List EventView) (t : LaneState EventView) → Fits box t → t.at ≤ ending box }
    ensures after { (box : List EventView) (t : LaneState EventView) → AreCounted box → Fits box t → EndsAfter t.held }
    ensures reaches { ReachesTheEnd }
    ensures sound { (box : List EventView) (t : LaneState EventView) → AreCounted box → ending box ≤ 1000000 → Fits box t → (t.mode ≡ Live → StartAfter t.at t.held) → IsSound count_of t }
{}

/// A push over a gap is not applied, one in turn is not held back, and a part of an answer loses nothing that is held after it.
pub fn lanes_go_in_turn<E>()
    ensures gap { WaitsAfterAGap E }
    ensures turn { IsNextInTurn E }
    ensures part { IsHeldStill E }
{}
