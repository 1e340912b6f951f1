//! Laws of servers, carried by functions that do nothing.
ghost use Rattle.std.specs.Prelude.{◌≡◌, ◌<◌, ◌≤◌, ◌+◌, ◌^◌, ℤ, ℕ, List, ◌∷◌, ◌++◌, length, Some, true};
ghost use Rattle.box_events.specs.declared.limits.TheConstants.{RUN_BYTES};
ghost use Rattle.box_events.specs.declared.requests.Post.{Post};
ghost use Rattle.box_events.specs.Boxes.{ending, Between, AreCounted};
ghost use Rattle.box_events.specs.Events.{EventView};
ghost use Rattle.box_events.specs.SettingLists.{Dated, IsOverlay};
ghost use Rattle.box_server.specs.Answers.{is_whole};
ghost use Rattle.box_server.specs.Entries.{Entry, bytes_of};
ghost use Rattle.box_server.specs.Growing.{IsWhole, HasMore, GrowsTo, pushed_settings};
ghost use Rattle.box_server.specs.LastEntries.{changed_since};
ghost use Rattle.box_server.specs.Posting.{updates_of, settings_of};
ghost use Rattle.box_server.specs.Receiving.{after_post};
ghost use Rattle.box_server.specs.Runs.{events_after, run_of};
ghost use Rattle.box_server.specs.Servers.{ChannelBox, ServerState, dated_at, new_server};
ghost use Rattle.box_server.specs.Sound.{IsSound};
ghost use Rattle.box_server.specs.Laws.{ChannelsGetTheirEvents, UpdatesLieInBoxes, SettingsAreDated, SettingsAreNumbered, UpdatesStayInBoxes, ChannelRunsLie, LastPartsReachTheServer, KnownIdsPostNothing};

/// Each box of a server only has more events after it, a channel's as a whole; its settings only get more that aren't dated before it, and its date never falls.
pub fn servers_only_grow()
    ensures none { (s : ServerState) → GrowsTo s s }
    ensures joins { (s t u : ServerState) → GrowsTo s t → GrowsTo t u → GrowsTo s u }
    ensures post { (s : ServerState) (random_id : ℤ) (posts : List Post) → GrowsTo s (after_post s random_id posts) }
    ensures date { (s : ServerState) (date : ℕ) → GrowsTo s (dated_at s date) }
    ensures channel { ChannelsGetTheirEvents }
    ensures whole { (whole more : List EventView) (old new : ChannelBox) → IsWhole whole old → HasMore old new more → IsWhole (whole ++ more) new }
{}

/// Each update of a push lies at its place in the box after the post, a channel's in its whole box, and stays there as the server grows. The settings of a push are the last of the server's, dated as it is.
pub fn pushes_lie_in_boxes()
    ensures updates { UpdatesLieInBoxes }
    ensures settings { SettingsAreDated }
    ensures pushed { (s : ServerState) (xs : List Entry) → pushed_settings (updates_of s xs) ≡ settings_of xs }
    ensures numbers { SettingsAreNumbered }
    ensures grows { UpdatesStayInBoxes }
{}

/// What a difference carries of a box lies where it says, and reaches the end where it says that it is all; it has the first event where that
/// isn't too large. Its settings bring any older table to the latest.
pub fn differences_lie_in_boxes()
    ensures run { (box : List EventView) (p : ℕ) (es : List EventView) → events_after box p ≡ Some es → Between box p (p + ending (run_of es)) (run_of es) }
    ensures rest { (box : List EventView) (p : ℕ) (es : List EventView) → events_after box p ≡ Some es → Between box p (ending box) es }
    ensures channel { ChannelRunsLie }
    ensures whole { (es : List EventView) → AreCounted es → is_whole es ≡ true → run_of es ≡ es }
    ensures first { (e : EventView) (es : List EventView) → bytes_of e ≤ RUN_BYTES → (more : List EventView) × (run_of (e ∷ es) ≡ e ∷ more) }
    ensures settings { (L : List Dated) (date : ℕ) → IsOverlay L (length L) date (changed_since L date) }
{}

/// What holds of every server holds still after each step.
pub fn servers_stay_sound()
    ensures new { IsSound new_server }
    ensures date { (s : ServerState) (date : ℕ) → IsSound s → date < 2 ^ 31 → IsSound (dated_at s date) }
    ensures post { (s : ServerState) (random_id : ℤ) (posts : List Post) → IsSound s → IsSound (after_post s random_id posts) }
{}

/// A part of a difference is never told as the last, and a random id that is known posts nothing. (That settings of the date that is asked for are
/// given is the clause `settings` of `differences_lie_in_boxes`.)
pub fn answers_are_exact()
    ensures last { LastPartsReachTheServer }
    ensures known { KnownIdsPostNothing }
{}
