//! Laws of the definitions, carried by functions that do nothing.
ghost use Rattle.box_client.specs.Laws.{FollowFromNumbers, AreGivenOnce, SavedAreLoaded, TakesWhatFits};

/// A client's numbers after a step follow from its numbers alone: its events, values and recent messages say nothing of them.
pub fn numbers_alone()
    ensures { FollowFromNumbers }
{}

/// No request number is given twice, restarts included.
pub fn numbers_are_given_once()
    ensures { AreGivenOnce }
{}

/// What is saved of a client is loaded as the client after a restart.
pub fn what_is_saved_is_loaded()
    ensures { SavedAreLoaded }
{}

/// No difference is refused but for a cause: one that fits is taken.
pub fn differences_that_fit_are_taken()
    ensures { TakesWhatFits }
{}
