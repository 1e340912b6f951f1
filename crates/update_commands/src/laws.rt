//! Laws of the definitions, each carried by a function that does nothing.
ghost use Rattle.update_commands.specs.Make.{EachHasOneMade};
ghost use Rattle.update_commands.specs.Replay.{EachHasOneReplay};

/// Where both files are there, and hold bytes, `replay` has one answer for each number of clients.
pub fn journals_have_one_answer()
    ensures { EachHasOneReplay }
{}

/// Files have one answer to `make` at most, and one where the schema's file is there.
pub fn made_runs_have_one_answer()
    ensures { EachHasOneMade }
{}
