//! The law, carried by a function that does nothing.
ghost use Rattle.session_commands.specs.KeptRuns.{RunsAreOne};

/// Runs of `keep`, one after the other on a keeper that had no entries, send over each link what one run of `serve` over all their sessions sends,
/// and the entries rebuild the server in which that ends.
pub fn runs_of_keep_are_one_of_serve()
    ensures { RunsAreOne }
{}
