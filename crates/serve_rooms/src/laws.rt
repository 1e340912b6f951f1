//! Laws of what `serve` and `keep` do.
ghost use Rattle.serve_rooms.specs.ServeLaws.{KeepHasCause, KeepReadsFirst, KeepTouches};
ghost use Rattle.serve_rooms.specs.ServedBytes.{SessionsAnswer};

/// A run of `keep` does with its host no more than one of `serve`.
pub fn keep_touches()
    ensures { KeepTouches }
{}

/// It reads its keeper's entries before anything listens.
pub fn keep_reads_first()
    ensures { KeepReadsFirst }
{}

/// It ends by the status of a fault only where a call of that kind failed, and by the keeper's fault only where a call to the keeper failed.
pub fn keep_has_cause()
    ensures { KeepHasCause }
{}

/// Over an outside whose link gives bytes, what is answered until the link ends is a session of the server over these bytes, however it ends: this was sent, these
/// calls were taken, and their entries are those that were added.
pub fn sessions_answer()
    ensures { SessionsAnswer }
{}
