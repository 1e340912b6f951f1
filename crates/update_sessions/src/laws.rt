//! Laws of sessions, carried by a function that does nothing.
ghost use Rattle.update_sessions.specs.Laws.{CallsAreKept, RebuiltServeAlike, SessionsKeepDates};
ghost use Rattle.update_sessions.specs.Waiting.{NeverBothWait, RequestsAreNeverLost};

/// Entries with what a session's calls add rebuild the server after it; a server that entries rebuild serves as the one that they were kept of;
/// and no session changes the date to which the server was set.
pub fn sessions_are_kept()
    ensures kept { CallsAreKept }
    ensures alike { RebuiltServeAlike }
    ensures dates { SessionsKeepDates }
{}

/// A client that waited for nothing before begins a conversation with any server. Each request that it has open, or a reply to it, is on its way all the
/// time; so while the client still asks, one of the two has a message to take.
pub fn conversations_never_wait()
    ensures lost { RequestsAreNeverLost }
    ensures wait { NeverBothWait }
{}
