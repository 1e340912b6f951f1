//! Laws of what `post` does.
ghost use Rattle.session_rooms.specs.PostWrites.{PostWrites};

/// Whatever stops it, it has written nothing to Output and taken no link; or it has sent a prefix of what an answer sends, and written a prefix of its Output. Where
/// memory runs out it has written nothing to Output.
pub fn post_writes()
    ensures { PostWrites }
{}
