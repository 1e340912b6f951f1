//! Laws of the definitions, each carried by a function that does nothing.
ghost use Rattle.session_commands.specs.Client.{ClientHasOneAnswer, ClientsAreAnswered};
ghost use Rattle.session_commands.specs.Post.{PostHasOneAnswer, PostsAreAnswered};

/// Over a link that gives bytes, `post` has one answer at most, and one where files hold bytes and both are there.
pub fn post_has_one_answer()
    ensures one { PostHasOneAnswer }
    ensures there { PostsAreAnswered }
{}

/// Over a link that gives bytes, and of files that hold bytes, `client` has one answer at most, and one where both are there, ids have 64 bits, and the link
/// gives fewer than 2^30 bytes.
pub fn client_has_one_answer()
    ensures one { ClientHasOneAnswer }
    ensures there { ClientsAreAnswered }
{}
