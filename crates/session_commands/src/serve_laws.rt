//! Laws of the definitions of `serve`, each carried by a function that does nothing.
ghost use Rattle.session_commands.specs.Serve.{ServeHasOneAnswer, ServesAreAnswered};

/// Over links that give bytes, `serve` has one answer at most, and one where files hold bytes, the schema's is there and moments have 31 bits.
pub fn serve_has_one_answer()
    ensures one { ServeHasOneAnswer }
    ensures there { ServesAreAnswered }
{}
