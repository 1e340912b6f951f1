//! Laws of the definitions, each carried by a function that does nothing.
ghost use Rattle.call_commands.specs.Calls.{EachFileHasOneAnswer, EachHasOneAnswer, EachLogIsGiven};

/// A file of bytes has one answer, in each schema.
pub fn each_file_has_one_answer()
    ensures { EachFileHasOneAnswer }
{}

/// Files of bytes have one answer to `calls` at most, and one where both are there.
pub fn files_have_one_answer()
    ensures { EachHasOneAnswer }
{}

/// What is told of a file's packets is what they give.
pub fn each_log_is_given()
    ensures { EachLogIsGiven }
{}
