//! Laws of the definitions, each carried by a function that does nothing.
ghost use Rattle.codec_commands.specs.Layers.{EachHasOneAnswer};

/// Where both files are there, `layers` has one answer.
pub fn files_have_one_answer()
    ensures { EachHasOneAnswer }
{}
