//! Laws of the definitions, each carried by a function that does nothing.
ghost use Rattle.tl_types.specs.Exactly.{EachIsSpelledOrRefused};
ghost use Rattle.tl_types.specs.FitsExactly.{EachFitsExactly};

/// Over each formed type of a schema and each list of bytes exactly one holds: one prefix spells one value, or the bytes are refused at one offset for one cause.
pub fn each_input_is_spelled_or_refused()
    ensures { EachIsSpelledOrRefused }
{}

/// Over each formed type of a schema a value has no misfit exactly where some bytes spell it within the levels.
pub fn each_value_fits_or_is_a_misfit()
    ensures { EachFitsExactly }
{}
