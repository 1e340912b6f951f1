//! Laws of the definitions, each carried by a function that does nothing.
ghost use Rattle.tl_encode.specs.ReadBack.{EachSpellingReadsBack};

/// Each value that fits a formed type of a schema has a spelling, and of bytes that begin with one of its spellings that value is read, and
/// nothing else: decoding undoes encoding.
pub fn each_spelling_reads_back()
    ensures { EachSpellingReadsBack }
{}
