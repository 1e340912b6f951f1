//! Laws of the definitions, each carried by a function that does nothing.
ghost use Rattle.tl_show.specs.ReadsBack.{EachTextTells, EachValueReadsBack};

/// In a schema whose names tell what they name each value of a type is read from what is shown of it.
pub fn each_value_reads_back()
    ensures { EachValueReadsBack }
{}

/// The names of a text's schema tell what they name: so over the schema of a text each value is read from what is shown of it.
pub fn each_text_tells()
    ensures { EachTextTells }
{}
