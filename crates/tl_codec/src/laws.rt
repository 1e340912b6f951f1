//! Laws of the definitions, each carried by a function that does nothing.
ghost use Rattle.tl_codec.specs.Laws.{ComparesAlike, EachAnswersAlike, RefusesAlike};

/// What is made of texts and bytes is what the program answers over files that have them, of which each has one answer at most.
pub fn answers_as_program()
    ensures refuses { RefusesAlike }
    ensures answers { EachAnswersAlike }
    ensures compares { ComparesAlike }
{}
