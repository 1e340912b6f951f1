//! Laws of the definitions, each carried by a function that does nothing.
ghost use Rattle.tl_decode.specs.Decoders.{EachRefusalStays};
ghost use Rattle.tl_decode.specs.Endings.{EachItemTakesFour};
ghost use Rattle.tl_decode.specs.Laws.{RefusesLooseStrings, RefusesNoValue, TakesNothingAfter};
ghost use Rattle.tl_decode.specs.Sizes.{EachSizeIsBounded, FlagsHaveConditions, HasFewFields, HasWidths, HoldsOfTexts, HoldsOfTypes};

/// A value that n bytes spell, of at most `MAX_LEVELS` levels, has at most 32,768 E (n / 4 + 1) nodes. E is at least 1, and bounds the nodes of those
/// of its type's parts that no bytes spell.
pub fn each_size_is_bounded()
    ensures { EachSizeIsBounded }
{}

/// The schema of each text and each type that a text asks for is as the bound wants them.
pub fn each_text_allows_the_bound()
    ensures fields { HoldsOfTexts HasFewFields }
    ensures flags { HoldsOfTexts FlagsHaveConditions }
    ensures widths { HoldsOfTypes HasWidths }
{}

/// A type that is no flag, no bare record and not opaque with fewer than four bytes takes four bytes at least.
pub fn each_item_takes_four()
    ensures { EachItemTakesFour }
{}

/// A decoder that has refused its bytes refuses all bytes that begin with them.
pub fn each_refusal_stays()
    ensures { EachRefusalStays }
{}

/// Decoding refuses no value, takes no byte after one, and takes no string in a form that is longer than it need be.
pub fn decoding_is_exact()
    ensures spelled { RefusesNoValue }
    ensures after { TakesNothingAfter }
    ensures loose { RefusesLooseStrings }
{}
