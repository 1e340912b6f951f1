//! Laws of the definitions, each carried by a function that does nothing.
ghost use Rattle.fault_lines.specs.Profiled.{AnswersAreProfiles, SchemasAreAnswered, SchemasHaveOneAnswer};

/// A schema is a profile in one way, or is none for one cause.
pub fn schemas_are_profiles_or_not()
    ensures answered { SchemasAreAnswered }
    ensures one { SchemasHaveOneAnswer }
    ensures profiles { AnswersAreProfiles }
{}
