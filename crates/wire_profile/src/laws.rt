//! Laws of profiles, each carried by a function that does nothing.
ghost use Rattle.wire_profile.specs.SpelledForms.{FormsAreSpelled};

/// In each profile bytes spell just the values of the forms, with the numbers of its schema in them.
pub fn forms_are_spelled()
    ensures { FormsAreSpelled }
{}
