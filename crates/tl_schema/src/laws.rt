//! Laws of the definitions, each carried by a function that does nothing.
ghost use Rattle.std.specs.Prelude.{ℕ, List};
ghost use Rattle.tl_program.specs.Program.{DeclText};
ghost use Rattle.tl_schema.specs.FormedLaws.{ClosingKeepsFormed, FieldsAreFormed, ResultsAreFormed};
ghost use Rattle.tl_schema.specs.Meanings.{IsSmall};
ghost use Rattle.tl_schema.specs.OneAnswer.{IsOneSchemaOrRefused, IsOneTypeOrRefused, NumbersFit};

/// Each program within the condition of `check` passes and has one schema, or is refused at one declaration for one cause.
pub fn each_program_is_a_schema_or_refused()
    ensures { (ds : List DeclText) → IsSmall ds → NumbersFit ds → IsOneSchemaOrRefused ds }
{}

/// Over each program each text is one type, or is refused for one fault.
pub fn each_text_is_a_type_or_refused()
    ensures { (ds : List DeclText) (text : List ℕ) → IsOneTypeOrRefused ds text }
{}

/// In a schema each field has a good condition, and is a flag or has a formed type; the lines of built-in types aside.
pub fn fields_are_formed()
    ensures { FieldsAreFormed }
{}

/// A formed type stays formed where formed arguments stand in place of its variables, and one that takes bytes takes bytes.
pub fn closing_keeps_formed()
    ensures { ClosingKeepsFormed }
{}

/// In a schema the result of each function is formed over its variables.
pub fn results_are_formed()
    ensures { ResultsAreFormed }
{}
