//! Laws of the definitions, each carried by a function that does nothing.
ghost use Rattle.tl_calls.specs.Laws.{AnsweredInFormed, EachHasOneLog, EachIsGivenOnce, EachVariableIsCalled, ResultsAreTheCalls};

/// A call that is answered in its result has a formed one.
pub fn answers_are_formed()
    ensures { AnsweredInFormed }
{}

/// In a schema each variable of a function stands in one field `!X`.
pub fn each_variable_is_called()
    ensures { EachVariableIsCalled }
{}

/// The result of a variable is that of the call in its field.
pub fn results_are_the_calls()
    ensures { ResultsAreTheCalls }
{}

/// What each answer gives is told by the events alone: each list of them has one log.
pub fn each_list_has_one_log()
    ensures { EachHasOneLog }
{}

/// What is handed out is the answer's value in its call's own result, and each call's once.
pub fn each_is_given_once()
    ensures { EachIsGivenOnce }
{}
