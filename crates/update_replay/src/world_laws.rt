//! Laws of reports, each carried by a function that does nothing.
ghost use Rattle.update_replay.specs.Laws.{NewPacketsAreAdded, StepsAreOfRuns, ClientsAreTold, ClosingsAreOwn, DrawsAreSmall, FirstDraw, MadeStepsAreRefusedByBytes, MadeDatesAreNext, MadeDatesStayBelow, SummariesAreOfRuns};

/// The lines of a step tell all packets that it sends, and after every list of steps they are of the numbers of the world after it.
pub fn steps_are_told()
    ensures added { NewPacketsAreAdded }
    ensures run { StepsAreOfRuns }
{}

/// After every list of steps, what each client has is what lies in the server's boxes between its numbers, and its settings are the server's
/// latest at its seq; so the closing lines, which are of numbers and of the server, are those of the clients themselves.
pub fn clients_are_told()
    ensures told { ClientsAreTold }
    ensures lines { ClosingsAreOwn }
{}

/// What is drawn has 31 bits, and a step that is made of draws is possible, but where the pool has no place for what it sends. It sets the clock
/// one second on, if at all.
pub fn made_steps_are_possible()
    ensures small { DrawsAreSmall }
    ensures first { FirstDraw }
    ensures refused { MadeStepsAreRefusedByBytes }
    ensures dates { MadeDatesAreNext }
    ensures below { MadeDatesStayBelow }
{}

/// The summary of a run tells its packets, its server and its clients as they are.
pub fn summaries_are_of_runs()
    ensures { SummariesAreOfRuns }
{}
