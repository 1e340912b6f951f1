//! Laws of what servers and clients send, each carried by a function that does nothing.
ghost use Rattle.box_world.specs.FrameLaws.{AnswersAreBelow, AnswersFit, AnswersHaveSpellings, AsksAreBelow, AsksFit, ClientsAreSaved, ClientsKeepSpellings, ClientsStayDated, LoadedHaveSpellings, PushesAreBelow, PushesFit, PushesHaveSpellings, ReadClientsAreDated, ReadClientsAreTaken, ReadFramesAreDated, ReadFramesAreTaken, ReceiptsAreBelow, ReceiptsHaveSpellings, RefusalsAreBelow, RefusalsHaveSpellings, RunsFit, ServersKeepSpellings, WarningsAreBelow, WarningsFit, WarningsHaveSpellings};

/// What a sound server sends, and what a client asks, is its value's again and has no cause: it is read as it was spelled.
pub fn what_is_sent_is_read()
    ensures pushes { PushesFit }
    ensures answers { AnswersFit }
    ensures warnings { WarningsFit }
    ensures asks { AsksFit }
{}

/// What a sound server sends, and what a client asks, has no more bytes than a frame may have.
pub fn what_is_sent_is_short()
    ensures pushes { PushesAreBelow }
    ensures answers { AnswersAreBelow }
    ensures warnings { WarningsAreBelow }
    ensures receipts { ReceiptsAreBelow }
    ensures refusals { RefusalsAreBelow }
    ensures asks { AsksAreBelow }
{}

/// What is read is in the range of a client's calls, and keeps its dates in the range of its requests.
pub fn what_is_read_is_taken()
    ensures frames { ReadFramesAreTaken }
    ensures clients { ReadClientsAreTaken }
    ensures dated { ReadFramesAreDated }
    ensures clients_dated { ReadClientsAreDated }
    ensures stay_dated { ClientsStayDated }
{}

/// What is sent has a spelling where each part of what was posted has one.
pub fn what_is_sent_has_a_spelling()
    ensures servers { ServersKeepSpellings }
    ensures clients { ClientsKeepSpellings }
    ensures saved { ClientsAreSaved }
    ensures loaded { LoadedHaveSpellings }
    ensures pushes { PushesHaveSpellings }
    ensures answers { AnswersHaveSpellings }
    ensures receipts { ReceiptsHaveSpellings }
    ensures refusals { RefusalsHaveSpellings }
    ensures warnings { WarningsHaveSpellings }
    ensures runs { RunsFit }
{}
