//! The laws, each carried by a function that does nothing.
ghost use Rattle.headline.specs.Answering.{AnswersBringUpToDate};
ghost use Rattle.headline.specs.Boxes.{RunsKeepBoxes};
ghost use Rattle.headline.specs.CatchingUp.{HonestSessionsCatchUp};
ghost use Rattle.headline.specs.CatchingUpChannels.{HonestSessionsCatchUpByChannel};
ghost use Rattle.headline.specs.Client.{ClientHeadline};
ghost use Rattle.headline.specs.States.{StatesGoOn};
ghost use Rattle.headline.specs.Conversations.{ConversationsEnd, LoadedCanBegin};
ghost use Rattle.headline.specs.Ending.{SessionsEnd, SessionsEndInOrder};
ghost use Rattle.headline.specs.Histories.{HistoriesAreSound, KeptRunsGoOn, SessionsGoOn};
ghost use Rattle.headline.specs.Instances.{ClientsHaveBoxes, StreamsAreSent, StretchesAreExact};
ghost use Rattle.headline.specs.KeptRuns.{KeptClientsMeet, KeptRunsMeet};
ghost use Rattle.headline.specs.Meetings.{LoadedAskNothing, StatesMeetServers};
ghost use Rattle.headline.specs.Replay.{ReplayHeadline};
ghost use Rattle.headline.specs.ServedRuns.{ServedRunsMeet};
ghost use Rattle.headline.specs.TwoClients.{TwoClientsMeet};
ghost use Rattle.headline.specs.TwoPrograms.{TwoProgramsMeet};

/// After every list of steps each client has the server's boxes from its restarts to its positions, its common and secret boxes whole; no position falls as
/// more steps come; and a finished difference reached where the server was.
pub fn runs_keep_boxes()
    ensures { RunsKeepBoxes }
{}

/// A client that asks an honest server for all that is new, and hears frames until it asks no more, stands at or past where the server was at its last answer,
/// and so does each channel that it watches.
pub fn honest_sessions_catch_up()
    ensures group { HonestSessionsCatchUp }
    ensures channels { HonestSessionsCatchUpByChannel }
{}

/// For each client that agrees with its server there are answers of that server which end its session: an honest stream, of so many frames at most. The answers
/// to all that it asks, in that order, are such.
pub fn sessions_end()
    ensures some { SessionsEnd }
    ensures in_order { SessionsEndInOrder }
{}

/// One server's answers to a client's own requests are an honest stream, and bring it up to date.
pub fn answers_bring_up_to_date()
    ensures { AnswersBringUpToDate }
{}

/// Small cases that a wrong definition would turn round: what lies between two numbers of a box, which clients have it, which streams are honest.
pub fn small_cases_hold()
    ensures stretches { StretchesAreExact }
    ensures clients { ClientsHaveBoxes }
    ensures streams { StreamsAreSent }
{}

/// A client that was saved by one run and loaded by the next still agrees with its server, however many runs there were.
pub fn states_go_on()
    ensures { StatesGoOn }
{}

/// A run of `replay` in which no call failed and memory sufficed refuses at a place and for a cause, or reports exactly the journal's steps: each client's boxes are the server's from its restarts to its
/// positions, each event once, its settings are the server's at its seq, and each finished difference reached where the server was that answered.
pub fn what_replay_promises()
    ensures { ReplayHeadline }
{}

/// A run of `client` that ends with status 0, from a state that agreed with a server and over that server's honest link, saved a client whose boxes are the
/// server's, and which stands at or past where the server was at its last answer, each channel at its own.
pub fn what_client_promises()
    ensures { ClientHeadline }
{}

/// What a server's session sends to a client's session that asks it is an honest stream, and brings the client up to date, however the server's session ends;
/// and for each client of a state file there are two such sessions, each of which comes to its end.
pub fn two_programs_meet()
    ensures meet { TwoProgramsMeet }
    ensures begin { LoadedCanBegin }
    ensures end { ConversationsEnd }
{}

/// The server after sessions of `serve`, or of `keep`, has more of the history that it had, of posts that came as bytes, however the sessions ended; and such
/// servers are sound.
pub fn servers_have_histories()
    ensures sound { HistoriesAreSound }
    ensures serve { SessionsGoOn }
    ensures keep { KeptRunsGoOn }
{}

/// Runs of `client` on one state file against one server, session by session: each ends up to date, and what it saved begins the next.
pub fn states_meet_servers()
    ensures calm { LoadedAskNothing }
    ensures meet { StatesMeetServers }
{}

/// A run of `client` over a link that a run of `serve` is on in one of its sessions: each is sent what the other's link gave. What the client saved is up to date
/// with the server, and its state agrees with it. Two such clients, in sessions one after the other, are up to date with one history.
pub fn served_runs_meet()
    ensures one { ServedRunsMeet }
    ensures two { TwoClientsMeet }
{}

/// The same of runs of `client` and one of `keep`, whose server is the one that the entries of its file rebuild.
pub fn kept_runs_meet()
    ensures one { KeptRunsMeet }
    ensures two { KeptClientsMeet }
{}
