//! Laws over the definitions.
ghost use Rattle.std.specs.Prelude.{ℕ, List};
ghost use Rattle.commands.specs.Requests.{Asks};
ghost use Rattle.run_laws.specs.Answers.{HasAnAnswer, HasOneAnswer, RequestHasOneAnswer};
ghost use Rattle.run_laws.specs.Runs.{RequestsAreTold, RequestsEnd, RequestsReadFiles, StoredAreTold, StoredEnds, StoredReadFiles, WordsAreSound, WordsAreTold, WordsEnd, WordsKeep, WordsReadFiles};
ghost use Rattle.run_laws.specs.Sessions.{AllAnswer, NextAnswers};
ghost use Rattle.run_laws.specs.Touched.{FailuresAreCounted, RequestsHaveCause, RequestsTouch, WordsHaveCause, WordsLeaveLinks, WordsTouch};

/// Over any host a run of words of no request does nothing but tell a line, and one of a request nothing but what is of it: its files, each by its slot, its
/// address, and its outs. One that uses no links touches none.
pub fn words_touch()
    ensures touched { WordsTouch }
    ensures unlinked { WordsLeaveLinks }
{}

/// Over any host a fault's status comes only of a request, and only where a call of that kind failed; and where one failed its count rose, which a host shows that
/// tells nothing else.
pub fn words_have_cause()
    ensures caused { WordsHaveCause }
    ensures counted { FailuresAreCounted }
{}

/// Over an outside that shows what it holds a run ends with the answer to its words, or is stopped where a call failed or memory ran out; and by no fault where none was
/// told to fail, the files and links are there, and there is room. Whatever room there is, files that are there are read then, and each line for which Errors has room
/// stands there whole.
pub fn words_end()
    ensures ends { WordsEnd }
    ensures sound { WordsAreSound }
    ensures reads { WordsReadFiles }
    ensures told { WordsAreTold }
{}

/// All this holds of a request's run, whichever operands it has: also such as no words have, as an empty name or one that begins with `-`; and, but where a job's one
/// answer rests on it, over an outside that shows other than bytes.
pub fn requests_end()
    ensures ends { RequestsEnd }
    ensures reads { RequestsReadFiles }
    ensures told { RequestsAreTold }
    ensures touched { RequestsTouch }
    ensures caused { RequestsHaveCause }
{}

/// What isn't of its words is as before, whatever happens.
pub fn words_keep()
    ensures { WordsKeep }
{}

/// A run of `keep` ends as its job over the entries that were there, or is stopped; by how it ended it adds the entries of its posts, or of its first sessions' (`KeptEnds`).
/// Where no call was told to fail, its schema's file is read, and each line for which Errors has room stands there whole.
pub fn stored_runs_end()
    ensures ends { StoredEnds }
    ensures reads { StoredReadFiles }
    ensures told { StoredAreTold }
{}

/// From any server and tally on, what is answered over the next link, after which others may come, is a session of the server over what the link gives, however it ends;
/// and so are all sessions, one after the other, where no fault of Output ended them, nor one of a link before all were served.
pub fn all_sessions_answer()
    ensures next { NextAnswers }
    ensures all { AllAnswer }
{}

/// Words have one answer at most, so that a run which ends with an answer ends with theirs: of `replay` and `calls` where files hold bytes, of `serve`,
/// `post` and `client` where all that is shown are bytes, as each host shows them. So has a request, whichever operands it has.
pub fn words_and_files_have_one_answer()
    ensures words { HasOneAnswer }
    ensures request { RequestHasOneAnswer }
{}

/// Words have an answer where the files that they name are there and files hold bytes, as do links where they are used, moments have 31 bits, as each
/// host's have, and a client's link gives fewer than 2^30 bytes; and words ask for nothing or for a request.
pub fn words_and_files_have_an_answer()
    ensures answered { HasAnAnswer }
    ensures asked { (words : List (List ℕ)) → Asks words }
{}
