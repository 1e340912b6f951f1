//! Laws of replays, each carried by a function that does nothing.
ghost use Rattle.update_replay.specs.ReplayLaws.{EachJournalIsReplayed, LongJournalsAreAlike, ReplaysAreOne, StoppedArePrefixes};

/// A journal has one replay at most, and what one that stopped before has written is a prefix of its output. What follows after the limit is never looked at.
pub fn journals_are_replayed_in_one_way()
    ensures one { ReplaysAreOne }
    ensures prefixes { StoppedArePrefixes }
    ensures long { LongJournalsAreAlike }
{}

/// Each journal has a replay: it comes to the journal's end, or to what is refused there.
pub fn each_journal_is_replayed()
    ensures { EachJournalIsReplayed }
{}
