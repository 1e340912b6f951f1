//! Replays of journals.
ghost use Rattle.std.specs.Prelude.{◌≡◌, IfSome, IsErrOf, length};
ghost use Rattle.tl_base.specs.Using.{Used, WritesOnly};
ghost use Rattle.update_replay.specs.Replays.{IsNew, NeverFull, ReplaysOn, goes_on, seen_of};

use crate::fault::ReplayFault;
use crate::limits::MAX_JOURNAL_BYTES;
use crate::machine::Replay;
use std::alloc::Global;
use tl_base::{Sink, Source, take_text, write_all};
use update_world::World;

/// Replays the journal that a source has left, from a new world: takes its bytes, makes its steps, writes each step's lines when it is made, and the closing
/// lines at the end; and answers how many steps there were. After a refusal by the journal the world stands for the steps before, but after `PoolFull`.
pub fn replay_steps<S: Source, K: Sink>(
    alloc: Global,
    world: &mut World,
    from: &mut S,
    to: &mut K,
) -> Result<u32, ReplayFault>
    requires { IsNew world.old }
    ensures replayed { IfSome (S.state from.old).left (λ journal. ReplaysOn world.old.profile (length world.old.clients) journal world.new (K.state to.old).written (K.state to.new).written result) }
    ensures read { Used (S.state from.old) (S.state from.new) (IsErrOf result ReplayFault.ReadFault) }
    ensures written { WritesOnly (K.state to.old) (K.state to.new) (IsErrOf result ReplayFault.WriteFault) }
    ensures fits { IfSome (S.state from.old).left (λ journal. NeverFull world.old.profile (length world.old.clients) (seen_of journal) (goes_on journal) (K.state to.old).written (K.state to.old).sound (K.state to.old).room (IsErrOf result ReplayFault.WriteFault)) }
{
    let journal = take_text(alloc, from, MAX_JOURNAL_BYTES)?;
    write_steps(alloc, world, &journal, to)
}

// Makes the steps of a journal in a new world, and writes the lines of each when it is made.
fn write_steps<K: Sink>(
    alloc: Global,
    world: &mut World,
    journal: &[u8],
    to: &mut K,
) -> Result<u32, ReplayFault>
    requires { IsNew world.old }
    ensures replayed { ReplaysOn world.old.profile (length world.old.clients) journal.now world.new (K.state to.old).written (K.state to.new).written result }
    ensures unread { IsErrOf result ReplayFault.ReadFault → ⊥ }
    ensures written { WritesOnly (K.state to.old) (K.state to.new) (IsErrOf result ReplayFault.WriteFault) }
    ensures fits { NeverFull world.old.profile (length world.old.clients) (seen_of journal.now) (goes_on journal.now) (K.state to.old).written (K.state to.old).sound (K.state to.old).room (IsErrOf result ReplayFault.WriteFault) }
{
    let mut replay = Replay::new(alloc, journal);
    'steps: loop {
        let more = replay.next(alloc, world)?;
        write_all(to, replay.lines())?;
        if !more {
            return Ok(replay.steps());
        }
    }
}
