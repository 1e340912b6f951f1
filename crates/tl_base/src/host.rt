//! The outside of a program.
ghost use Rattle.std.specs.Prelude.{◌≡◌, ◌≤◌, ◌<◌, ◌^◌, IsErr, IfOk, IfSome, IsSome, IsTrue, Ok, length};
ghost use Rattle.std.specs.Io.{ReadsAtMost, WritesAtMost};
ghost use Rattle.tl_base.specs.Kinds.{slot_kind, out_kind};
ghost use Rattle.tl_base.specs.Outside.{View, HostState, ShowsBytes, IsThere, HasRoom};
ghost use Rattle.tl_base.specs.Calls.{Told, Opens, ReadsSlot, Creates, WritesOut, Listens, Connects, Accepts, TellsMoment};
ghost use Rattle.tl_base.specs.Using.{MeetsFaults};

use crate::counts::Kind;
use crate::fault::Failed;

/// What is read.
#[derive(Clone, Copy, PartialEq)]
pub enum Slot {
    Schema,
    Input,
    State,
    Link,
}

/// What is written to.
#[derive(Clone, Copy, PartialEq)]
pub enum Out {
    Output,
    Errors,
    State,
    Link,
}

impl Slot {
    /// What reading the slot is for.
    pub fn kind(self) -> Kind
        ensures { result ≡ slot_kind self }
    {
        match self {
            Slot::Schema | Slot::Input | Slot::State => Kind::Reads,
            Slot::Link => Kind::Links,
        }
    }
}

impl Out {
    /// What writing to the out is for.
    pub fn kind(self) -> Kind
        ensures { result ≡ out_kind self }
    {
        match self {
            Out::Output | Out::Errors | Out::State => Kind::Writes,
            Out::Link => Kind::Links,
        }
    }
}

/// The outside of a program: files to read from, outs to write to, links to others, and the time.
pub trait Host {
    /// Its view, where it tells it, its counts of failed calls, and whether it is sound.
    ghost state: { Self → HostState };

    /// Opens the first file with the name, to be read from its first byte.
    fn open_slot(&mut self, slot: Slot, name: &str) -> Result<(), Failed>
        ensures view { Told (state self.old).view (state self.new).view (Opens slot name.now result) }
        ensures faults { MeetsFaults (slot_kind slot) (state self.old) (state self.new) (IsErr result) (IsThere name.now) };

    /// Takes up to as many bytes as the buffer holds. None, for a buffer with room, means the end.
    fn read(&mut self, slot: Slot, into: &mut [u8]) -> Result<usize, Failed>
        ensures bound { ReadsAtMost result into.new }
        ensures empty { length into.old ≡ 0 → result ≡ Ok 0 }
        ensures view { Told (state self.old).view (state self.new).view (ReadsSlot slot into.new result) }
        ensures faults { MeetsFaults (slot_kind slot) (state self.old) (state self.new) (IsErr result) (λ _. Unit {0}) };

    /// Names an out, and empties it. It is called for State alone: the others stand ready.
    fn create(&mut self, out: Out, name: &str) -> Result<(), Failed>
        ensures view { Told (state self.old).view (state self.new).view (Creates out name.now result) }
        ensures faults { MeetsFaults (out_kind out) (state self.old) (state self.new) (IsErr result) (λ v. length name.now ≤ v.room) };

    /// Appends a prefix of the piece, at least one byte of a piece that has any.
    fn write(&mut self, out: Out, piece: &[u8]) -> Result<usize, Failed>
        ensures bound { WritesAtMost result piece.now }
        ensures some { 0 < length piece.now → IfOk result (λ n. 0 < n) }
        ensures empty { length piece.now ≡ 0 → result ≡ Ok 0 }
        ensures view { Told (state self.old).view (state self.new).view (WritesOut out piece.now result) }
        ensures faults { MeetsFaults (out_kind out) (state self.old) (state self.new) (IsErr result) (HasRoom out 1) };

    /// Takes connections at an address from now on.
    fn listen(&mut self, address: &str) -> Result<(), Failed>
        ensures view { Told (state self.old).view (state self.new).view (Listens address.now result) }
        ensures faults { MeetsFaults Kind.Links (state self.old) (state self.new) (IsErr result) (λ v. length address.now ≤ v.room) };

    /// Makes a link to an address.
    fn connect(&mut self, address: &str) -> Result<(), Failed>
        ensures view { Told (state self.old).view (state self.new).view (Connects address.now result) }
        ensures faults { MeetsFaults Kind.Links (state self.old) (state self.new) (IsErr result) (λ v. (0 < length v.links) × (length address.now ≤ v.room)) };

    /// Takes the next link that somebody makes.
    fn accept(&mut self) -> Result<(), Failed>
        ensures view { Told (state self.old).view (state self.new).view (Accepts result) }
        ensures faults { MeetsFaults Kind.Links (state self.old) (state self.new) (IsErr result) (λ v. 0 < length v.links) };

    /// The time in seconds.
    fn now(&mut self) -> u32
        ensures moment { result < 2 ^ 31 }
        ensures view { Told (state self.old).view (state self.new).view (TellsMoment result) }
        ensures counts { (state self.new).counts ≡ (state self.old).counts }
        ensures sound { IsSome (state self.old).view → IsTrue (state self.old).sound → IsTrue (state self.new).sound };

    /// What a view shows are bytes.
    ghost are_bytes: { (h : Self) → IfSome (state h).view ShowsBytes };
}
