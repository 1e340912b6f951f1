//! An outside in memory.
ghost use Rattle.std.specs.Prelude.{◌≡◌, ◌<◌, ◌≤◌, ◌^◌, ◌∷◌, ◌++◌, [], IfOk, OnOk, OnErr, IsErr, IsSome, IsTrue, Ok, length, get_or};

use crate::counts::{Counts, Kind};
use crate::fault::{Failed, Memory};
use crate::host::{Host, Out, Slot};
use crate::mem_script::{Failing, HostCall, Script};
use crate::mem_shown::MemShown;
use crate::pieces::most_at;
use std::alloc::Global;
use tl_numbers::Bytes;

/// Files, outs, links, moments and counts in memory. It tells its view.
pub struct MemHost {
    shown: MemShown,
    script: Script,
    counts: Counts,
}

// By hand, so that each exit of an owner has one call to prove.
impl Drop for MemHost {
    fn drop(self) {
        let MemHost {
            shown: _,
            script: _,
            counts: _,
        } = self;
    }
}

impl MemHost {
    ghost use Rattle.tl_base.specs.Kinds.{no_faults};
    ghost use Rattle.tl_base.specs.Outside.{written_of};
    ghost use Rattle.tl_base.specs.Scripts.{no_script};
    ghost use Rattle.tl_base.specs.MemoryShown.{nothing_shown};
    ghost use Rattle.tl_base.specs.MemoryHost.{host_view, host_script, host_counts};

    /// An outside without files and links, whose outs, links and names may have `room` bytes each. It takes their memory.
    pub fn new(alloc: Global, room: u32) -> Result<MemHost, Memory>
        ensures view { IfOk result (λ h. host_view h ≡ nothing_shown room) }
        ensures script { IfOk result (λ h. host_script h ≡ no_script) }
        ensures counts { IfOk result (λ h. host_counts h ≡ no_faults) }
    {
        Ok(MemHost {
            shown: MemShown::new(alloc, room)?,
            script: Script::new(alloc),
            counts: Counts::none(),
        })
    }

    /// Adds a file after the others. Before the run.
    pub fn file(&mut self, alloc: Global, name: &str, bytes: Bytes) -> Result<(), Memory>
        ensures ok { OnOk result (host_view self.new ≡ record (host_view self.old) { files = (host_view self.old).files ++ (name.now, bytes) ∷ [] }) }
        ensures err { OnErr result (host_view self.new ≡ host_view self.old) }
        ensures script { host_script self.new ≡ host_script self.old }
        ensures counts { host_counts self.new ≡ host_counts self.old }
    {
        self.shown.add_file(alloc, name, bytes)
    }

    /// Adds a link to come after the others, with the bytes that it will give. Before the run.
    pub fn link(&mut self, alloc: Global, bytes: Bytes) -> Result<(), Memory>
        ensures ok { OnOk result (host_view self.new ≡ record (host_view self.old) { links = (host_view self.old).links ++ bytes ∷ [] }) }
        ensures err { OnErr result (host_view self.new ≡ host_view self.old) }
        ensures script { host_script self.new ≡ host_script self.old }
        ensures counts { host_counts self.new ≡ host_counts self.old }
    {
        self.shown.add_link(alloc, bytes)
    }

    /// Adds a moment to come after the others. Before the run.
    pub fn moment(&mut self, now: u32) -> Result<(), Memory>
        requires { now < 2 ^ 31 }
        ensures ok { OnOk result (host_view self.new ≡ record (host_view self.old) { moments = (host_view self.old).moments ++ now ∷ [] }) }
        ensures err { OnErr result (host_view self.new ≡ host_view self.old) }
        ensures script { host_script self.new ≡ host_script self.old }
        ensures counts { host_counts self.new ≡ host_counts self.old }
    {
        self.shown.add_moment(now)
    }

    /// Adds a cut: the next read of each slot that has no cut yet gives at most so many bytes, where that is above 0.
    pub fn cut(&mut self, most: u32) -> Result<(), Memory>
        ensures ok { OnOk result (host_script self.new ≡ record (host_script self.old) { cuts = (host_script self.old).cuts ++ most ∷ [] }) }
        ensures err { OnErr result (host_script self.new ≡ host_script self.old) }
        ensures view { host_view self.new ≡ host_view self.old }
        ensures counts { host_counts self.new ≡ host_counts self.old }
    {
        self.script.cuts.push(most)?;
        Ok(())
    }

    /// Lets call number `number` of this kind, from 0, fail.
    pub fn fail(&mut self, call: HostCall, number: u64) -> Result<(), Memory>
        ensures ok { OnOk result (host_script self.new ≡ record (host_script self.old) { fails = (host_script self.old).fails ++ record { call = call; number = number } ∷ [] }) }
        ensures err { OnErr result (host_script self.new ≡ host_script self.old) }
        ensures view { host_view self.new ≡ host_view self.old }
        ensures counts { host_counts self.new ≡ host_counts self.old }
    {
        self.script.fails.push(Failing { call, number })?;
        Ok(())
    }

    /// What was written to an out.
    pub fn written(&self, out: Out) -> &[u8]
        ensures { result.now ≡ written_of out (host_view self.now) }
    {
        self.shown.written(out)
    }

    /// What was written to link number i of those taken, from 0.
    pub fn link_written(&self, i: u32) -> &[u8]
        requires { i < length (host_view self.now).written.links }
        ensures { result.now ≡ get_or (host_view self.now).written.links i [] }
    {
        self.shown.link_written(i as usize)
    }
}

impl Host for MemHost {
    ghost use Rattle.std.specs.Io.{ReadsAtMost, WritesAtMost};
    ghost use Rattle.tl_base.specs.Kinds.{slot_kind, out_kind, counts_after};
    ghost use Rattle.tl_base.specs.Outside.{IsThere, HasRoom};
    ghost use Rattle.tl_base.specs.Calls.{Told, Opens, ReadsSlot, Creates, WritesOut, Listens, Connects, Accepts, TellsMoment};
    ghost use Rattle.tl_base.specs.Using.{MeetsFaults};
    ghost use Rattle.tl_base.specs.Scripts.{counted};
    ghost use Rattle.tl_base.specs.MemoryHost.{host_state, host_script, host_counts, AnswersAsTold, GivesAsTold, TakesAsTold};
    ghost use Rattle.tl_base.specs.ShownLaws.{shows_bytes};
    ghost use Rattle.tl_base.specs.declared.counts.Kind.TheVariants.{Links};
    ghost use Rattle.tl_base.specs.declared.mem_script.HostCall.TheVariants.{Open, Read, Create, Write, Listen, Connect, Accept};

    ghost state = { host_state };

    ghost are_bytes = { λ h. shows_bytes h.shown };

    fn open_slot(&mut self, slot: Slot, name: &str) -> Result<(), Failed>
        ensures view { Told (host_state self.old).view (host_state self.new).view (Opens slot name.now result) }
        ensures faults { MeetsFaults (slot_kind slot) (host_state self.old) (host_state self.new) (IsErr result) (IsThere name.now) }
        ensures told { AnswersAsTold HostCall.Open (IsThere name.now) self.old result }
        ensures script { host_script self.new ≡ counted HostCall.Open (host_script self.old) }
        ensures exact { host_counts self.new ≡ counts_after (slot_kind slot) (host_counts self.old) result }
    {
        if self.script.next(HostCall::Open).is_none() {
            return Err(self.counts.fail(slot.kind()));
        }
        match self.shown.open(slot, name) {
            Ok(()) => Ok(()),
            Err(_) => Err(self.counts.fail(slot.kind())),
        }
    }

    fn read(&mut self, slot: Slot, into: &mut [u8]) -> Result<usize, Failed>
        ensures bound { ReadsAtMost result into.new }
        ensures empty { length into.old ≡ 0 → result ≡ Ok 0 }
        ensures view { Told (host_state self.old).view (host_state self.new).view (ReadsSlot slot into.new result) }
        ensures faults { MeetsFaults (slot_kind slot) (host_state self.old) (host_state self.new) (IsErr result) (λ _. Unit {0}) }
        ensures told { 0 < length into.old → GivesAsTold slot self.old (length into.old) result }
        ensures script { 0 < length into.old → host_script self.new ≡ counted (HostCall.Read slot) (host_script self.old) }
        ensures exact { host_counts self.new ≡ counts_after (slot_kind slot) (host_counts self.old) result }
        ensures still { length into.old ≡ 0 → self.new ≡ self.old }
    {
        if into.is_empty() {
            return Ok(0);
        }
        let Some(number) = self.script.next(HostCall::Read { slot }) else {
            return Err(self.counts.fail(slot.kind()));
        };
        let most = most_at(&self.script.cuts, number);
        Ok(self.shown.give(slot, most, into))
    }

    fn create(&mut self, out: Out, name: &str) -> Result<(), Failed>
        ensures view { Told (host_state self.old).view (host_state self.new).view (Creates out name.now result) }
        ensures faults { MeetsFaults (out_kind out) (host_state self.old) (host_state self.new) (IsErr result) (λ v. length name.now ≤ v.room) }
        ensures told { AnswersAsTold HostCall.Create (λ v. length name.now ≤ v.room) self.old result }
        ensures script { host_script self.new ≡ counted HostCall.Create (host_script self.old) }
        ensures exact { host_counts self.new ≡ counts_after (out_kind out) (host_counts self.old) result }
    {
        if self.script.next(HostCall::Create).is_none() {
            return Err(self.counts.fail(out.kind()));
        }
        match self.shown.create(out, name) {
            Ok(()) => Ok(()),
            Err(_) => Err(self.counts.fail(out.kind())),
        }
    }

    fn write(&mut self, out: Out, piece: &[u8]) -> Result<usize, Failed>
        ensures bound { WritesAtMost result piece.now }
        ensures some { 0 < length piece.now → IfOk result (λ n. 0 < n) }
        ensures empty { length piece.now ≡ 0 → result ≡ Ok 0 }
        ensures view { Told (host_state self.old).view (host_state self.new).view (WritesOut out piece.now result) }
        ensures faults { MeetsFaults (out_kind out) (host_state self.old) (host_state self.new) (IsErr result) (HasRoom out 1) }
        ensures told { 0 < length piece.now → TakesAsTold out self.old (length piece.now) result }
        ensures script { 0 < length piece.now → host_script self.new ≡ counted (HostCall.Write out) (host_script self.old) }
        ensures exact { host_counts self.new ≡ counts_after (out_kind out) (host_counts self.old) result }
        ensures still { length piece.now ≡ 0 → self.new ≡ self.old }
    {
        if piece.is_empty() {
            return Ok(0);
        }
        if self.script.next(HostCall::Write { out }).is_none() {
            return Err(self.counts.fail(out.kind()));
        }
        match self.shown.put(out, piece) {
            Some(count) => Ok(count),
            None => Err(self.counts.fail(out.kind())),
        }
    }

    fn listen(&mut self, address: &str) -> Result<(), Failed>
        ensures view { Told (host_state self.old).view (host_state self.new).view (Listens address.now result) }
        ensures faults { MeetsFaults Kind.Links (host_state self.old) (host_state self.new) (IsErr result) (λ v. length address.now ≤ v.room) }
        ensures told { AnswersAsTold HostCall.Listen (λ v. length address.now ≤ v.room) self.old result }
        ensures script { host_script self.new ≡ counted HostCall.Listen (host_script self.old) }
        ensures exact { host_counts self.new ≡ counts_after Kind.Links (host_counts self.old) result }
    {
        if self.script.next(HostCall::Listen).is_none() {
            return Err(self.counts.fail(Kind::Links));
        }
        match self.shown.listen(address) {
            Ok(()) => Ok(()),
            Err(_) => Err(self.counts.fail(Kind::Links)),
        }
    }

    fn connect(&mut self, address: &str) -> Result<(), Failed>
        ensures view { Told (host_state self.old).view (host_state self.new).view (Connects address.now result) }
        ensures faults { MeetsFaults Kind.Links (host_state self.old) (host_state self.new) (IsErr result) (λ v. (0 < length v.links) × (length address.now ≤ v.room)) }
        ensures told { AnswersAsTold HostCall.Connect (λ v. (0 < length v.links) × (length address.now ≤ v.room)) self.old result }
        ensures script { host_script self.new ≡ counted HostCall.Connect (host_script self.old) }
        ensures exact { host_counts self.new ≡ counts_after Kind.Links (host_counts self.old) result }
    {
        if self.script.next(HostCall::Connect).is_none() {
            return Err(self.counts.fail(Kind::Links));
        }
        match self.shown.connect(address) {
            Ok(()) => Ok(()),
            Err(_) => Err(self.counts.fail(Kind::Links)),
        }
    }

    fn accept(&mut self) -> Result<(), Failed>
        ensures view { Told (host_state self.old).view (host_state self.new).view (Accepts result) }
        ensures faults { MeetsFaults Kind.Links (host_state self.old) (host_state self.new) (IsErr result) (λ v. 0 < length v.links) }
        ensures told { AnswersAsTold HostCall.Accept (λ v. 0 < length v.links) self.old result }
        ensures script { host_script self.new ≡ counted HostCall.Accept (host_script self.old) }
        ensures exact { host_counts self.new ≡ counts_after Kind.Links (host_counts self.old) result }
    {
        if self.script.next(HostCall::Accept).is_none() {
            return Err(self.counts.fail(Kind::Links));
        }
        match self.shown.accept() {
            Ok(()) => Ok(()),
            Err(_) => Err(self.counts.fail(Kind::Links)),
        }
    }

    fn now(&mut self) -> u32
        ensures moment { result < 2 ^ 31 }
        ensures view { Told (host_state self.old).view (host_state self.new).view (TellsMoment result) }
        ensures counts { host_counts self.new ≡ host_counts self.old }
        ensures sound { IsSome (host_state self.old).view → IsTrue (host_state self.old).sound → IsTrue (host_state self.new).sound }
        ensures script { host_script self.new ≡ host_script self.old }
    {
        self.shown.now()
    }
}
