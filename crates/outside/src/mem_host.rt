//! A host in memory: files, links, moments, and calls that are to fail.

ghost use Rattle.std.specs.Prelude.{◌≡◌, ◌<◌, ◌^◌, OnOk, OnErr, IfOk, None, length, get_or, []};
ghost use Rattle.tl_base.specs.Outside.{written_of};
ghost use Rattle.tl_base.specs.MemoryHost.{host_counts};
ghost use Rattle.outside.specs.Memory.{Agrees, outside_of, beginning, empty, changed, with_file, with_link, with_moment, with_cut, with_failure};

use crate::logged::{Logged, fresh, note};
use std::alloc::Global;
use std::marker::Model;
use tl_base::{Failed, HostCall, Memory, Out, Slot};
use tl_numbers::Bytes;

/// Files, outs, links and moments in memory, with calls that are to fail. It tells what has happened, as long as it has memory for that.
pub struct MemHost {
    alloc: Global,
    // What it began with, so that what is told has a beginning.
    began: tl_base::MemHost,
    shown: tl_base::MemHost,
    log: Option<Vec<Logged>>,
}

// By hand, so that each exit of an owner has one call to prove.
impl Drop for MemHost {
    fn drop(self) {
        let MemHost {
            alloc: _,
            began: _,
            shown: _,
            log: _,
        } = self;
    }
}

// Adds a copy of a file after the others.
fn add_file(
    alloc: Global,
    host: &mut tl_base::MemHost,
    name: &str,
    bytes: &[u8],
) -> Result<(), Memory>
    ensures ok { OnOk result (outside_of host.new ≡ with_file name.now bytes.now (outside_of host.old)) }
    ensures counts { host_counts host.new ≡ host_counts host.old }
{
    let bytes = Bytes::from_slice(alloc, bytes)?;
    host.file(alloc, name, bytes)
}

// Adds a link to come after the others, with a copy of the bytes that it will give.
fn add_link(alloc: Global, host: &mut tl_base::MemHost, bytes: &[u8]) -> Result<(), Memory>
    ensures ok { OnOk result (outside_of host.new ≡ with_link bytes.now (outside_of host.old)) }
    ensures counts { host_counts host.new ≡ host_counts host.old }
{
    let bytes = Bytes::from_slice(alloc, bytes)?;
    host.link(alloc, bytes)
}

impl Model for MemHost {
    ghost use Rattle.outside.specs.Logs.{log_events};
    ghost use Rattle.outside.specs.Memory.{Agrees, MemView, seen};

    ghost Value = { MemView };

    ghost view = { λ h. seen h.began h.shown (log_events h.log) };

    ghost invariant = { λ h. Agrees (seen h.began h.shown (log_events h.log)) };
}

impl MemHost {
    /// An outside without files and links, whose outs, links and names may have `room` bytes each. It takes their memory.
    pub fn new(alloc: Global, room: u32) -> Result<MemHost, Memory>
        ensures { IfOk result (λ h. h ≡ beginning (empty room)) }
    {
        Ok(MemHost {
            alloc,
            began: tl_base::MemHost::new(alloc, room)?,
            shown: tl_base::MemHost::new(alloc, room)?,
            log: Some(Vec::new(alloc)),
        })
    }

    /// Adds a file after the others. Before the run: what has happened until now isn't told any more.
    pub fn file(&mut self, name: &str, bytes: &[u8]) -> Result<(), Memory>
        ensures ok { OnOk result (self.new ≡ changed (with_file name.now bytes.now) self.old) }
        ensures err { OnErr result (self.new.events ≡ None) }
    {
        let log = self.log.take();
        add_file(self.alloc, &mut self.began, name, bytes)?;
        add_file(self.alloc, &mut self.shown, name, bytes)?;
        self.log = fresh(log);
        Ok(())
    }

    /// Adds a link to come after the others, with the bytes that it will give. Before the run, likewise.
    pub fn link(&mut self, bytes: &[u8]) -> Result<(), Memory>
        ensures ok { OnOk result (self.new ≡ changed (with_link bytes.now) self.old) }
        ensures err { OnErr result (self.new.events ≡ None) }
    {
        let log = self.log.take();
        add_link(self.alloc, &mut self.began, bytes)?;
        add_link(self.alloc, &mut self.shown, bytes)?;
        self.log = fresh(log);
        Ok(())
    }

    /// Adds a moment to come after the others. Before the run, likewise.
    pub fn moment(&mut self, now: u32) -> Result<(), Memory>
        requires { now < 2 ^ 31 }
        ensures ok { OnOk result (self.new ≡ changed (with_moment now) self.old) }
        ensures err { OnErr result (self.new.events ≡ None) }
    {
        let log = self.log.take();
        self.began.moment(now)?;
        self.shown.moment(now)?;
        self.log = fresh(log);
        Ok(())
    }

    /// Adds a cut: the next read of each slot that has no cut yet gives at most so many bytes, where that is above 0. Before the run, likewise.
    pub fn cut(&mut self, most: u32) -> Result<(), Memory>
        ensures ok { OnOk result (self.new ≡ changed (with_cut most) self.old) }
        ensures err { OnErr result (self.new.events ≡ None) }
    {
        let log = self.log.take();
        self.began.cut(most)?;
        self.shown.cut(most)?;
        self.log = fresh(log);
        Ok(())
    }

    /// Lets call number `number` of this kind, from 0, fail. Before the run, likewise.
    pub fn fail(&mut self, call: HostCall, number: u64) -> Result<(), Memory>
        ensures ok { OnOk result (self.new ≡ changed (with_failure call number) self.old) }
        ensures err { OnErr result (self.new.events ≡ None) }
    {
        let log = self.log.take();
        self.began.fail(call, number)?;
        self.shown.fail(call, number)?;
        self.log = fresh(log);
        Ok(())
    }

    /// What was written to an out.
    pub fn written(&self, out: Out) -> &[u8]
        ensures { result.now ≡ written_of out self.now.stands.view }
    {
        self.shown.written(out)
    }

    /// What was written to link number i of those taken, from 0.
    pub fn link_written(&self, i: u32) -> &[u8]
        requires { i < length self.now.stands.view.written.links }
        ensures { result.now ≡ get_or self.now.stands.view.written.links i [] }
    {
        self.shown.link_written(i)
    }

    /// What is told leads from what it began with to how it stands.
    pub fn agrees(&self)
        ensures { Agrees self.now }
    {
        let _ = &self.alloc;
    }
}

impl crate::Host for MemHost {
    ghost use Rattle.outside.specs.Memory.{host_state};

    ghost state = { host_state };

    fn open_slot(&mut self, slot: Slot, name: &str) -> Result<(), Failed> {
        let answer = tl_base::Host::open_slot(&mut self.shown, slot, name);
        let event = Logged::opened(self.alloc, slot, name, answer.is_ok());
        self.log = note(self.log.take(), event);
        answer
    }

    fn read(&mut self, slot: Slot, into: &mut [u8]) -> Result<usize, Failed> {
        if into.is_empty() {
            return Ok(0);
        }
        match tl_base::Host::read(&mut self.shown, slot, into) {
            Ok(count) => {
                let event = Logged::given(self.alloc, slot, &into[..count]);
                self.log = note(self.log.take(), event);
                Ok(count)
            }
            Err(fault) => {
                self.log = note(self.log.take(), Ok(Logged::ReadFailed { slot }));
                Err(fault)
            }
        }
    }

    fn create(&mut self, out: Out, name: &str) -> Result<(), Failed> {
        let answer = tl_base::Host::create(&mut self.shown, out, name);
        let event = Logged::created(self.alloc, out, name, answer.is_ok());
        self.log = note(self.log.take(), event);
        answer
    }

    fn write(&mut self, out: Out, piece: &[u8]) -> Result<usize, Failed> {
        if piece.is_empty() {
            return Ok(0);
        }
        match tl_base::Host::write(&mut self.shown, out, piece) {
            Ok(count) => {
                let event = Logged::put(self.alloc, out, &piece[..count]);
                self.log = note(self.log.take(), event);
                Ok(count)
            }
            Err(fault) => {
                self.log = note(self.log.take(), Ok(Logged::WriteFailed { out }));
                Err(fault)
            }
        }
    }

    fn listen(&mut self, address: &str) -> Result<(), Failed> {
        let answer = tl_base::Host::listen(&mut self.shown, address);
        let event = Logged::listened(self.alloc, address, answer.is_ok());
        self.log = note(self.log.take(), event);
        answer
    }

    fn connect(&mut self, address: &str) -> Result<(), Failed> {
        let answer = tl_base::Host::connect(&mut self.shown, address);
        let event = Logged::connected(self.alloc, address, answer.is_ok());
        self.log = note(self.log.take(), event);
        answer
    }

    fn accept(&mut self) -> Result<(), Failed> {
        let answer = tl_base::Host::accept(&mut self.shown);
        self.log = note(self.log.take(), Ok(Logged::Accepted { ok: answer.is_ok() }));
        answer
    }

    fn now(&mut self) -> u32 {
        let moment = tl_base::Host::now(&mut self.shown);
        self.log = note(self.log.take(), Ok(Logged::Told { moment }));
        moment
    }
}
