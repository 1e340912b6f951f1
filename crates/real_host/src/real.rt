//! The real outside: files, the standard streams, TCP and the clock. Each call notes what it did; that it did so is trusted.
ghost use Rattle.std.specs.Prelude.{IfSome, OnErr, OnOk, ◌≡◌, ◌≤◌, ◌<◌, ◌^◌, ◌∷◌, ◌++◌, [], length};
ghost use Rattle.tl_base.specs.declared.host.Out.TheVariants.{State};
ghost use Rattle.outside.specs.Events.{write_failed};
ghost use Rattle.outside.specs.Grown.{Grew};
ghost use Rattle.real_host.specs.Noted.{event_of};
ghost use Rattle.real_host.specs.declared.state_end.StateEnd.TheVariants.{Named, Removed};

use crate::links::{Link, accept, connect, end_late, listen};
use crate::log::{Call, Log};
use crate::state_end::StateEnd;
use crate::state_file::{StateFile, hold};
use outside::Host;
use std::fs::File;
use std::io::{BufReader, ErrorKind, Read, Write};
use std::net::TcpListener;
use std::time::{SystemTime, UNIX_EPOCH};
use std::{fs, io};
use tl_base::{Counts, Failed, Kind, Out, Slot};

/// Files and a link that are read through buffers, the file that State is written to, the standard streams and one listener.
pub struct RealHost {
    rt: HostRuntime,
    schema: Option<BufReader<File>>,
    input: Option<BufReader<File>>,
    state: Option<BufReader<File>>,
    saved: Option<StateFile>,
    listener: Option<TcpListener>,
    link: Option<Link>,
    counts: Counts,
    log: Log,
    // The moment that was told last.
    moment: u32,
    ghost small: { moment < 2 ^ 31 },
}

// By hand, so that each exit of an owner has one call to prove.
impl Drop for RealHost {
    fn drop(self) {
        let RealHost {
            rt: _,
            schema: _,
            input: _,
            state: _,
            saved: _,
            listener: _,
            link: _,
            counts: _,
            log: _,
            moment: _,
        } = self;
    }
}

impl RealHost {
    ghost use Rattle.real_host.specs.Seen.{after, ends_of, fresh, seen};

    /// A host of which no call was made.
    pub fn new(rt: HostRuntime) -> RealHost
        ensures calls { seen result ≡ fresh }
        ensures ends { ends_of result ≡ [] }
    {
        RealHost {
            rt,
            schema: None,
            input: None,
            state: None,
            saved: None,
            listener: None,
            link: None,
            counts: Counts::none(),
            log: Log::new(),
            moment: 0,
        }
    }

    // A file with a buffer, so that reading it word by word costs no system call each.
    fn open(&self, name: &str) -> io::Result<BufReader<File>> {
        BufReader::new(self.rt.alloc(), fs::open(&self.rt, name)?)
    }

    // Gives the file that State was written to its name, if there is one.
    fn name_state(&mut self) -> Option<()>
        ensures counts { self.new.counts ≡ self.old.counts }
        ensures log { self.new.log ≡ self.old.log }
    {
        match self.saved.take() {
            None => Some(()),
            Some(file) => file.keep(&self.rt).ok(),
        }
    }

    /// Gives the file that State was written to its name, if there is one, and notes that. Where it can't, that is a write to State that failed.
    pub fn keep_state(&mut self) -> Result<(), Failed>
        ensures ok { OnOk result (seen self.new ≡ seen self.old) }
        ensures err { OnErr result (Grew (seen self.old) (write_failed State ∷ []) (seen self.new)) }
        ensures ends { OnOk result (ends_of self.new ≡ ends_of self.old ++ Named ∷ []) }
    {
        match self.name_state() {
            Some(()) => {
                self.log = self.log.ended(&StateEnd::Named);
                Ok(())
            }
            None => {
                self.note(&Call::Write(Out::State, &[], None));
                Err(self.counts.fail(Kind::Writes))
            }
        }
    }

    /// Removes the file that State was written to, if there is one, and notes that.
    pub fn discard_state(&mut self)
        ensures calls { seen self.new ≡ seen self.old }
        ensures ends { ends_of self.new ≡ ends_of self.old ++ Removed ∷ [] }
    {
        if let Some(file) = self.saved.take() {
            file.discard(&self.rt);
        }
        self.log = self.log.ended(&StateEnd::Removed);
    }

    // Notes a call.
    fn note(&mut self, call: &Call<'_>)
        ensures calls { seen self.new ≡ after (self.old.log.events ++ event_of call.now ∷ []) self.old.counts }
        ensures ends { ends_of self.new ≡ ends_of self.old }
    {
        self.log = self.log.with(call);
    }

    // Opens a file for a slot. None: that failed, or the slot is a link's.
    fn open_for(&mut self, slot: Slot, name: &str) -> Option<()>
        ensures counts { self.new.counts ≡ self.old.counts }
        ensures log { self.new.log ≡ self.old.log }
    {
        let file = self.open(name).ok()?;
        match slot {
            Slot::Schema => self.schema = Some(file),
            Slot::Input => self.input = Some(file),
            Slot::State => {
                hold(&self.rt, name, file.get_ref()).ok()?;
                self.state = Some(file);
            }
            Slot::Link => return None,
        }
        Some(())
    }

    // Takes bytes of a slot.
    fn read_from(&mut self, slot: Slot, into: &mut [u8]) -> Option<usize>
        ensures count { IfSome result (λ n. n ≤ length into.new) }
        ensures counts { self.new.counts ≡ self.old.counts }
        ensures log { self.new.log ≡ self.old.log }
    {
        match slot {
            Slot::Schema => read_some(&mut self.schema, into),
            Slot::Input => read_some(&mut self.input, into),
            Slot::State => read_some(&mut self.state, into),
            Slot::Link => {
                end_late(&self.rt, &mut self.link);
                read_some(&mut self.link, into)
            }
        }
    }

    // Begins the file that State is written to. What was written under another name is given up.
    fn create_state(&mut self, name: &str) -> Option<()>
        ensures counts { self.new.counts ≡ self.old.counts }
        ensures log { self.new.log ≡ self.old.log }
    {
        if let Some(file) = self.saved.take() {
            file.discard(&self.rt);
        }
        let file = StateFile::create(&self.rt, name).ok()?;
        self.saved = Some(file);
        Some(())
    }

    // Puts bytes to an out, at least one.
    fn write_to(&mut self, out: Out, piece: &[u8]) -> Option<usize>
        ensures count { IfSome result (λ n. (0 < n) × (n ≤ length piece.now)) }
        ensures counts { self.new.counts ≡ self.old.counts }
        ensures log { self.new.log ≡ self.old.log }
    {
        let wrote = match out {
            Out::Output => write_some(&mut self.rt.stdout(), piece),
            Out::Errors => write_some(&mut self.rt.stderr(), piece),
            Out::State => write_open(&mut self.saved, piece),
            Out::Link => {
                end_late(&self.rt, &mut self.link);
                write_open(&mut self.link, piece)
            }
        };
        wrote.filter(|count| *count > 0)
    }

    // Takes connections at an address.
    fn listen_at(&mut self, address: &str) -> Option<()>
        ensures counts { self.new.counts ≡ self.old.counts }
        ensures log { self.new.log ≡ self.old.log }
    {
        let listener = listen(&self.rt, address).ok()?;
        self.listener = Some(listener);
        Some(())
    }

    // Makes a link to an address, once the one before is closed.
    fn connect_to(&mut self, address: &str) -> Option<()>
        ensures counts { self.new.counts ≡ self.old.counts }
        ensures log { self.new.log ≡ self.old.log }
    {
        self.link = None;
        let link = connect(&self.rt, address).ok()?;
        self.link = Some(link);
        Some(())
    }

    // Takes the next link. The one before is closed now, and not when the next one comes: its other end may wait for that.
    fn accept_next(&mut self) -> Option<()>
        ensures counts { self.new.counts ≡ self.old.counts }
        ensures log { self.new.log ≡ self.old.log }
    {
        self.link = None;
        let link = match &self.listener {
            None => return None,
            Some(listener) => accept(&self.rt, listener).ok()?,
        };
        self.link = Some(link);
        Some(())
    }

    // The seconds since 1970, where the clock can be read and shows fewer than 2^31.
    fn seconds(&self) -> Option<u32>
        ensures { IfSome result (λ n. n < 2 ^ 31) }
    {
        let time = SystemTime::now(&self.rt).ok()?;
        let seconds = time.duration_since(UNIX_EPOCH).ok()?.as_secs();
        if seconds < 1 << 31 {
            Some(seconds as u32)
        } else {
            None
        }
    }
}

// Reads from a file or a link, if it is open, and again where a signal cut the call off.
fn read_some<R: Read>(from: &mut Option<R>, into: &mut [u8]) -> Option<usize>
    ensures { IfSome result (λ n. n ≤ length into.new) }
{
    let Some(from) = from else {
        return None;
    };
    for _ in 0..u64::MAX {
        match from.read(into) {
            Ok(count) => return Some(count),
            Err(fault) if fault.kind() == ErrorKind::Interrupted => {}
            Err(_) => return None,
        }
    }
    None
}

// Writes to a stream, and again where a signal cut the call off.
fn write_some<W: Write>(to: &mut W, piece: &[u8]) -> Option<usize>
    ensures { IfSome result (λ n. n ≤ length piece.now) }
{
    for _ in 0..u64::MAX {
        match to.write(piece) {
            Ok(count) => return Some(count),
            Err(fault) if fault.kind() == ErrorKind::Interrupted => {}
            Err(_) => return None,
        }
    }
    None
}

// Writes to a file or a link, if it is open.
fn write_open<W: Write>(to: &mut Option<W>, piece: &[u8]) -> Option<usize>
    ensures { IfSome result (λ n. n ≤ length piece.now) }
{
    match to {
        None => None,
        Some(to) => write_some(to, piece),
    }
}

impl Host for RealHost {
    ghost use Rattle.real_host.specs.Seen.{seen};

    ghost state = { seen };

    fn open_slot(&mut self, slot: Slot, name: &str) -> Result<(), Failed> {
        let opened = self.open_for(slot, name);
        self.note(&Call::Open(slot, name, opened.is_some()));
        match opened {
            Some(()) => Ok(()),
            None => Err(self.counts.fail(slot.kind())),
        }
    }

    fn read(&mut self, slot: Slot, into: &mut [u8]) -> Result<usize, Failed> {
        if into.is_empty() {
            return Ok(0);
        }
        let count = self.read_from(slot, into);
        self.note(&Call::Read(slot, into, count));
        match count {
            Some(count) => Ok(count),
            None => Err(self.counts.fail(slot.kind())),
        }
    }

    fn create(&mut self, out: Out, name: &str) -> Result<(), Failed> {
        let created = if out == Out::State {
            self.create_state(name)
        } else {
            None
        };
        self.note(&Call::Create(out, name, created.is_some()));
        match created {
            Some(()) => Ok(()),
            None => Err(self.counts.fail(out.kind())),
        }
    }

    fn write(&mut self, out: Out, piece: &[u8]) -> Result<usize, Failed> {
        if piece.is_empty() {
            return Ok(0);
        }
        let count = self.write_to(out, piece);
        self.note(&Call::Write(out, piece, count));
        match count {
            Some(count) => Ok(count),
            None => Err(self.counts.fail(out.kind())),
        }
    }

    fn listen(&mut self, address: &str) -> Result<(), Failed> {
        let listens = self.listen_at(address);
        self.note(&Call::Listen(address, listens.is_some()));
        match listens {
            Some(()) => Ok(()),
            None => Err(self.counts.fail(Kind::Links)),
        }
    }

    fn connect(&mut self, address: &str) -> Result<(), Failed> {
        let connected = self.connect_to(address);
        self.note(&Call::Connect(address, connected.is_some()));
        match connected {
            Some(()) => Ok(()),
            None => Err(self.counts.fail(Kind::Links)),
        }
    }

    fn accept(&mut self) -> Result<(), Failed> {
        let accepted = self.accept_next();
        self.note(&Call::Accept(accepted.is_some()));
        match accepted {
            Some(()) => Ok(()),
            None => Err(self.counts.fail(Kind::Links)),
        }
    }

    fn now(&mut self) -> u32 {
        if let Some(moment) = self.seconds() {
            self.moment = moment;
        }
        let moment = self.moment;
        self.note(&Call::Now(moment));
        moment
    }
}
