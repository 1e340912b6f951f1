//! A host whose traffic is noted.
use crate::traffic::Traffic;
use outside::Host;
use std::alloc::Global;
use tl_base::{Failed, Out, Slot};

/// A host, and the traffic of the calls that went well.
#[derive(Drop)]
pub struct TracedHost<H: Host> {
    pub host: H,
    pub traffic: Traffic,
    /// There was memory to note all of it.
    pub is_whole: bool,
}

impl<H: Host> TracedHost<H> {
    /// A host to which no call was made.
    pub fn new(alloc: Global, host: H) -> TracedHost<H> {
        TracedHost {
            host,
            traffic: Traffic::none(alloc),
            is_whole: true,
        }
    }
}

impl<H: Host> Host for TracedHost<H> {
    ghost state = { λ t. H.state t.host };

    fn open_slot(&mut self, slot: Slot, name: &str) -> Result<(), Failed> {
        self.host.open_slot(slot, name)
    }

    fn read(&mut self, slot: Slot, into: &mut [u8]) -> Result<usize, Failed> {
        self.host.read(slot, into)
    }

    fn create(&mut self, out: Out, name: &str) -> Result<(), Failed> {
        let created = self.host.create(out, name);
        if created.is_ok() {
            self.is_whole = self.traffic.create(name).is_ok() && self.is_whole;
        }
        created
    }

    fn write(&mut self, out: Out, piece: &[u8]) -> Result<usize, Failed> {
        let count = self.host.write(out, piece)?;
        if out == Out::Link {
            self.is_whole = self.traffic.send(&piece[..count]).is_ok() && self.is_whole;
        }
        Ok(count)
    }

    fn listen(&mut self, address: &str) -> Result<(), Failed> {
        let listened = self.host.listen(address);
        if listened.is_ok() {
            self.is_whole = self.traffic.use_address(address).is_ok() && self.is_whole;
        }
        listened
    }

    fn connect(&mut self, address: &str) -> Result<(), Failed> {
        let connected = self.host.connect(address);
        if connected.is_ok() {
            self.is_whole = self.traffic.call(address).is_ok() && self.is_whole;
        }
        connected
    }

    fn accept(&mut self) -> Result<(), Failed> {
        let accepted = self.host.accept();
        if accepted.is_ok() {
            self.is_whole = self.traffic.take_link().is_ok() && self.is_whole;
        }
        accepted
    }

    fn now(&mut self) -> u32 {
        self.host.now()
    }
}
