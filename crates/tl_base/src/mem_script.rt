//! What a host in memory was told of its calls.
ghost use Rattle.std.specs.Prelude.{◌≡◌, IfSome, IfNone};
ghost use Rattle.tl_base.specs.Causes.{one_more};
ghost use Rattle.tl_base.specs.Scripts.{made_of, with_made, no_script, script_of, counted, FailsNext};

use crate::host::{Out, Slot};
use std::alloc::Global;

/// A kind of call to a host.
#[derive(Clone, Copy, PartialEq)]
pub enum HostCall {
    Open,
    Read { slot: Slot },
    Create,
    Write { out: Out },
    Listen,
    Connect,
    Accept,
}

/// A call that is to fail: the one of its kind with this number, from 0.
#[derive(Clone, Copy, PartialEq)]
pub struct Failing {
    pub call: HostCall,
    pub number: u64,
}

/// How many calls of each kind there were. A number stops at 2^64 - 1.
#[derive(Clone, Copy)]
pub struct Made {
    opens: u64,
    schema_reads: u64,
    input_reads: u64,
    state_reads: u64,
    link_reads: u64,
    creates: u64,
    output_writes: u64,
    errors_writes: u64,
    state_writes: u64,
    link_writes: u64,
    listens: u64,
    connects: u64,
    accepts: u64,
}

impl Made {
    // How many calls of a kind there were.
    fn number(&self, call: HostCall) -> u64
        ensures { result ≡ made_of call self.now }
    {
        match call {
            HostCall::Open => self.opens,
            HostCall::Read { slot } => match slot {
                Slot::Schema => self.schema_reads,
                Slot::Input => self.input_reads,
                Slot::State => self.state_reads,
                Slot::Link => self.link_reads,
            },
            HostCall::Create => self.creates,
            HostCall::Write { out } => match out {
                Out::Output => self.output_writes,
                Out::Errors => self.errors_writes,
                Out::State => self.state_writes,
                Out::Link => self.link_writes,
            },
            HostCall::Listen => self.listens,
            HostCall::Connect => self.connects,
            HostCall::Accept => self.accepts,
        }
    }

    // Sets how many calls of a kind there were.
    fn set(&mut self, call: HostCall, number: u64)
        ensures { self.new ≡ with_made call number self.old }
    {
        match call {
            HostCall::Open => self.opens = number,
            HostCall::Read { slot } => match slot {
                Slot::Schema => self.schema_reads = number,
                Slot::Input => self.input_reads = number,
                Slot::State => self.state_reads = number,
                Slot::Link => self.link_reads = number,
            },
            HostCall::Create => self.creates = number,
            HostCall::Write { out } => match out {
                Out::Output => self.output_writes = number,
                Out::Errors => self.errors_writes = number,
                Out::State => self.state_writes = number,
                Out::Link => self.link_writes = number,
            },
            HostCall::Listen => self.listens = number,
            HostCall::Connect => self.connects = number,
            HostCall::Accept => self.accepts = number,
        }
    }
}

/// Which calls fail, how much a read gives at most, and how many calls there were.
pub struct Script {
    pub cuts: Vec<u32>,
    pub fails: Vec<Failing>,
    pub made: Made,
}

// By hand, so that each exit of an owner has one call to prove.
impl Drop for Script {
    fn drop(self) {
        let Script {
            cuts: _,
            fails: _,
            made: _,
        } = self;
    }
}

impl Script {
    /// No call is to fail, and none was made.
    pub fn new(alloc: Global) -> Script
        ensures { script_of result ≡ no_script }
    {
        Script {
            cuts: Vec::new(alloc),
            fails: Vec::new(alloc),
            made: Made {
                opens: 0,
                schema_reads: 0,
                input_reads: 0,
                state_reads: 0,
                link_reads: 0,
                creates: 0,
                output_writes: 0,
                errors_writes: 0,
                state_writes: 0,
                link_writes: 0,
                listens: 0,
                connects: 0,
                accepts: 0,
            },
        }
    }

    /// Counts the next call of a kind. It answers the call's number, or none where it is one that fails.
    pub fn next(&mut self, call: HostCall) -> Option<u64>
        ensures number { IfSome result (λ number. (number ≡ made_of call self.old.made) × ¬ FailsNext call (script_of self.old)) }
        ensures fails { IfNone result (FailsNext call (script_of self.old)) }
        ensures counted { script_of self.new ≡ counted call (script_of self.old) }
    {
        let number = self.made.number(call);
        self.made.set(call, number.saturating_add(1));
        if self.fails.contains(&Failing { call, number }) {
            None
        } else {
            Some(number)
        }
    }
}
