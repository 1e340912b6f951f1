//! The pool of a world.
ghost use Rattle.std.specs.Prelude.{◌≡◌, ◌*◌, ◌≤◌, [], MatchOption, Some, length, slice_get};
ghost use Rattle.std.specs.List.{All};
ghost use Rattle.box_events.specs.declared.limits.TheConstants.{MAX_ASKS};
ghost use Rattle.update_world.specs.declared.limits.TheConstants.{MAX_POOL_BYTES};
ghost use Rattle.update_world.specs.Shown.{bytes_of};
ghost use Rattle.update_world.specs.inner.Pools.{IsPacket, Sends};

use crate::limits::MAX_POOL_BYTES;
use crate::sent::SentPacket;
use box_world::StepFault;
use std::alloc::Global;
use std::marker::Model;
use tl_base::Fault;

/// All packets that were sent, in the order in which they were sent, and how many bytes they have.
pub struct Pool {
    sent: Vec<SentPacket>,
    bytes: u32,
}

// By hand, so that each exit of an owner has one call to prove.
impl Drop for Pool {
    fn drop(self) {
        let Pool { sent: _, bytes: _ } = self;
    }
}

impl Model for Pool {
    ghost use Rattle.std.specs.Prelude.{List};
    ghost use Rattle.std.specs.Coded.{coded_list};
    ghost use Rattle.update_world.specs.declared.sent.SentPacket.{SentPacket};
    ghost use Rattle.update_world.specs.inner.Codes.{sent_code};
    ghost use Rattle.update_world.specs.inner.Pools.{IsPool};

    ghost Value = { List SentPacket };

    ghost coded = { coded_list sent_code };

    ghost view = { λ a. a.sent.items };

    ghost invariant = { λ a. IsPool a.sent.items a.bytes };
}

impl Pool {
    /// No packets.
    pub fn new(alloc: Global) -> Pool
        ensures { result ≡ [] }
    {
        Pool {
            sent: Vec::new(alloc),
            bytes: 0,
        }
    }

    /// How many packets there are.
    pub fn len(&self) -> u32
        ensures value { result ≡ length self.now }
        ensures most { 8 * result ≤ MAX_POOL_BYTES }
    {
        self.sent.len() as u32
    }

    /// How many bytes they have.
    pub fn bytes(&self) -> u32
        ensures value { result ≡ bytes_of self.now }
        ensures most { result ≤ MAX_POOL_BYTES }
    {
        self.bytes
    }

    /// The packet of a number, if there is one.
    pub fn get(&self, number: u32) -> Option<&SentPacket>
        ensures { MatchOption result (length self.now ≤ number) (λ s. slice_get self.now number ≡ Some s.now) }
    {
        self.sent.get(number as usize)
    }

    /// Puts packets after the others, all or none of them, and answers the number of the first. Here alone the limit is looked at.
    pub fn send(&mut self, more: Vec<SentPacket>) -> Result<u32, Fault<StepFault>>
        requires few { length more.items ≤ MAX_ASKS }
        requires sizes { All IsPacket more.items }
        ensures { Sends self.old more.items result self.new }
    {
        let bytes = self.bytes + bytes_of(&more);
        if bytes > MAX_POOL_BYTES {
            return Err(Fault::Refused(StepFault::PoolFull { bytes }));
        }
        let first = self.sent.len() as u32;
        let mut more = more;
        self.sent.append(&mut more)?;
        self.bytes = bytes;
        Ok(first)
    }
}

// How many bytes some packets have.
fn bytes_of(packets: &[SentPacket]) -> u32
    requires few { length packets.now ≤ MAX_ASKS }
    requires sizes { All IsPacket packets.now }
    ensures value { result ≡ bytes_of packets.now }
    ensures most { result ≤ MAX_ASKS * 1048576 }
{
    let mut bytes = 0;
    for sent in packets {
        bytes += sent.bytes.len() as u32;
    }
    bytes
}
