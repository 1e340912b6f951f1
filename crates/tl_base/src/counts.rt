//! How often calls to the outside have failed.
ghost use Rattle.std.specs.Prelude.{◌≡◌, ◌≤◌};
ghost use Rattle.tl_base.specs.Causes.{Rose, one_more};
ghost use Rattle.tl_base.specs.Kinds.{no_faults, count_of, with_count};

use crate::fault::Failed;

/// What a call to the outside is for: reading a file, writing to one, or a link.
#[derive(Clone, Copy)]
pub enum Kind {
    Reads,
    Writes,
    Links,
}

/// How often the calls of each kind have failed. A count stops at 2^64 - 1.
#[derive(Clone, Copy)]
pub struct Counts {
    pub reads: u64,
    pub writes: u64,
    pub links: u64,
}

impl Counts {
    /// No call has failed.
    pub fn none() -> Counts
        ensures { result ≡ no_faults }
    {
        Counts {
            reads: 0,
            writes: 0,
            links: 0,
        }
    }

    /// Counts a failure of this kind.
    pub fn fail(&mut self, kind: Kind) -> Failed
        ensures counted { self.new ≡ with_count kind (one_more (count_of kind self.old)) self.old }
        ensures rose { Rose (count_of kind self.old) (count_of kind self.new) }
        ensures later { count_of kind self.old ≤ count_of kind self.new }
        ensures others { with_count kind 0 self.new ≡ with_count kind 0 self.old }
    {
        match kind {
            Kind::Reads => self.reads = self.reads.saturating_add(1),
            Kind::Writes => self.writes = self.writes.saturating_add(1),
            Kind::Links => self.links = self.links.saturating_add(1),
        }
        Failed
    }
}
