//! How the program ends.
ghost use Rattle.std.specs.Prelude.{◌≡◌};
ghost use Rattle.outside.specs.Answer.{status_number};

/// The exit status.
#[derive(Clone, Copy, PartialEq)]
pub enum Status {
    /// 0: the work is done.
    Done,
    /// 1: a schema, type or input is refused. A line on Errors says where and why.
    Refused,
    /// 2: the words are no row of the usage.
    Usage,
    /// 3: a read failed.
    ReadFault,
    /// 4: a write failed.
    WriteFault,
    /// 5: memory was refused.
    Memory,
    /// 6: a link failed, or none could be made.
    LinkFault,
    /// 7: the other end of a link sent what can't be taken. A line on Errors says what.
    PeerFault,
}

impl Status {
    /// The number that a process ends with.
    pub fn code(self) -> u8
        ensures number { result ≡ status_number self }
    {
        match self {
            Status::Done => 0,
            Status::Refused => 1,
            Status::Usage => 2,
            Status::ReadFault => 3,
            Status::WriteFault => 4,
            Status::Memory => 5,
            Status::LinkFault => 6,
            Status::PeerFault => 7,
        }
    }
}
