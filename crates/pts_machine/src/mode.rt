//! Whether a lane waits for an answer.
ghost use Rattle.std.specs.Prelude.{◌≡◌, ◌&&◌, eqb};
ghost use Rattle.pts_machine.specs.States.{is_live};

/// Whether a lane waits for an answer.
#[derive(Clone, Copy)]
pub enum Mode {
    Live,
    /// It waits for the answer to the request of this number.
    Asking(u32),
    /// The last answer was a part: the lane is to ask again.
    Again,
}

/// Whether an item that starts here is applied at once.
pub fn is_next(mode: Mode, start: u32, at: u32) -> bool
    ensures { result ≡ (is_live mode && eqb start at) }
{
    match mode {
        Mode::Live => start == at,
        Mode::Asking(_) => false,
        Mode::Again => false,
    }
}
