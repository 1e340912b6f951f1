//! The outside of a program, by what happens at each call.
ghost use Rattle.std.specs.Prelude.{◌≡◌, ◌<◌, ◌^◌, ◌∷◌, [], IfOk, Ok, is_ok, length};
ghost use Rattle.std.specs.Io.{ReadsAtMost, WritesAtMost};
ghost use Rattle.outside.specs.Events.{HostState, opened, created, listened, connected, accepted, told, read_events, write_events};
ghost use Rattle.outside.specs.Grown.{Grew};

use tl_base::{Failed, Out, Slot};

/// The outside of a program: files to read from, outs to write to, links to others, and the time. Each call appends its event to what has happened, and
/// counts its failure.
pub trait Host {
    /// What has happened, where it tells it, and its counts of failed calls.
    ghost state: { Self → HostState };

    /// Opens the first file with the name, to be read from its first byte.
    fn open_slot(&mut self, slot: Slot, name: &str) -> Result<(), Failed>
        ensures { Grew (state self.old) (opened slot name.now (is_ok result) ∷ []) (state self.new) };

    /// Takes up to as many bytes as the buffer holds. None, for a buffer with room, means the end.
    fn read(&mut self, slot: Slot, into: &mut [u8]) -> Result<usize, Failed>
        ensures bound { ReadsAtMost result into.new }
        ensures empty { length into.old ≡ 0 → result ≡ Ok 0 }
        ensures past { Grew (state self.old) (read_events slot into.new result) (state self.new) };

    /// Names an out, and empties it. It is called for State alone: the others stand ready.
    fn create(&mut self, out: Out, name: &str) -> Result<(), Failed>
        ensures { Grew (state self.old) (created out name.now (is_ok result) ∷ []) (state self.new) };

    /// Appends a prefix of the piece, at least one byte of a piece that has any.
    fn write(&mut self, out: Out, piece: &[u8]) -> Result<usize, Failed>
        ensures bound { WritesAtMost result piece.now }
        ensures some { 0 < length piece.now → IfOk result (λ n. 0 < n) }
        ensures empty { length piece.now ≡ 0 → result ≡ Ok 0 }
        ensures past { Grew (state self.old) (write_events out piece.now result) (state self.new) };

    /// Takes connections at an address from now on.
    fn listen(&mut self, address: &str) -> Result<(), Failed>
        ensures { Grew (state self.old) (listened address.now (is_ok result) ∷ []) (state self.new) };

    /// Makes a link to an address.
    fn connect(&mut self, address: &str) -> Result<(), Failed>
        ensures { Grew (state self.old) (connected address.now (is_ok result) ∷ []) (state self.new) };

    /// Takes the next link that somebody makes.
    fn accept(&mut self) -> Result<(), Failed>
        ensures { Grew (state self.old) (accepted (is_ok result) ∷ []) (state self.new) };

    /// The time in seconds.
    fn now(&mut self) -> u32
        ensures moment { result < 2 ^ 31 }
        ensures past { Grew (state self.old) (told result ∷ []) (state self.new) };
}
