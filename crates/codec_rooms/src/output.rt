//! A line that is written to Output while it is made.
ghost use Rattle.std.specs.Prelude.{◌≡◌, ◌+◌, ◌≤◌, ◌++◌, [], IfOk, Some, length, vec_capacity, vec_len};
ghost use Rattle.tl_base.specs.declared.host.Out.TheVariants.{Output};
ghost use Rattle.outside.specs.Begun.{Did};
ghost use Rattle.outside.specs.Pieces.{Writes};

use outside::{Host, write_out};
use std::alloc::{AllocError, Global};
use tl_base::Out;
use tl_show::TextSink;

/// How many bytes are written at once.
pub const PIECE_BYTES: usize = 8192;

/// Bytes that wait until they are a piece. Their memory is taken when it is made, and no more after that.
#[derive(Drop)]
pub struct Piece {
    bytes: Vec<u8>,
    ghost room: { 8192 ≤ vec_capacity bytes },
    ghost few: { vec_len bytes ≤ 8192 },
}

impl Piece {
    /// Nothing waits.
    pub fn new(alloc: Global) -> Result<Piece, AllocError>
        ensures { IfOk result (λ p. p.bytes.items ≡ []) }
    {
        Ok(Piece {
            bytes: Vec::with_capacity(alloc, PIECE_BYTES)?,
        })
    }

    // How many bytes there is room for.
    fn room(&self) -> usize
        ensures { result + vec_len self.now.bytes ≡ 8192 }
    {
        PIECE_BYTES - self.bytes.len()
    }

    // Bytes for which there is room wait.
    fn hold(&mut self, bytes: &[u8])
        requires { vec_len self.old.bytes + length bytes.now ≤ 8192 }
        ensures { self.new.bytes.items ≡ self.old.bytes.items ++ bytes.now }
    {
        match self.bytes.extend_from_slice(bytes) {
            Ok(()) => {}
            Err(_) => unreachable!(),
        }
    }

    // Nothing waits any more.
    fn clear(&mut self)
        ensures { self.new.bytes.items ≡ [] }
    {
        self.bytes.clear();
    }
}

// Writes a piece. Tells whether all of it was written.
fn is_written<H: Host>(host: &mut H, piece: &Piece) -> bool
    ensures { Did (Writes Output piece.now.bytes.items) (H.state host.old) (H.state host.new) (Some result) }
{
    write_out(host, Out::Output, &piece.bytes).is_ok()
}

/// What a line is put to that goes to Output. Bytes wait until they are a piece, and then it is written. After a write that failed nothing is.
#[derive(Drop)]
pub struct OutputLine<'a, H: Host> {
    host: &'a mut H,
    // Lent, since a struct that owns memory tells nothing of its reference once it is let go.
    piece: &'a mut Piece,
    failed: bool,
}

impl<'a, H: Host> OutputLine<'a, H> {
    ghost use Rattle.std.specs.Prelude.{false};
    ghost use Rattle.codec_rooms.specs.inner.Output.{Ends, Puts, waiting};

    /// A line of which nothing was put.
    pub fn new(host: &'a mut H, piece: &'a mut Piece) -> OutputLine<'a, H>
        ensures same_reference { result.host.ghost_name ≡ host.entry.ghost_name }
        ensures value { result.host.now ≡ host.old }
        ensures piece { result.piece.now.bytes.items ≡ piece.old.bytes.items }
        ensures failed { result.failed ≡ false }
    {
        OutputLine {
            host,
            piece,
            failed: false,
        }
    }

    // Bytes for which there is room wait.
    fn hold(&mut self, bytes: &[u8])
        requires { vec_len self.old.piece.now.bytes + length bytes.now ≤ 8192 }
        ensures { Puts (waiting (H.state self.old.host.now) self.old.piece.now.bytes.items self.old.failed self.old.host.ghost_name) (waiting (H.state self.new.host.now) self.new.piece.now.bytes.items self.new.failed self.new.host.ghost_name) bytes.now }
    {
        self.piece.hold(bytes);
    }

    // Writes what waits.
    fn flush(&mut self)
        ensures piece { self.new.piece.now.bytes.items ≡ [] }
        ensures puts { Puts (waiting (H.state self.old.host.now) self.old.piece.now.bytes.items self.old.failed self.old.host.ghost_name) (waiting (H.state self.new.host.now) self.new.piece.now.bytes.items self.new.failed self.new.host.ghost_name) [] }
    {
        if !self.failed {
            self.failed = !is_written(&mut *self.host, &*self.piece);
        }
        self.piece.clear();
    }

    /// Writes the rest. Tells whether all was written.
    pub fn end(&mut self) -> bool
        ensures reference { self.new.host.ghost_name ≡ self.old.host.ghost_name }
        ensures ends { Ends self.old.failed self.old.piece.now.bytes.items (H.state self.old.host.now) (H.state self.new.host.now) result }
    {
        self.flush();
        !self.failed
    }
}

impl<'a, H: Host> TextSink for OutputLine<'a, H> {
    ghost use Rattle.codec_rooms.specs.inner.Output.{Puts, puts_both, puts_none, waiting};

    ghost puts = { λ x y bytes. Puts (waiting (H.state x.host.now) x.piece.now.bytes.items x.failed x.host.ghost_name) (waiting (H.state y.host.now) y.piece.now.bytes.items y.failed y.host.ghost_name) bytes };

    fn put(&mut self, bytes: &[u8]) {
        let mut rest = bytes;
        while rest.len() > self.piece.room() {
            let (first, more) = rest.split_at(self.piece.room());
            self.hold(first);
            self.flush();
            rest = more;
        }
        self.hold(rest);
    }

    ghost puts_none = { λ x. puts_none (waiting (H.state x.host.now) x.piece.now.bytes.items x.failed x.host.ghost_name) };

    ghost puts_both = { λ x y z. puts_both (waiting (H.state x.host.now) x.piece.now.bytes.items x.failed x.host.ghost_name) (waiting (H.state y.host.now) y.piece.now.bytes.items y.failed y.host.ghost_name) (waiting (H.state z.host.now) z.piece.now.bytes.items z.failed z.host.ghost_name) };
}
