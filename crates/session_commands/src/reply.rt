//! The line of the frame that comes back.
ghost use Rattle.std.specs.Prelude.{◌≡◌, ◌↔◌, IfOk, IsTrue};
ghost use Rattle.tl_schema.specs.Seen.{shape};
ghost use Rattle.tl_schema.specs.Types as type;
ghost use Rattle.tl_schema.specs.Types.{no_shapes};
ghost use Rattle.tl_types.specs.Seen.{view};
ghost use Rattle.wire_forms.specs.declared.numbers.TheConstants.{FRAME_TYPE};
ghost use Rattle.wire_profile.specs.Indexes.{cell_shape, number_at};
ghost use Rattle.box_wire.specs.Kinds.{frames};
ghost use Rattle.schema_files.specs.Lines.{line_text};
ghost use Rattle.session_commands.specs.Post.{IsReplyTo};
ghost use Rattle.session_commands.specs.Lines.{wrong_reply_line};
ghost use Rattle.session_commands.specs.inner.Posting.{GivesLine, TellsNoFrame};
ghost use Rattle.outside.specs.Loading.{PeerAs};

use box_events::Frame;
use box_wire::{Fault, decode_frame, frame_of_value};
use fault_lines::wire_line;
use outside::{Stop, unplaced_line};
use schema_files::value_line;
use std::alloc::{AllocError, Global};
use tl_base::Bytes;
use tl_schema::TypeRef;
use tl_types::Value;
use wire_forms::numbers::PUSH;
use wire_profile::{Profile, WireFault};

/// The line of a packet's value, where it is the reply to the call of this number.
pub fn reply_line(
    alloc: Global,
    profile: &Profile,
    number: u32,
    frame: Bytes,
) -> Result<Vec<u8>, Stop>
    ensures { GivesLine profile.now number frame result }
{
    let value = match decode_frame(alloc, profile, frame.as_slice()) {
        Ok(value) => value,
        Err(fault) => return Err(no_frame(alloc, fault)),
    };
    let line = match frame_line(alloc, profile, &value) {
        Ok(line) => line,
        Err(_) => return Err(Stop::Memory),
    };
    match frame_of_value(alloc, profile, value) {
        Ok(read) => {
            if !is_reply_to(&read, number) {
                return Err(wrong_reply(alloc));
            }
            Ok(line)
        }
        Err(fault) => Err(no_frame(alloc, fault)),
    }
}

// The other end's fault of a frame that is no reply to the call.
fn wrong_reply(alloc: Global) -> Stop
    ensures { PeerAs wrong_reply_line result }
{
    Stop::of_peer(unplaced_line(alloc, "peer", "WrongReply"))
}

// The other end's fault of bytes that are no frame.
fn no_frame(alloc: Global, fault: Fault<WireFault>) -> Stop
    ensures { TellsNoFrame fault result }
{
    match fault {
        Fault::Refused(cause) => Stop::of_peer(wire_line(alloc, "peer", cause)),
        Fault::Memory => Stop::Memory,
    }
}

// Whether a frame is the reply to the call of this number.
fn is_reply_to(frame: &Frame, number: u32) -> bool
    ensures { IsTrue result ↔ IsReplyTo number frame.now }
{
    match frame {
        Frame::Push(_) => false,
        Frame::Reply { number: told, .. } => *told == number,
    }
}

// The line of a frame's value.
fn frame_line(alloc: Global, profile: &Profile, value: &Value) -> Result<Vec<u8>, AllocError>
    ensures { IfOk result (λ line. line.items ≡ line_text profile.now.schema.decls (cell_shape profile.now frames.cell) (view value.now)) }
{
    let of = frame_type(alloc, profile);
    value_line(alloc, profile.schema(), &of, value)
}

// The type of frames.
fn frame_type(alloc: Global, profile: &Profile) -> TypeRef
    ensures { shape result ≡ cell_shape profile.now frames.cell }
{
    boxed(alloc, frame_head(profile))
}

// The number of the type of frames.
fn frame_head(profile: &Profile) -> u32
    ensures { result ≡ number_at profile.now.heads FRAME_TYPE }
{
    profile.schema().entry(profile.index(PUSH)).head
}

// The boxed type with this number, which takes no arguments.
fn boxed(alloc: Global, head: u32) -> TypeRef
    ensures { shape result ≡ type.boxed head no_shapes }
{
    TypeRef::Boxed {
        head,
        args: Vec::new(alloc),
    }
}
