//! `post`: the call that an input's JSON is goes over a link to an address, and what comes back is told.
ghost use Rattle.std.specs.Prelude.{codes, ◌≤◌, length, true};
ghost use Rattle.outside.specs.Runs.{RanIn, answered};
ghost use Rattle.outside.specs.Begun.{DidIn, to_link};
ghost use Rattle.outside.specs.Pieces.{Tells};
ghost use Rattle.outside.specs.declared.status.Status.TheVariants.{PeerFault};
ghost use Rattle.fault_lines.specs.Packets.{packet_line};
ghost use Rattle.tl_numbers.specs.Bytes.{AreBytes};
ghost use Rattle.tl_schema.specs.CheckedPrograms.{IsSchema};
ghost use Rattle.tl_schema.specs.Types.{call};
ghost use Rattle.schema_files.specs.Parts.{ReadsJson};
ghost use Rattle.wire_profile.specs.Profiles.{IsProfile};
ghost use Rattle.box_events.specs.declared.limits.TheConstants.{MAX_FRAME_BYTES};
ghost use Rattle.codec_rooms.specs.Typed.{OfText as OfSchemaText};
ghost use Rattle.update_commands.specs.Profile.{OfProfile};
ghost use Rattle.session_rooms.specs.Post.{CallsOver, OfInputFile, OfText, TellsBody, after_connect, after_sending, posts};
ghost use Rattle.session_rooms.specs.inner.Sent.{MakesCall};

use crate::sending::send_packet;
use fault_lines::{packet_stop, profile_of};
use outside::{
    Host, LoadError, Packet, Status, Stop, finish, print, print_made, read_file, take_packet, tell,
};
use schema_files::{JSON_BYTES, SCHEMA_BYTES, fit_error, formed_value, schema_of};
use session_commands::{Sending, call_of, reply_line};
use std::alloc::{AllocError, Global};
use tl_base::{Bytes, PacketCause, Slot};
use tl_schema::{Schema, TypeRef};
use tl_types::{Value, fits};
use wire_profile::Profile;

/// Sends the call that an input's JSON is to an address, and writes its reply's JSON.
pub fn post_call<H: Host>(
    alloc: Global,
    host: &mut H,
    schema: &str,
    address: &str,
    input: &str,
) -> Result<Status, AllocError>
    ensures { DidIn to_link (posts schema.now address.now input.now) (H.state host.old) (H.state host.new) (answered result) }
{
    match read_file(alloc, host, Slot::Schema, schema, SCHEMA_BYTES)? {
        Some(text) => post_text(alloc, host, &text, address, input),
        None => Ok(tell(host, b"tlbox: read fault\n", Status::ReadFault)),
    }
}

/// Likewise, to the end of the run: out of memory is told.
pub fn run_post<H: Host>(
    alloc: Global,
    host: &mut H,
    schema: &str,
    address: &str,
    input: &str,
) -> Status
    ensures { RanIn to_link (posts schema.now address.now input.now) (H.state host.old) (H.state host.new) result }
{
    let done = post_call(alloc, host, schema, address, input);
    finish(host, done)
}

// What follows of the schema's text.
fn post_text<H: Host>(
    alloc: Global,
    host: &mut H,
    text: &[u8],
    address: &str,
    input: &str,
) -> Result<Status, AllocError>
    ensures { DidIn to_link (OfSchemaText (codes "schema") (OfProfile (OfInputFile address.now input.now)) text.now) (H.state host.old) (H.state host.new) (answered result) }
{
    match schema_of(alloc, "schema", text) {
        Ok(schema) => post_schema(alloc, host, &schema, address, input),
        Err(fault) => print_made(host, Err(fault)),
    }
}

// What follows of a schema.
fn post_schema<H: Host>(
    alloc: Global,
    host: &mut H,
    schema: &Schema,
    address: &str,
    input: &str,
) -> Result<Status, AllocError>
    requires { IsSchema schema.now }
    ensures { DidIn to_link (OfProfile (OfInputFile address.now input.now) schema.now) (H.state host.old) (H.state host.new) (answered result) }
{
    match profile_of(alloc, schema) {
        Ok(profile) => post_input(alloc, host, &profile, address, input),
        Err(fault) => print_made(host, Err(fault)),
    }
}

// What follows of a profile.
fn post_input<H: Host>(
    alloc: Global,
    host: &mut H,
    profile: &Profile,
    address: &str,
    input: &str,
) -> Result<Status, AllocError>
    requires sound { IsProfile profile.now }
    ensures { DidIn to_link (OfInputFile address.now input.now profile.now) (H.state host.old) (H.state host.new) (answered result) }
{
    match read_file(alloc, host, Slot::Input, input, JSON_BYTES)? {
        Some(text) => post_json(alloc, host, profile, address, &text),
        None => Ok(tell(host, b"tlbox: read fault\n", Status::ReadFault)),
    }
}

// What follows of an input's text.
fn post_json<H: Host>(
    alloc: Global,
    host: &mut H,
    profile: &Profile,
    address: &str,
    text: &[u8],
) -> Result<Status, AllocError>
    requires sound { IsProfile profile.now }
    ensures { DidIn to_link (OfText profile.now address.now text.now) (H.state host.old) (H.state host.new) (answered result) }
{
    match sending_of(alloc, profile, text) {
        Ok(call) => send_call(alloc, host, profile, address, &call),
        Err(fault) => print_made(host, Err(fault)),
    }
}

// The call that a text is the JSON of.
fn sending_of(alloc: Global, profile: &Profile, text: &[u8]) -> Result<Sending, LoadError>
    requires sound { IsProfile profile.now }
    ensures { MakesCall profile.now text.now result }
{
    let value = json_value(alloc, profile, text)?;
    call_of(alloc, profile, &value)
}

// The value of a call that a text is the JSON of.
fn json_value(alloc: Global, profile: &Profile, text: &[u8]) -> Result<Value, LoadError>
    ensures { ReadsJson profile.now.schema call text.now result }
{
    let schema = profile.schema();
    let value = formed_value(alloc, schema, &TypeRef::Call, text)?;
    match fits(alloc, schema, &TypeRef::Call, &value) {
        Ok(()) => Ok(value),
        Err(fault) => Err(fit_error(alloc, &fault)),
    }
}

// What follows of a call.
fn send_call<H: Host>(
    alloc: Global,
    host: &mut H,
    profile: &Profile,
    address: &str,
    call: &Sending,
) -> Result<Status, AllocError>
    requires sound { IsProfile profile.now }
    requires short { length call.now.bytes ≤ MAX_FRAME_BYTES }
    ensures { DidIn to_link (CallsOver profile.now address.now call.now.number call.now.bytes) (H.state host.old) (H.state host.new) (answered result) }
{
    match host.connect(address) {
        Ok(()) => exchange(alloc, host, profile, call),
        Err(_) => Ok(tell(host, b"tlbox: link fault\n", Status::LinkFault)),
    }
}

// What follows of a link.
fn exchange<H: Host>(
    alloc: Global,
    host: &mut H,
    profile: &Profile,
    call: &Sending,
) -> Result<Status, AllocError>
    requires sound { IsProfile profile.now }
    requires short { length call.now.bytes ≤ MAX_FRAME_BYTES }
    ensures { DidIn to_link (after_connect profile.now call.now.number call.now.bytes true) (H.state host.old) (H.state host.new) (answered result) }
{
    match send_packet(host, call.bytes.as_slice()) {
        Ok(()) => take_reply(alloc, host, profile, call.number),
        Err(_) => Ok(tell(host, b"tlbox: link fault\n", Status::LinkFault)),
    }
}

// What follows of a call that was sent.
fn take_reply<H: Host>(
    alloc: Global,
    host: &mut H,
    profile: &Profile,
    number: u32,
) -> Result<Status, AllocError>
    requires sound { IsProfile profile.now }
    ensures { DidIn to_link (after_sending profile.now number true) (H.state host.old) (H.state host.new) (answered result) }
{
    match take_packet(alloc, host, Slot::Link)? {
        Packet::Whole(body) => tell_reply(alloc, host, profile, number, body),
        Packet::None => tell_packet(alloc, host, PacketCause::Ended { had: 0 }),
        Packet::Wrong(cause) => tell_packet(alloc, host, cause),
        Packet::Broken => Ok(tell(host, b"tlbox: link fault\n", Status::LinkFault)),
    }
}

// Tells what is made of the bytes of a packet that came.
fn tell_reply<H: Host>(
    alloc: Global,
    host: &mut H,
    profile: &Profile,
    number: u32,
    body: Vec<u8>,
) -> Result<Status, AllocError>
    requires sound { IsProfile profile.now }
    requires bytes { AreBytes body.items }
    ensures { DidIn to_link (TellsBody profile.now number body.items) (H.state host.old) (H.state host.new) (answered result) }
{
    match reply_line(alloc, profile, number, Bytes::from_vec(body)) {
        Ok(line) => Ok(print(host, &line)),
        Err(Stop::Peer(line)) => Ok(tell(host, &line, Status::PeerFault)),
        Err(_) => Err(AllocError),
    }
}

// Tells why what came begins with no packet.
fn tell_packet<H: Host>(
    alloc: Global,
    host: &mut H,
    cause: PacketCause,
) -> Result<Status, AllocError>
    ensures { DidIn to_link (Tells (packet_line cause) PeerFault) (H.state host.old) (H.state host.new) (answered result) }
{
    match packet_stop(alloc, cause) {
        Stop::Peer(line) => Ok(tell(host, &line, Status::PeerFault)),
        _ => Err(AllocError),
    }
}
