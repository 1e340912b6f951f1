//! The top call.
ghost use Rattle.std.specs.Prelude.{map, string_bytes};
ghost use Rattle.outside.specs.Steps.{Grows};
ghost use Rattle.commands.specs.Requests.{IsInRange, request_text};
ghost use Rattle.commands.specs.Work.{RanWords, RunsRequest};

use crate::request::{Request, request_of};
use call_commands::run_calls;
use codec_rooms::{run_check, run_decode, run_encode, run_layers};
use outside::{Host, Status, tell};
use serve_rooms::run_serve;
use session_rooms::{run_client, run_post};
use std::alloc::Global;
use update_commands::{run_make, run_replay};

/// What is told where the words are no row.
pub const USAGE: &[u8] =
    b"usage: tlbox check SCHEMA, decode SCHEMA TYPE INPUT, encode SCHEMA TYPE INPUT, replay SCHEMA JOURNAL CLIENTS, make SCHEMA NUMBER STEPS, serve SCHEMA ADDRESS SESSIONS, post SCHEMA ADDRESS INPUT, client SCHEMA ADDRESS STATE [CHANNEL ..], layers OLD NEW TYPE, calls SCHEMA INPUT, keep SCHEMA ADDRESS SESSIONS FILE\n";

/// Runs the program over an outside: the words without the program's name, and the status that it ends with.
pub fn run<H: Host>(alloc: Global, words: &[String], host: &mut H) -> Status
    ensures { RanWords (map string_bytes words.now) (H.state host.old) (H.state host.new) result }
{
    match request_of(alloc, words) {
        Ok(None) => tell(host, USAGE, Status::Usage),
        Ok(Some(request)) => run_request(alloc, host, request),
        Err(_) => tell(host, b"tlbox: memory\n", Status::Memory),
    }
}

// Does the work of a request.
fn run_request<H: Host>(alloc: Global, host: &mut H, request: Request) -> Status
    requires { IsInRange (request_text request) }
    ensures { Grows (H.state host.old) (H.state host.new) (λ t. RunsRequest (request_text request.entry) t result) }
{
    match request {
        Request::Check { schema } => run_check(alloc, host, schema),
        Request::Decode { schema, of, input } => run_decode(alloc, host, schema, of, input),
        Request::Encode { schema, of, input } => run_encode(alloc, host, schema, of, input),
        Request::Replay {
            schema,
            journal,
            clients,
        } => run_replay(alloc, host, schema, journal, clients),
        Request::Make {
            schema,
            number,
            steps,
        } => run_make(alloc, host, schema, number, steps),
        Request::Serve {
            schema,
            address,
            sessions,
        } => run_serve(alloc, host, schema, address, sessions),
        Request::Post {
            schema,
            address,
            input,
        } => run_post(alloc, host, schema, address, input),
        Request::Client {
            schema,
            address,
            state,
            channels,
        } => run_client(alloc, host, schema, address, state, channels.as_slice()),
        Request::Layers { old, new, of } => run_layers(alloc, host, old, new, of),
        Request::Calls { schema, input } => run_calls(alloc, host, schema, input),
    }
}
