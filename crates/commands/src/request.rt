//! What the words that the program is started with ask for.
ghost use Rattle.std.specs.Prelude.{IfOk, IsTrue, ◌≡◌, ◌↔◌, [], map, option_map, pos, string_bytes};
ghost use Rattle.std.specs.List.{All};
ghost use Rattle.clap.specs.Words.{first_value, found_of, subcommand_rows_of};
ghost use Rattle.commands.specs.Numbers.{number_of};
ghost use Rattle.commands.specs.Requests.{IsOperand, FindsRequest, channel_range, clients_range, request_text, run_range, sessions_range, steps_range};
ghost use Rattle.commands.specs.CommandLine.{begins_client, calls_of, channels_of, check_of, client_of, decode_of, encode_of, fixed_words, layers_of, make_of, more_words, post_of, replay_of, request_in, serve_of, with_channels};

use crate::number::{Range, number_in};
use crate::table::table_of;
use clap::ArgMatches;
use clap::error::ErrorKind;
use std::alloc::{AllocError, Global};

/// A request: a command and its operands.
#[derive(Drop)]
pub enum Request<'a> {
    /// `check SCHEMA`
    Check {
        schema: &'a str,
    },
    /// `decode SCHEMA TYPE INPUT`
    Decode {
        schema: &'a str,
        of: &'a str,
        input: &'a str,
    },
    /// `encode SCHEMA TYPE INPUT`
    Encode {
        schema: &'a str,
        of: &'a str,
        input: &'a str,
    },
    /// `replay SCHEMA JOURNAL CLIENTS`
    Replay {
        schema: &'a str,
        journal: &'a str,
        clients: u32,
    },
    /// `make SCHEMA NUMBER STEPS`
    Make {
        schema: &'a str,
        number: u64,
        steps: u32,
    },
    /// `serve SCHEMA ADDRESS SESSIONS`
    Serve {
        schema: &'a str,
        address: &'a str,
        sessions: u32,
    },
    /// `post SCHEMA ADDRESS INPUT`
    Post {
        schema: &'a str,
        address: &'a str,
        input: &'a str,
    },
    /// `client SCHEMA ADDRESS STATE [CHANNEL ..]`
    Client {
        schema: &'a str,
        address: &'a str,
        state: &'a str,
        channels: Vec<i64>,
    },
    /// `layers OLD NEW TYPE`
    Layers {
        old: &'a str,
        new: &'a str,
        of: &'a str,
    },
    /// `calls SCHEMA INPUT`
    Calls {
        schema: &'a str,
        input: &'a str,
    },
}

/// The request that the words ask for. `clap` reads rows of a fixed length: the channels of a client are read here.
pub fn request_of(alloc: Global, words: &[String]) -> Result<Option<Request<'_>>, AllocError>
    ensures { IfOk result (FindsRequest (map string_bytes words.now)) }
{
    let (fixed, more) = parts_of(words);
    match fixed_request(alloc, fixed)? {
        Some(request) => with_channels(alloc, more, request),
        None => Ok(None),
    }
}

// The words that `clap` reads, and those after them: the words of a client's channels.
fn parts_of(words: &[String]) -> (&[String], &[String])
    ensures fixed { map string_bytes result.0.now ≡ fixed_words (map string_bytes words.now) }
    ensures more { map string_bytes result.1.now ≡ more_words (map string_bytes words.now) }
{
    let fixed = if begins_client(words) {
        words.len().min(4)
    } else {
        words.len()
    };
    words.split_at(fixed)
}

// Whether the command is `client`.
fn begins_client(words: &[String]) -> bool
    ensures { result ≡ begins_client (map string_bytes words.now) }
{
    match words {
        [] => false,
        [command, ..] => command.as_str() == "client",
    }
}

// The request of words that `clap` reads, a client without channels. No word of any row is empty or begins with `-`: `clap` sees none such.
fn fixed_request(alloc: Global, words: &[String]) -> Result<Option<Request<'_>>, AllocError>
    requires { more_words (map string_bytes words.now) ≡ [] }
    ensures { IfOk result (FindsRequest (map string_bytes words.now)) }
{
    if !are_operands(words) {
        return Ok(None);
    }
    match table_of(alloc)?.try_get_matches_from(words) {
        Ok(matches) => Ok(request_in(alloc, &matches)),
        Err(fault) => match fault.kind() {
            ErrorKind::OutOfMemory => Err(AllocError),
            _ => Ok(None),
        },
    }
}

// The request with the channels that further words are, if it is a client's.
fn with_channels<'a>(
    alloc: Global,
    words: &[String],
    request: Request<'a>,
) -> Result<Option<Request<'a>>, AllocError>
    ensures { IfOk result (λ r. option_map request_text r ≡ with_channels (map string_bytes words.now) (request_text request.entry)) }
{
    match request {
        Request::Client {
            schema,
            address,
            state,
            ..
        } => match channels_of(alloc, words)? {
            Some(channels) => Ok(Some(Request::Client {
                schema,
                address,
                state,
                channels,
            })),
            None => Ok(None),
        },
        request => Ok(Some(request)),
    }
}

// The channels that words are, where each word is one.
fn channels_of(alloc: Global, words: &[String]) -> Result<Option<Vec<i64>>, AllocError>
    ensures { IfOk result (λ r. option_map (λ v. v.items) r ≡ channels_of (map string_bytes words.now)) }
{
    let mut channels = Vec::new(alloc);
    for word in words {
        let Some(channel) = channel_in(word.as_str()) else {
            return Ok(None);
        };
        channels.push(channel)?;
    }
    Ok(Some(channels))
}

// The channel that a word is.
fn channel_in(word: &str) -> Option<i64>
    ensures { result ≡ option_map pos (number_of channel_range word.now) }
{
    let range = Range {
        digits: 19,
        least: 0,
        most: 9_223_372_036_854_775_807,
    };
    match number_in(range, word) {
        Some(channel) => Some(channel as i64),
        None => None,
    }
}

// The request of the row that was found.
fn request_in<'a>(alloc: Global, matches: &ArgMatches<'a>) -> Option<Request<'a>>
    ensures { option_map request_text result ≡ request_in (subcommand_rows_of matches.now) }
{
    let (command, operands) = matches.subcommand()?;
    match command {
        "check" => check_of(operands),
        "decode" => decode_of(operands),
        "encode" => encode_of(operands),
        "replay" => replay_of(operands),
        "make" => make_of(operands),
        "serve" => serve_of(operands),
        "post" => post_of(operands),
        "client" => client_of(alloc, operands),
        "layers" => layers_of(operands),
        "calls" => calls_of(operands),
        _ => None,
    }
}

// The request of `check`.
fn check_of<'a>(operands: &ArgMatches<'a>) -> Option<Request<'a>>
    ensures { option_map request_text result ≡ check_of (first_value (found_of operands.now)) }
{
    let schema = operands.get_str("SCHEMA")?;
    Some(Request::Check { schema })
}

// The request of `decode`.
fn decode_of<'a>(operands: &ArgMatches<'a>) -> Option<Request<'a>>
    ensures { option_map request_text result ≡ decode_of (first_value (found_of operands.now)) }
{
    let schema = operands.get_str("SCHEMA")?;
    let of = operands.get_str("TYPE")?;
    let input = operands.get_str("INPUT")?;
    Some(Request::Decode { schema, of, input })
}

// The request of `encode`.
fn encode_of<'a>(operands: &ArgMatches<'a>) -> Option<Request<'a>>
    ensures { option_map request_text result ≡ encode_of (first_value (found_of operands.now)) }
{
    let schema = operands.get_str("SCHEMA")?;
    let of = operands.get_str("TYPE")?;
    let input = operands.get_str("INPUT")?;
    Some(Request::Encode { schema, of, input })
}

// The request of `replay`.
fn replay_of<'a>(operands: &ArgMatches<'a>) -> Option<Request<'a>>
    ensures { option_map request_text result ≡ replay_of (first_value (found_of operands.now)) }
{
    let schema = operands.get_str("SCHEMA")?;
    let journal = operands.get_str("JOURNAL")?;
    let clients = clients_in(operands.get_str("CLIENTS")?)?;
    Some(Request::Replay {
        schema,
        journal,
        clients,
    })
}

// The number of clients that a word is.
fn clients_in(word: &str) -> Option<u32>
    ensures { result ≡ number_of clients_range word.now }
{
    let range = Range {
        digits: 10,
        least: 1,
        most: 16,
    };
    match number_in(range, word) {
        Some(clients) => Some(clients as u32),
        None => None,
    }
}

// The request of `make`.
fn make_of<'a>(operands: &ArgMatches<'a>) -> Option<Request<'a>>
    ensures { option_map request_text result ≡ make_of (first_value (found_of operands.now)) }
{
    let schema = operands.get_str("SCHEMA")?;
    let number = operands.get_str("NUMBER")?;
    let steps = operands.get_str("STEPS")?;
    let number = number_of_run(number)?;
    let steps = steps_in(steps)?;
    Some(Request::Make {
        schema,
        number,
        steps,
    })
}

// The number of a made run that a word is.
fn number_of_run(word: &str) -> Option<u64>
    ensures { result ≡ number_of run_range word.now }
{
    let range = Range {
        digits: 10,
        least: 0,
        most: 9_999_999_999,
    };
    number_in(range, word)
}

// The number of steps that a word is.
fn steps_in(word: &str) -> Option<u32>
    ensures { result ≡ number_of steps_range word.now }
{
    let range = Range {
        digits: 10,
        least: 1,
        most: 100_000,
    };
    match number_in(range, word) {
        Some(steps) => Some(steps as u32),
        None => None,
    }
}

// The request of `serve`.
fn serve_of<'a>(operands: &ArgMatches<'a>) -> Option<Request<'a>>
    ensures { option_map request_text result ≡ serve_of (first_value (found_of operands.now)) }
{
    let schema = operands.get_str("SCHEMA")?;
    let address = operands.get_str("ADDRESS")?;
    let sessions = sessions_in(operands.get_str("SESSIONS")?)?;
    Some(Request::Serve {
        schema,
        address,
        sessions,
    })
}

// The number of sessions that a word is.
fn sessions_in(word: &str) -> Option<u32>
    ensures { result ≡ number_of sessions_range word.now }
{
    let range = Range {
        digits: 10,
        least: 1,
        most: 1_000_000,
    };
    match number_in(range, word) {
        Some(sessions) => Some(sessions as u32),
        None => None,
    }
}

// The request of `post`.
fn post_of<'a>(operands: &ArgMatches<'a>) -> Option<Request<'a>>
    ensures { option_map request_text result ≡ post_of (first_value (found_of operands.now)) }
{
    let schema = operands.get_str("SCHEMA")?;
    let address = operands.get_str("ADDRESS")?;
    let input = operands.get_str("INPUT")?;
    Some(Request::Post {
        schema,
        address,
        input,
    })
}

// The request of `client`, without channels.
fn client_of<'a>(alloc: Global, operands: &ArgMatches<'a>) -> Option<Request<'a>>
    ensures { option_map request_text result ≡ client_of (first_value (found_of operands.now)) }
{
    let schema = operands.get_str("SCHEMA")?;
    let address = operands.get_str("ADDRESS")?;
    let state = operands.get_str("STATE")?;
    let channels = Vec::new(alloc);
    Some(Request::Client {
        schema,
        address,
        state,
        channels,
    })
}

// The request of `layers`.
fn layers_of<'a>(operands: &ArgMatches<'a>) -> Option<Request<'a>>
    ensures { option_map request_text result ≡ layers_of (first_value (found_of operands.now)) }
{
    let old = operands.get_str("OLD")?;
    let new = operands.get_str("NEW")?;
    let of = operands.get_str("TYPE")?;
    Some(Request::Layers { old, new, of })
}

// The request of `calls`.
fn calls_of<'a>(operands: &ArgMatches<'a>) -> Option<Request<'a>>
    ensures { option_map request_text result ≡ calls_of (first_value (found_of operands.now)) }
{
    let schema = operands.get_str("SCHEMA")?;
    let input = operands.get_str("INPUT")?;
    Some(Request::Calls { schema, input })
}

// Whether each word may be an operand.
fn are_operands(words: &[String]) -> bool
    ensures { IsTrue result ↔ All (λ w. IsOperand (string_bytes w)) words.now }
{
    words.iter().all(|word| is_operand(word.as_str()))
}

/// Whether a word may be an operand: it is not empty, and does not begin with `-`.
pub fn is_operand(word: &str) -> bool
    ensures { IsTrue result ↔ IsOperand word.now }
{
    match word.as_bytes() {
        [] => false,
        [first, ..] => *first != b'-',
    }
}
