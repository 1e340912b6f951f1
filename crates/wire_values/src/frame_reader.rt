//! The frames of values.
ghost use Rattle.std.specs.Prelude.{◌≡◌, IfOk};
ghost use Rattle.tl_types.specs.Conditions.{is_bit};
ghost use Rattle.tl_types.specs.Seen.{view};
ghost use Rattle.wire_values.specs.Coming.{coming};
ghost use Rattle.wire_values.specs.Frames.{push_at, state_at, receipt_at, difference_at, channel_reply_at, frame_at, frame_in, start_of as start_by};

use crate::fields::{
    Fields, next_bits, next_int, next_opened, next_parts, next_text, next_word, opened, skip,
};
use crate::lists::bodies_of;
use crate::update_reader::{others_and_settings, placed_all, updates_of};
use box_events::{ChannelReply, Frame, ListOf, Push, Receipt, Reply, State};
use std::alloc::Global;
use tl_base::Memory;
use tl_types::Value;
use wire_forms::numbers::{
    CHANNEL_DIFFERENCE, CHANNEL_DIFFERENCE_EMPTY, CHANNEL_REPLY, DIFFERENCE, DIFFERENCE_EMPTY,
    DIFFERENCE_REPLY, ERROR_REPLY, RECEIPT_REPLY, STATE_REPLY, UPDATES, UPDATES_TOO_LONG,
};

// The start of a container, 0 where its seq is.
fn start_of(seq_start: u32, seq: u32) -> u32
    ensures { result ≡ start_by seq_start seq }
{
    if seq == 0 { 0 } else { seq_start }
}

fn push_of(alloc: Global, form: u32, mut fields: Fields) -> Result<Push, Memory>
    ensures { IfOk result (λ p. p ≡ push_at form (coming fields)) }
{
    if form == UPDATES_TOO_LONG {
        return Ok(Push::TooLong);
    }
    let updates = updates_of(alloc, next_parts(alloc, &mut fields))?;
    let date = next_word(&mut fields);
    let first = next_word(&mut fields);
    if form == UPDATES {
        return Ok(Push::Container {
            updates,
            date,
            seq_start: first,
            seq: first,
        });
    }
    let seq = next_word(&mut fields);
    Ok(Push::Container {
        updates,
        date,
        seq_start: start_of(first, seq),
        seq,
    })
}

fn state_from(mut fields: Fields) -> State
    ensures { result ≡ state_at (coming fields) }
{
    State {
        pts: next_word(&mut fields),
        qts: next_word(&mut fields),
        date: next_word(&mut fields),
        seq: next_word(&mut fields),
    }
}

fn receipt_from(mut fields: Fields) -> Receipt
    ensures { result ≡ receipt_at (coming fields) }
{
    Receipt {
        pts: next_word(&mut fields),
        qts: next_word(&mut fields),
        date: next_word(&mut fields),
        seq: next_word(&mut fields),
    }
}

fn difference_of(alloc: Global, form: u32, mut fields: Fields) -> Result<Reply, Memory>
    ensures { IfOk result (λ r. r ≡ difference_at form (coming fields)) }
{
    if form == DIFFERENCE_EMPTY {
        return Ok(Reply::Empty {
            date: next_word(&mut fields),
            seq: next_word(&mut fields),
        });
    }
    let news = bodies_of(alloc, next_parts(alloc, &mut fields))?;
    let secrets = bodies_of(alloc, next_parts(alloc, &mut fields))?;
    if form == DIFFERENCE {
        let (others, settings) = others_and_settings(alloc, next_parts(alloc, &mut fields))?;
        return Ok(Reply::Difference {
            news,
            secrets,
            others,
            settings,
            state: state_from(next_parts(alloc, &mut fields)),
            last: true,
        });
    }
    Ok(Reply::Difference {
        news,
        secrets,
        others: placed_all(alloc, next_parts(alloc, &mut fields))?,
        settings: ListOf::new(alloc),
        state: state_from(next_parts(alloc, &mut fields)),
        last: false,
    })
}

// Bit 0 of the flags.
fn is_last(bits: u32) -> bool
    ensures { result ≡ is_bit bits 0 }
{
    bits % 2 == 1
}

fn channel_reply_of(alloc: Global, form: u32, mut fields: Fields) -> Result<ChannelReply, Memory>
    ensures { IfOk result (λ c. c ≡ channel_reply_at form (coming fields)) }
{
    let last = is_last(next_bits(&mut fields));
    // The flag says what its bit says.
    skip(&mut fields);
    let pts = next_word(&mut fields);
    match form {
        CHANNEL_DIFFERENCE_EMPTY => Ok(ChannelReply::Empty { pts, last }),
        CHANNEL_DIFFERENCE => Ok(ChannelReply::Part {
            pts,
            news: bodies_of(alloc, next_parts(alloc, &mut fields))?,
            others: placed_all(alloc, next_parts(alloc, &mut fields))?,
            last,
        }),
        _ => Ok(ChannelReply::TooLong {
            pts,
            recent: bodies_of(alloc, next_parts(alloc, &mut fields))?,
            last,
        }),
    }
}

// The frame of a record of this form.
fn frame_from(alloc: Global, form: u32, mut fields: Fields) -> Result<Frame, Memory>
    ensures { IfOk result (λ f. f ≡ frame_at form (coming fields)) }
{
    match form {
        STATE_REPLY => Ok(Frame::Reply {
            number: next_word(&mut fields),
            reply: Reply::State(state_from(next_parts(alloc, &mut fields))),
        }),
        DIFFERENCE_REPLY => {
            let number = next_word(&mut fields);
            let (answer, parts) = next_opened(alloc, &mut fields);
            let reply = difference_of(alloc, answer, parts)?;
            Ok(Frame::Reply { number, reply })
        }
        CHANNEL_REPLY => {
            let number = next_word(&mut fields);
            let (answer, parts) = next_opened(alloc, &mut fields);
            let reply = Reply::Channel(channel_reply_of(alloc, answer, parts)?);
            Ok(Frame::Reply { number, reply })
        }
        RECEIPT_REPLY => Ok(Frame::Reply {
            number: next_word(&mut fields),
            reply: Reply::Receipt(receipt_from(next_parts(alloc, &mut fields))),
        }),
        ERROR_REPLY => Ok(Frame::Reply {
            number: next_word(&mut fields),
            reply: Reply::Error {
                code: next_int(&mut fields),
                text: next_text(alloc, &mut fields),
            },
        }),
        _ => {
            let (kind, parts) = next_opened(alloc, &mut fields);
            Ok(Frame::Push(push_of(alloc, kind, parts)?))
        }
    }
}

/// The frame of a value.
pub fn frame_of(alloc: Global, value: Value) -> Result<Frame, Memory>
    ensures { IfOk result (λ f. f ≡ frame_in (view value)) }
{
    let (form, fields) = opened(alloc, value);
    frame_from(alloc, form, fields)
}
