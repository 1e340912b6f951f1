//! The values of frames.
ghost use Rattle.std.specs.Prelude.{◌≡◌, IfOk};
ghost use Rattle.tl_types.specs.Seen.{view};
ghost use Rattle.wire_values.specs.Frames.{bits, push_tree, state_tree, receipt_tree, difference_tree, channel_reply_tree, reply_tree, frame_tree};
ghost use Rattle.wire_forms.specs.Parts.{flag};

use crate::update_writer::{placed_values, updates_value, with_settings};
use box_events::{ChannelReply, Frame, Placed, Push, Receipt, Reply, Setting, State};
use std::alloc::Global;
use tl_base::{Bytes, Memory};
use tl_types::Value;
use wire_forms::numbers::{
    CHANNEL_DIFFERENCE, CHANNEL_DIFFERENCE_EMPTY, CHANNEL_DIFFERENCE_TOO_LONG, CHANNEL_REPLY,
    DIFFERENCE, DIFFERENCE_EMPTY, DIFFERENCE_REPLY, DIFFERENCE_SLICE, ERROR_REPLY, PUSH, RECEIPT,
    RECEIPT_REPLY, STATE, STATE_REPLY, UPDATES, UPDATES_COMBINED, UPDATES_TOO_LONG,
};
use wire_forms::{bodies_value, node, number, text_value};

fn push_value(alloc: Global, push: &Push) -> Result<Value, Memory>
    ensures { IfOk result (λ v. view v ≡ push_tree push.now) }
{
    match push {
        Push::TooLong => node(alloc, UPDATES_TOO_LONG, []),
        Push::Container {
            updates,
            date,
            seq_start,
            seq,
        } => {
            let list = updates_value(alloc, updates.as_slice())?;
            if *seq_start == *seq {
                return node(alloc, UPDATES, [list, number(*date), number(*seq)]);
            }
            node(
                alloc,
                UPDATES_COMBINED,
                [list, number(*date), number(*seq_start), number(*seq)],
            )
        }
    }
}

fn state_value(alloc: Global, state: &State) -> Result<Value, Memory>
    ensures { IfOk result (λ v. view v ≡ state_tree state.now) }
{
    node(
        alloc,
        STATE,
        [
            number(state.pts),
            number(state.qts),
            number(state.date),
            number(state.seq),
        ],
    )
}

fn receipt_value(alloc: Global, receipt: &Receipt) -> Result<Value, Memory>
    ensures { IfOk result (λ v. view v ≡ receipt_tree receipt.now) }
{
    node(
        alloc,
        RECEIPT,
        [
            number(receipt.pts),
            number(receipt.qts),
            number(receipt.date),
            number(receipt.seq),
        ],
    )
}

fn difference_value(
    alloc: Global,
    news: &[Bytes],
    secrets: &[Bytes],
    others: &[Placed],
    settings: &[Setting],
    state: &State,
    last: bool,
) -> Result<Value, Memory>
    ensures { IfOk result (λ v. view v ≡ difference_tree news.now secrets.now others.now settings.now state.now last) }
{
    let updates = with_settings(alloc, placed_values(alloc, others)?, settings)?;
    let form = if last { DIFFERENCE } else { DIFFERENCE_SLICE };
    node(
        alloc,
        form,
        [
            bodies_value(alloc, news)?,
            bodies_value(alloc, secrets)?,
            Value::List(updates),
            state_value(alloc, state)?,
        ],
    )
}

fn bits_value(last: bool) -> Value
    ensures { view result ≡ bits last }
{
    Value::Nat(if last { 1 } else { 0 })
}

fn flag_value(last: bool) -> Value
    ensures { view result ≡ flag last }
{
    if last { Value::Truth } else { Value::Absent }
}

fn channel_reply_value(alloc: Global, reply: &ChannelReply) -> Result<Value, Memory>
    ensures { IfOk result (λ v. view v ≡ channel_reply_tree reply.now) }
{
    match reply {
        ChannelReply::Empty { pts, last } => node(
            alloc,
            CHANNEL_DIFFERENCE_EMPTY,
            [bits_value(*last), flag_value(*last), number(*pts)],
        ),
        ChannelReply::Part {
            pts,
            news,
            others,
            last,
        } => node(
            alloc,
            CHANNEL_DIFFERENCE,
            [
                bits_value(*last),
                flag_value(*last),
                number(*pts),
                bodies_value(alloc, news.as_slice())?,
                Value::List(placed_values(alloc, others.as_slice())?),
            ],
        ),
        ChannelReply::TooLong { pts, recent, last } => node(
            alloc,
            CHANNEL_DIFFERENCE_TOO_LONG,
            [
                bits_value(*last),
                flag_value(*last),
                number(*pts),
                bodies_value(alloc, recent.as_slice())?,
            ],
        ),
    }
}

fn reply_value(alloc: Global, number_of: u32, reply: &Reply) -> Result<Value, Memory>
    ensures { IfOk result (λ v. view v ≡ reply_tree number_of reply.now) }
{
    match reply {
        Reply::State(state) => node(
            alloc,
            STATE_REPLY,
            [number(number_of), state_value(alloc, state)?],
        ),
        Reply::Empty { date, seq } => node(
            alloc,
            DIFFERENCE_REPLY,
            [
                number(number_of),
                node(alloc, DIFFERENCE_EMPTY, [number(*date), number(*seq)])?,
            ],
        ),
        Reply::Difference {
            news,
            secrets,
            others,
            settings,
            state,
            last,
        } => node(
            alloc,
            DIFFERENCE_REPLY,
            [
                number(number_of),
                difference_value(
                    alloc,
                    news.as_slice(),
                    secrets.as_slice(),
                    others.as_slice(),
                    settings.as_slice(),
                    state,
                    *last,
                )?,
            ],
        ),
        Reply::Channel(reply) => node(
            alloc,
            CHANNEL_REPLY,
            [number(number_of), channel_reply_value(alloc, reply)?],
        ),
        Reply::Receipt(receipt) => node(
            alloc,
            RECEIPT_REPLY,
            [number(number_of), receipt_value(alloc, receipt)?],
        ),
        Reply::Error { code, text } => node(
            alloc,
            ERROR_REPLY,
            [
                number(number_of),
                Value::Int(*code),
                text_value(alloc, text.as_slice())?,
            ],
        ),
    }
}

/// The value of a frame.
pub fn frame_value(alloc: Global, frame: &Frame) -> Result<Value, Memory>
    ensures { IfOk result (λ v. view v ≡ frame_tree frame.now) }
{
    match frame {
        Frame::Push(push) => node(alloc, PUSH, [push_value(alloc, push)?]),
        Frame::Reply { number, reply } => reply_value(alloc, *number, reply),
    }
}
