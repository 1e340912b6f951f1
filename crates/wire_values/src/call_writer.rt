//! The values of calls.
ghost use Rattle.std.specs.Prelude.{◌≡◌, IfOk};
ghost use Rattle.tl_types.specs.Seen.{view};
ghost use Rattle.wire_values.specs.Calls.{request_tree, call_tree};

use crate::post_writer::posts_value;
use box_events::{Numbered, Request};
use std::alloc::Global;
use tl_base::Memory;
use tl_types::Value;
use wire_forms::numbers::{GET_CHANNEL_DIFFERENCE, GET_DIFFERENCE, GET_STATE, INVOKE, POST};
use wire_forms::{call, number};

fn request_value(alloc: Global, request: &Request) -> Result<Value, Memory>
    ensures { IfOk result (λ v. view v ≡ request_tree request.now) }
{
    match request {
        Request::State => call(alloc, GET_STATE, []),
        Request::Difference { pts, qts, date } => call(
            alloc,
            GET_DIFFERENCE,
            [Value::Int(*pts), Value::Int(*qts), number(*date)],
        ),
        Request::Channel { id, pts } => call(
            alloc,
            GET_CHANNEL_DIFFERENCE,
            [Value::Long(*id), Value::Int(*pts)],
        ),
        Request::Post { random_id, posts } => call(
            alloc,
            POST,
            [
                Value::Long(*random_id),
                posts_value(alloc, posts.as_slice())?,
            ],
        ),
    }
}

/// The value of a call.
pub fn call_value(alloc: Global, numbered: &Numbered) -> Result<Value, Memory>
    ensures { IfOk result (λ v. view v ≡ call_tree numbered.now) }
{
    call(
        alloc,
        INVOKE,
        [
            number(numbered.number),
            request_value(alloc, &numbered.request)?,
        ],
    )
}
