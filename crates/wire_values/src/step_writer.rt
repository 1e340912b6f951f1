//! The values of a replay's steps.
ghost use Rattle.std.specs.Prelude.{◌≡◌, IfOk};
ghost use Rattle.tl_types.specs.Seen.{view};
ghost use Rattle.wire_values.specs.Steps.{step_tree};

use crate::post_writer::posts_value;
use box_events::Step;
use std::alloc::Global;
use tl_base::Memory;
use tl_types::Value;
use wire_forms::numbers::{
    STEP_CHANNEL_TOO_LONG, STEP_DATE, STEP_HEAR, STEP_POST, STEP_RESTART, STEP_SERVE, STEP_TICK,
    STEP_TOO_LONG, STEP_WAKE, STEP_WATCH,
};
use wire_forms::{node, number};

/// The value of a step.
pub fn step_value(alloc: Global, step: &Step) -> Result<Value, Memory>
    ensures { IfOk result (λ v. view v ≡ step_tree step.now) }
{
    match step {
        Step::Post { random_id, posts } => node(
            alloc,
            STEP_POST,
            [
                Value::Long(*random_id),
                posts_value(alloc, posts.as_slice())?,
            ],
        ),
        Step::Date { date } => node(alloc, STEP_DATE, [number(*date)]),
        Step::Serve { packet } => node(alloc, STEP_SERVE, [number(*packet)]),
        Step::Hear { client, packet } => node(alloc, STEP_HEAR, [number(*client), number(*packet)]),
        Step::Tick { client } => node(alloc, STEP_TICK, [number(*client)]),
        Step::Wake { client } => node(alloc, STEP_WAKE, [number(*client)]),
        Step::Watch { client, channel_id } => node(
            alloc,
            STEP_WATCH,
            [number(*client), Value::Long(*channel_id)],
        ),
        Step::Restart { client } => node(alloc, STEP_RESTART, [number(*client)]),
        Step::TooLong => node(alloc, STEP_TOO_LONG, []),
        Step::ChannelTooLong { channel_id } => node(
            alloc,
            STEP_CHANNEL_TOO_LONG,
            [Value::Long(*channel_id)],
        ),
    }
}
