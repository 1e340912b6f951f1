//! The steps of values.
ghost use Rattle.std.specs.Prelude.{◌≡◌, IfOk};
ghost use Rattle.tl_types.specs.Seen.{view};
ghost use Rattle.wire_values.specs.Coming.{coming};
ghost use Rattle.wire_values.specs.Steps.{step_at, step_in};

use crate::fields::{Fields, next_long, next_parts, next_word, opened};
use crate::post_reader::posts_of;
use box_events::Step;
use std::alloc::Global;
use tl_base::Memory;
use tl_types::Value;
use wire_forms::numbers::{
    STEP_DATE, STEP_HEAR, STEP_POST, STEP_RESTART, STEP_SERVE, STEP_TICK, STEP_TOO_LONG, STEP_WAKE,
    STEP_WATCH,
};

// The step of a record of this form.
fn step_from(alloc: Global, form: u32, mut fields: Fields) -> Result<Step, Memory>
    ensures { IfOk result (λ s. s ≡ step_at form (coming fields)) }
{
    match form {
        STEP_POST => Ok(Step::Post {
            random_id: next_long(&mut fields),
            posts: posts_of(alloc, next_parts(alloc, &mut fields))?,
        }),
        STEP_DATE => Ok(Step::Date {
            date: next_word(&mut fields),
        }),
        STEP_SERVE => Ok(Step::Serve {
            packet: next_word(&mut fields),
        }),
        STEP_HEAR => Ok(Step::Hear {
            client: next_word(&mut fields),
            packet: next_word(&mut fields),
        }),
        STEP_TICK => Ok(Step::Tick {
            client: next_word(&mut fields),
        }),
        STEP_WAKE => Ok(Step::Wake {
            client: next_word(&mut fields),
        }),
        STEP_WATCH => Ok(Step::Watch {
            client: next_word(&mut fields),
            channel_id: next_long(&mut fields),
        }),
        STEP_RESTART => Ok(Step::Restart {
            client: next_word(&mut fields),
        }),
        STEP_TOO_LONG => Ok(Step::TooLong),
        _ => Ok(Step::ChannelTooLong {
            channel_id: next_long(&mut fields),
        }),
    }
}

/// The step of a value.
pub fn step_of(alloc: Global, value: Value) -> Result<Step, Memory>
    ensures { IfOk result (λ s. s ≡ step_in (view value)) }
{
    let (form, fields) = opened(alloc, value);
    step_from(alloc, form, fields)
}
