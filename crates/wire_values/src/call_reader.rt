//! The calls of values.
ghost use Rattle.std.specs.Prelude.{◌≡◌, IfOk};
ghost use Rattle.tl_types.specs.Seen.{view};
ghost use Rattle.wire_values.specs.Calls.{request_at, call_in};
ghost use Rattle.wire_values.specs.Coming.{coming};

use crate::fields::{Fields, next_int, next_long, next_opened, next_parts, next_word, opened};
use crate::post_reader::posts_of;
use box_events::{Numbered, Request};
use std::alloc::Global;
use tl_base::Memory;
use tl_types::Value;
use wire_forms::numbers::{GET_CHANNEL_DIFFERENCE, GET_DIFFERENCE, GET_STATE};

// The request of a call of this form.
fn request_of(alloc: Global, form: u32, mut fields: Fields) -> Result<Request, Memory>
    ensures { IfOk result (λ r. r ≡ request_at form (coming fields)) }
{
    match form {
        GET_STATE => Ok(Request::State),
        GET_DIFFERENCE => Ok(Request::Difference {
            pts: next_int(&mut fields),
            qts: next_int(&mut fields),
            date: next_word(&mut fields),
        }),
        GET_CHANNEL_DIFFERENCE => Ok(Request::Channel {
            id: next_long(&mut fields),
            pts: next_int(&mut fields),
        }),
        _ => Ok(Request::Post {
            random_id: next_long(&mut fields),
            posts: posts_of(alloc, next_parts(alloc, &mut fields))?,
        }),
    }
}

/// The call of a value.
pub fn call_of(alloc: Global, value: Value) -> Result<Numbered, Memory>
    ensures { IfOk result (λ n. n ≡ call_in (view value)) }
{
    let (_, mut fields) = opened(alloc, value);
    let number = next_word(&mut fields);
    let (form, asked) = next_opened(alloc, &mut fields);
    Ok(Numbered {
        number,
        request: request_of(alloc, form, asked)?,
    })
}
