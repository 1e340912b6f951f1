//! The saved clients of values.
ghost use Rattle.std.specs.Prelude.{◌≡◌, IfOk};
ghost use Rattle.tl_types.specs.Seen.{view};
ghost use Rattle.wire_forms.specs.Parts.{each};
ghost use Rattle.wire_values.specs.Coming.{coming};
ghost use Rattle.wire_values.specs.SavedClients.{event_at, event_in, lane_at, saved_at, saved_channel_at, saved_channel_in, saved_in};

use crate::fields::{Fields, next_int, next_long, next_parts, next_text, next_word, opened, skip};
use crate::lists::{bodies_of, next_ids};
use crate::update_reader::{deletion, settings_from};
use box_events::{Event, ListOf, Saved, SavedChannel, SavedLane};
use std::alloc::Global;
use tl_base::Memory;
use tl_types::Value;
use wire_forms::numbers::{EVENT_DELETE, EVENT_EDIT, EVENT_NEW};

// The event of a record of this form.
fn event_of(alloc: Global, form: u32, mut fields: Fields) -> Result<Event, Memory>
    ensures { IfOk result (λ e. e ≡ event_at form (coming fields)) }
{
    match form {
        EVENT_NEW => Ok(Event::new_message(next_text(alloc, &mut fields))),
        EVENT_EDIT => Ok(Event::edit(next_text(alloc, &mut fields))),
        EVENT_DELETE => Ok(deletion(next_ids(alloc, &mut fields)?)),
        _ => Ok(Event::read(next_int(&mut fields))),
    }
}

fn events_of(alloc: Global, items: Fields) -> Result<ListOf<Event>, Memory>
    ensures { IfOk result (λ es. es ≡ each event_in (coming items)) }
{
    let mut events = Vec::new(alloc);
    for item in items {
        let (form, fields) = opened(alloc, item);
        events.push(event_of(alloc, form, fields)?)?;
    }
    Ok(ListOf::from_vec(events))
}

fn lane_from(alloc: Global, mut fields: Fields) -> Result<SavedLane, Memory>
    ensures { IfOk result (λ l. l ≡ lane_at (coming fields)) }
{
    Ok(SavedLane {
        restart: next_word(&mut fields),
        at: next_word(&mut fields),
        events: events_of(alloc, next_parts(alloc, &mut fields))?,
    })
}

fn channel_from(alloc: Global, mut fields: Fields) -> Result<SavedChannel, Memory>
    ensures { IfOk result (λ c. c ≡ saved_channel_at (coming fields)) }
{
    Ok(SavedChannel {
        id: next_long(&mut fields),
        lane: lane_from(alloc, next_parts(alloc, &mut fields))?,
        recent: bodies_of(alloc, next_parts(alloc, &mut fields))?,
    })
}

fn channels_of(alloc: Global, items: Fields) -> Result<ListOf<SavedChannel>, Memory>
    ensures { IfOk result (λ cs. cs ≡ each saved_channel_in (coming items)) }
{
    let mut channels = Vec::new(alloc);
    for item in items {
        channels.push(channel_from(alloc, opened(alloc, item).1)?)?;
    }
    Ok(ListOf::from_vec(channels))
}

fn saved_from(alloc: Global, mut fields: Fields) -> Result<Saved, Memory>
    ensures { IfOk result (λ s. s ≡ saved_at (coming fields)) }
{
    // The version isn't looked at.
    skip(&mut fields);
    Ok(Saved {
        next: next_word(&mut fields),
        common: lane_from(alloc, next_parts(alloc, &mut fields))?,
        secret: lane_from(alloc, next_parts(alloc, &mut fields))?,
        date: next_word(&mut fields),
        seq: next_word(&mut fields),
        settings: settings_from(alloc, next_parts(alloc, &mut fields))?,
        channels: channels_of(alloc, next_parts(alloc, &mut fields))?,
    })
}

/// The saved client of a value. Its version is not looked at.
pub fn saved_of(alloc: Global, value: Value) -> Result<Saved, Memory>
    ensures { IfOk result (λ s. s ≡ saved_in (view value)) }
{
    saved_from(alloc, opened(alloc, value).1)
}
