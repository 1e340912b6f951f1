//! The updates of values.
ghost use Rattle.std.specs.Prelude.{◌≡◌, IfOk};
ghost use Rattle.tl_types.specs.Seen.{view};
ghost use Rattle.wire_forms.specs.Parts.{each};
ghost use Rattle.wire_values.specs.Coming.{coming};
ghost use Rattle.wire_values.specs.Others.{others_of, settings_of};
ghost use Rattle.wire_values.specs.Updates as defined;
ghost use Rattle.wire_values.specs.Updates.{update_at, update_in, placed_in, setting_in};

use crate::fields::{Fields, next_int, next_long, next_text, next_word, opened};
use crate::lists::next_ids;
use box_events::{Event, Ids, ListOf, MAX_IDS, Placed, Setting, Update};
use std::alloc::Global;
use tl_base::Memory;
use tl_types::Value;
use wire_forms::entry_of;
use wire_forms::numbers::{
    UPDATE_CHANNEL_TOO_LONG, UPDATE_DELETE_CHANNEL_MESSAGES, UPDATE_DELETE_MESSAGES,
    UPDATE_EDIT_CHANNEL_MESSAGE, UPDATE_EDIT_MESSAGE, UPDATE_NEW_CHANNEL_MESSAGE,
    UPDATE_NEW_ENCRYPTED_MESSAGE, UPDATE_NEW_MESSAGE, UPDATE_READ_CHANNEL_HISTORY,
    UPDATE_READ_HISTORY, UPDATE_SETTING,
};

/// The delete of these ids; a read mark where no delete has so many.
pub fn deletion(ids: Ids) -> Event
    ensures { result ≡ defined.deletion ids }
{
    let many = ids.as_slice().len();
    if 1 <= many && many <= MAX_IDS {
        Event::delete(ids)
    } else {
        Event::read(0)
    }
}

/// The setting of a record's fields.
pub fn setting_from(alloc: Global, mut fields: Fields) -> Setting
    ensures { result ≡ defined.setting_at (coming fields) }
{
    Setting {
        key: next_text(alloc, &mut fields),
        value: next_text(alloc, &mut fields),
    }
}

// The update of a record of this form.
fn update_of(alloc: Global, form: u32, mut fields: Fields) -> Result<Update, Memory>
    ensures { IfOk result (λ u. u ≡ update_at form (coming fields)) }
{
    match form {
        UPDATE_NEW_MESSAGE => Ok(Update::Common {
            event: Event::new_message(next_text(alloc, &mut fields)),
            pts: next_word(&mut fields),
        }),
        UPDATE_EDIT_MESSAGE => Ok(Update::Common {
            event: Event::edit(next_text(alloc, &mut fields)),
            pts: next_word(&mut fields),
        }),
        UPDATE_DELETE_MESSAGES => Ok(Update::Common {
            event: deletion(next_ids(alloc, &mut fields)?),
            pts: next_word(&mut fields),
        }),
        UPDATE_NEW_ENCRYPTED_MESSAGE => Ok(Update::Secret {
            body: next_text(alloc, &mut fields),
            qts: next_word(&mut fields),
        }),
        UPDATE_NEW_CHANNEL_MESSAGE => Ok(Update::Channel {
            id: next_long(&mut fields),
            event: Event::new_message(next_text(alloc, &mut fields)),
            pts: next_word(&mut fields),
        }),
        UPDATE_EDIT_CHANNEL_MESSAGE => Ok(Update::Channel {
            id: next_long(&mut fields),
            event: Event::edit(next_text(alloc, &mut fields)),
            pts: next_word(&mut fields),
        }),
        UPDATE_DELETE_CHANNEL_MESSAGES => Ok(Update::Channel {
            id: next_long(&mut fields),
            event: deletion(next_ids(alloc, &mut fields)?),
            pts: next_word(&mut fields),
        }),
        UPDATE_CHANNEL_TOO_LONG => Ok(Update::ChannelTooLong {
            id: next_long(&mut fields),
        }),
        UPDATE_READ_HISTORY => Ok(Update::Common {
            event: Event::read(next_int(&mut fields)),
            pts: next_word(&mut fields),
        }),
        UPDATE_READ_CHANNEL_HISTORY => Ok(Update::Channel {
            id: next_long(&mut fields),
            event: Event::read(next_int(&mut fields)),
            pts: next_word(&mut fields),
        }),
        _ => Ok(Update::Setting {
            setting: setting_from(alloc, fields),
        }),
    }
}

/// The updates of values.
pub fn updates_of(alloc: Global, items: Fields) -> Result<ListOf<Update>, Memory>
    ensures { IfOk result (λ us. us ≡ each update_in (coming items)) }
{
    let mut updates = Vec::new(alloc);
    for item in items {
        let (form, fields) = opened(alloc, item);
        updates.push(update_of(alloc, form, fields)?)?;
    }
    Ok(ListOf::from_vec(updates))
}

// The event of an edit, a delete or a read mark, with the number at which it ends.
fn placed_of(alloc: Global, value: Value) -> Result<Placed, Memory>
    ensures { IfOk result (λ p. p ≡ placed_in (view value)) }
{
    let (form, mut fields) = opened(alloc, value);
    let event = match form {
        UPDATE_EDIT_MESSAGE => Event::edit(next_text(alloc, &mut fields)),
        UPDATE_DELETE_MESSAGES => deletion(next_ids(alloc, &mut fields)?),
        _ => Event::read(next_int(&mut fields)),
    };
    Ok(Placed {
        event,
        pts: next_word(&mut fields),
    })
}

/// The events of a channel's difference that are no messages.
pub fn placed_all(alloc: Global, items: Fields) -> Result<ListOf<Placed>, Memory>
    ensures { IfOk result (λ ps. ps ≡ each placed_in (coming items)) }
{
    let mut others = Vec::new(alloc);
    for item in items {
        others.push(placed_of(alloc, item)?)?;
    }
    Ok(ListOf::from_vec(others))
}

/// The events of a difference that are no messages, and its settings apart from them.
pub fn others_and_settings(
    alloc: Global,
    items: Fields,
) -> Result<(ListOf<Placed>, ListOf<Setting>), Memory>
    ensures others { IfOk result (λ r. r.0 ≡ each placed_in (others_of (coming items))) }
    ensures settings { IfOk result (λ r. r.1 ≡ each setting_in (settings_of (coming items))) }
{
    let mut others = Vec::new(alloc);
    let mut settings = Vec::new(alloc);
    for item in items {
        if entry_of(&item) == UPDATE_SETTING {
            settings.push(setting_of(alloc, item))?;
        } else {
            others.push(placed_of(alloc, item)?)?;
        }
    }
    Ok((ListOf::from_vec(others), ListOf::from_vec(settings)))
}

/// The setting of a value.
fn setting_of(alloc: Global, value: Value) -> Setting
    ensures { result ≡ setting_in (view value) }
{
    setting_from(alloc, opened(alloc, value).1)
}

/// The settings of values.
pub fn settings_from(alloc: Global, items: Fields) -> Result<ListOf<Setting>, Memory>
    ensures { IfOk result (λ ss. ss ≡ each setting_in (coming items)) }
{
    let mut settings = Vec::new(alloc);
    for item in items {
        settings.push(setting_of(alloc, item))?;
    }
    Ok(ListOf::from_vec(settings))
}
