//! The values of updates.
ghost use Rattle.std.specs.Prelude.{◌≡◌, IfOk};
ghost use Rattle.tl_types.specs.Seen.{view, views};
ghost use Rattle.tl_types.specs.Values.{list};
ghost use Rattle.wire_forms.specs.Parts.{row};
ghost use Rattle.wire_values.specs.Others.{joined};
ghost use Rattle.wire_values.specs.Updates.{channel_tree, common_tree, placed_tree, setting_tree, update_tree};

use box_events::{Event, EventKind, Placed, Setting, Update};
use std::alloc::Global;
use tl_base::Memory;
use tl_types::Value;
use wire_forms::numbers::{
    UPDATE_CHANNEL_TOO_LONG, UPDATE_DELETE_CHANNEL_MESSAGES, UPDATE_DELETE_MESSAGES,
    UPDATE_EDIT_CHANNEL_MESSAGE, UPDATE_EDIT_MESSAGE, UPDATE_NEW_CHANNEL_MESSAGE,
    UPDATE_NEW_ENCRYPTED_MESSAGE, UPDATE_NEW_MESSAGE, UPDATE_READ_CHANNEL_HISTORY,
    UPDATE_READ_HISTORY, UPDATE_SETTING,
};
use wire_forms::{counted, ids_value, node, number, text_value};

// The value of an event of the common box, which ends at a number.
fn common_value(alloc: Global, event: &Event, pts: u32) -> Result<Value, Memory>
    ensures { IfOk result (λ v. view v ≡ common_tree event.now pts) }
{
    match event.kind() {
        EventKind::New => node(
            alloc,
            UPDATE_NEW_MESSAGE,
            [text_value(alloc, event.body())?, number(pts), number(1)],
        ),
        EventKind::Edit => node(
            alloc,
            UPDATE_EDIT_MESSAGE,
            [text_value(alloc, event.body())?, number(pts), number(1)],
        ),
        EventKind::Delete => node(
            alloc,
            UPDATE_DELETE_MESSAGES,
            [
                ids_value(alloc, event.ids())?,
                number(pts),
                counted(event.ids().len()),
            ],
        ),
        EventKind::Read { max_id } => node(
            alloc,
            UPDATE_READ_HISTORY,
            [Value::Int(max_id), number(pts), number(1)],
        ),
    }
}

// Likewise of a channel's box.
fn channel_value(alloc: Global, id: i64, event: &Event, pts: u32) -> Result<Value, Memory>
    ensures { IfOk result (λ v. view v ≡ channel_tree id event.now pts) }
{
    match event.kind() {
        EventKind::New => node(
            alloc,
            UPDATE_NEW_CHANNEL_MESSAGE,
            [
                Value::Long(id),
                text_value(alloc, event.body())?,
                number(pts),
                number(1),
            ],
        ),
        EventKind::Edit => node(
            alloc,
            UPDATE_EDIT_CHANNEL_MESSAGE,
            [
                Value::Long(id),
                text_value(alloc, event.body())?,
                number(pts),
                number(1),
            ],
        ),
        EventKind::Delete => node(
            alloc,
            UPDATE_DELETE_CHANNEL_MESSAGES,
            [
                Value::Long(id),
                ids_value(alloc, event.ids())?,
                number(pts),
                counted(event.ids().len()),
            ],
        ),
        EventKind::Read { max_id } => node(
            alloc,
            UPDATE_READ_CHANNEL_HISTORY,
            [Value::Long(id), Value::Int(max_id), number(pts), number(1)],
        ),
    }
}

fn setting_value(alloc: Global, setting: &Setting) -> Result<Value, Memory>
    ensures { IfOk result (λ v. view v ≡ setting_tree setting.now) }
{
    node(
        alloc,
        UPDATE_SETTING,
        [
            text_value(alloc, setting.key.as_slice())?,
            text_value(alloc, setting.value.as_slice())?,
        ],
    )
}

fn update_value(alloc: Global, update: &Update) -> Result<Value, Memory>
    ensures { IfOk result (λ v. view v ≡ update_tree update.now) }
{
    match update {
        Update::Common { event, pts } => common_value(alloc, event, *pts),
        Update::Secret { body, qts } => node(
            alloc,
            UPDATE_NEW_ENCRYPTED_MESSAGE,
            [text_value(alloc, body.as_slice())?, number(*qts)],
        ),
        Update::Channel { id, event, pts } => channel_value(alloc, *id, event, *pts),
        Update::ChannelTooLong { id } => node(alloc, UPDATE_CHANNEL_TOO_LONG, [Value::Long(*id)]),
        Update::Setting { setting } => setting_value(alloc, setting),
    }
}

/// A list of the values of updates.
pub fn updates_value(alloc: Global, updates: &[Update]) -> Result<Value, Memory>
    ensures { IfOk result (λ v. view v ≡ list (row update_tree updates.now)) }
{
    let mut items = Vec::new(alloc);
    for update in updates {
        items.push(update_value(alloc, update)?)?;
    }
    Ok(Value::List(items))
}

/// The values of a difference's other events.
pub fn placed_values(alloc: Global, others: &[Placed]) -> Result<Vec<Value>, Memory>
    ensures { IfOk result (λ vs. views vs.items ≡ row placed_tree others.now) }
{
    let mut items = Vec::new(alloc);
    for placed in others {
        items.push(common_value(alloc, &placed.event, placed.pts)?)?;
    }
    Ok(items)
}

/// Appends the values of settings.
pub fn with_settings(
    alloc: Global,
    values: Vec<Value>,
    settings: &[Setting],
) -> Result<Vec<Value>, Memory>
    ensures { IfOk result (λ vs. views vs.items ≡ joined (views values.items) (row setting_tree settings.now)) }
{
    let mut items = values;
    for setting in settings {
        items.push(setting_value(alloc, setting)?)?;
    }
    Ok(items)
}
