//! The values of saved clients.
ghost use Rattle.std.specs.Prelude.{◌≡◌, IfOk};
ghost use Rattle.tl_types.specs.Seen.{view};
ghost use Rattle.tl_types.specs.Values.{list};
ghost use Rattle.wire_forms.specs.Parts.{row};
ghost use Rattle.wire_values.specs.SavedClients.{event_tree, lane_tree, saved_setting_tree, saved_channel_tree, saved_tree};

use box_events::{Event, EventKind, Saved, SavedChannel, SavedLane, Setting};
use std::alloc::Global;
use tl_base::Memory;
use tl_types::Value;
use wire_forms::numbers::{
    CHANNEL, CLIENT, EVENT_DELETE, EVENT_EDIT, EVENT_NEW, EVENT_READ, LANE, SETTING,
};
use wire_forms::{bodies_value, ids_value, node, number, text_value};

/// The version of saved clients that is written.
pub const VERSION: u32 = 2;

fn event_value(alloc: Global, event: &Event) -> Result<Value, Memory>
    ensures { IfOk result (λ v. view v ≡ event_tree event.now) }
{
    match event.kind() {
        EventKind::New => node(alloc, EVENT_NEW, [text_value(alloc, event.body())?]),
        EventKind::Edit => node(alloc, EVENT_EDIT, [text_value(alloc, event.body())?]),
        EventKind::Delete => node(alloc, EVENT_DELETE, [ids_value(alloc, event.ids())?]),
        EventKind::Read { max_id } => node(alloc, EVENT_READ, [Value::Int(max_id)]),
    }
}

fn events_value(alloc: Global, events: &[Event]) -> Result<Value, Memory>
    ensures { IfOk result (λ v. view v ≡ list (row event_tree events.now)) }
{
    let mut items = Vec::new(alloc);
    for event in events {
        items.push(event_value(alloc, event)?)?;
    }
    Ok(Value::List(items))
}

fn lane_value(alloc: Global, lane: &SavedLane) -> Result<Value, Memory>
    ensures { IfOk result (λ v. view v ≡ lane_tree lane.now) }
{
    node(
        alloc,
        LANE,
        [
            number(lane.restart),
            number(lane.at),
            events_value(alloc, lane.events.as_slice())?,
        ],
    )
}

fn saved_setting_value(alloc: Global, setting: &Setting) -> Result<Value, Memory>
    ensures { IfOk result (λ v. view v ≡ saved_setting_tree setting.now) }
{
    node(
        alloc,
        SETTING,
        [
            text_value(alloc, setting.key.as_slice())?,
            text_value(alloc, setting.value.as_slice())?,
        ],
    )
}

fn saved_settings_value(alloc: Global, settings: &[Setting]) -> Result<Value, Memory>
    ensures { IfOk result (λ v. view v ≡ list (row saved_setting_tree settings.now)) }
{
    let mut items = Vec::new(alloc);
    for setting in settings {
        items.push(saved_setting_value(alloc, setting)?)?;
    }
    Ok(Value::List(items))
}

fn saved_channel_value(alloc: Global, channel: &SavedChannel) -> Result<Value, Memory>
    ensures { IfOk result (λ v. view v ≡ saved_channel_tree channel.now) }
{
    node(
        alloc,
        CHANNEL,
        [
            Value::Long(channel.id),
            lane_value(alloc, &channel.lane)?,
            bodies_value(alloc, channel.recent.as_slice())?,
        ],
    )
}

fn saved_channels_value(alloc: Global, channels: &[SavedChannel]) -> Result<Value, Memory>
    ensures { IfOk result (λ v. view v ≡ list (row saved_channel_tree channels.now)) }
{
    let mut items = Vec::new(alloc);
    for channel in channels {
        items.push(saved_channel_value(alloc, channel)?)?;
    }
    Ok(Value::List(items))
}

/// The value of a saved client.
pub fn saved_value(alloc: Global, saved: &Saved) -> Result<Value, Memory>
    ensures { IfOk result (λ v. view v ≡ saved_tree saved.now) }
{
    node(
        alloc,
        CLIENT,
        [
            number(VERSION),
            number(saved.next),
            lane_value(alloc, &saved.common)?,
            lane_value(alloc, &saved.secret)?,
            number(saved.date),
            number(saved.seq),
            saved_settings_value(alloc, saved.settings.as_slice())?,
            saved_channels_value(alloc, saved.channels.as_slice())?,
        ],
    )
}
