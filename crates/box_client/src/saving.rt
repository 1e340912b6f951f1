//! What a client saves.
ghost use Rattle.std.specs.Prelude.{◌≡◌, ◌≤◌, IfOk, map, true, None, []};
ghost use Rattle.channel_box.specs.States.{states, first, has_id};
ghost use Rattle.channel_box.specs.Steps.{is_watched};
ghost use Rattle.box_client.specs.Messages.{HasMessages};
ghost use Rattle.box_client.specs.Saving.{lane_saved, channel_saved, IsSavedOf, saved_of, is_even, uneven_channel, surplus_after};
ghost use Rattle.box_client.specs.Loads.{IsRestartOf};
ghost use Rattle.box_client.specs.Ranges.{AreChannelsInRange, IsSavedInRange};
ghost use Rattle.box_events.specs.declared.limits.TheConstants.{MAX_END};
ghost use Rattle.box_client.specs.declared.loading.TheConstants.{MAX_NEXT};
ghost use Rattle.box_client.specs.Views.{client_of};

use crate::parts::ClientParts;
use box_events::{Event, ListOf, Saved, SavedChannel, SavedLane, Setting};
use channel_box::Channels;
use pts_machine::Lane;
use std::alloc::Global;
use tl_base::{Bytes, Memory};

/// What a client saves; all is copied.
pub fn save(parts: &ClientParts, alloc: Global) -> Result<Saved, Memory>
    requires next { 1 ≤ parts.now.next }
    requires messages { HasMessages parts.now.secret.state }
    ensures value { IfOk result (λ saved. saved ≡ saved_of (client_of parts.now)) }
    ensures range { IfOk result IsSavedInRange }
    ensures loads { parts.now.next ≤ MAX_NEXT → IfOk result (IsRestartOf (client_of parts.now)) }
{
    Ok(Saved {
        next: parts.next,
        common: save_lane(alloc, &parts.common)?,
        secret: save_lane(alloc, &parts.secret)?,
        date: parts.settings.date(),
        seq: parts.settings.at(),
        settings: copy_settings(alloc, parts.settings.all())?,
        channels: save_channels(alloc, &parts.channels)?,
    })
}

fn save_lane(alloc: Global, lane: &Lane<Event>) -> Result<SavedLane, Memory>
    ensures value { IfOk result (λ saved. saved ≡ lane_saved lane.now.state) }
    ensures even { IfOk result (λ saved. is_even saved ≡ true) }
    ensures limit { IfOk result (λ saved. saved.at ≤ MAX_END) }
{
    Ok(SavedLane {
        restart: lane.restart(),
        at: lane.at(),
        events: copy_events(alloc, lane.events())?,
    })
}

fn save_channels(alloc: Global, channels: &Channels) -> Result<ListOf<SavedChannel>, Memory>
    ensures value { IfOk result (λ saved. saved ≡ map channel_saved (states channels.now)) }
    ensures even { IfOk result (λ saved. uneven_channel saved ≡ None) }
    ensures limit { IfOk result AreChannelsInRange }
    ensures ids { IfOk result (λ saved. surplus_after [] saved ≡ None) }
{
    let mut saved = Vec::with_capacity(alloc, channels.ids().len())?;
    for id in channels.ids() {
        saved.push(save_channel(alloc, channels, *id)?)?;
    }
    Ok(ListOf::from_vec(saved))
}

fn save_channel(alloc: Global, channels: &Channels, id: i64) -> Result<SavedChannel, Memory>
    requires watched { is_watched (states channels.now) id ≡ true }
    ensures value { IfOk result (λ saved. IsSavedOf (first (has_id id) (states channels.now)) saved) }
    ensures even { IfOk result (λ saved. is_even saved.lane ≡ true) }
    ensures limit { IfOk result (λ saved. saved.lane.at ≤ MAX_END) }
{
    let lane = match channels.lane(id) {
        Some(lane) => save_lane(alloc, lane)?,
        None => unreachable!(),
    };
    let recent = copy_bodies(alloc, channels.recent(id))?;
    Ok(SavedChannel { id, lane, recent })
}

fn copy_events(alloc: Global, events: &[Event]) -> Result<ListOf<Event>, Memory>
    ensures { IfOk result (λ copies. copies ≡ events.now) }
{
    let mut copies = Vec::with_capacity(alloc, events.len())?;
    for event in events {
        copies.push(event.copy()?)?;
    }
    Ok(ListOf::from_vec(copies))
}

fn copy_settings(alloc: Global, settings: &[Setting]) -> Result<ListOf<Setting>, Memory>
    ensures { IfOk result (λ copies. copies ≡ settings.now) }
{
    let mut copies = Vec::with_capacity(alloc, settings.len())?;
    for setting in settings {
        copies.push(setting.copy()?)?;
    }
    Ok(ListOf::from_vec(copies))
}

fn copy_bodies(alloc: Global, bodies: &[Bytes]) -> Result<ListOf<Bytes>, Memory>
    ensures { IfOk result (λ copies. copies ≡ bodies.now) }
{
    let mut copies = Vec::with_capacity(alloc, bodies.len())?;
    for body in bodies {
        copies.push(body.copy()?)?;
    }
    Ok(ListOf::from_vec(copies))
}
