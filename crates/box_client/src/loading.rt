//! Loading what a client saved.
ghost use Rattle.std.specs.Prelude.{◌≡◌, ◌<◌, ◌≤◌, ◌^◌, length, [], IfOk, IfErr, OnOk, map, true, None};
ghost use Rattle.std.specs.Ordering.{nat_cmp, is_lt};
ghost use Rattle.std.specs.Cmp.Lexicographic.{slice_cmp};
ghost use Rattle.box_events.specs.Events.{count_of, is_new};
ghost use Rattle.box_events.specs.declared.limits.TheConstants.{MAX_END};
ghost use Rattle.pts_machine.specs.Steps.{loaded};
ghost use Rattle.channel_box.specs.States.{states};
ghost use Rattle.box_client.specs.Messages.{are_messages};
ghost use Rattle.box_client.specs.Saving.{is_even, uneven_channel, uneven_lane, unsorted, surplus_after, channel_loaded, client_loaded};
ghost use Rattle.box_client.specs.Loads.{IsCauseOf, IsLoadedAs, IsRight, IsSurplusOf, Adds};
ghost use Rattle.box_client.specs.Ranges.{AreChannelsInRange, IsSavedInRange};
ghost use Rattle.box_client.specs.Views.{client_of};

use crate::fault::LoadFault;
use crate::parts::ClientParts;
use box_events::{Event, EventKind, LaneName, ListOf, Saved, SavedChannel, SavedLane, Setting};
use channel_box::{Channels, WatchFault};
use pts_machine::{Lane, Settings};
use std::alloc::Global;

/// The number of a saved client's next request is this at most, so that many more can be given.
pub const MAX_NEXT: u32 = 2_000_000_000;

/// Fewer settings than this number are loaded.
const MOST_SETTINGS: usize = 2_147_483_648;

/// A client of what was saved: nothing is held, no answer is waited for, and all is to be asked about.
pub fn load(alloc: Global, saved: Saved) -> Result<ClientParts, LoadFault>
    requires range { IsSavedInRange saved }
    ensures ok { IfOk result (λ parts. IsLoadedAs saved (client_of parts)) }
    ensures err { IfErr result (IsCauseOf saved) }
{
    if saved.settings.len() >= MOST_SETTINGS {
        return Err(LoadFault::Memory);
    }
    check(&saved)?;
    let Saved {
        next,
        common,
        secret,
        date,
        seq,
        settings,
        channels,
    } = saved;
    Ok(ClientParts {
        next,
        common: load_lane(alloc, common),
        secret: load_lane(alloc, secret),
        settings: Settings::load(alloc, seq, date, settings.into_vec()),
        flag: true,
        channels: load_channels(alloc, channels)?,
    })
}

// The first cause, but for the ids of channels.
fn check(saved: &Saved) -> Result<(), LoadFault>
    requires few { length saved.now.settings < 2 ^ 31 }
    ensures ok { OnOk result (IsRight saved.now) }
    ensures err { IfErr result (IsCauseOf saved.now) }
{
    let next = saved.next;
    if next == 0 || next > MAX_NEXT {
        return Err(LoadFault::BadNext { next });
    }
    if let Some(lane) = uneven_lane(saved) {
        return Err(LoadFault::BadLane { lane });
    }
    if let Some(place) = unsorted(saved.settings.as_slice()) {
        return Err(LoadFault::BadSettings { place });
    }
    Ok(())
}

fn uneven_lane(saved: &Saved) -> Option<LaneName>
    ensures { result ≡ uneven_lane saved.now }
{
    if !is_even(&saved.common) {
        return Some(LaneName::Common);
    }
    if !is_even(&saved.secret) || !are_messages(saved.secret.events.as_slice()) {
        return Some(LaneName::Secret);
    }
    uneven_channel(saved.channels.as_slice())
}

// Whether a lane ends where its events do.
fn is_even(lane: &SavedLane) -> bool
    ensures { result ≡ is_even lane.now }
{
    if lane.at < lane.restart {
        return false;
    }
    let mut left = lane.at - lane.restart;
    for event in lane.events.as_slice() {
        let count = event.count();
        if left < count {
            return false;
        }
        left -= count;
    }
    left == 0
}

fn are_messages(events: &[Event]) -> bool
    ensures { result ≡ are_messages events.now }
{
    for event in events {
        if !is_message(event) {
            return false;
        }
    }
    true
}

fn is_message(event: &Event) -> bool
    ensures { result ≡ is_new event.now }
{
    match event.kind() {
        EventKind::New => true,
        EventKind::Edit | EventKind::Delete | EventKind::Read { .. } => false,
    }
}

fn uneven_channel(channels: &[SavedChannel]) -> Option<LaneName>
    ensures { result ≡ uneven_channel channels.now }
{
    for channel in channels {
        if !is_even(&channel.lane) {
            return Some(LaneName::Channel { id: channel.id });
        }
    }
    None
}

// The index of the first setting whose key isn't above the one before.
fn unsorted(settings: &[Setting]) -> Option<u32>
    requires few { length settings.now < 2 ^ 31 }
    ensures { result ≡ unsorted settings.now }
{
    for i in 1..settings.len() {
        if !is_below(&settings[i - 1], &settings[i]) {
            return Some(i as u32);
        }
    }
    None
}

fn is_below(one: &Setting, other: &Setting) -> bool
    ensures { result ≡ is_lt (slice_cmp nat_cmp one.now.key other.now.key) }
{
    one.key.as_slice().cmp(other.key.as_slice()).is_lt()
}

fn load_lane(alloc: Global, saved: SavedLane) -> Lane<Event>
    requires even { is_even saved ≡ true }
    requires limit { saved.at ≤ MAX_END }
    ensures { result.state ≡ loaded count_of saved.restart saved.events }
{
    Lane::load(alloc, saved.restart, saved.events.into_vec())
}

fn load_channels(alloc: Global, saved: ListOf<SavedChannel>) -> Result<Channels, LoadFault>
    requires even { uneven_channel saved ≡ None }
    requires limit { AreChannelsInRange saved }
    ensures ids { OnOk result (surplus_after [] saved ≡ None) }
    ensures ok { IfOk result (λ channels. states channels ≡ map channel_loaded saved) }
    ensures err { IfErr result (IsSurplusOf (surplus_after [] saved)) }
{
    let mut channels = Channels::new(alloc);
    for channel in saved.into_vec() {
        add(alloc, &mut channels, channel)?;
    }
    channels.wake();
    Ok(channels)
}

// Watches a saved channel.
fn add(alloc: Global, channels: &mut Channels, saved: SavedChannel) -> Result<(), LoadFault>
    requires even { is_even saved.lane ≡ true }
    requires limit { saved.lane.at ≤ MAX_END }
    ensures { Adds (states channels.old) saved result (states channels.new) }
{
    let place = channels.ids().len() as u32;
    let lane = load_lane(alloc, saved.lane);
    match channels.add(saved.id, lane, saved.recent) {
        Ok(()) => Ok(()),
        Err(WatchFault::Already) => Err(LoadFault::BadChannels { place }),
        Err(WatchFault::TooMany) => Err(LoadFault::BadChannels { place }),
        Err(WatchFault::Memory) => Err(LoadFault::Memory),
    }
}
