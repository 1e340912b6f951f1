//! What all channels do.
ghost use Rattle.std.specs.Prelude.{◌≡◌, ◌≤◌, ◌+◌, ◌++◌, OnOk, length};
ghost use Rattle.box_events.specs.declared.limits.TheConstants.{MAX_CHANNELS};
ghost use Rattle.channel_box.specs.States.{has_id, states};
ghost use Rattle.channel_box.specs.Steps.{woken, forgotten, asks_number, ticked};
ghost use Rattle.channel_box.specs.Calls.{KeepsRoom, HasRoomFor};
ghost use Rattle.channel_box.specs.Finding.{IsFirst};
ghost use Rattle.channel_box.specs.Looks.{any_asks};

use crate::channel::Channel;
use box_events::{Asks, Update};
use tl_base::Memory;

/// Where the channel with an id stands.
pub fn index_of(channels: &[Channel], id: i64) -> Option<usize>
    ensures { IsFirst (has_id id) channels.now result }
{
    for (i, channel) in channels.iter().enumerate() {
        if channel.has_id(id) {
            return Some(i);
        }
    }
    None
}

/// Where the channel stands that asks a number.
pub fn index_asking(channels: &[Channel], number: u32) -> Option<usize>
    ensures { IsFirst (asks_number number) channels.now result }
{
    for (i, channel) in channels.iter().enumerate() {
        if channel.asks_number(number) {
            return Some(i);
        }
    }
    None
}

/// Whether one waits for an answer.
pub fn is_one_waiting(channels: &[Channel]) -> bool
    ensures { result ≡ any_asks (states channels.now) }
{
    for channel in channels {
        if channel.is_waiting() {
            return true;
        }
    }
    false
}

/// Takes memory for the updates of each in a list.
pub fn reserve_all(channels: &mut [Channel], updates: &[Update]) -> Result<(), Memory>
    ensures state { states channels.new ≡ states channels.old }
    ensures spare { KeepsRoom channels.old channels.new }
    ensures ok { OnOk result (HasRoomFor channels.new updates.now) }
{
    for channel in channels.iter_mut() {
        channel.reserve(updates)?;
    }
    Ok(())
}

pub fn wake_all(channels: &mut [Channel])
    ensures step { states channels.new ≡ woken (states channels.old) }
    ensures spare { KeepsRoom channels.old channels.new }
{
    for channel in channels.iter_mut() {
        channel.set_flag();
    }
}

pub fn forget_all(channels: &mut [Channel])
    ensures step { states channels.new ≡ forgotten (states channels.old) }
    ensures spare { KeepsRoom channels.old channels.new }
{
    for channel in channels.iter_mut() {
        channel.forget();
    }
}

/// Puts a request for each that is due, under the numbers from `next` on, and answers the next number.
pub fn tick_all(channels: &mut [Channel], next: u32, asks: &mut Asks) -> u32
    requires limit { next ≤ 2147483583 }
    requires room { length asks.old ≤ 1 }
    requires few { length channels.old ≤ MAX_CHANNELS }
    ensures next { result ≡ (ticked next (states channels.old)).next }
    ensures step { states channels.new ≡ (ticked next (states channels.old)).channels }
    ensures asks { asks.new ≡ asks.old ++ (ticked next (states channels.old)).asks }
    ensures spare { KeepsRoom channels.old channels.new }
{
    let mut next = next;
    for channel in channels.iter_mut() {
        if channel.is_due() {
            asks.put(channel.ask(next));
            next += 1;
        }
    }
    next
}
