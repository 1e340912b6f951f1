//! Room in channels for what comes, and what comes to them.
ghost use Rattle.std.specs.Prelude.{◌≡◌, ◌≤◌, ◌++◌, IfOk, OnOk, length, map};
ghost use Rattle.box_server.specs.Posting.{cut};
ghost use Rattle.box_server.specs.inner.Drafted.{AreAligned, joined_channels};
ghost use Rattle.box_server.specs.inner.Insides.{channel_view};
ghost use Rattle.box_server.specs.inner.Rooms.{HaveRoom, HaveEnds, IsRoomy, IsSameBox, emptied, grown, blank_tail, numbers_of};

use crate::channel::Channel;
use crate::draft::Draft;
use crate::tail::Tail;
use box_events::EventBox;
use std::alloc::Global;
use tl_base::Memory;

// Takes memory in channels for what comes to them, and answers new channels, with room, for the tails that have none.
fn make_room(channels: &mut Vec<Channel>, tails: &[Tail]) -> Result<Vec<Channel>, Memory>
    requires { AreAligned (map channel_view channels.old.items) tails.now }
    ensures same { map channel_view channels.new.items ≡ map channel_view channels.old.items }
    ensures room { IfOk result (λ v. IsRoomy channels.new v tails.now) }
{
    reserve_each(channels, tails)?;
    let opened = open_each(*channels.allocator(), tails.split_at(channels.len()).1)?;
    channels.reserve(opened.len())?;
    Ok(opened)
}

/// Takes memory in boxes and channels for what a draft brings them, and answers new channels, with room, for the tails that have none.
pub fn room_for(
    common: &mut EventBox,
    secret: &mut EventBox,
    channels: &mut Vec<Channel>,
    draft: &Draft,
) -> Result<Vec<Channel>, Memory>
    requires { AreAligned (map channel_view channels.old.items) draft.now.channels.items }
    ensures common { IsSameBox common.old common.new }
    ensures secret { IsSameBox secret.old secret.new }
    ensures channels { map channel_view channels.new.items ≡ map channel_view channels.old.items }
    ensures common_room { OnOk result (length draft.now.common.events ≤ common.new.spare) }
    ensures secret_room { OnOk result (length draft.now.secret.events ≤ secret.new.spare) }
    ensures room { IfOk result (λ v. IsRoomy channels.new v draft.now.channels.items) }
{
    common.reserve(draft.common.len() as u32)?;
    secret.reserve(draft.secret.len() as u32)?;
    make_room(channels, &draft.channels)
}

/// Adds new channels, and appends to each channel what comes. No memory is taken.
pub fn grow(channels: &mut Vec<Channel>, opened: Vec<Channel>, tails: Vec<Tail>)
    requires aligned { AreAligned (map channel_view channels.old.items) tails.items }
    requires room { IsRoomy channels.old opened tails.items }
    ensures { map channel_view channels.new.items ≡ map cut (joined_channels (map channel_view channels.old.items) tails.items) }
{
    for channel in opened {
        channels.push_reserved(channel);
    }
    append_each(channels, tails);
}

/// A tail for each channel, to which nothing comes yet.
pub fn blank_tails(alloc: Global, channels: &[Channel]) -> Result<Vec<Tail>, Memory>
    ensures { IfOk result (λ v. v.items ≡ map blank_tail (map channel_view channels.now)) }
{
    let mut tails = Vec::new(alloc);
    for channel in channels {
        tails.push(Tail::new(alloc, channel.id, channel.events.end()))?;
    }
    Ok(tails)
}

/// The numbers of the first and the last setting past a seq, up to another; both are 0 where there is none.
pub fn numbers(from: u32, to: u32) -> (u32, u32)
    requires order { from ≤ to }
    ensures { result ≡ numbers_of from to }
{
    if from == to {
        return (0, 0);
    }
    (from + 1, to)
}

// Takes memory in each channel for the tail that stands at its place.
fn reserve_each(channels: &mut Vec<Channel>, tails: &[Tail]) -> Result<(), Memory>
    requires { length channels.old.items ≤ length tails.now }
    ensures same { map channel_view channels.new.items ≡ map channel_view channels.old.items }
    ensures ok { OnOk result (HaveRoom (length channels.new.items) channels.new.items tails.now) }
{
    for i in 0..channels.len() {
        channels[i].reserve(&tails[i])?;
    }
    Ok(())
}

// A channel for each of these tails, with room for it.
fn open_each(alloc: Global, tails: &[Tail]) -> Result<Vec<Channel>, Memory>
    ensures empty { IfOk result (λ v. map channel_view v.items ≡ map emptied tails.now) }
    ensures room { IfOk result (λ v. HaveRoom (length v.items) v.items tails.now) }
{
    let mut channels = Vec::new(alloc);
    for tail in tails {
        channels.push(Channel::open(alloc, tail)?)?;
    }
    Ok(channels)
}

// Appends to each channel the tail that stands at its place. No memory is taken.
fn append_each(channels: &mut Vec<Channel>, tails: Vec<Tail>)
    requires all { length tails.items ≤ length channels.old.items }
    requires room { HaveRoom (length tails.items) channels.old.items tails.items }
    requires ends { HaveEnds (length tails.items) channels.old.items tails.items }
    ensures { map channel_view channels.new.items ≡ grown (map channel_view channels.old.items) tails.items }
{
    let mut tails = tails;
    while let Some(tail) = tails.pop() {
        channels[tails.len()].append(tail.into_events());
    }
}
