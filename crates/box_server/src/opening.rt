//! How many channels have a box after posts.
ghost use Rattle.std.specs.Prelude.{◌≡◌, ◌≤◌, IfOk, OnOk, length, ltb, map};
ghost use Rattle.std.specs.List.{list_any};
ghost use Rattle.std.specs.Ordering.{int_eq};
ghost use Rattle.box_events.specs.declared.limits.TheConstants.{MAX_CHANNELS};
ghost use Rattle.box_server.specs.Entries.{entry_of, entries_of};
ghost use Rattle.box_server.specs.Posting.{applied_all};
ghost use Rattle.box_server.specs.Servers.{ServerState};
ghost use Rattle.box_server.specs.inner.Insides.{channel_view};
ghost use Rattle.box_server.specs.inner.Opening.{ids_in, channel_of, NotesId};

use crate::channel::Channel;
use box_events::{MAX_CHANNELS, Post};
use std::alloc::Global;
use tl_base::Memory;

/// Whether more than 64 channels have a box after posts.
pub fn opens_too_many(alloc: Global, channels: &[Channel], posts: &[Post]) -> Result<bool, Memory>
    requires { length channels.now ≤ MAX_CHANNELS }
    ensures { IfOk result (λ b. (s : ServerState) → s.channels ≡ map channel_view channels.now → b ≡ ltb MAX_CHANNELS (length (applied_all s (entries_of posts.now)).channels)) }
{
    let mut ids = ids_of(alloc, channels)?;
    for post in posts {
        note(&mut ids, post)?;
        if ids.len() > MAX_CHANNELS {
            return Ok(true);
        }
    }
    Ok(false)
}

// The ids of channels.
fn ids_of(alloc: Global, channels: &[Channel]) -> Result<Vec<i64>, Memory>
    ensures { IfOk result (λ v. v.items ≡ ids_in (map channel_view channels.now)) }
{
    let mut ids = Vec::new(alloc);
    for channel in channels {
        ids.push(channel.id)?;
    }
    Ok(ids)
}

// Notes the channel of a post, where it is a new one.
fn note(ids: &mut Vec<i64>, post: &Post) -> Result<(), Memory>
    ensures { OnOk result (NotesId ids.old.items ids.new.items (entry_of post.now)) }
{
    let Some(id) = channel_of(post) else {
        return Ok(());
    };
    if is_among(ids, id) {
        return Ok(());
    }
    ids.push(id)?;
    Ok(())
}

// The channel that a post is for.
fn channel_of(post: &Post) -> Option<i64>
    ensures { result ≡ channel_of (entry_of post.now) }
{
    match post {
        Post::ChannelMessage { id, .. }
        | Post::ChannelEdit { id, .. }
        | Post::ChannelDelete { id, .. }
        | Post::ChannelRead { id, .. } => Some(*id),
        _ => None,
    }
}

fn is_among(ids: &[i64], id: i64) -> bool
    ensures { result ≡ list_any (λ i. int_eq i id) ids.now }
{
    for other in ids {
        if *other == id {
            return true;
        }
    }
    false
}
