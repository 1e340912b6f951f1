//! Pushes.
ghost use Rattle.std.specs.Prelude.{◌≡◌, ◌≤◌, ◌<◌, ◌+◌, ◌++◌, ◌∷◌, [], List, OnOk, OnErr, length, true, vec_len, vec_capacity};
ghost use Rattle.box_events.specs.declared.updates.Update.{Update};
ghost use Rattle.box_client.specs.Pushes.{updated, all_updated, settings_in, pack_heard, pushed};
ghost use Rattle.box_client.specs.Ranges.{IsUpdateInRange, AreUpdatesInRange, IsSeqInRange, IsPushInRange};
ghost use Rattle.box_client.specs.Rooms.{HasRoom};
ghost use Rattle.box_client.specs.Views.{client_of};

use crate::parts::ClientParts;
use box_events::{Event, Push, Setting, Update};
use channel_box::is_dropped;
use std::alloc::{AllocError, Global};
use tl_base::Memory;

/// A push comes. All memory is taken first.
pub fn hear_push(parts: &mut ClientParts, alloc: Global, push: Push) -> Result<(), Memory>
    requires range { IsPushInRange push }
    ensures ok { OnOk result (client_of parts.new ≡ pushed (client_of parts.old) push) }
    ensures err { OnErr result (client_of parts.new ≡ client_of parts.old) }
{
    match push {
        Push::TooLong => {
            parts.flag = true;
            Ok(())
        }
        Push::Container {
            updates,
            date,
            seq_start,
            seq,
        } => {
            reserve(parts, updates.as_slice())?;
            let mut pack = Vec::with_capacity(alloc, updates.len())?;
            hear_all(parts, updates.into_vec(), &mut pack);
            if 0 < seq {
                hear_pack(parts, date, seq_start, seq, pack);
            }
            Ok(())
        }
    }
}

// Takes memory for updates: for each of them in both lanes and the settings, and in each channel for its own.
fn reserve(parts: &mut ClientParts, updates: &[Update]) -> Result<(), Memory>
    ensures state { client_of parts.new ≡ client_of parts.old }
    ensures ok { OnOk result (HasRoom parts.new updates.now) }
{
    if updates.len() > u32::MAX as usize {
        return Err(AllocError);
    }
    let number = updates.len() as u32;
    parts.common.reserve(number)?;
    parts.secret.reserve(number)?;
    parts.settings.reserve(number)?;
    parts.channels.reserve(updates)?;
    Ok(())
}

// Updates come, and the settings among them are put together.
fn hear_all(parts: &mut ClientParts, updates: Vec<Update>, pack: &mut Vec<Setting>)
    requires range { AreUpdatesInRange updates.items }
    requires room { HasRoom parts.old updates.items }
    requires slots { vec_len pack.old + length updates.items ≤ vec_capacity pack.old }
    ensures step { client_of parts.new ≡ all_updated (client_of parts.old) updates.items }
    ensures settings { parts.new.settings ≡ parts.old.settings }
    ensures pack { pack.new.items ≡ pack.old.items ++ settings_in updates.items }
{
    for update in updates {
        hear_update(parts, update, pack);
    }
}

// The settings of a container come.
fn hear_pack(parts: &mut ClientParts, date: u32, seq_start: u32, seq: u32, pack: Vec<Setting>)
    requires range { IsSeqInRange seq_start seq (length pack.items) }
    requires room { length pack.items ≤ parts.old.settings.spare }
    ensures step { client_of parts.new ≡ pack_heard true (client_of parts.old) seq_start seq date pack.items }
{
    let seen = parts.settings.push_pack(seq_start, seq, date, pack);
    parts.flag = parts.flag || is_dropped(seen);
}

// An update comes. A setting is put to the others.
fn hear_update(parts: &mut ClientParts, update: Update, pack: &mut Vec<Setting>)
    requires range { IsUpdateInRange update }
    requires room { HasRoom parts.old (update ∷ []) }
    requires slots { vec_len pack.old < vec_capacity pack.old }
    ensures step { client_of parts.new ≡ updated (client_of parts.old) update }
    ensures settings { parts.new.settings ≡ parts.old.settings }
    ensures room { (us : List Update) → HasRoom parts.old (update ∷ us) → HasRoom parts.new us }
    ensures pack { pack.new.items ≡ pack.old.items ++ settings_in (update ∷ []) }
    ensures len { vec_len pack.new ≤ vec_len pack.old + 1 }
    ensures capacity { vec_capacity pack.old ≤ vec_capacity pack.new }
{
    match update {
        Update::Common { event, pts } => {
            let start = pts - event.count();
            let seen = parts.common.push(start, pts, event);
            parts.flag = parts.flag || is_dropped(seen);
        }
        Update::Secret { body, qts } => {
            let seen = parts.secret.push(qts - 1, qts, Event::new_message(body));
            parts.flag = parts.flag || is_dropped(seen);
        }
        Update::Channel { id, event, pts } => {
            let start = pts - event.count();
            parts.channels.push(id, start, pts, event);
        }
        Update::ChannelTooLong { id } => parts.channels.too_long(id),
        Update::Setting { setting } => pack.push_reserved(setting),
    }
}
