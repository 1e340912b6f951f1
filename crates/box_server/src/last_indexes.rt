//! The places of keys among the indexes of their last settings.
ghost use Rattle.std.specs.Prelude.{◌≡◌, ◌+◌, ◌≤◌, ◌++◌, ℕ, List, cond, OnOk, IsSome, Option, length, vec_len, vec_capacity};
ghost use Rattle.box_events.specs.declared.limits.TheConstants.{MAX_END};
ghost use Rattle.box_events.specs.SettingLists.{Dated, same_key};
ghost use Rattle.box_server.specs.inner.LastIndexes.{noted_in, SameIndexes, HaveKeys, ShowsLast, AreWithin};

use crate::dated::DatedSetting;
use std::collections::BTreeMap;
use tl_base::{Bytes, Memory};

/// Takes a place for each key that has none. Some may be taken even where memory runs out.
pub fn add_keys(
    last: &mut BTreeMap<Vec<u8>, Option<u32>>,
    more: &[DatedSetting],
) -> Result<(), Memory>
    ensures same { SameIndexes last.old.entries last.new.entries }
    ensures ok { OnOk result (HaveKeys last.new.entries more.now) }
{
    for dated in more {
        add_key(last, &dated.setting().key)?;
    }
    Ok(())
}

// Takes a place for a key that has none.
fn add_key(last: &mut BTreeMap<Vec<u8>, Option<u32>>, key: &Bytes) -> Result<(), Memory>
    ensures same { SameIndexes last.old.entries last.new.entries }
    ensures others { (more : List Dated) → HaveKeys last.old.entries more → HaveKeys last.new.entries more }
    ensures ok { OnOk result (IsSome (noted_in last.new.entries key.now)) }
{
    if last.contains_key(key.as_slice()) {
        return Ok(());
    }
    last.insert(key.copy()?.into_vec(), None)?;
    Ok(())
}

/// Takes the places out that have no index.
pub fn remove_unused_keys(last: &mut BTreeMap<Vec<u8>, Option<u32>>, more: &[DatedSetting])
    ensures { SameIndexes last.old.entries last.new.entries }
{
    for dated in more {
        remove_unused_key(last, dated.setting().key.as_slice());
    }
}

// Takes a key's place out where it has no index.
fn remove_unused_key(last: &mut BTreeMap<Vec<u8>, Option<u32>>, key: &[u8])
    ensures { SameIndexes last.old.entries last.new.entries }
{
    match last.get(key) {
        Some(None) => {}
        Some(Some(_)) | None => return,
    }
    last.remove(key);
}

/// Appends settings, and notes where each key's last stands.
pub fn note_all(
    settings: &mut Vec<DatedSetting>,
    last: &mut BTreeMap<Vec<u8>, Option<u32>>,
    more: Vec<DatedSetting>,
)
    requires room { vec_len settings.old + vec_len more ≤ vec_capacity settings.old }
    requires limit { length settings.old.items + length more.items ≤ MAX_END }
    requires keys { HaveKeys last.old.entries more.items }
    requires shows { ShowsLast settings.old.items last.old.entries }
    requires within { AreWithin settings.old.items last.old.entries }
    ensures items { settings.new.items ≡ settings.old.items ++ more.items }
    ensures shows { ShowsLast settings.new.items last.new.entries }
    ensures within { AreWithin settings.new.items last.new.entries }
{
    for dated in more {
        note(last, dated.setting().key.as_slice(), settings.len() as u32);
        settings.push_reserved(dated);
    }
}

// Notes an index at a key that has a place.
fn note(last: &mut BTreeMap<Vec<u8>, Option<u32>>, key: &[u8], index: u32)
    requires { IsSome (noted_in last.old.entries key.now) }
    ensures { (q : List ℕ) → noted_in last.new.entries q ≡ cond (same_key q key.now) (Option.Some (Option.Some index)) (noted_in last.old.entries q) }
{
    match last.get_mut(key) {
        Some(at) => *at = Some(index),
        None => unreachable!(),
    }
}
