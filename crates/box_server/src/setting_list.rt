//! Lists of settings, and the last of each key.
ghost use Rattle.std.specs.Prelude.{◌≡◌, ◌+◌, ◌≤◌, ◌++◌, ℕ, [], IfOk, OnOk, OnErr, length, map, Option, MatchOption, is_some};
ghost use Rattle.box_events.specs.declared.limits.TheConstants.{MAX_END, MAX_KEYS};
ghost use Rattle.box_events.specs.SettingLists.{last_of};
ghost use Rattle.box_server.specs.Entries.{entries_of};
ghost use Rattle.box_server.specs.LastEntries.{changed_since, keys_in};
ghost use Rattle.box_server.specs.Posting.{dated_with, settings_of};
ghost use Rattle.box_server.specs.inner.LastIndexes.{entry_at, since_at, NotesFresh, NotesPost};
ghost use Rattle.box_server.specs.inner.Taking.{Adds};

use crate::dated::DatedSetting;
use crate::entry::Entry;
use crate::keeper::Keeper;
use crate::last_indexes::{add_keys, note_all, remove_unused_keys};
use crate::store_fault::KeepFault;
use box_events::{ListOf, Post, Setting};
use std::alloc::Global;
use std::collections::BTreeMap;
use std::marker::Model;
use tl_base::{Bytes, Memory};

/// Settings in the order in which they were set. For each key the index of its last setting stands in an ordered map; a key that is yet to
/// have its first has none. At most 256 keys have one.
pub struct SettingList {
    settings: Vec<DatedSetting>,
    last: BTreeMap<Vec<u8>, Option<u32>>,
    keys: usize,
}

// By hand, so that each exit of an owner has one call to prove.
impl Drop for SettingList {
    fn drop(self) {
        let SettingList {
            settings: _,
            last: _,
            keys: _,
        } = self;
    }
}

impl Model for SettingList {
    ghost use Rattle.std.specs.Prelude.{List};
    ghost use Rattle.std.specs.Coded.{coded_list};
    ghost use Rattle.box_events.specs.SettingLists.{Dated};
    ghost use Rattle.box_server.specs.inner.ServerCodes.{dated_code};
    ghost use Rattle.box_server.specs.inner.LastIndexes.{IsIndexed};

    ghost Value = { List Dated };

    ghost coded = { coded_list dated_code };

    ghost view = { λ l. l.settings.items };

    ghost invariant = { λ l. IsIndexed l.settings.items l.last.entries l.keys };
}

impl SettingList {
    pub fn new(alloc: Global) -> SettingList
        ensures { result ≡ [] }
    {
        SettingList {
            settings: Vec::new(alloc),
            last: BTreeMap::new(alloc),
            keys: 0,
        }
    }

    /// How many settings there are.
    pub fn len(&self) -> usize
        ensures { result ≡ length self.now }
    {
        self.settings.len()
    }

    /// Copies of each key's last setting that is dated not before a date, in byte order of keys.
    pub fn changed_since(&self, alloc: Global, date: u32) -> Result<ListOf<Setting>, Memory>
        ensures { IfOk result (λ l. l ≡ changed_since self.now date) }
    {
        let mut changed = ListOf::new(alloc);
        for (_, at) in self.last.iter() {
            if let Some(setting) = self.since(*at, date) {
                changed.push(setting.copy()?)?;
            }
        }
        Ok(changed)
    }

    /// How many keys there are with the settings of posts.
    pub fn keys_with(&self, posts: &[Post]) -> Result<usize, Memory>
        ensures { IfOk result (λ n. (date : ℕ) → n ≡ keys_in (self.now ++ map (dated_with date) (settings_of (entries_of posts.now)))) }
    {
        let mut fresh: BTreeMap<Vec<u8>, Option<u32>> = BTreeMap::new(*self.settings.allocator());
        for post in posts {
            self.note_post(&mut fresh, post)?;
        }
        Ok(self.keys + fresh.len())
    }

    // Notes the key that a post sets, where it has no setting.
    fn note_post(
        &self,
        fresh: &mut BTreeMap<Vec<u8>, Option<u32>>,
        post: &Post,
    ) -> Result<(), Memory>
        ensures { OnOk result (NotesPost self.now fresh.old.entries fresh.new.entries post.now) }
    {
        let Post::Setting { key, .. } = post else {
            return Ok(());
        };
        self.note_fresh(fresh, key)
    }

    // Notes a key that has no setting.
    fn note_fresh(
        &self,
        fresh: &mut BTreeMap<Vec<u8>, Option<u32>>,
        key: &Bytes,
    ) -> Result<(), Memory>
        ensures { OnOk result (NotesFresh self.now fresh.old.entries fresh.new.entries key.now) }
    {
        if self.has(key.as_slice()) {
            return Ok(());
        }
        if fresh.contains_key(key.as_slice()) {
            return Ok(());
        }
        fresh.insert(key.copy()?.into_vec(), None)?;
        Ok(())
    }

    // Whether a key has a setting.
    fn has(&self, key: &[u8]) -> bool
        ensures { result ≡ is_some (last_of self.now key.now) }
    {
        match self.last.get(key) {
            Some(Some(at)) => self.settings.get(*at as usize).is_some(),
            Some(None) | None => false,
        }
    }

    /// Appends settings, all or none of them, once a keeper has added an entry. So many keys have a setting then. All memory is taken before the
    /// keeper is asked.
    pub fn append_all<K: Keeper>(
        &mut self,
        more: Vec<DatedSetting>,
        keys: usize,
        keeper: &mut K,
        entry: Entry,
    ) -> Result<(), KeepFault>
        requires limit { length self.old + length more.items ≤ MAX_END }
        requires keys { keys ≡ keys_in (self.old ++ more.items) }
        requires few { keys ≤ MAX_KEYS }
        ensures ok { OnOk result (self.new ≡ self.old ++ more.items) }
        ensures err { OnErr result (self.new ≡ self.old) }
        ensures adds { Adds K.state keeper.old keeper.new entry result }
    {
        self.settings.reserve(more.len())?;
        if add_keys(&mut self.last, &more).is_err() {
            remove_unused_keys(&mut self.last, &more);
            return Err(KeepFault::Memory);
        }
        if keeper.add(entry).is_err() {
            remove_unused_keys(&mut self.last, &more);
            return Err(KeepFault::Failed);
        }
        note_all(&mut self.settings, &mut self.last, more);
        self.keys = keys;
        Ok(())
    }

    // The setting of an index, where there is one that is dated not before a date.
    fn since(&self, at: Option<u32>, date: u32) -> Option<&Setting>
        ensures { MatchOption result (since_at date (entry_at self.now at) ≡ Option.None) (λ x. since_at date (entry_at self.now at) ≡ Option.Some x.now) }
    {
        let dated = self.settings.get(at? as usize)?;
        if dated.date() < date {
            return None;
        }
        Some(dated.setting())
    }
}
