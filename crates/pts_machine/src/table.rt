//! Tables of settings.
ghost use Rattle.std.specs.Prelude.{◌≡◌, ◌<◌, ◌≤◌, ◌+◌, length, OnOk, MatchOption, None, Some, vec_len, vec_capacity};
ghost use Rattle.std.specs.Ordering.{nat_cmp};
ghost use Rattle.std.specs.Cmp.Lexicographic.{slice_cmp};
ghost use Rattle.std.specs.FinMap as map;
ghost use Rattle.std.specs.FinMap.{put, find};
ghost use Rattle.pts_machine.specs.Packs.{puts};
ghost use Rattle.pts_machine.specs.Rows.{pairs, spot_from, values_of, AreSorted};
ghost use Rattle.pts_machine.specs.Spots.{IsWithin};

use box_events::Setting;
use std::alloc::Global;
use std::marker::Model;
use tl_base::Memory;

/// Where a key stands in a table, or belongs.
#[derive(Clone, Copy)]
pub enum Spot {
    At(usize),
    Before(usize),
}

/// Values by their keys, in byte order of keys.
#[derive(Drop)]
pub struct Table {
    rows: Vec<Setting>,
}

impl Model for Table {
    ghost use Rattle.pts_machine.specs.Tables.{TableView, table_code};
    ghost use Rattle.pts_machine.specs.TableViews.{view_of};
    ghost use Rattle.pts_machine.specs.Packs.{puts};
    ghost use Rattle.pts_machine.specs.Rows.{AreSorted};

    ghost Value = { TableView };

    ghost coded = { table_code };

    ghost view = { view_of };

    ghost invariant = { λ t. AreSorted t.rows.items };
}

// Where a key stands among sorted rows, or belongs.
fn spot_of(rows: &[Setting], key: &[u8]) -> Spot
    requires sorted { AreSorted rows.now }
    ensures place { result ≡ spot_from 0 rows.now key.now }
    ensures within { IsWithin result (length rows.now) }
{
    match rows.binary_search_by(|row| row.key.as_slice().cmp(key)) {
        Ok(i) => Spot::At(i),
        Err(i) => Spot::Before(i),
    }
}

// Puts a value under its key.
fn put_row(rows: &mut Vec<Setting>, setting: Setting)
    requires sorted { AreSorted rows.old.items }
    requires room { vec_len rows.old < vec_capacity rows.old }
    ensures rows { pairs rows.new.items ≡ put (slice_cmp nat_cmp) setting.key setting.value (pairs rows.old.items) }
    ensures len { vec_len rows.new ≤ vec_len rows.old + 1 }
    ensures capacity { vec_capacity rows.old ≤ vec_capacity rows.new }
{
    match spot_of(rows, setting.key.as_slice()) {
        Spot::At(i) => rows[i] = setting,
        Spot::Before(i) => match rows.insert(i, setting) {
            Ok(()) => {}
            Err(_) => unreachable!(),
        },
    }
}

// The value of a key.
fn value_in<'a>(rows: &'a [Setting], key: &[u8]) -> Option<&'a [u8]>
    requires sorted { AreSorted rows.now }
    ensures { MatchOption result (find (slice_cmp nat_cmp) key.now (pairs rows.now) ≡ None) (λ v. find (slice_cmp nat_cmp) key.now (pairs rows.now) ≡ Some v.now) }
{
    match spot_of(rows, key) {
        Spot::At(i) => Some(rows[i].value.as_slice()),
        Spot::Before(_) => None,
    }
}

impl Table {
    pub fn new(alloc: Global) -> Table
        ensures { result.values ≡ map.empty }
    {
        Table {
            rows: Vec::new(alloc),
        }
    }

    /// The table of settings whose keys rise.
    pub fn of(rows: Vec<Setting>) -> Table
        requires sorted { AreSorted rows.items }
        ensures { result.values ≡ values_of rows.items }
    {
        Table { rows }
    }

    /// Takes memory for so many more keys.
    pub fn reserve(&mut self, more: usize) -> Result<(), Memory>
        ensures values { self.new.values ≡ self.old.values }
        ensures spare { self.old.spare ≤ self.new.spare }
        ensures ok { OnOk result (more ≤ self.new.spare) }
    {
        self.rows.reserve(more)
    }

    /// Puts a value under its key. There is to be room for it.
    pub fn put(&mut self, setting: Setting)
        requires room { 1 ≤ self.old.spare }
        ensures values { self.new.values ≡ map.insert self.old.values setting.key setting.value }
        ensures spare { self.old.spare ≤ self.new.spare + 1 }
    {
        put_row(&mut self.rows, setting);
    }

    /// Puts settings in turn.
    pub fn put_all(&mut self, settings: Vec<Setting>)
        requires room { vec_len settings ≤ self.old.spare }
        ensures values { self.new.values ≡ puts self.old.values settings.items }
        ensures spare { self.old.spare ≤ self.new.spare + vec_len settings }
    {
        for setting in settings {
            self.put(setting);
        }
    }

    /// How many keys there are.
    pub fn len(&self) -> usize
        ensures { result ≡ map.len self.now.values }
    {
        self.rows.len()
    }

    pub fn get(&self, key: &[u8]) -> Option<&[u8]>
        ensures { MatchOption result (map.get self.now.values key.now ≡ None) (λ v. map.get self.now.values key.now ≡ Some v.now) }
    {
        value_in(&self.rows, key)
    }

    pub fn rows(&self) -> &[Setting]
        ensures rows { pairs result.now ≡ map.entries self.now.values }
    {
        &self.rows
    }
}
