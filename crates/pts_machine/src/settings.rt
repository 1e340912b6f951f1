//! The settings of a client.
ghost use Rattle.std.specs.Prelude.{◌≡◌, ◌<◌, ◌≤◌, ◌+◌, ◌-◌, ◌^◌, List, OnOk, OnErr, MatchOption, None, Some, vec_len, max};
ghost use Rattle.std.specs.FinMap as map;
ghost use Rattle.pts_machine.specs.Chains.{AreChained};
ghost use Rattle.pts_machine.specs.Rows.{pairs, values_of, AreSorted};
ghost use Rattle.pts_machine.specs.Totals.{total};
ghost use Rattle.pts_machine.specs.Packs.{pack_of};
ghost use Rattle.pts_machine.specs.SeqStates.{IsSoundState, IsBounded, new_settings, hear_pack, overlaid, asked, asks_again, forgotten, loaded};
ghost use Rattle.box_events.specs.SettingLists.{Dated, AreSince, IsOverlay, NeverFallFrom};
ghost use Rattle.pts_machine.specs.Latest.{IsLatestState, IsStretch, IsSince};
ghost use Rattle.pts_machine.specs.SeqLaws.{StaysSince};

use crate::held_pack::HeldPack;
use crate::seq_chains::settle;
use crate::store::Store;
use crate::table::Table;
use crate::{Gap, Mode, Seen, is_next, outcome_of};
use box_events::Setting;
use std::alloc::{AllocError, Global};
use std::marker::Model;
use tl_base::Memory;

/// Keys, held settings and room come to fewer than this number.
const MOST: usize = 2_147_483_648;

/// The settings of a client at a seq, and packs that came before their turn.
pub struct Settings {
    at: u32,
    mode: Mode,
    gap: Gap<HeldPack>,
    store: Store,
    // for how many more settings memory was taken
    spare: u32,
}

// By hand, so that each exit of an owner has one call to prove.
impl Drop for Settings {
    fn drop(self) {
        let Settings {
            at: _,
            mode: _,
            gap: _,
            store: _,
            spare: _,
        } = self;
    }
}

impl Model for Settings {
    ghost use Rattle.pts_machine.specs.SeqStates.{SettingsView, view_code};
    ghost use Rattle.pts_machine.specs.SeqViews.{view_of, IsWhole};

    ghost Value = { SettingsView };

    ghost coded = { view_code };

    ghost view = { view_of };

    ghost invariant = { IsWhole };
}

impl Settings {
    /// No settings, at seq 0 and date 0.
    pub fn new(alloc: Global) -> Settings
        ensures { result.state ≡ new_settings }
    {
        Settings {
            at: 0,
            mode: Mode::Live,
            gap: Gap::new(alloc),
            store: Store {
                table: Table::new(alloc),
                date: 0,
                waiting: 0,
            },
            spare: 0,
        }
    }

    /// Takes memory for so many further settings beside everything kept and held. Where all of them would come to 2^31,
    /// there is no memory.
    pub fn reserve(&mut self, more: u32) -> Result<(), Memory>
        ensures state { self.new.state ≡ self.old.state }
        ensures spare { self.old.spare ≤ self.new.spare }
        ensures ok { OnOk result (more ≤ self.new.spare) }
        ensures exact { OnOk result (self.new.spare ≡ max self.old.spare more) }
        ensures limit { OnOk result (map.len self.old.state.table + total self.old.state.held + more < 2 ^ 31) }
        ensures err { OnErr result (self.new ≡ self.old) }
    {
        let kept = self.store.table.len().saturating_add(self.store.waiting);
        if kept.saturating_add(more as usize) >= MOST {
            return Err(AllocError);
        }
        self.store
            .table
            .reserve(self.store.waiting + more as usize)?;
        self.gap.reserve(more)?;
        self.spare = self.spare.max(more);
        Ok(())
    }

    /// A pack comes: the settings from one seq to another, and their date.
    pub fn push_pack(&mut self, seq_start: u32, seq: u32, date: u32, pack: Vec<Setting>) -> Seen
        requires low { 1 ≤ seq_start }
        requires order { seq_start ≤ seq }
        requires limit { seq ≤ 1000000 }
        requires number { vec_len pack + seq_start ≡ seq + 1 }
        requires room { vec_len pack ≤ self.old.spare }
        ensures step { hear_pack self.old.state (seq_start - 1) seq (pack_of date pack.items) ≡ record { state = self.new.state; seen = result } }
        ensures spare { self.old.spare ≤ self.new.spare + vec_len pack }
        ensures latest { (L : List Dated) → IsLatestState L self.old.state → IsStretch L (seq_start - 1) seq (pack_of date pack.items) → IsLatestState L self.new.state }
        ensures since { StaysSince self.old.state self.new.state (seq_start - 1) seq (pack_of date pack.items) }
    {
        let start = seq_start - 1;
        if start < self.at {
            return Seen::Already;
        }
        if is_next(self.mode, start, self.at) {
            self.overlay(pack, seq, date);
            return Seen::Applied { to: self.at };
        }
        let number = pack.len() as u32;
        let held = self.gap.hold(start, seq, HeldPack::new(date, pack));
        let (seen, kept) = outcome_of(held, number);
        self.store.waiting += kept as usize;
        self.spare -= kept;
        seen
    }

    /// It waits for the answer to the request of this number.
    pub fn ask(&mut self, number: u32)
        ensures step { self.new.state ≡ asked self.old.state number }
        ensures spare { self.old.spare ≤ self.new.spare }
    {
        self.mode = Mode::Asking(number);
    }

    /// The last answer was a part: it is to ask again.
    pub fn again(&mut self)
        ensures step { self.new.state ≡ asks_again self.old.state }
        ensures spare { self.old.spare ≤ self.new.spare }
    {
        self.mode = Mode::Again;
    }

    /// The settings of a final answer come, with the answer's seq and date: they are laid over what is kept, and what is held and
    /// follows is applied.
    pub fn overlay(&mut self, pack: Vec<Setting>, seq: u32, date: u32)
        requires order { self.old.state.at ≤ seq }
        requires room { vec_len pack ≤ self.old.spare }
        ensures step { self.new.state ≡ overlaid self.old.state pack.items seq date }
        ensures spare { self.old.spare ≤ self.new.spare + vec_len pack }
        ensures latest { (L : List Dated) → IsLatestState L self.old.state → IsSince L self.old.state → IsOverlay L seq self.old.state.date pack.items → IsLatestState L self.new.state }
        ensures since { (L : List Dated) → NeverFallFrom seq L → IsLatestState L self.old.state → AreSince L seq date → IsSince L self.new.state }
    {
        let number = pack.len();
        self.store.table.put_all(pack);
        self.store.date = date;
        self.at = settle(&mut self.store, seq, &mut self.gap);
        self.mode = Mode::Live;
        self.spare -= number as u32;
    }

    /// Nothing is held, and no answer waited for.
    pub fn forget(&mut self)
        ensures step { self.new.state ≡ forgotten self.old.state }
        ensures spare { self.old.spare ≤ self.new.spare }
    {
        self.gap.clear();
        self.store.waiting = 0;
        self.mode = Mode::Live;
    }

    /// The seq up to which packs were applied.
    pub fn at(&self) -> u32
        ensures value { result ≡ self.now.state.at }
        ensures sound { IsSoundState self.now.state }
        ensures bound { IsBounded self.now }
    {
        self.at
    }

    /// The date of the last pack or answer that was applied.
    pub fn date(&self) -> u32
        ensures { result ≡ self.now.state.date }
    {
        self.store.date
    }

    /// Whether an answer is waited for.
    pub fn mode(&self) -> Mode
        ensures { result ≡ self.now.state.mode }
    {
        self.mode
    }

    /// How many packs are held.
    pub fn held(&self) -> u32
        ensures number { result ≡ map.len self.now.state.held }
        ensures most { result ≤ 1024 }
        ensures chained { AreChained self.now.state.held }
    {
        self.gap.len()
    }

    /// The value of a key.
    pub fn get(&self, key: &[u8]) -> Option<&[u8]>
        ensures { MatchOption result (map.get self.now.state.table key.now ≡ None) (λ v. map.get self.now.state.table key.now ≡ Some v.now) }
    {
        self.store.table.get(key)
    }

    /// All settings, in byte order of keys.
    pub fn all(&self) -> &[Setting]
        ensures rows { pairs result.now ≡ map.entries self.now.state.table }
    {
        self.store.table.rows()
    }

    /// Settings whose keys rise in byte order, at a seq and a date. The vector is kept, and not copied.
    pub fn load(alloc: Global, seq: u32, date: u32, all: Vec<Setting>) -> Settings
        requires sorted { AreSorted all.items }
        requires few { vec_len all < 2 ^ 31 }
        ensures { result.state ≡ loaded seq date (values_of all.items) }
    {
        Settings {
            at: seq,
            mode: Mode::Live,
            gap: Gap::new(alloc),
            store: Store {
                table: Table::of(all),
                date,
                waiting: 0,
            },
            spare: 0,
        }
    }
}
