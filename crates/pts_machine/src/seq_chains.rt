//! Packs that are applied in turn.
ghost use Rattle.std.specs.Prelude.{◌≡◌, ◌≤◌, ◌+◌};
ghost use Rattle.std.specs.FinMap as map;
ghost use Rattle.pts_machine.specs.Holding.{from};
ghost use Rattle.pts_machine.specs.Chains.{chain, reach, EndsAfter};
ghost use Rattle.pts_machine.specs.Packs.{puts_all, last_date};
ghost use Rattle.pts_machine.specs.Totals.{total};

use crate::held_pack::HeldPack;
use crate::store::Store;
use crate::{Gap, follow};

// Drops the held packs below a position, and answers how many settings are held then.
fn drop_below(gap: &mut Gap<HeldPack>, at: u32, waiting: usize) -> usize
    requires total { waiting ≡ total gap.old.held }
    ensures held { gap.new.held ≡ from at gap.old.held }
    ensures total { result ≡ total gap.new.held }
    ensures less { result ≤ waiting }
    ensures spare { gap.old.spare ≤ gap.new.spare }
{
    let mut waiting = waiting;
    'packs: while let Some((_, pack)) = gap.take_below(at) {
        let (_, settings) = pack.open();
        waiting -= settings.len();
    }
    waiting
}

/// Applies the held packs that follow from a position, and answers where they end. Those below that go.
pub fn settle(store: &mut Store, at: u32, gap: &mut Gap<HeldPack>) -> u32
    requires room { store.old.waiting ≤ store.old.table.spare }
    requires total { store.old.waiting ≡ total gap.old.held }
    requires after { EndsAfter gap.old.held }
    ensures values { store.new.table.values ≡ puts_all store.old.table.values (chain (map.len gap.old.held) at gap.old.held) }
    ensures date { store.new.date ≡ last_date store.old.date (chain (map.len gap.old.held) at gap.old.held) }
    ensures reach { result ≡ reach (map.len gap.old.held) at gap.old.held }
    ensures held { gap.new.held ≡ from result gap.old.held }
    ensures total { store.new.waiting ≡ total gap.new.held }
    ensures less { store.new.waiting ≤ store.old.waiting }
    ensures few { map.len store.new.table.values + store.new.waiting ≤ map.len store.old.table.values + store.old.waiting }
    ensures room { store.old.table.spare + store.new.waiting ≤ store.new.table.spare + store.old.waiting }
    ensures spare { gap.old.spare ≤ gap.new.spare }
{
    let at = follow(store, at, gap);
    store.waiting = drop_below(gap, at, store.waiting);
    at
}
