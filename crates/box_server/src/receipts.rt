//! Receipts by random ids.
ghost use Rattle.std.specs.Prelude.{◌≡◌, ◌+◌, ◌≤◌, ◌++◌, OnErr, OnOk, Option, length};
ghost use Rattle.std.specs.FinMap as map;
ghost use Rattle.std.specs.List.Sorted.{IsStrictlySortedBy};
ghost use Rattle.std.specs.Map.{keys_of};
ghost use Rattle.std.specs.Ordering.{int_cmp};
ghost use Rattle.box_events.specs.declared.limits.TheConstants.{MAX_END, MAX_KEYS};
ghost use Rattle.box_server.specs.LastEntries.{keys_in};
ghost use Rattle.box_server.specs.inner.Insides.{receipts_in};
ghost use Rattle.box_server.specs.inner.Taking.{Adds};

use crate::dated::DatedSetting;
use crate::entry::Entry;
use crate::keeper::Keeper;
use crate::setting_list::SettingList;
use crate::store_fault::KeepFault;
use box_events::Receipt;
use std::collections::BTreeMap;

/// Notes the receipt of an entry whose id has none, has a keeper add the entry, and appends settings: all, or nothing. The keeper is asked once nothing
/// else can fail.
pub fn keep<K: Keeper>(
    receipts: &mut BTreeMap<i64, Receipt>,
    receipt: Receipt,
    settings: &mut SettingList,
    more: Vec<DatedSetting>,
    keys: usize,
    keeper: &mut K,
    entry: Entry,
) -> Result<(), KeepFault>
    requires fresh { map.get (receipts_in receipts.old.entries) entry.random_id ≡ Option.None }
    requires limit { length settings.old + length more.items ≤ MAX_END }
    requires keys { keys ≡ keys_in (settings.old ++ more.items) }
    requires few { keys ≤ MAX_KEYS }
    ensures order { IsStrictlySortedBy int_cmp (keys_of receipts.new.entries) }
    ensures noted { OnOk result (receipts_in receipts.new.entries ≡ map.insert (receipts_in receipts.old.entries) entry.random_id receipt) }
    ensures appended { OnOk result (settings.new ≡ settings.old ++ more.items) }
    ensures same { OnErr result ((receipts_in receipts.new.entries ≡ receipts_in receipts.old.entries) × (settings.new ≡ settings.old)) }
    ensures adds { Adds K.state keeper.old keeper.new entry result }
{
    let random_id = entry.random_id;
    receipts.insert(random_id, receipt)?;
    match settings.append_all(more, keys, keeper, entry) {
        Ok(()) => Ok(()),
        Err(fault) => {
            receipts.remove(&random_id);
            Err(fault)
        }
    }
}
