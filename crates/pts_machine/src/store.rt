//! Settings that were applied.
use crate::Takes;
use crate::held_pack::HeldPack;
use crate::table::Table;

/// Settings that were applied.
pub struct Store {
    pub table: Table,
    /// The date of the pack or answer that was applied last.
    pub date: u32,
    /// How many further settings are held.
    pub waiting: usize,
}

// By hand, so that each exit of an owner has one call to prove.
impl Drop for Store {
    fn drop(self) {
        let Store {
            table: _,
            date: _,
            waiting: _,
        } = self;
    }
}

impl Takes<HeldPack> for Store {
    ghost use Rattle.pts_machine.specs.Stores.{HasRoom, Applied};

    ghost has_room = { HasRoom };

    ghost took = { Applied };

    fn take_in(&mut self, pack: HeldPack) {
        let (date, settings) = pack.open();
        self.waiting -= settings.len();
        self.table.put_all(settings);
        self.date = date;
    }
}
