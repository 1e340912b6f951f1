//! What takes held items.
ghost use Rattle.std.specs.Prelude.{◌≡◌, ℕ, Some};
ghost use Rattle.std.specs.FinMap as map;
ghost use Rattle.pts_machine.specs.Holding.{Items};
ghost use Rattle.pts_machine.specs.Takings.{IsHeldIn};

/// What takes held items in turn, and has room for each of them.
pub trait Takes<E> {
    ghost has_room: { Self → Items E → Type 0 };

    ghost took: { Self → E → Self → Type 0 };

    fn take_in(&mut self, item: E)
        requires room { IsHeldIn (has_room self.old) item }
        ensures took { took self.old item self.new }
        ensures room { (m : Items E) (p end : ℕ) → map.get m p ≡ Some (end, item) → has_room self.old m → has_room self.new (map.remove m p) };
}

impl<E: Drop> Takes<E> for Vec<E> {
    ghost use Rattle.pts_machine.specs.Takings.{HasRoom, Pushed};

    ghost has_room = { HasRoom };

    ghost took = { Pushed };

    fn take_in(&mut self, item: E) {
        self.push_reserved(item);
    }
}
