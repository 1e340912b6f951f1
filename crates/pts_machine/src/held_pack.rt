//! Packs that are held.
ghost use Rattle.std.specs.Prelude.{◌≡◌};

use box_events::Setting;
use std::marker::Model;

/// Settings that came together, and their date.
#[derive(Drop)]
pub struct HeldPack {
    date: u32,
    settings: Vec<Setting>,
}

impl Model for HeldPack {
    ghost use Rattle.pts_machine.specs.Packs.{Pack, pack_code};

    ghost Value = { Pack };

    ghost coded = { pack_code };

    ghost view = { λ p. record { date = p.date; settings = p.settings.items } };
}

impl HeldPack {
    pub fn new(date: u32, settings: Vec<Setting>) -> HeldPack
        ensures { result ≡ record { date = date; settings = settings.items } }
    {
        HeldPack { date, settings }
    }

    pub fn open(self) -> (u32, Vec<Setting>)
        ensures date { result.0 ≡ self.date }
        ensures settings { result.1.items ≡ self.settings }
    {
        (self.date, self.settings)
    }
}
