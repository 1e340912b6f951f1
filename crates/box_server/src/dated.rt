//! Settings with their dates.
ghost use Rattle.std.specs.Prelude.{◌≡◌};

use box_events::Setting;
use std::marker::Model;

/// A setting and the server's date when it was set, in seconds.
pub struct DatedSetting {
    pub setting: Setting,
    pub date: u32,
}

// By hand, so that each exit of an owner has one call to prove.
impl Drop for DatedSetting {
    fn drop(self) {
        let DatedSetting {
            setting: _,
            date: _,
        } = self;
    }
}

impl Model for DatedSetting {
    ghost use Rattle.box_events.specs.SettingLists.{Dated};
    ghost use Rattle.box_server.specs.inner.ServerCodes.{dated_code};

    ghost Value = { Dated };

    ghost coded = { dated_code };

    ghost view = { λ d. record { setting = d.setting; date = d.date } };
}

impl DatedSetting {
    pub fn setting(&self) -> &Setting
        ensures { result.now ≡ self.now.setting }
    {
        &self.setting
    }

    pub fn date(&self) -> u32
        ensures { result ≡ self.now.date }
    {
        self.date
    }
}
