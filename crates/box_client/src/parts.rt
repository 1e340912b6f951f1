//! The parts of a client.
ghost use Rattle.std.specs.Prelude.{◌≡◌, ◌≤◌};
ghost use Rattle.box_client.specs.Asking.{group_is_due};
ghost use Rattle.box_client.specs.Views.{client_of};

use box_events::Event;
use channel_box::Channels;
use pts_machine::{Lane, Mode, Settings};

/// What a client has.
pub struct ClientParts {
    pub next: u32,
    pub common: Lane<Event>,
    pub secret: Lane<Event>,
    pub settings: Settings,
    pub flag: bool,
    pub channels: Channels,
}

// By hand, so that each exit of an owner has one call to prove.
impl Drop for ClientParts {
    fn drop(self) {
        let ClientParts {
            next: _,
            common: _,
            secret: _,
            settings: _,
            flag: _,
            channels: _,
        } = self;
    }
}

/// Whether the common group is to ask.
pub fn is_due(parts: &ClientParts) -> bool
    ensures { result ≡ group_is_due (client_of parts.now) }
{
    match parts.common.mode() {
        Mode::Live => {
            parts.flag || 0 < parts.common.held() + parts.secret.held() + parts.settings.held()
        }
        Mode::Asking(_) => false,
        Mode::Again => true,
    }
}
