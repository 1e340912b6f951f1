//! Asking, waking and restarting.
ghost use Rattle.std.specs.Prelude.{◌≡◌, ◌≤◌, ◌∷◌, []};
ghost use Rattle.box_client.specs.Asking.{group_asks, difference_of, ticks, wakes, restarted};
ghost use Rattle.box_client.specs.Views.{client_of};

use crate::parts::{ClientParts, is_due};
use box_events::{Asks, Numbered, Request};

/// Puts the requests of all that is due in place of those that stand there.
pub fn tick(parts: &mut ClientParts, asks: &mut Asks)
    requires limit { parts.old.next ≤ 2147483582 }
    ensures step { client_of parts.new ≡ (ticks (client_of parts.old)).client }
    ensures asks { asks.new ≡ (ticks (client_of parts.old)).asks }
{
    asks.clear();
    if is_due(parts) {
        asks.put(ask(parts));
    }
    parts.next = parts.channels.tick(parts.next, asks);
}

// The common group asks.
fn ask(parts: &mut ClientParts) -> Numbered
    requires limit { parts.old.next ≤ 2147483582 }
    ensures step { client_of parts.new ≡ group_asks (client_of parts.old) }
    ensures ask { result ≡ difference_of (client_of parts.old) }
{
    let number = parts.next;
    parts.common.ask(number);
    parts.secret.ask(number);
    parts.settings.ask(number);
    parts.flag = false;
    parts.next = number + 1;
    Numbered {
        number,
        request: Request::Difference {
            pts: parts.common.at() as i32,
            qts: parts.secret.at() as i32,
            date: parts.settings.date(),
        },
    }
}

pub fn wake(parts: &mut ClientParts)
    ensures step { client_of parts.new ≡ wakes (client_of parts.old) }
{
    parts.flag = true;
    parts.channels.wake();
}

pub fn restart(parts: &mut ClientParts)
    ensures step { client_of parts.new ≡ restarted (client_of parts.old) }
{
    parts.common.forget();
    parts.secret.forget();
    parts.settings.forget();
    parts.flag = true;
    parts.channels.forget();
    parts.channels.wake();
}
