//! The channels that a client is to watch.
ghost use Rattle.std.specs.Prelude.{◌≡◌};
ghost use Rattle.session_commands.specs.Client.{watch_all, watch_one};
ghost use Rattle.session_commands.specs.inner.Recovering.{Watches};

use box_client::Client;
use channel_box::WatchFault;
use outside::LoadError;
use std::alloc::Global;

/// Watches channels in order. One that is watched already stays as it is.
pub fn watch_all(alloc: Global, client: &mut Client, channels: &[i64]) -> Result<(), LoadError>
    ensures watches { Watches (watch_all channels.now client.old) result client.new }
    ensures next { client.new.next ≡ client.old.next }
{
    for id in channels {
        watch_one(alloc, client, *id)?;
    }
    Ok(())
}

fn watch_one(alloc: Global, client: &mut Client, id: i64) -> Result<(), LoadError>
    ensures watches { Watches (watch_one client.old id) result client.new }
    ensures next { client.new.next ≡ client.old.next }
{
    match client.watch(alloc, id) {
        Ok(()) => Ok(()),
        Err(WatchFault::Already) => Ok(()),
        Err(WatchFault::TooMany) => Err(LoadError::unplaced(alloc, "words", "TooMany")),
        Err(WatchFault::Memory) => Err(LoadError::Memory),
    }
}
