//! Packets that are looked for in a world.
ghost use Rattle.std.specs.Prelude.{◌≡◌};
ghost use Rattle.box_world.specs.Worlds as worlds;
ghost use Rattle.update_replay.specs.Made.{last_where};
ghost use Rattle.update_world.specs.Shown.{StandsFor};
ghost use Rattle.update_replay.specs.Wanting.{goes_to, is_wanted};

use update_world::{End, World};

/// The receiver of a packet that is looked for.
#[derive(Clone, Copy)]
pub enum Receiver {
    Client { client: u32 },
    Server,
}

/// Whether a packet goes to the receiver.
pub fn goes_to(wanted: Receiver, to: End) -> bool
    ensures { result ≡ goes_to wanted to }
{
    match wanted {
        Receiver::Client { client } => match to {
            End::Clients => true,
            End::Server { .. } => false,
            End::Client { client: other } => other == client,
        },
        Receiver::Server => match to {
            End::Clients => false,
            End::Server { .. } => true,
            End::Client { .. } => false,
        },
    }
}

/// The number of the last packet that goes to the receiver.
pub fn last_packet(world: &World, wanted: Receiver) -> Option<u32>
    ensures { (w : worlds.World) → StandsFor world.now w → result ≡ last_where (is_wanted wanted) 0 w.pool }
{
    let packets = world.packets();
    for later in 0..packets {
        let packet = packets - 1 - later;
        if goes_to(wanted, world.packet(packet).to) {
            return Some(packet);
        }
    }
    None
}
