//! The parts of a world.
use crate::pool::Pool;
use box_client::Client;
use box_server::Server;

/// A server, its clients, and all packets.
pub struct WorldParts {
    pub server: Server,
    pub clients: Vec<Client>,
    pub pool: Pool,
}

// By hand, so that each exit of an owner has one call to prove.
impl Drop for WorldParts {
    fn drop(self) {
        let WorldParts {
            server: _,
            clients: _,
            pool: _,
        } = self;
    }
}
