//! What was sent.
use tl_base::Bytes;

/// To whom a packet goes.
#[derive(Clone, Copy)]
pub enum End {
    /// A push goes to every client.
    Clients,
    /// The request of this client goes to the server.
    Server { from: u32 },
    /// A reply goes to the client that asked.
    Client { client: u32 },
}

/// A packet: its bytes, and to whom it goes. Nothing else of its message is kept.
#[derive(Drop)]
pub struct SentPacket {
    pub bytes: Bytes,
    pub to: End,
}
