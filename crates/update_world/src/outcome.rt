//! What came of a step.
use box_events::State;
use box_server::PostFault;
use channel_box::WatchFault;
use report_lines::HeardAs;

/// What came of a step. A new packet is named by its number, which is the count of packets before it.
#[derive(Clone, Copy)]
pub enum Outcome {
    /// New posts were taken: where the server is with them, and the packet of the push.
    Posted {
        state: State,
        packet: u32,
    },
    /// Posts came under a random id that was known.
    Again,
    PostRefused {
        fault: PostFault,
    },
    /// The date of the server, in seconds.
    Date {
        date: u32,
    },
    /// A request was answered by this packet.
    Served {
        packet: u32,
    },
    Heard {
        client: u32,
        told: HeardAs,
    },
    /// So many requests were sent, in packets from this number on.
    Ticked {
        client: u32,
        asks: u32,
        first: u32,
    },
    Woken {
        client: u32,
    },
    Watched {
        client: u32,
        id: i64,
        refused: Option<WatchFault>,
    },
    Restarted {
        client: u32,
    },
    /// The push said that more is new than it would carry, of a channel or of all boxes.
    Pushed {
        packet: u32,
        channel: bool,
    },
}
