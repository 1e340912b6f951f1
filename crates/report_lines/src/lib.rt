//! The lines of a replay's report: what came of a step, its packets, what the server and each client have in the end.
#![tactic(auto)]

mod closing;
mod events;
mod heard;
mod pieces;
mod positions;
mod steps;
mod summary;

pub use closing::{put_client, put_server};
pub use heard::HeardAs;
pub use pieces::put_line_end;
pub use positions::put_positions;
pub use steps::{
    put_again, put_channel_too_long, put_date, put_heard, put_packet, put_posted, put_refused,
    put_restarted, put_served, put_step_head, put_ticked, put_too_long, put_watched, put_woken,
};
pub use summary::{put_made, put_standing};
