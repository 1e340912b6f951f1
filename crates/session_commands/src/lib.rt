//! What the commands over a link answer: `post`, which sends one call and prints its reply, `serve`, which serves connections from one new server,
//! `keep`, which does so from a server whose posts are kept, and `client`, which brings a saved client up to date; and the parts of these that know no host.
#![tactic(auto)]

mod channels;
mod ending;
mod kept_laws;
mod laws;
mod reply;
mod saving;
mod sending;
mod serve_laws;
mod state;

pub use channels::watch_all;
pub use ending::session_stop;
pub use kept_laws::runs_of_keep_are_one_of_serve;
pub use laws::{client_has_one_answer, post_has_one_answer};
pub use reply::reply_line;
pub use saving::{SavedState, saved_state};
pub use sending::{Sending, call_of};
pub use serve_laws::serve_has_one_answer;
pub use state::{MAX_STATE_BYTES, client_in};
