//! Events, boxes of events, and the messages in which a server and a client speak of them.
#![tactic(auto)]

mod asks;
mod difference_fault;
mod difference_laws;
mod event;
mod event_box;
mod fault;
mod ids;
mod laws;
mod limits;
mod list_of;
mod page;
mod paging;
mod parts;
mod positions;
mod replies;
mod requests;
mod saved;
mod settings;
mod steps;
mod updates;
mod weaving;

pub use asks::Asks;
pub use difference_fault::WeaveFault;
pub use difference_laws::woven_lists;
pub use event::{Event, EventKind};
pub use event_box::EventBox;
pub use fault::BoxFault;
pub use ids::Ids;
pub use laws::{stretches_of_boxes, stretches_of_kept_boxes};
pub use limits::{
    ID_BYTES, KEPT_EVENTS, MAX_ASKS, MAX_BEHIND, MAX_BODY_BYTES, MAX_CHANNELS, MAX_END,
    MAX_FRAME_BYTES, MAX_IDS, MAX_KEY_BYTES, MAX_KEYS, MAX_POST_BYTES, MAX_POSTS, MAX_VALUE_BYTES,
    PAGE_EVENTS, RECENT_BYTES, RECENT_EVENTS, RUN_BYTES, RUN_EVENTS,
};
pub use list_of::ListOf;
pub use parts::{Parts, split};
pub use positions::{LaneName, Receipt, State};
pub use replies::{ChannelReply, Frame, Reply};
pub use requests::{Numbered, Post, Request};
pub use saved::{Saved, SavedChannel, SavedLane};
pub use settings::Setting;
pub use steps::Step;
pub use updates::{Placed, Push, Update};
pub use weaving::weave;
