//! What a server answers to requests for differences.
ghost use Rattle.std.specs.Prelude.{◌≡◌, ◌≤◌, ◌&&◌, ℤ, IfOk, nat_eq, length};
ghost use Rattle.box_events.specs.BoxViews.{end_of};
ghost use Rattle.box_events.specs.declared.replies.Reply.TheVariants.{Difference};
ghost use Rattle.box_events.specs.Weaving.{bodies, others_from};
ghost use Rattle.box_server.specs.Answers.{no_position, is_far, channel_difference};
ghost use Rattle.box_server.specs.inner.Carrying.{IsNumber, boxed};

use crate::runs::{Run, recent, run_from};
use box_events::{ChannelReply, EventBox, ListOf, MAX_BEHIND, Reply, Setting, State};
use std::alloc::Global;
use tl_base::{Bytes, Memory};

/// The error that a position isn't one of the box.
pub fn refusal(alloc: Global) -> Result<Reply, Memory>
    ensures { IfOk result (λ r. r ≡ no_position) }
{
    Ok(Reply::Error {
        code: 400,
        text: Bytes::from_slice(alloc, b"PERSISTENT_TIMESTAMP_INVALID")?,
    })
}

/// A position as a number of a box; none below 0.
pub fn number_of(position: i32) -> Option<u32>
    ensures { IsNumber position result }
{
    if position < 0 {
        return None;
    }
    Some(position as u32)
}

/// A difference of what is carried of the common and of the secret box.
pub fn difference(
    news: Run,
    secrets: Run,
    settings: ListOf<Setting>,
    state: State,
    last: bool,
) -> Reply
    ensures { result ≡ Difference (bodies news.parts.events) (bodies secrets.parts.events) (others_from news.parts.from news.parts.events) settings state last }
{
    let (news, others) = news.parts.open();
    let (secrets, _) = secrets.parts.open();
    Reply::Difference {
        news,
        secrets,
        others,
        settings,
        state,
        last,
    }
}

/// Whether both boxes end where what is carried ends.
pub fn are_whole(news: &Run, secrets: &Run) -> bool
    ensures { result ≡ (news.now.is_whole && secrets.now.is_whole) }
{
    news.is_whole && secrets.is_whole
}

/// Whether a state stands at these positions, and there are no settings.
pub fn is_at(state: &State, pts: u32, qts: u32, settings: &ListOf<Setting>) -> bool
    ensures { result ≡ ((nat_eq state.now.pts pts && nat_eq state.now.qts qts) && nat_eq (length settings.now) 0) }
{
    state.pts == pts && state.qts == qts && settings.len() == 0
}

/// What a server answers about a channel with this box.
pub fn channel_reply(alloc: Global, events: &EventBox, position: i32) -> Result<Reply, Memory>
    ensures { IfOk result (λ r. (id : ℤ) → r ≡ channel_difference (boxed id events.now) position) }
{
    let Some(pts) = number_of(position) else {
        return refusal(alloc);
    };
    let end = events.end();
    if pts > end {
        return refusal(alloc);
    }
    if is_far(events, pts) {
        let recent = recent(alloc, events)?;
        return Ok(Reply::Channel(ChannelReply::TooLong {
            pts: end,
            recent,
            last: true,
        }));
    }
    let Some(run) = run_from(alloc, events, pts)? else {
        return refusal(alloc);
    };
    if pts == end {
        return Ok(Reply::Channel(ChannelReply::Empty { pts, last: true }));
    }
    let (news, others) = run.parts.open();
    Ok(Reply::Channel(ChannelReply::Part {
        pts: run.end,
        news,
        others,
        last: run.is_whole,
    }))
}

// Whether the kept events don't reach back to a number, or it is too far behind the end.
fn is_far(events: &EventBox, pts: u32) -> bool
    requires { pts ≤ end_of events.now }
    ensures { (id : ℤ) → result ≡ is_far (boxed id events.now) pts }
{
    pts < events.first() || events.end() - pts > MAX_BEHIND
}
