//! A server that takes posts and answers.
ghost use Rattle.std.specs.Prelude.{◌<◌, ◌^◌};
ghost use Rattle.box_server.specs.Answers.{IsAnswered};
ghost use Rattle.box_server.specs.Servers.{dated_at};
ghost use Rattle.callers.specs.Servers.{PostsAndAnswers};

use box_events::{Post, Reply, Request};
use box_server::{PostFault, Posted, Server};
use std::alloc::Global;

/// Takes posts at a moment of the clock, and answers a request after them.
pub fn post_and_answer(
    alloc: Global,
    server: &mut Server,
    date: u32,
    random_id: i64,
    posts: &[Post],
    request: &Request,
) -> Result<(Posted, Reply), PostFault>
    requires date { date < 2 ^ 31 }
    requires answered { IsAnswered request.now }
    ensures { PostsAndAnswers (dated_at server.old date) random_id posts.now request.now result server.new }
{
    server.set_date(date);
    let posted = server.post(random_id, posts)?;
    let reply = server.answer(alloc, request)?;
    Ok((posted, reply))
}
