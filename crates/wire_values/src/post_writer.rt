//! The values of posts.
ghost use Rattle.std.specs.Prelude.{◌≡◌, IfOk};
ghost use Rattle.tl_types.specs.Seen.{view};
ghost use Rattle.tl_types.specs.Values.{list};
ghost use Rattle.wire_forms.specs.Parts.{row};
ghost use Rattle.wire_values.specs.Posts.{post_tree};

use box_events::Post;
use std::alloc::Global;
use tl_base::Memory;
use tl_types::Value;
use wire_forms::numbers::{
    POST_CHANNEL_DELETE, POST_CHANNEL_EDIT, POST_CHANNEL_MESSAGE, POST_CHANNEL_READ, POST_DELETE,
    POST_EDIT, POST_MESSAGE, POST_READ, POST_SECRET, POST_SETTING,
};
use wire_forms::{ids_value, node, text_value};

fn post_value(alloc: Global, post: &Post) -> Result<Value, Memory>
    ensures { IfOk result (λ v. view v ≡ post_tree post.now) }
{
    match post {
        Post::Message { body } => node(alloc, POST_MESSAGE, [text_value(alloc, body.as_slice())?]),
        Post::Edit { body } => node(alloc, POST_EDIT, [text_value(alloc, body.as_slice())?]),
        Post::Delete { ids } => node(alloc, POST_DELETE, [ids_value(alloc, ids.as_slice())?]),
        Post::Secret { body } => node(alloc, POST_SECRET, [text_value(alloc, body.as_slice())?]),
        Post::ChannelMessage { id, body } => node(
            alloc,
            POST_CHANNEL_MESSAGE,
            [Value::Long(*id), text_value(alloc, body.as_slice())?],
        ),
        Post::ChannelEdit { id, body } => node(
            alloc,
            POST_CHANNEL_EDIT,
            [Value::Long(*id), text_value(alloc, body.as_slice())?],
        ),
        Post::ChannelDelete { id, ids } => node(
            alloc,
            POST_CHANNEL_DELETE,
            [Value::Long(*id), ids_value(alloc, ids.as_slice())?],
        ),
        Post::Setting { key, value } => node(
            alloc,
            POST_SETTING,
            [
                text_value(alloc, key.as_slice())?,
                text_value(alloc, value.as_slice())?,
            ],
        ),
        Post::Read { max_id } => node(alloc, POST_READ, [Value::Int(*max_id)]),
        Post::ChannelRead { id, max_id } => node(
            alloc,
            POST_CHANNEL_READ,
            [Value::Long(*id), Value::Int(*max_id)],
        ),
    }
}

/// A list of the values of posts.
pub fn posts_value(alloc: Global, posts: &[Post]) -> Result<Value, Memory>
    ensures { IfOk result (λ v. view v ≡ list (row post_tree posts.now)) }
{
    let mut items = Vec::new(alloc);
    for post in posts {
        items.push(post_value(alloc, post)?)?;
    }
    Ok(Value::List(items))
}
