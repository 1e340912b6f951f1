//! The posts of values.
ghost use Rattle.std.specs.Prelude.{◌≡◌, IfOk};
ghost use Rattle.wire_forms.specs.Parts.{each};
ghost use Rattle.wire_values.specs.Coming.{coming};
ghost use Rattle.wire_values.specs.Posts.{post_at, post_in};

use crate::fields::{Fields, next_int, next_long, next_text, opened};
use crate::lists::next_ids;
use box_events::{ListOf, Post};
use std::alloc::Global;
use tl_base::Memory;
use wire_forms::numbers::{
    POST_CHANNEL_DELETE, POST_CHANNEL_EDIT, POST_CHANNEL_MESSAGE, POST_DELETE, POST_EDIT,
    POST_MESSAGE, POST_READ, POST_SECRET, POST_SETTING,
};

// The post of a record of this form.
fn post_of(alloc: Global, form: u32, mut fields: Fields) -> Result<Post, Memory>
    ensures { IfOk result (λ p. p ≡ post_at form (coming fields)) }
{
    match form {
        POST_MESSAGE => Ok(Post::Message {
            body: next_text(alloc, &mut fields),
        }),
        POST_EDIT => Ok(Post::Edit {
            body: next_text(alloc, &mut fields),
        }),
        POST_DELETE => Ok(Post::Delete {
            ids: next_ids(alloc, &mut fields)?,
        }),
        POST_SECRET => Ok(Post::Secret {
            body: next_text(alloc, &mut fields),
        }),
        POST_CHANNEL_MESSAGE => Ok(Post::ChannelMessage {
            id: next_long(&mut fields),
            body: next_text(alloc, &mut fields),
        }),
        POST_CHANNEL_EDIT => Ok(Post::ChannelEdit {
            id: next_long(&mut fields),
            body: next_text(alloc, &mut fields),
        }),
        POST_CHANNEL_DELETE => Ok(Post::ChannelDelete {
            id: next_long(&mut fields),
            ids: next_ids(alloc, &mut fields)?,
        }),
        POST_SETTING => Ok(Post::Setting {
            key: next_text(alloc, &mut fields),
            value: next_text(alloc, &mut fields),
        }),
        POST_READ => Ok(Post::Read {
            max_id: next_int(&mut fields),
        }),
        _ => Ok(Post::ChannelRead {
            id: next_long(&mut fields),
            max_id: next_int(&mut fields),
        }),
    }
}

/// The posts of values.
pub fn posts_of(alloc: Global, items: Fields) -> Result<ListOf<Post>, Memory>
    ensures { IfOk result (λ ps. ps ≡ each post_in (coming items)) }
{
    let mut posts = Vec::new(alloc);
    for item in items {
        let (form, fields) = opened(alloc, item);
        posts.push(post_of(alloc, form, fields)?)?;
    }
    Ok(ListOf::from_vec(posts))
}
