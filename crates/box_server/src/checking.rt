//! What is wrong with posts, whatever the server keeps.
ghost use Rattle.std.specs.Prelude.{◌≡◌, ◌-◌, ◌^◌, min, ltb, eqb};
ghost use Rattle.std.specs.List.{list_any, sum_by};
ghost use Rattle.box_events.specs.declared.limits.TheConstants.{MAX_POST_BYTES};
ghost use Rattle.box_server.specs.Entries.{entry_of, entries_of, size_of};
ghost use Rattle.box_server.specs.Refusing.{bad_entries};
ghost use Rattle.box_server.specs.inner.Checks.{Checks, is_bad, CountsIds, CountsBytes};

use crate::fault::PostFault;
use box_events::{
    ID_BYTES, MAX_BODY_BYTES, MAX_IDS, MAX_KEY_BYTES, MAX_POST_BYTES, MAX_POSTS, MAX_VALUE_BYTES,
    Post,
};

/// The first cause that these posts have by themselves.
pub fn check(posts: &[Post]) -> Result<(), PostFault>
    ensures { Checks (bad_entries (entries_of posts.now)) result }
{
    if posts.is_empty() {
        return Err(PostFault::NoPosts);
    }
    if posts.len() > MAX_POSTS {
        return Err(PostFault::TooManyPosts);
    }
    if is_any_bad(posts, PostFault::NoIds) {
        return Err(PostFault::NoIds);
    }
    if is_any_bad(posts, PostFault::TooManyIds) {
        return Err(PostFault::TooManyIds);
    }
    if is_any_bad(posts, PostFault::BodyTooLong) {
        return Err(PostFault::BodyTooLong);
    }
    if is_any_bad(posts, PostFault::KeyTooLong) {
        return Err(PostFault::KeyTooLong);
    }
    if is_any_bad(posts, PostFault::ValueTooLong) {
        return Err(PostFault::ValueTooLong);
    }
    if are_too_large(posts) {
        return Err(PostFault::PostTooLarge);
    }
    Ok(())
}

// Whether one of the posts is refused by a cause that a post has by itself.
fn is_any_bad(posts: &[Post], cause: PostFault) -> bool
    ensures { result ≡ list_any (is_bad cause) (entries_of posts.now) }
{
    for post in posts {
        if is_bad(post, cause) {
            return true;
        }
    }
    false
}

fn is_bad(post: &Post, cause: PostFault) -> bool
    ensures { result ≡ is_bad cause (entry_of post.now) }
{
    match cause {
        PostFault::NoIds => ids_in(post) == 0,
        PostFault::TooManyIds => ids_in(post) > MAX_IDS,
        PostFault::BodyTooLong => body_bytes(post) > MAX_BODY_BYTES,
        PostFault::KeyTooLong => key_bytes(post) > MAX_KEY_BYTES,
        PostFault::ValueTooLong => value_bytes(post) > MAX_VALUE_BYTES,
        _ => false,
    }
}

// How many ids a delete has; 1 for the others.
fn ids_in(post: &Post) -> usize
    ensures { CountsIds (entry_of post.now) result }
{
    match post {
        Post::Delete { ids } | Post::ChannelDelete { ids, .. } => ids.as_slice().len(),
        _ => 1,
    }
}

// How many bytes a body has; 0 where there is none.
fn body_bytes(post: &Post) -> usize
    ensures { CountsBytes PostFault.BodyTooLong (entry_of post.now) result }
{
    match post {
        Post::Message { body }
        | Post::Edit { body }
        | Post::Secret { body }
        | Post::ChannelMessage { body, .. }
        | Post::ChannelEdit { body, .. } => body.len(),
        _ => 0,
    }
}

fn key_bytes(post: &Post) -> usize
    ensures { CountsBytes PostFault.KeyTooLong (entry_of post.now) result }
{
    match post {
        Post::Setting { key, .. } => key.len(),
        _ => 0,
    }
}

fn value_bytes(post: &Post) -> usize
    ensures { CountsBytes PostFault.ValueTooLong (entry_of post.now) result }
{
    match post {
        Post::Setting { value, .. } => value.len(),
        _ => 0,
    }
}

// Whether the posts have too many bytes.
fn are_too_large(posts: &[Post]) -> bool
    ensures { result ≡ ltb MAX_POST_BYTES (sum_by size_of (entries_of posts.now)) }
{
    let mut left = MAX_POST_BYTES;
    for post in posts {
        let bytes = bytes_of(post);
        if bytes > left {
            return true;
        }
        left -= bytes;
    }
    false
}

// Of how many bytes a post is, or the greatest number where that is greater.
fn bytes_of(post: &Post) -> usize
    ensures { result ≡ min (size_of (entry_of post.now)) (2 ^ 64 - 1) }
{
    match post {
        Post::Message { body }
        | Post::Edit { body }
        | Post::Secret { body }
        | Post::ChannelMessage { body, .. }
        | Post::ChannelEdit { body, .. } => body.len(),
        Post::Delete { ids } | Post::ChannelDelete { ids, .. } => {
            ids.as_slice().len().saturating_mul(ID_BYTES)
        }
        Post::Setting { key, value } => key.len().saturating_add(value.len()),
        Post::Read { .. } | Post::ChannelRead { .. } => ID_BYTES,
    }
}
