//! A store: a server that is opened from what was kept of its posts.
ghost use Rattle.std.specs.Prelude.{◌≡◌, IfSome, OnSome, Ok};
ghost use Rattle.box_server.specs.Receiving.{post_answer};
ghost use Rattle.box_server.specs.Keeping.{with_more};
ghost use Rattle.box_server.specs.Rebuilding.{kept_of, rebuilt};

use box_server::{Keeper, Posted, Posts, Stored};
use std::alloc::Global;

/// Opens a store, takes posts, and gives the keeper back, with what was answered.
pub fn post_once<K: Keeper>(
    alloc: Global,
    keeper: K,
    random_id: i64,
    posts: Posts,
) -> (K, Option<Posted>)
    ensures answer { IfSome (K.state keeper).entries (λ es. IfSome result.1 (λ posted. Ok posted ≡ post_answer (rebuilt es) random_id posts)) }
    ensures kept { IfSome (K.state keeper).entries (λ es. OnSome result.1 ((K.state result.0).entries ≡ with_more (kept_of (rebuilt es) random_id posts) (K.state keeper).entries)) }
{
    let mut store = match Stored::open(alloc, keeper) {
        Ok(store) => store,
        Err(unopened) => return (unopened.keeper, None),
    };
    match store.post(random_id, posts) {
        Ok(posted) => (store.into_keeper(), Some(posted)),
        Err(_) => (store.into_keeper(), None),
    }
}
