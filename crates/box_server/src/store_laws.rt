//! Laws of entries, carried by functions that do nothing.
ghost use Rattle.box_server.specs.StoreLaws.{NoEntriesRebuild, PostsAreKept, DatesAreAside, OneServerFrom, RebuiltIsSound, KnownAddsNothing, RefusedAddsNothing, NewIsKnownAfter};

/// Entries rebuild their server: from none, with what a post adds, and whatever its date; and they say all of it but the date.
pub fn entries_rebuild_servers()
    ensures none { NoEntriesRebuild }
    ensures post { PostsAreKept }
    ensures date { DatesAreAside }
    ensures one { OneServerFrom }
    ensures sound { RebuiltIsSound }
{}

/// Posts under a known id, and posts that are refused, add nothing; the id of posts that were taken as new is known.
pub fn only_new_posts_add()
    ensures known { KnownAddsNothing }
    ensures refused { RefusedAddsNothing }
    ensures new { NewIsKnownAfter }
{}
