//! Posts as rows.
use box_events::{Ids, Post};
use sqlite::{Alter, Connection, Error, Statement, params};
use std::alloc::{AllocError, Global};
use tl_base::Bytes;
use tl_numbers::{bytes_of_i32, i32_of};

/// A row of the table of posts, its number aside.
#[derive(Drop)]
pub struct PostRow {
    pub kind: i64,
    pub number: i64,
    pub body: Vec<u8>,
    pub more: Vec<u8>,
}

// The id of a read mark: all bytes are its own.
fn id_of(bytes: &[u8]) -> Option<i32> {
    if bytes.len() != 4 {
        return None;
    }
    Some(i32_of([bytes[0], bytes[1], bytes[2], bytes[3]]))
}

// Ids of four bytes each, the lowest first; none where some bytes are left.
fn ids_of(alloc: Global, bytes: &[u8]) -> Result<Option<Ids>, AllocError> {
    let mut ids = Ids::new(alloc);
    for piece in bytes.chunks(4) {
        match id_of(piece) {
            Some(id) => ids.push(id)?,
            None => return Ok(None),
        }
    }
    Ok(Some(ids))
}

fn bytes_of(alloc: Global, ids: &Ids) -> Result<Vec<u8>, AllocError> {
    let mut bytes = Vec::with_capacity(alloc, ids.as_slice().len().saturating_mul(4))?;
    for id in ids.as_slice() {
        bytes.extend_from_slice(&bytes_of_i32(*id))?;
    }
    Ok(bytes)
}

/// The post of a row; none where it is no post's.
pub fn post_of(alloc: Global, row: PostRow) -> Result<Option<Post>, AllocError> {
    let PostRow {
        kind,
        number,
        body,
        more,
    } = row;
    Ok(match kind {
        0 => Some(Post::Message {
            body: Bytes::from_vec(body),
        }),
        1 => Some(Post::Edit {
            body: Bytes::from_vec(body),
        }),
        2 => match ids_of(alloc, body.as_slice())? {
            Some(ids) => Some(Post::Delete { ids }),
            None => None,
        },
        3 => Some(Post::Secret {
            body: Bytes::from_vec(body),
        }),
        4 => Some(Post::ChannelMessage {
            id: number,
            body: Bytes::from_vec(body),
        }),
        5 => Some(Post::ChannelEdit {
            id: number,
            body: Bytes::from_vec(body),
        }),
        6 => match ids_of(alloc, body.as_slice())? {
            Some(ids) => Some(Post::ChannelDelete { id: number, ids }),
            None => None,
        },
        7 => Some(Post::Setting {
            key: Bytes::from_vec(more),
            value: Bytes::from_vec(body),
        }),
        8 => match id_of(body.as_slice()) {
            Some(max_id) => Some(Post::Read { max_id }),
            None => None,
        },
        9 => match id_of(body.as_slice()) {
            Some(max_id) => Some(Post::ChannelRead { id: number, max_id }),
            None => None,
        },
        _ => None,
    })
}

// The cells of a row of the table of posts, its number aside.
struct Cells<'p> {
    kind: i64,
    number: i64,
    body: &'p [u8],
    more: &'p [u8],
}

impl<'p> Cells<'p> {
    fn of(kind: i64, number: i64, body: &'p [u8]) -> Cells<'p> {
        Cells {
            kind,
            number,
            body,
            more: &[],
        }
    }
}

// The bytes of the ids that a post has in place of a body; none where it has no ids.
fn id_bytes(alloc: Global, post: &Post) -> Result<Vec<u8>, AllocError> {
    match post {
        Post::Delete { ids } => bytes_of(alloc, ids),
        Post::ChannelDelete { ids, .. } => bytes_of(alloc, ids),
        Post::Read { max_id } => Vec::from_slice(alloc, &bytes_of_i32(*max_id)),
        Post::ChannelRead { max_id, .. } => Vec::from_slice(alloc, &bytes_of_i32(*max_id)),
        _ => Ok(Vec::new(alloc)),
    }
}

// The cells of a post, whose ids have these bytes.
fn cells_of<'p>(post: &'p Post, ids: &'p [u8]) -> Cells<'p> {
    match post {
        Post::Message { body } => Cells::of(0, 0, body.as_slice()),
        Post::Edit { body } => Cells::of(1, 0, body.as_slice()),
        Post::Delete { .. } => Cells::of(2, 0, ids),
        Post::Secret { body } => Cells::of(3, 0, body.as_slice()),
        Post::ChannelMessage { id, body } => Cells::of(4, *id, body.as_slice()),
        Post::ChannelEdit { id, body } => Cells::of(5, *id, body.as_slice()),
        Post::ChannelDelete { id, .. } => Cells::of(6, *id, ids),
        Post::Setting { key, value } => Cells {
            kind: 7,
            number: 0,
            body: value.as_slice(),
            more: key.as_slice(),
        },
        Post::Read { .. } => Cells::of(8, 0, ids),
        Post::ChannelRead { id, .. } => Cells::of(9, *id, ids),
    }
}

/// Adds the row of a post.
pub fn put_row<S: Alter>(
    alloc: Global,
    conn: &mut Connection<S>,
    add: &Statement,
    id: i64,
    post: &Post,
) -> Result<(), Error> {
    let ids = id_bytes(alloc, post)?;
    let Cells {
        kind,
        number,
        body,
        more,
    } = cells_of(post, &ids);
    add.execute(conn, params![id, kind, number, body, more])?;
    Ok(())
}
