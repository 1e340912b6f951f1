//! A database of entries. None of its calls has a clause: what a database holds is no part of a contract.

use crate::tables::{
    ADD_ENTRY, ADD_POST, COUNT, GET_ENTRY, GET_POSTS, Head, POSTS_OF_ENTRY, command, count_entries,
    head_of, make_tables, posts_of, prepare, put_head, put_posts,
};
use box_server::{Entry, Posts};
use sqlite::{Alter, Connection, Error, ErrorCode, Statement};
use std::alloc::Global;

const TOO_BIG: Error = Error::SqliteFailure(ErrorCode::TooBig);

// The statements that read.
struct Reads {
    count: Statement,
    entry: Statement,
    posts: Statement,
}

// By hand, so that each exit of an owner has one call to prove.
impl Drop for Reads {
    fn drop(self) {
        let Reads {
            count: _,
            entry: _,
            posts: _,
        } = self;
    }
}

// The statements that write.
struct Writes {
    entry: Statement,
    post: Statement,
}

// By hand, so that each exit of an owner has one call to prove.
impl Drop for Writes {
    fn drop(self) {
        let Writes { entry: _, post: _ } = self;
    }
}

/// A connection, with the statements that are used again and again.
pub struct Database<S: Alter> {
    alloc: Global,
    conn: Connection<S>,
    reads: Reads,
    writes: Writes,
}

// By hand, so that each exit of an owner has one call to prove.
impl<S: Alter + Drop> Drop for Database<S> {
    fn drop(self) {
        let Database {
            alloc: _,
            conn: _,
            reads: _,
            writes: _,
        } = self;
    }
}

fn reads_over<S: Alter>(conn: &mut Connection<S>) -> Result<Reads, Error> {
    let count = prepare(conn, COUNT)?;
    let entry = prepare(conn, GET_ENTRY)?;
    let posts = prepare(conn, GET_POSTS)?;
    Ok(Reads {
        count,
        entry,
        posts,
    })
}

fn writes_over<S: Alter>(conn: &mut Connection<S>) -> Result<Writes, Error> {
    let entry = prepare(conn, ADD_ENTRY)?;
    let post = prepare(conn, ADD_POST)?;
    Ok(Writes { entry, post })
}

// The tables, where there are none, and the statements over them.
fn made_over<S: Alter>(conn: &mut Connection<S>) -> Result<(Reads, Writes), Error> {
    make_tables(conn)?;
    let reads = reads_over(conn)?;
    let writes = writes_over(conn)?;
    Ok((reads, writes))
}

// The entry with this head and these posts, if they are as many as it says.
fn entry_of(head: Head, posts: Option<Posts>) -> Option<Entry> {
    let posts = posts?;
    if posts.len() != head.posts as usize {
        return None;
    }
    Some(Entry {
        date: head.date,
        random_id: head.random_id,
        posts,
    })
}

impl<S: Alter + Drop> Database<S> {
    /// The database of a connection; its tables are made where there are none.
    pub fn over(alloc: Global, conn: Connection<S>) -> Result<Database<S>, Error> {
        let mut conn = conn;
        let (reads, writes) = made_over(&mut conn)?;
        Ok(Database {
            alloc,
            conn,
            reads,
            writes,
        })
    }

    pub fn into_connection(self) -> Connection<S> {
        let Database {
            alloc: _,
            conn,
            reads: _,
            writes: _,
        } = self;
        conn
    }

    /// How many entries there are.
    pub fn count(&mut self) -> Result<u32, Error> {
        count_entries(&mut self.conn, &self.reads.count)
    }

    /// Entry `n`; none where rows of posts are missing, or one is no post's.
    pub fn get(&mut self, n: u32) -> Result<Option<Entry>, Error> {
        let head = head_of(&mut self.conn, &self.reads.entry, n)?;
        let posts = posts_of(self.alloc, &mut self.conn, &self.reads.posts, n)?;
        Ok(entry_of(head, posts))
    }

    /// Adds entry `n`: all of its rows, or none.
    pub fn add(&mut self, n: u32, entry: &Entry) -> Result<(), Error> {
        let posts = entry.posts.len();
        if n == u32::MAX || posts > POSTS_OF_ENTRY as usize {
            return Err(TOO_BIG);
        }
        let head = Head {
            date: entry.date,
            random_id: entry.random_id,
            posts: posts as u32,
        };
        command(&mut self.conn, "BEGIN")?;
        let put = self.put(n, head, entry);
        if put.is_err() {
            let _ended = command(&mut self.conn, "ROLLBACK");
        }
        put
    }

    // The rows of an entry, and the end of their transaction.
    fn put(&mut self, n: u32, head: Head, entry: &Entry) -> Result<(), Error> {
        put_head(&mut self.conn, &self.writes.entry, n, head)?;
        put_posts(self.alloc, &mut self.conn, &self.writes.post, n, entry)?;
        command(&mut self.conn, "COMMIT")
    }
}
