//! The tables, and one function for each statement: a function that carried the clauses of several calls would be slow to prove.

use crate::rows::{PostRow, post_of, put_row};
use box_events::ListOf;
use box_server::{Entry, Posts};
use sqlite::{Alter, Connection, Error, ErrorCode, Row, Statement, params};
use std::alloc::Global;

const NOT_OURS: Error = Error::SqliteFailure(ErrorCode::NotADatabase);

// In one transaction: a run that is killed leaves both tables or none.
const MAKE: &str = "BEGIN; \
CREATE TABLE IF NOT EXISTS entry (n INTEGER PRIMARY KEY, date INTEGER NOT NULL, random_id INTEGER NOT NULL, posts INTEGER NOT NULL) STRICT; \
CREATE TABLE IF NOT EXISTS post (id INTEGER PRIMARY KEY, kind INTEGER NOT NULL, number INTEGER NOT NULL, body BLOB NOT NULL, more BLOB NOT NULL) STRICT; \
COMMIT;";

// The end of the text of the table of entries, by which a database of entries is known.
const MARK: &str =
    " entry (n INTEGER PRIMARY KEY, date INTEGER NOT NULL, random_id INTEGER NOT NULL, posts INTEGER NOT NULL) STRICT";

const TEXTS: &str = "SELECT sql FROM sqlite_schema WHERE sql IS NOT NULL";

pub const COUNT: &str = "SELECT n FROM entry ORDER BY n DESC LIMIT 1";

pub const GET_ENTRY: &str = "SELECT date, random_id, posts FROM entry WHERE n = ?1";

pub const GET_POSTS: &str =
    "SELECT kind, number, body, more FROM post WHERE id BETWEEN ?1 AND ?2 ORDER BY id";

pub const ADD_ENTRY: &str = "INSERT INTO entry (n, date, random_id, posts) VALUES (?1, ?2, ?3, ?4)";

pub const ADD_POST: &str =
    "INSERT INTO post (id, kind, number, body, more) VALUES (?1, ?2, ?3, ?4, ?5)";

/// So many ids of posts belong to each entry, and so many posts it has at most.
pub const POSTS_OF_ENTRY: i64 = 1_024;

/// What the table of entries has of one: its date, its random id, and how many posts it has.
#[derive(Clone, Copy)]
pub struct Head {
    pub date: u32,
    pub random_id: i64,
    pub posts: u32,
}

pub fn prepare<S: Alter>(conn: &mut Connection<S>, sql: &str) -> Result<Statement, Error> {
    conn.prepare(sql)
}

pub fn command<S: Alter>(conn: &mut Connection<S>, sql: &str) -> Result<(), Error> {
    conn.execute_batch(sql)
}

fn texts<S: Alter>(conn: &mut Connection<S>) -> Result<Vec<Row>, Error> {
    let list = prepare(conn, TEXTS)?;
    list.query_all(conn, &[])
}

fn is_marked(row: &Row) -> Result<bool, Error> {
    let text: String = row.get(0)?;
    Ok(text.ends_with(MARK))
}

// Whether a database with these texts in its schema is one of entries, or empty.
fn are_ours(rows: &[Row]) -> Result<bool, Error> {
    for row in rows {
        if is_marked(row)? {
            return Ok(true);
        }
    }
    Ok(rows.is_empty())
}

/// Makes the tables in an empty database. One that has others alone is refused, and nothing is written there.
pub fn make_tables<S: Alter>(conn: &mut Connection<S>) -> Result<(), Error> {
    let rows = texts(conn)?;
    if are_ours(&rows)? {
        command(conn, MAKE)
    } else {
        Err(NOT_OURS)
    }
}

// The number of the last entry, and one.
fn count_in(row: &Row) -> Result<u32, Error> {
    let last: u32 = row.get(0)?;
    Ok(last.saturating_add(1))
}

/// How many entries there are: the number of the last, and one.
pub fn count_entries<S: Alter>(conn: &mut Connection<S>, count: &Statement) -> Result<u32, Error> {
    match count.query_row(conn, &[]) {
        Ok(row) => count_in(&row),
        Err(Error::QueryReturnedNoRows) => Ok(0),
        Err(error) => Err(error),
    }
}

fn head_in(row: &Row) -> Result<Head, Error> {
    Ok(Head {
        date: row.get(0)?,
        random_id: row.get(1)?,
        posts: row.get(2)?,
    })
}

pub fn head_of<S: Alter>(conn: &mut Connection<S>, get: &Statement, n: u32) -> Result<Head, Error> {
    let row = get.query_row(conn, params![n])?;
    head_in(&row)
}

fn cells_in(row: &Row) -> Result<PostRow, Error> {
    Ok(PostRow {
        kind: row.get(0)?,
        number: row.get(1)?,
        body: row.get(2)?,
        more: row.get(3)?,
    })
}

// Appends the post of a row; it answers whether the row is a post's.
fn take_row(alloc: Global, row: &Row, posts: &mut Posts) -> Result<bool, Error> {
    match post_of(alloc, cells_in(row)?)? {
        Some(post) => {
            posts.push(post)?;
            Ok(true)
        }
        None => Ok(false),
    }
}

// Appends the posts of rows; it answers whether each row is a post's.
fn take_rows(alloc: Global, rows: &[Row], posts: &mut Posts) -> Result<bool, Error> {
    for row in rows {
        if !take_row(alloc, row, posts)? {
            return Ok(false);
        }
    }
    Ok(true)
}

// The posts of rows; none where a row is no post's.
fn posts_in(alloc: Global, rows: &[Row]) -> Result<Option<Posts>, Error> {
    let mut posts = ListOf::new(alloc);
    let are_posts = take_rows(alloc, rows, &mut posts)?;
    Ok(are_posts.then_some(posts))
}

/// The posts of an entry; none where a row is no post's.
pub fn posts_of<S: Alter>(
    alloc: Global,
    conn: &mut Connection<S>,
    get: &Statement,
    n: u32,
) -> Result<Option<Posts>, Error> {
    let first = n as i64 * POSTS_OF_ENTRY;
    let rows = get.query_all(conn, params![first, first + POSTS_OF_ENTRY - 1])?;
    posts_in(alloc, &rows)
}

pub fn put_head<S: Alter>(
    conn: &mut Connection<S>,
    add: &Statement,
    n: u32,
    head: Head,
) -> Result<(), Error> {
    add.execute(conn, params![n, head.date, head.random_id, head.posts])?;
    Ok(())
}

pub fn put_posts<S: Alter>(
    alloc: Global,
    conn: &mut Connection<S>,
    add: &Statement,
    n: u32,
    entry: &Entry,
) -> Result<(), Error> {
    let mut id = n as i64 * POSTS_OF_ENTRY;
    for post in entry.posts.as_slice() {
        put_row(alloc, conn, add, id, post)?;
        id = id.saturating_add(1);
    }
    Ok(())
}
