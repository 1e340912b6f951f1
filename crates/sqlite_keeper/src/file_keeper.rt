//! Keepers over files.

use crate::count_file::{CountFile, OWNER_ALONE};
use crate::keeper::SqliteKeeper;
use sqlite::{Connection, ErrorCode, FileFrom, FileStore, Wary};
use std::fs::OpenOptions;
use std::os::unix::fs::OpenOptionsExt;
use thiserror::Error;

// A commit there supposes nothing of a write that a crash tore, for a second sync.
type Store = FileStore<FileFrom<Wary>>;

/// A keeper over a file.
pub type FileKeeper = SqliteKeeper<Store>;

/// Why a file gives no keeper.
#[derive(Clone, Copy, Debug, Error)]
pub enum OpenError {
    #[error("out of memory")]
    Memory,
    #[error("no database of entries can be opened there")]
    Fault,
}

impl From<sqlite::Error> for OpenError {
    fn from(error: sqlite::Error) -> OpenError {
        match error {
            sqlite::Error::SqliteFailure(ErrorCode::OutOfMemory) => OpenError::Memory,
            _ => OpenError::Fault,
        }
    }
}

// SQLite takes some words for more than a name.
fn is_file_name(path: &str) -> bool {
    path != ":memory:" && !path.starts_with("file:")
}

// Makes an empty file where nothing stands under the name, since sqlite would make one that all may read, and tells whether it did. What fails here
// is told by the open.
fn begin_file(rt: &HostRuntime, path: &str) -> bool {
    let mut how = OpenOptions::new();
    how.write(true).create_new(true).mode(OWNER_ALONE);
    how.open(rt, path).is_ok()
}

// The file with the number of entries, if it has no more than there are. What stands beside a new database is of another one.
fn count_file(rt: &HostRuntime, path: &str, is_new: bool, entries: u32) -> Option<CountFile> {
    let file = CountFile::beside(rt, path).ok()?;
    if is_new {
        file.clear().ok()?;
    }
    (file.get().ok()? <= entries).then_some(file)
}

// The connection to the database of this name, which is made with sums of its pages where nothing stands there, or an empty file.
fn connect(rt: &HostRuntime, path: &str) -> Result<Connection<Store>, OpenError> {
    match Connection::open_from(rt, path, true, Wary) {
        Ok(conn) => Ok(conn),
        Err((error, _left)) => Err(OpenError::from(error)),
    }
}

// The keeper with the file that has the number of its entries.
fn counted(
    keeper: FileKeeper,
    rt: &HostRuntime,
    path: &str,
    is_new: bool,
) -> Result<FileKeeper, OpenError> {
    let mut keeper = keeper;
    match count_file(rt, path, is_new, keeper.entries()) {
        Some(file) => {
            keeper.count_in(file);
            Ok(keeper)
        }
        None => {
            let _unclosed = keeper.into_parts();
            Err(OpenError::Fault)
        }
    }
}

/// Opens the database of this name, or makes it; a new one has sums of its pages, by which a changed one is found. One that has fewer entries than
/// the file beside it says is refused: its log lost them.
pub fn open_keeper(rt: &HostRuntime, path: &str) -> Result<FileKeeper, OpenError> {
    if !is_file_name(path) {
        return Err(OpenError::Fault);
    }
    let is_new = begin_file(rt, path);
    let conn = connect(rt, path)?;
    let keeper = SqliteKeeper::over(rt.alloc(), conn)?;
    counted(keeper, rt, path, is_new)
}

/// Closes the database: what its log has goes into the file. Where that fails the log stays beside the file, and the next open finds all in both.
pub fn close_keeper(keeper: FileKeeper) {
    let (conn, count) = keeper.into_parts();
    let closed = conn.close();
    if let Some(file) = count
        && closed.is_ok()
    {
        let _cleared = file.clear();
    }
}
