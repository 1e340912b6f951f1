//! A keeper over a database. It tells no entries: what a database holds is no part of a contract.
ghost use Rattle.std.specs.Prelude.{None, false};
ghost use Rattle.box_server.specs.Keeping.{KeeperState};

use crate::count_file::CountFile;
use crate::database::Database;
use box_server::{Entry, GetFault, Keeper};
use sqlite::{Alter, Connection, Error, ErrorCode};
use std::alloc::Global;
use tl_base::Failed;

/// Entries in a database: a row for each, and one for each of its posts. It can't be dropped, only closed.
pub struct SqliteKeeper<S: Alter> {
    // Boxed, since a session moves its keeper from call to call.
    database: Box<Database<S>>,
    // How many entries there are.
    entries: u32,
    // Where their number is told as well.
    count: Option<CountFile>,
    faults: u64,
}

// Tells the number of entries, where it is told.
fn is_told(count: &Option<CountFile>, entries: u32) -> bool {
    match count {
        Some(file) => file.set(entries).is_ok(),
        None => true,
    }
}

impl<S: Alter + Drop> SqliteKeeper<S> {
    /// A keeper of the entries of a database; its tables are made where there are none.
    pub fn over(alloc: Global, conn: Connection<S>) -> Result<SqliteKeeper<S>, Error> {
        let Ok(mut database) = Box::new(alloc, Database::over(alloc, conn)?) else {
            return Err(Error::SqliteFailure(ErrorCode::OutOfMemory));
        };
        let entries = database.count()?;
        Ok(SqliteKeeper {
            database,
            entries,
            count: None,
            faults: 0,
        })
    }

    /// How many entries there are.
    pub fn entries(&self) -> u32 {
        self.entries
    }

    /// Has each number of entries from the next one on told in this file as well.
    pub fn count_in(&mut self, file: CountFile) {
        self.count = Some(file);
    }

    /// The connection, to be closed, and the file in which the number of entries is told.
    pub fn into_parts(self) -> (Connection<S>, Option<CountFile>) {
        let SqliteKeeper {
            database,
            entries: _,
            count,
            faults: _,
        } = self;
        (Box::into_inner(database).into_connection(), count)
    }
}

impl<S: Alter + Drop> Keeper for SqliteKeeper<S> {
    ghost state = { λ k. record { entries = None; faults = k.faults; sound = false; room = 0 } };

    ghost are_few = { λ _. tt };

    fn count(&mut self) -> Result<u32, Failed> {
        Ok(self.entries)
    }

    fn get(&mut self, n: u32) -> Result<Entry, GetFault> {
        match self.database.get(n) {
            Ok(Some(entry)) => Ok(entry),
            Err(Error::SqliteFailure(ErrorCode::OutOfMemory)) => Err(GetFault::Memory),
            _ => {
                self.faults = self.faults.saturating_add(1);
                Err(GetFault::Failed)
            }
        }
    }

    // After a fault the entry may stand at the next open, where its commit was written and not synced. Nothing more is added then: the next open finds
    // what the disk has.
    fn add(&mut self, entry: Entry) -> Result<(), Failed> {
        let entries = self.entries.saturating_add(1);
        let is_added = self.database.add(self.entries, &entry).is_ok();
        if is_added && is_told(&self.count, entries) {
            self.entries = entries;
            Ok(())
        } else {
            self.faults = self.faults.saturating_add(1);
            Err(Failed)
        }
    }
}
