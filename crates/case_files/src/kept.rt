//! The keeper that a run of `keep` finds, and what it has afterwards.
use crate::fault::CaseFault;
use crate::words::{bytes_of, cut_word, number_of, numbers_of};
use box_events::{ListOf, Post};
use box_server::{Entry, Keeper, MemKeeper, Posts};
use std::alloc::{AllocError, Global};
use tl_base::{Bytes, Memory};

// For how many entries a keeper has room, where no line says it.
const ROOM: u32 = 64;

/// An entry of one message; of no posts, where it has no body.
#[derive(Drop)]
struct CaseEntry {
    date: u32,
    random_id: i64,
    body: Option<Vec<u8>>,
}

impl CaseEntry {
    fn copy(&self) -> Result<CaseEntry, AllocError> {
        let body = match &self.body {
            Some(body) => Some(body.clone()?),
            None => None,
        };
        Ok(CaseEntry {
            date: self.date,
            random_id: self.random_id,
            body,
        })
    }

    fn posts(&self, alloc: Global) -> Result<Posts, Memory> {
        let mut posts = ListOf::new(alloc);
        if let Some(body) = &self.body {
            let body = Bytes::from_slice(alloc, body)?;
            posts.push(Post::Message { body })?;
        }
        Ok(posts)
    }

    fn entry(&self, alloc: Global) -> Result<Entry, Memory> {
        Ok(Entry {
            date: self.date,
            random_id: self.random_id,
            posts: self.posts(alloc)?,
        })
    }
}

/// The entries that a keeper has, its room, and which of its calls in the run fail.
pub struct CaseKeeper {
    alloc: Global,
    entries: Vec<CaseEntry>,
    room: u32,
    fails: Vec<u32>,
}

// By hand, so that each exit of an owner has one call to prove.
impl Drop for CaseKeeper {
    fn drop(self) {
        let CaseKeeper {
            alloc: _,
            entries: _,
            room: _,
            fails: _,
        } = self;
    }
}

// The entry that a text spells: a date, a random id, and the digits of a message's body, if it has one.
fn entry_of(alloc: Global, text: &str) -> Result<CaseEntry, CaseFault> {
    let (date, rest) = cut_word(text);
    let (id, digits) = cut_word(rest);
    let Ok(random_id) = id.parse::<i64>() else {
        return Err(CaseFault::NoNumber);
    };
    let body = if digits.is_empty() {
        None
    } else {
        Some(bytes_of(alloc, digits)?)
    };
    Ok(CaseEntry {
        date: number_of(date)?,
        random_id,
        body,
    })
}

impl CaseKeeper {
    /// A keeper of no entries, none of whose calls fails.
    pub fn new(alloc: Global) -> CaseKeeper {
        CaseKeeper {
            alloc,
            entries: Vec::new(alloc),
            room: ROOM,
            fails: Vec::new(alloc),
        }
    }

    /// Takes all that another keeper has, over none.
    pub fn put_all(&mut self, other: &CaseKeeper) -> Result<(), AllocError> {
        for entry in other.entries.iter() {
            self.entries.push(entry.copy()?)?;
        }
        self.room = other.room;
        self.fails.extend_from_slice(&other.fails)?;
        Ok(())
    }

    /// Makes it the keeper of no entries again.
    pub fn clear(&mut self) {
        self.entries.clear();
        self.room = ROOM;
        self.fails.clear();
    }

    /// Takes a line that says what the keeper has, or how its calls go.
    pub fn take(&mut self, word: &str, rest: &str) -> Result<(), CaseFault> {
        match word {
            "entry" => Ok(self.entries.push(entry_of(self.alloc, rest)?)?),
            "keeper-room" => {
                self.room = number_of(rest)?;
                Ok(())
            }
            "keeper-fails" => {
                self.fails = numbers_of(self.alloc, rest)?;
                Ok(())
            }
            _ => Err(CaseFault::NoWord),
        }
    }

    // The numbers of the calls that fail, after those that put the entries there.
    fn failing(&self) -> Result<Vec<u64>, AllocError> {
        let before = self.entries.len() as u64;
        let mut fails = Vec::new(self.alloc);
        for number in self.fails.iter() {
            fails.push(before.saturating_add(u64::from(*number)))?;
        }
        Ok(fails)
    }

    /// The keeper. An entry for which it has no room is left out.
    pub fn keeper(&self) -> Result<MemKeeper, Memory> {
        let mut keeper = MemKeeper::new(self.alloc, self.room, self.failing()?)?;
        for entry in self.entries.iter() {
            let _ = keeper.add(entry.entry(self.alloc)?);
        }
        Ok(keeper)
    }
}

/// A line for each entry: its date, its random id, and how many posts it has.
pub fn entries_text(alloc: Global, entries: &[Entry]) -> Result<Vec<u8>, AllocError> {
    let mut text = Vec::new(alloc);
    for entry in entries {
        let (date, id, posts) = (entry.date, entry.random_id, entry.posts.len());
        text.extend_from_slice(format!(in alloc; "{date} {id} {posts}\n")?.as_bytes())?;
    }
    Ok(text)
}
