//! A row that is looked at: the words that are still to be read, and what it is told so far.
use std::alloc::{AllocError, Global};
use std::fmt::Debug;
use std::str::FromStr;

/// A row that is looked at.
///
/// No call of it fails, so what calls it has one way out: a word that can't stand where it is read is noted, as is that memory was refused, and the
/// call goes on with 0 or nothing. What was noted is told at the end, in the place of the answer.
#[derive(Drop)]
pub struct Row<'r> {
    alloc: Global,
    rest: &'r str,
    quoted: &'r str,
    told: String,
    is_unknown: bool,
    is_short: bool,
}

// What stands before a double quote, and what stands after it.
fn parted(text: &str) -> (&str, &str) {
    match text.split_once('"') {
        Some((words, quoted)) => (words, quoted),
        None => (text, ""),
    }
}

impl<'r> Row<'r> {
    /// A row that asks this, and is told nothing so far. Its text in double quotes comes last.
    pub fn new(alloc: Global, asked: &'r str) -> Row<'r> {
        let (rest, quoted) = parted(asked);
        Row {
            alloc,
            rest,
            quoted,
            told: String::new(alloc),
            is_unknown: false,
            is_short: false,
        }
    }

    pub fn alloc(&self) -> Global {
        self.alloc
    }

    // ---- words

    /// The next word, which is empty where none is left.
    pub fn word(&mut self) -> &'r str {
        match self.rest.split_once(' ') {
            Some((word, rest)) => {
                self.rest = rest;
                word
            }
            None => {
                let word = self.rest;
                self.rest = "";
                word
            }
        }
    }

    /// A number from 0 to 100,000.
    pub fn number(&mut self) -> u32 {
        match self.word().parse::<u32>() {
            Ok(number) if number <= 100_000 => number,
            _ => {
                self.unknown();
                0
            }
        }
    }

    /// The numbers of a word that has commas between them; a part that is none says no number.
    pub fn numbers<N: FromStr + Drop>(&mut self, word: &str) -> Vec<N>
    where
        N::Err: Drop,
    {
        let mut numbers = Vec::new(self.alloc);
        for part in word.split(',') {
            if let Ok(number) = part.parse::<N>() {
                if numbers.push(number).is_err() {
                    self.short();
                }
            }
        }
        numbers
    }

    /// The bytes of the next word's hexadecimal digits; `-` is none.
    pub fn bytes(&mut self) -> Vec<u8> {
        let word = self.word();
        match hex::decode(self.alloc, if word == "-" { "" } else { word }) {
            Ok(bytes) => bytes,
            Err(_) => {
                self.unknown();
                Vec::new(self.alloc)
            }
        }
    }

    /// The text in double quotes.
    pub fn text(&self) -> &'r str {
        let (text, _) = parted(self.quoted);
        text
    }

    // ---- what is told

    pub fn put(&mut self, text: &str) {
        if self.told.push_str(text).is_err() {
            self.short();
        }
    }

    // A text, or that there was no memory for it.
    fn put_made(&mut self, text: Result<String, AllocError>) {
        match text {
            Ok(text) => self.put(text.as_str()),
            Err(_) => self.short(),
        }
    }

    /// Bytes as hexadecimal digits; none are `-`.
    pub fn digits(&mut self, bytes: &[u8]) {
        if bytes.is_empty() {
            return self.put("-");
        }
        self.put_made(hex::encode(self.alloc, bytes));
    }

    /// A value of any type, by its bound: how a type tells itself is not gone into.
    pub fn show<T: Debug>(&mut self, value: &T) {
        self.put_made(format!(in self.alloc; "{value:?}"));
    }

    /// The value or the fault that came.
    pub fn show_came<T: Debug + Drop, E: Debug + Drop>(&mut self, came: Result<T, E>) {
        match came {
            Ok(value) => self.show(&value),
            Err(fault) => self.show(&fault),
        }
    }

    // ---- what goes wrong

    /// A word can't stand where it was read.
    pub fn unknown(&mut self) {
        self.is_unknown = true;
    }

    /// Memory was refused.
    pub fn short(&mut self) {
        self.is_short = true;
    }

    /// How the row is told, where that is otherwise than wanted.
    pub fn difference(&self, asked: &str, wanted: &str) -> Result<Option<String>, AllocError> {
        if self.is_short {
            return Err(AllocError);
        }
        let told = if self.is_unknown {
            "an unknown word"
        } else {
            self.told.as_str()
        };
        if told == wanted {
            return Ok(None);
        }
        Ok(Some(format!(in self.alloc; "{asked} => {told}")?))
    }
}
