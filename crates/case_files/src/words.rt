//! The parts of a line: words, numbers, moments, bytes, calls.
ghost use Rattle.std.specs.Prelude.{◌<◌, ◌^◌};

use crate::fault::CaseFault;
use std::alloc::{AllocError, Global};
use tl_base::{HostCall, Out, Slot};

/// The word before the first space, and what stands after that space.
pub fn cut_word(line: &str) -> (&str, &str) {
    match line.split_once(' ') {
        Some(parts) => parts,
        None => (line, ""),
    }
}

/// The number that a text spells.
pub fn number_of(text: &str) -> Result<u32, CaseFault> {
    match text.parse::<u32>() {
        Ok(number) => Ok(number),
        Err(_) => Err(CaseFault::NoNumber),
    }
}

/// The numbers that a text spells, with one space between two.
pub fn numbers_of(alloc: Global, text: &str) -> Result<Vec<u32>, CaseFault> {
    let mut numbers = Vec::new(alloc);
    for word in text.split(' ') {
        numbers.push(number_of(word)?)?;
    }
    Ok(numbers)
}

/// A moment that a host may tell.
#[derive(Clone, Copy)]
pub struct Moment {
    pub seconds: u32,
    ghost fits: { seconds < 2 ^ 31 },
}

// The moment that a text spells.
fn moment_of(text: &str) -> Result<Moment, CaseFault> {
    let seconds = number_of(text)?;
    if seconds < 1 << 31 {
        Ok(Moment { seconds })
    } else {
        Err(CaseFault::NoMoment)
    }
}

/// The moments that a text spells, with one space between two.
pub fn moments_of(alloc: Global, text: &str) -> Result<Vec<Moment>, CaseFault> {
    let mut moments = Vec::new(alloc);
    for word in text.split(' ') {
        moments.push(moment_of(word)?)?;
    }
    Ok(moments)
}

/// The bytes of hexadecimal digits in groups, with one space between two.
pub fn bytes_of(alloc: Global, digits: &str) -> Result<Vec<u8>, CaseFault> {
    let mut bytes = Vec::new(alloc);
    for group in digits.split(' ') {
        let Ok(more) = hex::decode(alloc, group) else {
            return Err(CaseFault::NoDigits);
        };
        bytes.extend_from_slice(&more)?;
    }
    Ok(bytes)
}

/// The words of a run so far, and the one that a quote began.
#[derive(Drop)]
struct Words {
    alloc: Global,
    done: Vec<String>,
    quoted: Option<String>,
}

impl Words {
    fn put(&mut self, word: &str) -> Result<(), AllocError> {
        let word = String::from_str(self.alloc, word)?;
        self.done.push(word)?;
        Ok(())
    }

    // Takes a piece that stands outside of quotes, or begins one.
    fn begin(&mut self, piece: &str) -> Result<(), AllocError> {
        let Some(inside) = piece.strip_prefix('\'') else {
            return self.put(piece);
        };
        match inside.strip_suffix('\'') {
            Some(word) => self.put(word),
            None => {
                self.quoted = Some(String::from_str(self.alloc, inside)?);
                Ok(())
            }
        }
    }

    // Takes a piece that goes on with a quoted word, or ends it.
    fn go_on(&mut self, mut word: String, piece: &str) -> Result<(), AllocError> {
        word.push_str(" ")?;
        match piece.strip_suffix('\'') {
            Some(last) => {
                word.push_str(last)?;
                self.done.push(word)?;
            }
            None => {
                word.push_str(piece)?;
                self.quoted = Some(word);
            }
        }
        Ok(())
    }

    fn take(&mut self, piece: &str) -> Result<(), AllocError> {
        match self.quoted.take() {
            None => self.begin(piece),
            Some(word) => self.go_on(word, piece),
        }
    }
}

/// The words of a run, with one space between two. A word in single quotes may have spaces; `''` is the empty word.
pub fn words_of(alloc: Global, text: &str) -> Result<Vec<String>, CaseFault> {
    let mut words = Words {
        alloc,
        done: Vec::new(alloc),
        quoted: None,
    };
    if text.is_empty() {
        return Ok(words.done);
    }
    for piece in text.split(' ') {
        words.take(piece)?;
    }
    match words.quoted {
        None => Ok(words.done),
        Some(_) => Err(CaseFault::NoQuote),
    }
}

// The kind of call that a text names.
fn call_of(text: &str) -> Result<HostCall, CaseFault> {
    match text {
        "open" => Ok(HostCall::Open),
        "read schema" => Ok(HostCall::Read { slot: Slot::Schema }),
        "read input" => Ok(HostCall::Read { slot: Slot::Input }),
        "read state" => Ok(HostCall::Read { slot: Slot::State }),
        "read link" => Ok(HostCall::Read { slot: Slot::Link }),
        "create" => Ok(HostCall::Create),
        "write output" => Ok(HostCall::Write { out: Out::Output }),
        "write errors" => Ok(HostCall::Write { out: Out::Errors }),
        "write state" => Ok(HostCall::Write { out: Out::State }),
        "write link" => Ok(HostCall::Write { out: Out::Link }),
        "listen" => Ok(HostCall::Listen),
        "connect" => Ok(HostCall::Connect),
        "accept" => Ok(HostCall::Accept),
        _ => Err(CaseFault::NoCall),
    }
}

/// A kind of call and a number: `read input 1`.
pub fn numbered_call(text: &str) -> Result<(HostCall, u64), CaseFault> {
    let Some((call, number)) = text.rsplit_once(' ') else {
        return Err(CaseFault::NoCall);
    };
    Ok((call_of(call)?, u64::from(number_of(number)?)))
}
