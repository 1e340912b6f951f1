//! A run, and how it is to end.
use crate::ending::{Ending, put_line};
use crate::fault::CaseFault;
use crate::setting::Setting;
use crate::traffic::Traffic;
use crate::words::{bytes_of, cut_word, number_of, words_of};
use box_server::MemKeeper;
use outside::MemHost;
use std::alloc::{AllocError, Global};
use tl_base::Memory;

// So many bytes of what differs are shown.
const SHOWN_BYTES: usize = 160;

/// A run, and how it is to end.
pub struct Case {
    alloc: Global,
    title: String,
    words: Vec<String>,
    setting: Setting,
    wanted: Ending,
}

// By hand, so that each exit of an owner has one call to prove.
impl Drop for Case {
    fn drop(self) {
        let Case {
            alloc: _,
            title: _,
            words: _,
            setting: _,
            wanted: _,
        } = self;
    }
}

// A run of `decode`: its words, and its input's bytes.
#[derive(Drop)]
struct Decoded<'c> {
    schema: &'c str,
    of: &'c str,
    input: &'c str,
    bytes: &'c [u8],
}

impl Case {
    // A run of no words, over nothing.
    fn blank(alloc: Global) -> Case {
        Case {
            alloc,
            title: String::new(alloc),
            words: Vec::new(alloc),
            setting: Setting::new(alloc),
            wanted: Ending::new(alloc),
        }
    }

    /// A run that is to end with status 0 and write nothing, until lines say more.
    pub fn new(title: String, words: &str, setting: Setting) -> Result<Case, CaseFault> {
        let alloc = setting.alloc();
        Ok(Case {
            alloc,
            title,
            words: words_of(alloc, words)?,
            setting,
            wanted: Ending::new(alloc),
        })
    }

    /// How the run is to end.
    pub fn wanted(&self) -> &Ending {
        &self.wanted
    }

    /// Wants this end.
    pub fn want(&mut self, ending: Ending) {
        self.wanted = ending;
    }

    // A status, or a status and the line on Errors.
    fn want_status(&mut self, text: &str) -> Result<(), CaseFault> {
        let (number, line) = cut_word(text);
        self.wanted.put_status(number)?;
        if !line.is_empty() {
            put_line(&mut self.wanted.errors, line)?;
        }
        Ok(())
    }

    // One more link, to which these bytes are written.
    fn want_link(&mut self, digits: &str) -> Result<(), CaseFault> {
        self.wanted.traffic.take_link()?;
        self.want_sent(digits)
    }

    // More bytes on the link that is wanted last.
    fn want_sent(&mut self, digits: &str) -> Result<(), CaseFault> {
        if self.wanted.traffic.starts.is_empty() {
            return Err(CaseFault::NoLink);
        }
        let bytes = bytes_of(self.alloc, digits)?;
        Ok(self.wanted.traffic.send(&bytes)?)
    }

    /// Takes a line that says how the run is to end.
    pub fn take(&mut self, word: &str, rest: &str) -> Result<(), CaseFault> {
        match word {
            "status" => self.want_status(rest),
            "output" => Ok(put_line(&mut self.wanted.output, rest)?),
            "errors" => Ok(put_line(&mut self.wanted.errors, rest)?),
            "output-text" => Ok(self.wanted.output.extend_from_slice(rest.as_bytes())?),
            "output-hex" => {
                let bytes = bytes_of(self.alloc, rest)?;
                Ok(self.wanted.output.extend_from_slice(&bytes)?)
            }
            "address" => Ok(self.wanted.traffic.use_address(rest)?),
            "sent" => self.want_link(rest),
            "sent-more" => self.want_sent(rest),
            "state" => Ok(self.wanted.traffic.create(rest)?),
            "state-hex" => {
                let bytes = bytes_of(self.alloc, rest)?;
                Ok(self.wanted.state.extend_from_slice(&bytes)?)
            }
            "kept" => Ok(put_line(&mut self.wanted.kept, rest)?),
            "front" => {
                self.wanted.keep_front(number_of(rest)? as usize);
                Ok(())
            }
            _ => Err(CaseFault::NoWord),
        }
    }

    // What the run decodes, where it is a `decode` that prints a value.
    fn decoded(&self) -> Option<Decoded<'_>> {
        let [command, schema, of, input] = self.words.as_slice() else {
            return None;
        };
        if command.as_str() != "decode" || self.wanted.status != 0 {
            return None;
        }
        Some(Decoded {
            schema: schema.as_str(),
            of: of.as_str(),
            input: input.as_str(),
            bytes: self.setting.file(input.as_str())?,
        })
    }

    // Makes a run that is to do nothing the way back of another.
    fn turn(&mut self, case: &Case, run: &Decoded) -> Result<(), AllocError> {
        self.title.push_str(case.title.as_str())?;
        self.title.push_str(", back")?;
        let words = ["encode", run.schema, run.of, run.input];
        put_words(self.alloc, &mut self.words, &words)?;
        self.setting.put_files(&case.setting)?;
        let line = case.wanted.output.clone()?;
        self.setting.begin(run.input, line)?;
        self.wanted.output.extend_from_slice(run.bytes)?;
        Ok(())
    }

    /// The way back, where the run is a `decode` that prints a value: `encode` of its line writes the input's bytes.
    pub fn back(&self) -> Result<Option<Case>, AllocError> {
        let Some(run) = self.decoded() else {
            return Ok(None);
        };
        let mut back = Case::blank(self.alloc);
        back.turn(self, &run)?;
        Ok(Some(back))
    }

    /// The words that the program is started with.
    pub fn words(&self) -> &[String] {
        self.words.as_slice()
    }

    /// The outside that it finds.
    pub fn host(&self) -> Result<MemHost, AllocError> {
        self.setting.host()
    }

    /// The keeper that it finds, where it is a run of `keep`.
    pub fn keeper(&self) -> Result<MemKeeper, Memory> {
        self.setting.keeper()
    }

    // Tells where the run came to another end.
    fn put_differences(&self, text: &mut String, got: &Ending) -> Result<(), AllocError> {
        let alloc = self.alloc;
        let (wanted, status) = (self.wanted.status, got.status);
        if wanted != status {
            text.push_str(&format!(in alloc; "; status wanted {wanted}, got {status}")?)?;
        }
        put_difference(alloc, text, "Output", &self.wanted.output, &got.output)?;
        put_difference(alloc, text, "Errors", &self.wanted.errors, &got.errors)?;
        put_bytes_difference(alloc, text, "State", &self.wanted.state, &got.state)?;
        put_difference(alloc, text, "entries", &self.wanted.kept, &got.kept)?;
        put_traffic(alloc, text, &self.wanted.traffic, &got.traffic)
    }

    /// Tells where the run came to another end, with the place of the case.
    pub fn difference(&self, got: &Ending) -> Result<String, AllocError> {
        let mut text = self.title.clone()?;
        self.put_differences(&mut text, got)?;
        Ok(text)
    }
}

fn put_words(alloc: Global, to: &mut Vec<String>, words: &[&str]) -> Result<(), AllocError> {
    for word in words {
        to.push(String::from_str(alloc, *word)?)?;
    }
    Ok(())
}

// The first index at which two lists of bytes differ, or the shorter one ends.
fn first_difference(wanted: &[u8], got: &[u8]) -> usize {
    let mut at = 0usize;
    for (one, other) in wanted.iter().zip(got.iter()) {
        if *one != *other {
            return at;
        }
        at = at.saturating_add(1);
    }
    at
}

// The index at which the line with this index begins.
fn line_start(bytes: &[u8], at: usize) -> usize {
    let mut start = 0usize;
    for (i, byte) in bytes.iter().take(at).enumerate() {
        if *byte == b'\n' {
            start = i.saturating_add(1);
        }
    }
    start
}

// Some bytes from an index on.
fn bytes_from(alloc: Global, bytes: &[u8], start: usize) -> Result<Vec<u8>, AllocError> {
    let mut piece = Vec::new(alloc);
    for byte in bytes.iter().skip(start).take(SHOWN_BYTES) {
        piece.push(*byte)?;
    }
    Ok(piece)
}

// Some bytes from an index on, as they can be read: as a text where they are one, else as digits.
fn shown(alloc: Global, bytes: &[u8], start: usize) -> Result<String, AllocError> {
    let piece = bytes_from(alloc, bytes, start)?;
    match std::str::from_utf8(&piece) {
        Ok(text) => format!(in alloc; "{text:?}"),
        Err(_) => hex::encode(alloc, &piece),
    }
}

// Tells what was to be there and what is, from the line on in which they differ.
fn put_difference(
    alloc: Global,
    text: &mut String,
    what: &str,
    wanted: &[u8],
    got: &[u8],
) -> Result<(), AllocError> {
    if wanted == got {
        return Ok(());
    }
    let start = line_start(wanted, first_difference(wanted, got));
    let wanted = shown(alloc, wanted, start)?;
    let got = shown(alloc, got, start)?;
    text.push_str(&format!(in alloc; "; {what} from byte {start} wanted {wanted}, got {got}")?)
}

// Likewise of bytes that are no text, from the first that differs.
fn put_bytes_difference(
    alloc: Global,
    text: &mut String,
    what: &str,
    wanted: &[u8],
    got: &[u8],
) -> Result<(), AllocError> {
    if wanted == got {
        return Ok(());
    }
    let start = first_difference(wanted, got);
    let wanted = hex::encode(alloc, &bytes_from(alloc, wanted, start)?)?;
    let got = hex::encode(alloc, &bytes_from(alloc, got, start)?)?;
    text.push_str(&format!(in alloc; "; {what} from byte {start} wanted {wanted}, got {got}")?)
}

// The numbers, with one space after each.
fn numbers_text(alloc: Global, numbers: &[usize]) -> Result<String, AllocError> {
    let mut text = String::new(alloc);
    for number in numbers {
        text.push_str(&format!(in alloc; "{number} ")?)?;
    }
    Ok(text)
}

// Tells where the links, the addresses and the names of State are others.
fn put_traffic(
    alloc: Global,
    text: &mut String,
    wanted: &Traffic,
    got: &Traffic,
) -> Result<(), AllocError> {
    let starts = numbers_text(alloc, &wanted.starts)?;
    let got_starts = numbers_text(alloc, &got.starts)?;
    put_difference(alloc, text, "addresses", &wanted.addresses, &got.addresses)?;
    put_difference(
        alloc,
        text,
        "starts of links",
        starts.as_bytes(),
        got_starts.as_bytes(),
    )?;
    put_bytes_difference(alloc, text, "sent", &wanted.sent, &got.sent)?;
    put_difference(alloc, text, "names of State", &wanted.created, &got.created)
}
