//! Case files, line by line.
use crate::block::{Block, line_at};
use crate::case::Case;
use crate::fault::CaseFault;
use crate::setting::Setting;
use crate::words::cut_word;
use std::alloc::{AllocError, Global};
use std::fs;

/// A line that can't be used, counted from 1, and why.
#[derive(Clone, Copy)]
pub struct BadLine {
    pub line: u64,
    pub fault: CaseFault,
}

// A case file's name, and the folder that it lies in: empty where the name has none.
#[derive(Drop)]
struct Place {
    file: String,
    folder: String,
}

// A case so far.
struct Begun {
    alloc: Global,
    name: String,
    line: u64,
    setting: Setting,
    // The line that says that the case goes both ways. 0: there is none.
    both_ways: u64,
    // The line that says something of the next run alone. 0: there is none.
    unused: u64,
    runs: Vec<Case>,
}

// By hand, so that each exit of an owner has one call to prove.
impl Drop for Begun {
    fn drop(self) {
        let Begun {
            alloc: _,
            name: _,
            line: _,
            setting: _,
            both_ways: _,
            unused: _,
            runs: _,
        } = self;
    }
}

// What stands before the next line.
struct Reader {
    alloc: Global,
    place: Place,
    begun: Option<Begun>,
    block: Option<Block>,
    cases: Vec<Case>,
}

// By hand, so that each exit of an owner has one call to prove.
impl Drop for Reader {
    fn drop(self) {
        let Reader {
            alloc: _,
            place: _,
            begun: _,
            block: _,
            cases: _,
        } = self;
    }
}

// The part of a path up to its last `/`.
fn folder_of(path: &str) -> &str {
    match path.rsplit_once('/') {
        Some((folder, _)) => folder,
        None => "",
    }
}

// A path that goes from the folder of the case file.
fn path_from(alloc: Global, folder: &str, path: &str) -> Result<String, AllocError> {
    if folder.is_empty() || path.starts_with('/') {
        return String::from_str(alloc, path);
    }
    format!(in alloc; "{folder}/{path}")
}

// The bytes of a real file.
fn real_bytes(
    rt: &HostRuntime,
    alloc: Global,
    folder: &str,
    path: &str,
) -> Result<Vec<u8>, CaseFault> {
    let path = path_from(alloc, folder, path)?;
    match fs::read(rt, path.as_str()) {
        Ok(bytes) => Ok(bytes),
        Err(_) => Err(CaseFault::NoRead),
    }
}

// A case that ends has a run, and no line about the next run waits for one.
fn check_closed(line: u64, runs: usize, unused: u64) -> Result<(), BadLine> {
    if runs == 0 {
        let fault = CaseFault::EmptyCase;
        return Err(BadLine { line, fault });
    }
    if unused > 0 {
        return Err(BadLine {
            line: unused,
            fault: CaseFault::Unused,
        });
    }
    Ok(())
}

// The way back of each run that has one.
fn ways_back(alloc: Global, runs: &[Case]) -> Result<Vec<Case>, CaseFault> {
    let mut backs = Vec::new(alloc);
    for case in runs {
        if let Some(back) = case.back()? {
            backs.push(back)?;
        }
    }
    if backs.is_empty() {
        return Err(CaseFault::Unused);
    }
    Ok(backs)
}

fn put_all(cases: &mut Vec<Case>, runs: &mut Vec<Case>) -> Result<(), CaseFault> {
    cases.append(runs)?;
    Ok(())
}

// The title of a run: where it stands, and its case's name.
fn title_of(alloc: Global, file: &str, line: u64, name: &str) -> Result<String, AllocError> {
    format!(in alloc; "{file}:{line} {name}")
}

// Wants of the last run what is wanted of the one at an index before.
fn want_as(runs: &mut Vec<Case>, index: usize) -> Result<(), CaseFault> {
    let wanted = match runs.get(index) {
        Some(case) => case.wanted().copy()?,
        None => return Err(CaseFault::NoRun),
    };
    match runs.last_mut() {
        Some(case) => {
            case.want(wanted);
            Ok(())
        }
        None => Err(CaseFault::NoRun),
    }
}

impl Begun {
    // A case with no file, and no call that fails.
    fn new(alloc: Global, line: u64, name: &str) -> Result<Begun, CaseFault> {
        Ok(Begun {
            alloc,
            name: String::from_str(alloc, name)?,
            line,
            setting: Setting::new(alloc),
            both_ways: 0,
            unused: 0,
            runs: Vec::new(alloc),
        })
    }

    // Puts the runs back, where the case goes both ways.
    fn turn_back(&mut self) -> Result<(), CaseFault> {
        if self.both_ways > 0 {
            let mut backs = ways_back(self.alloc, &self.runs)?;
            put_all(&mut self.runs, &mut backs)?;
        }
        Ok(())
    }

    // Ends the case, and moves its runs to the others.
    fn close(&mut self, cases: &mut Vec<Case>) -> Result<(), BadLine> {
        check_closed(self.line, self.runs.len(), self.unused)?;
        at_line(self.both_ways, self.turn_back())?;
        at_line(self.line, put_all(cases, &mut self.runs))
    }

    // Puts a run, whose end the lines after it say.
    fn run(&mut self, file: &str, line: u64, words: &str) -> Result<(), CaseFault> {
        let title = title_of(self.alloc, file, line, self.name.as_str())?;
        let case = Case::new(title, words, self.setting.copy()?)?;
        self.runs.push(case)?;
        self.setting.calm();
        self.unused = 0;
        Ok(())
    }

    // Wants of the last run what is wanted of an earlier one.
    fn want_as(&mut self, index: usize) -> Result<(), CaseFault> {
        if self.runs.len() < 2 {
            return Err(CaseFault::NoRun);
        }
        want_as(&mut self.runs, index)
    }

    // Wants of the last run what is wanted of the one before.
    fn want_as_before(&mut self) -> Result<(), CaseFault> {
        let before = self.runs.len().saturating_sub(2);
        self.want_as(before)
    }

    // Takes a line that says how the last run is to end.
    fn want(&mut self, word: &str, rest: &str) -> Result<(), CaseFault> {
        match self.runs.last_mut() {
            Some(case) => case.take(word, rest),
            None => Err(CaseFault::NoRun),
        }
    }

    // Notes that a line says something of the next run alone.
    fn call(&mut self, line: u64, word: &str, rest: &str) -> Result<(), CaseFault> {
        self.setting.take_call(word, rest)?;
        self.unused = line;
        Ok(())
    }

    // Begins a file with a text, or with nothing.
    fn file(&mut self, rest: &str) -> Result<(), CaseFault> {
        let (name, text) = cut_word(rest);
        let bytes = Vec::from_slice(self.alloc, text.as_bytes())?;
        Ok(self.setting.begin(name, bytes)?)
    }

    // Begins a file with the bytes of a real one.
    fn load(&mut self, rt: &HostRuntime, folder: &str, rest: &str) -> Result<(), CaseFault> {
        let (name, path) = cut_word(rest);
        let bytes = real_bytes(rt, self.alloc, folder, path)?;
        Ok(self.setting.begin(name, bytes)?)
    }

    // Takes a line within the case.
    fn take(
        &mut self,
        rt: &HostRuntime,
        place: &Place,
        number: u64,
        word: &str,
        rest: &str,
    ) -> Result<(), CaseFault> {
        match word {
            "file" => self.file(rest),
            "load" => self.load(rt, place.folder.as_str(), rest),
            "text" | "line" | "hex" | "repeat" | "pad" | "chop" => {
                self.setting.take_content(word, rest)
            }
            "both-ways" => {
                self.both_ways = number;
                Ok(())
            }
            "profile" => Ok(self.setting.begin_profile(rest)?),
            "is-profile" => self.setting.check_profile(rest),
            "link"
            | "moments"
            | "reads-at-most"
            | "room"
            | "fails"
            | "entry"
            | "keeper-room"
            | "keeper-fails" => self.call(number, word, rest),
            "run" => self.run(place.file.as_str(), number, rest),
            "same" => self.want_as_before(),
            "same-as-first" => self.want_as(0),
            "status"
            | "output"
            | "output-text"
            | "output-hex"
            | "errors"
            | "front"
            | "address"
            | "sent"
            | "sent-more"
            | "state"
            | "state-hex"
            | "kept" => self.want(word, rest),
            _ => Err(CaseFault::NoWord),
        }
    }
}

impl Reader {
    // The cases that were read.
    fn into_cases(self) -> Vec<Case> {
        let Reader {
            alloc: _,
            place: _,
            begun: _,
            block: _,
            cases,
        } = self;
        cases
    }

    fn new(alloc: Global, file: &str) -> Result<Reader, CaseFault> {
        let place = Place {
            file: String::from_str(alloc, file)?,
            folder: String::from_str(alloc, folder_of(file))?,
        };
        Ok(Reader {
            alloc,
            place,
            begun: None,
            block: None,
            cases: Vec::new(alloc),
        })
    }

    // Ends the case that was begun last.
    fn close(&mut self) -> Result<(), BadLine> {
        if let Some(begun) = self.begun.as_mut() {
            begun.close(&mut self.cases)?;
        }
        self.begun = None;
        Ok(())
    }

    fn begin(&mut self, number: u64, name: &str) -> Result<(), BadLine> {
        self.close()?;
        self.begun = Some(at_line(number, Begun::new(self.alloc, number, name))?);
        Ok(())
    }

    // Takes a line that stands in no block, or in one for one of its numbers.
    fn take(&mut self, rt: &HostRuntime, number: u64, line: &str) -> Result<(), BadLine> {
        if line.is_empty() || line.starts_with('#') {
            return Ok(());
        }
        let (word, rest) = cut_word(line);
        if word == "case" {
            return self.begin(number, rest);
        }
        let taken = match self.begun.as_mut() {
            Some(begun) => begun.take(rt, &self.place, number, word, rest),
            None => Err(CaseFault::NoCase),
        };
        at_line(number, taken)
    }

    // Takes the lines of a block for one of its numbers.
    fn take_turn(&mut self, rt: &HostRuntime, block: &Block, turn: u32) -> Result<(), BadLine> {
        let mut number = block.line;
        for line in block.lines.iter() {
            number = number.saturating_add(1);
            let line = at_line(number, line_at(self.alloc, line.as_str(), turn))?;
            self.take(rt, number, line.as_str())?;
        }
        Ok(())
    }

    // Takes the lines of a block for each of its numbers.
    fn take_block(&mut self, rt: &HostRuntime, block: Block) -> Result<(), BadLine> {
        for turn in block.first..block.end {
            self.take_turn(rt, &block, turn)?;
        }
        Ok(())
    }

    // Begins a block.
    fn begin_block(&mut self, number: u64, range: &str) -> Result<(), BadLine> {
        self.block = Some(at_line(number, Block::new(self.alloc, number, range))?);
        Ok(())
    }

    // Takes the next line of the file.
    fn take_line(&mut self, rt: &HostRuntime, number: u64, line: &str) -> Result<(), BadLine> {
        let (word, rest) = cut_word(line);
        match self.block.take() {
            Some(block) if word == "end" => self.take_block(rt, block),
            Some(mut block) => {
                let put = block.put(self.alloc, line);
                self.block = Some(block);
                at_line(number, put)
            }
            None if word == "each" => self.begin_block(number, rest),
            None if word == "end" => at_line(number, Err(CaseFault::NoBlock)),
            None => self.take(rt, number, line),
        }
    }

    // Ends all that was begun.
    fn end(&mut self) -> Result<(), BadLine> {
        if let Some(block) = self.block.as_ref() {
            return at_line(block.line, Err(CaseFault::NoEnd));
        }
        self.close()
    }
}

// The fault of a line, with its number.
fn at_line<T: Drop>(line: u64, taken: Result<T, CaseFault>) -> Result<T, BadLine> {
    match taken {
        Ok(it) => Ok(it),
        Err(fault) => Err(BadLine { line, fault }),
    }
}

// Takes all lines.
fn read_lines(rt: &HostRuntime, reader: &mut Reader, text: &str) -> Result<(), BadLine> {
    let mut number = 0u64;
    for line in text.lines() {
        number = number.saturating_add(1);
        reader.take_line(rt, number, line)?;
    }
    reader.end()
}

/// The runs of a case file, or its first line that can't be used. `name` is its path, from whose folder `load` goes.
pub fn read_cases(rt: &HostRuntime, name: &str, text: &str) -> Result<Vec<Case>, BadLine> {
    let mut reader = at_line(0, Reader::new(rt.alloc(), name))?;
    read_lines(rt, &mut reader, text)?;
    Ok(reader.into_cases())
}
