//! What a run finds.
use crate::ending::put_line;
use crate::fault::CaseFault;
use crate::kept::CaseKeeper;
use crate::words::{Moment, bytes_of, cut_word, moments_of, number_of, numbered_call, numbers_of};
use box_server::MemKeeper;
use outside::MemHost;
use std::alloc::{AllocError, Global};
use tl_base::{Bytes, HostCall, Memory};
use wire_profile::PROFILE_TEXT;

// How many bytes each out takes, where no line says it.
const ROOM: u32 = 16_777_216;

/// A file that a run finds.
#[derive(Drop)]
struct CaseFile {
    name: String,
    bytes: Vec<u8>,
}

/// The files, links and moments that a run finds, and how its calls go.
pub struct Setting {
    alloc: Global,
    files: Vec<CaseFile>,
    // What each link to come gives.
    links: Vec<Vec<u8>>,
    moments: Vec<Moment>,
    // What was begun last is a link.
    in_link: bool,
    fails: Vec<(HostCall, u64)>,
    // How many bytes each read gives at most; the last holds for all further reads. None: as many as are asked for.
    most: Vec<u32>,
    room: u32,
    keeper: CaseKeeper,
}

// By hand, so that each exit of an owner has one call to prove.
impl Drop for Setting {
    fn drop(self) {
        let Setting {
            alloc: _,
            files: _,
            links: _,
            moments: _,
            in_link: _,
            fails: _,
            most: _,
            room: _,
            keeper: _,
        } = self;
    }
}

impl CaseFile {
    fn copy(&self) -> Result<CaseFile, AllocError> {
        Ok(CaseFile {
            name: self.name.clone()?,
            bytes: self.bytes.clone()?,
        })
    }
}

fn put_copies(to: &mut Vec<CaseFile>, files: &[CaseFile]) -> Result<(), AllocError> {
    for file in files {
        to.push(file.copy()?)?;
    }
    Ok(())
}

fn put_links(to: &mut Vec<Vec<u8>>, links: &[Vec<u8>]) -> Result<(), AllocError> {
    for link in links {
        to.push(link.clone()?)?;
    }
    Ok(())
}

// Appends a text so many times: a count, a space, and the text.
fn put_often(bytes: &mut Vec<u8>, rest: &str) -> Result<(), CaseFault> {
    let (count, text) = cut_word(rest);
    for _ in 0..number_of(count)? {
        bytes.extend_from_slice(text.as_bytes())?;
    }
    Ok(())
}

// Appends one byte until there are so many: the size, a space, and the byte's digits.
fn pad(alloc: Global, bytes: &mut Vec<u8>, rest: &str) -> Result<(), CaseFault> {
    let (size, digits) = cut_word(rest);
    let size = number_of(size)? as usize;
    if bytes.len() > size {
        return Err(CaseFault::LongFile);
    }
    match bytes_of(alloc, digits)?.as_slice() {
        [byte] => Ok(bytes.resize(size, *byte)?),
        _ => Err(CaseFault::NoDigits),
    }
}

// Takes so many bytes away from the end.
fn chop(bytes: &mut Vec<u8>, rest: &str) -> Result<(), CaseFault> {
    let count = number_of(rest)? as usize;
    if count > bytes.len() {
        return Err(CaseFault::ShortFile);
    }
    bytes.truncate(bytes.len() - count);
    Ok(())
}

// Goes on with a file or a link as a line says.
fn put_content(
    alloc: Global,
    bytes: &mut Vec<u8>,
    word: &str,
    rest: &str,
) -> Result<(), CaseFault> {
    match word {
        "text" => Ok(bytes.extend_from_slice(rest.as_bytes())?),
        "line" => Ok(put_line(bytes, rest)?),
        "repeat" => put_often(bytes, rest),
        "pad" => pad(alloc, bytes, rest),
        "chop" => chop(bytes, rest),
        "hex" => {
            let more = bytes_of(alloc, rest)?;
            Ok(bytes.extend_from_slice(&more)?)
        }
        _ => Err(CaseFault::NoWord),
    }
}

// The index of the file with a name.
fn index_of(files: &[CaseFile], name: &str) -> Option<usize> {
    for (index, file) in files.iter().enumerate() {
        if file.name.as_str() == name {
            return Some(index);
        }
    }
    None
}

impl Setting {
    /// No file, link or moment; no call fails or is cut.
    pub fn new(alloc: Global) -> Setting {
        Setting {
            alloc,
            files: Vec::new(alloc),
            links: Vec::new(alloc),
            moments: Vec::new(alloc),
            in_link: false,
            fails: Vec::new(alloc),
            most: Vec::new(alloc),
            room: ROOM,
            keeper: CaseKeeper::new(alloc),
        }
    }

    /// The same files, links, moments and calls, for one run.
    pub fn copy(&self) -> Result<Setting, AllocError> {
        let mut copy = Setting::new(self.alloc);
        copy.put_all(self)?;
        Ok(copy)
    }

    // Takes all that another setting has, over none.
    fn put_all(&mut self, other: &Setting) -> Result<(), AllocError> {
        self.put_files(other)?;
        put_links(&mut self.links, &other.links)?;
        self.moments.extend_from_slice(&other.moments)?;
        self.in_link = other.in_link;
        self.fails.extend_from_slice(&other.fails)?;
        self.most.extend_from_slice(&other.most)?;
        self.room = other.room;
        self.keeper.put_all(&other.keeper)
    }

    /// Takes the files that another setting has, beside its own.
    pub fn put_files(&mut self, other: &Setting) -> Result<(), AllocError> {
        put_copies(&mut self.files, &other.files)
    }

    pub fn alloc(&self) -> Global {
        self.alloc
    }

    /// Lets the calls of the next run go well, over the same files and no link.
    pub fn calm(&mut self) {
        self.links.clear();
        self.moments.clear();
        self.fails.clear();
        self.most.clear();
        self.room = ROOM;
        self.keeper.clear();
    }

    /// Begins a file, in place of one with the name.
    pub fn begin(&mut self, name: &str, bytes: Vec<u8>) -> Result<(), AllocError> {
        self.files.retain(|file| file.name.as_str() != name);
        let name = String::from_str(self.alloc, name)?;
        self.files.push(CaseFile { name, bytes })?;
        self.in_link = false;
        Ok(())
    }

    /// Begins a file with the text that has the protocol's declarations.
    pub fn begin_profile(&mut self, name: &str) -> Result<(), AllocError> {
        let bytes = Vec::from_slice(self.alloc, PROFILE_TEXT.as_bytes())?;
        self.begin(name, bytes)
    }

    // Begins a link to come, with these bytes.
    fn begin_link(&mut self, digits: &str) -> Result<(), CaseFault> {
        let bytes = bytes_of(self.alloc, digits)?;
        self.links.push(bytes)?;
        self.in_link = true;
        Ok(())
    }

    /// The bytes of the file with this name.
    pub fn file(&self, name: &str) -> Option<&[u8]> {
        let index = index_of(&self.files, name)?;
        let file = self.files.get(index)?;
        Some(file.bytes.as_slice())
    }

    /// Refuses a file that isn't the text that has the protocol's declarations.
    pub fn check_profile(&self, name: &str) -> Result<(), CaseFault> {
        let Some(bytes) = self.file(name) else {
            return Err(CaseFault::NoName);
        };
        if bytes == PROFILE_TEXT.as_bytes() {
            Ok(())
        } else {
            Err(CaseFault::NoProfile)
        }
    }

    /// Takes a line that says how the file or link that was begun last goes on.
    pub fn take_content(&mut self, word: &str, rest: &str) -> Result<(), CaseFault> {
        let alloc = self.alloc;
        if self.in_link {
            return match self.links.last_mut() {
                Some(bytes) => put_content(alloc, bytes, word, rest),
                None => Err(CaseFault::NoFile),
            };
        }
        match self.files.last_mut() {
            Some(file) => put_content(alloc, &mut file.bytes, word, rest),
            None => Err(CaseFault::NoFile),
        }
    }

    /// Takes a line that says what the next run finds beside files, and how its calls go.
    pub fn take_call(&mut self, word: &str, rest: &str) -> Result<(), CaseFault> {
        match word {
            "link" => self.begin_link(rest),
            "moments" => {
                self.moments = moments_of(self.alloc, rest)?;
                Ok(())
            }
            "fails" => Ok(self.fails.push(numbered_call(rest)?)?),
            "room" => {
                self.room = number_of(rest)?;
                Ok(())
            }
            "reads-at-most" => {
                self.most = numbers_of(self.alloc, rest)?;
                Ok(())
            }
            _ => self.keeper.take(word, rest),
        }
    }

    /// The keeper that a run of `keep` finds.
    pub fn keeper(&self) -> Result<MemKeeper, Memory> {
        self.keeper.keeper()
    }

    // The bytes of the longest file.
    fn longest(&self) -> usize {
        let mut most = 0usize;
        for file in self.files.iter() {
            most = most.max(file.bytes.len());
        }
        most
    }

    // The bytes of all links, and one more for the end of each.
    fn linked(&self) -> usize {
        let mut all = self.links.len();
        for link in self.links.iter() {
            all = all.saturating_add(link.len());
        }
        all
    }

    fn host_files(&self, host: &mut MemHost) -> Result<(), AllocError> {
        for file in self.files.iter() {
            host.file(file.name.as_str(), &file.bytes)?;
        }
        Ok(())
    }

    fn host_links(&self, host: &mut MemHost) -> Result<(), AllocError> {
        for link in self.links.iter() {
            host.link(link)?;
        }
        Ok(())
    }

    fn host_moments(&self, host: &mut MemHost) -> Result<(), AllocError> {
        for moment in self.moments.iter() {
            host.moment(moment.seconds)?;
        }
        Ok(())
    }

    fn host_fails(&self, host: &mut MemHost) -> Result<(), AllocError> {
        for (call, number) in self.fails.iter() {
            host.fail(*call, *number)?;
        }
        Ok(())
    }

    // Says of each read of a file or link up to its end how many bytes it gives at most.
    fn host_cuts(&self, host: &mut MemHost) -> Result<(), AllocError> {
        let Some(last) = self.most.last() else {
            return Ok(());
        };
        for most in self.most.iter() {
            host.cut(*most)?;
        }
        for _ in 0..self.longest().max(self.linked()) {
            host.cut(*last)?;
        }
        Ok(())
    }

    fn put_into(&self, host: &mut MemHost) -> Result<(), AllocError> {
        self.host_files(host)?;
        self.host_links(host)?;
        self.host_moments(host)?;
        self.host_fails(host)?;
        self.host_cuts(host)
    }

    /// The outside of a run.
    pub fn host(&self) -> Result<MemHost, AllocError> {
        let mut host = MemHost::new(self.alloc, self.room)?;
        self.put_into(&mut host)?;
        Ok(host)
    }
}
