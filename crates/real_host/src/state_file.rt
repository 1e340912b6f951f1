//! The file that State is written to. It stands beside the name that it will have, and takes that name once it is whole.
use std::fs::{File, OpenOptions, Permissions, TryLockError};
use std::io::{ErrorKind, Write};
use std::os::unix::fs::{MetadataExt, OpenOptionsExt};
use std::path::Path;
use std::{fs, io, process};

/// How many names a new file is tried under.
const NAMES: u32 = 100;

/// The permissions of a file that takes the place of none: its owner reads and writes it.
const OWNER_ALONE: u32 = 0o600;

/// A file that is written, with the name that it has and the one that it will have. What can't be replaced, as a pipe or a device, is written in
/// place, without these.
pub struct StateFile {
    file: File,
    names: Option<Names>,
}

// By hand, so that each exit of an owner has one call to prove.
impl Drop for StateFile {
    fn drop(self) {
        let StateFile { file: _, names: _ } = self;
    }
}

#[derive(Drop)]
struct Names {
    now: String,
    then: String,
}

// What a file may take the place of: a name, and the permissions of the file there, if there is one.
#[derive(Drop)]
struct Place {
    name: String,
    permissions: Option<Permissions>,
}

impl StateFile {
    /// Makes an empty file for this name. What stands under the name stays as it is, where it is a file or nothing.
    pub fn create(rt: &HostRuntime, name: &str) -> io::Result<StateFile> {
        match place_of(rt, name)? {
            Some(place) => StateFile::beside(rt, place),
            None => Ok(StateFile {
                file: writing().create(true).truncate(true).open(rt, name)?,
                names: None,
            }),
        }
    }

    fn beside(rt: &HostRuntime, place: Place) -> io::Result<StateFile> {
        let Place { name, permissions } = place;
        let (file, now) = new_file(rt, &name)?;
        if let Some(permissions) = permissions
            && let Err(fault) = file.set_permissions(permissions)
        {
            let _removed = fs::remove_file(rt, &now);
            return Err(fault);
        }
        Ok(StateFile {
            file,
            names: Some(Names { now, then: name }),
        })
    }

    /// Gives the file its name, once what was written is on the disk, and then has the name kept there.
    pub fn keep(self, rt: &HostRuntime) -> io::Result<()> {
        let StateFile { file, names } = self;
        let Some(Names { now, then }) = names else {
            return Ok(());
        };
        match file.sync_all().and_then(|()| fs::rename(rt, &now, &then)) {
            Ok(()) => sync_folder(rt, &then),
            Err(fault) => {
                let _removed = fs::remove_file(rt, &now);
                Err(fault)
            }
        }
    }

    /// Removes the file, where it has not taken its name.
    pub fn discard(self, rt: &HostRuntime) {
        let StateFile { file: _, names } = self;
        if let Some(names) = names {
            let _removed = fs::remove_file(rt, &names.now);
        }
    }
}

impl Write for StateFile {
    fn write(&mut self, buf: &[u8]) -> io::Result<usize> {
        self.file.write(buf)
    }

    fn flush(&mut self) -> io::Result<()> {
        Ok(())
    }
}

/// Holds a file of this name that was opened, until it is closed: it fails where another run holds it, or has given the name to a new one meanwhile.
/// What is no file, and a file that the system locks for none, is held by nobody.
pub fn hold(rt: &HostRuntime, name: &str, file: &File) -> io::Result<()> {
    let held = file.metadata()?;
    if !held.is_file() {
        return Ok(());
    }
    if let Err(TryLockError::WouldBlock) = file.try_lock() {
        return Err(io::Error::from(ErrorKind::ResourceBusy));
    }
    let named = fs::metadata(rt, name)?;
    if held.ino() == named.ino() && held.dev() == named.dev() {
        Ok(())
    } else {
        Err(io::Error::from(ErrorKind::ResourceBusy))
    }
}

// How a file is opened that is written, and perhaps made.
fn writing() -> OpenOptions {
    let mut how = OpenOptions::new();
    how.write(true).mode(OWNER_ALONE);
    how
}

// Makes a file beside this one, under a name that nothing has. The process's number keeps two runs from writing to one file; what a killed run of the
// same number left is passed over.
fn new_file(rt: &HostRuntime, beside: &str) -> io::Result<(File, String)> {
    let mut how = writing();
    how.create_new(true);
    for number in 0..NAMES {
        let name = format!(in rt.alloc(); "tlbox-{}-{number}.new", process::id(rt.process()))?;
        let path = Path::new(beside).with_file_name(rt.alloc(), name.as_str())?;
        let path = path.into_string();
        match how.open(rt, &path) {
            Ok(file) => return Ok((file, path)),
            Err(fault) if fault.kind() == ErrorKind::AlreadyExists => {}
            Err(fault) => return Err(fault),
        }
    }
    Err(io::Error::from(ErrorKind::AlreadyExists))
}

// Puts on the disk which names the folder of this file has. A folder that can't be read, or that the system doesn't sync, is left to the system.
fn sync_folder(rt: &HostRuntime, name: &str) -> io::Result<()> {
    let folder = match Path::new(name).parent() {
        Some(folder) if folder.to_string_lossy().is_empty() => Path::new("."),
        Some(folder) => folder,
        None => return Ok(()),
    };
    let Ok(folder) = fs::open(rt, folder) else {
        return Ok(());
    };
    match folder.sync_all() {
        Err(fault) if fault.kind() == ErrorKind::InvalidInput => Ok(()),
        synced => synced,
    }
}

// What a file for this name takes the place of: a file, found through links, or nothing; None where something else stands there.
fn place_of(rt: &HostRuntime, name: &str) -> io::Result<Option<Place>> {
    match fs::canonicalize(rt, name) {
        Ok(path) => {
            let found = fs::metadata(rt, &path)?;
            if !found.is_file() {
                return Ok(None);
            }
            Ok(Some(Place {
                name: path.into_string(),
                permissions: Some(found.permissions()),
            }))
        }
        // A file that may be there isn't written in place: it would be lost where that fails.
        Err(fault) if fault.kind() != ErrorKind::NotFound => Err(fault),
        Err(_) if is_nothing(rt, name) => Ok(Some(Place {
            name: String::from_str(rt.alloc(), name)?,
            permissions: None,
        })),
        // A link to nothing, or a pipe under another name.
        Err(_) => Ok(None),
    }
}

// Whether nothing stands under the name, and no link to nothing either.
fn is_nothing(rt: &HostRuntime, name: &str) -> bool {
    match fs::symlink_metadata(rt, name) {
        Ok(_) => false,
        Err(fault) => fault.kind() == ErrorKind::NotFound,
    }
}
