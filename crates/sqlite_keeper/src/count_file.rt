//! The number of entries in a file beside the database, by which a log that lost its end is found.
use std::fs::{File, Metadata, OpenOptions, Permissions};
use std::io::ErrorKind;
use std::os::unix::fs::{FileExt, MetadataExt, OpenOptionsExt, PermissionsExt, fchown};
use std::{fs, io};

/// The permissions of a new file: its owner reads and writes it.
pub const OWNER_ALONE: u32 = 0o600;

/// A file that has the number of entries while a database is open, in four bytes, the lowest first. After a kill it stays, and says how many there were.
#[derive(Drop)]
pub struct CountFile {
    file: File,
}

impl CountFile {
    /// The file beside this database, where links lead to; it is made where there is none.
    pub fn beside(rt: &HostRuntime, database: &str) -> io::Result<CountFile> {
        let real = fs::canonicalize(rt, database)?;
        let name = format!(in rt.alloc(); "{}-count", real.as_str())?;
        if !may_be_opened(rt, &name) {
            return Err(io::Error::from(ErrorKind::Unsupported));
        }
        let mut how = OpenOptions::new();
        how.read(true).write(true).create(true).mode(OWNER_ALONE);
        let file = how.open(rt, &name)?;
        share(&file, &fs::metadata(rt, &real)?);
        Ok(CountFile { file })
    }

    /// The number that it has; 0 where it has none.
    pub fn get(&self) -> io::Result<u32> {
        let mut bytes = [0; 4];
        if self.file.read_at(&mut bytes, 0)? < 4 {
            return Ok(0);
        }
        Ok(u32::from_le_bytes(bytes))
    }

    pub fn set(&self, count: u32) -> io::Result<()> {
        if self.file.write_at(&count.to_le_bytes(), 0)? < 4 {
            return Err(io::Error::from(ErrorKind::WriteZero));
        }
        Ok(())
    }

    /// Leaves no number in it.
    pub fn clear(&self) -> io::Result<()> {
        self.file.set_len(0)
    }
}

// Lets a file be used by whom the database may be used by, as sqlite does with the log, where this process may say so.
fn share(file: &File, database: &Metadata) {
    let _grouped = fchown(file, None, Some(database.gid()));
    let _shared = file.set_permissions(Permissions::from_mode(database.mode() & 0o777));
}

// Whether a file stands under the name, or nothing: no link is followed, and no pipe waited for.
fn may_be_opened(rt: &HostRuntime, name: &str) -> bool {
    match fs::symlink_metadata(rt, name) {
        Ok(found) => found.is_file(),
        Err(fault) => fault.kind() == ErrorKind::NotFound,
    }
}
