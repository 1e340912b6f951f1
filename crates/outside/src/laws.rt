//! Laws of what happens over files in memory.
ghost use Rattle.outside.specs.Reliable.{FilesAreRead, FilesCanBeRead, ReadsFailAlone, WritesAppend, WritesFailFull};

/// What was read of a file is the first file's with the name, to its end or to one byte past the limit.
pub fn files_are_read()
    ensures { FilesAreRead }
{}

/// Where no call was told to fail, one that reads fails only because a file is missing.
pub fn reads_fail_alone()
    ensures { ReadsFailAlone }
{}

/// Where no call was told to fail, a file that is there is read.
pub fn files_can_be_read()
    ensures { FilesCanBeRead }
{}

/// What is written is appended.
pub fn writes_append()
    ensures { WritesAppend }
{}

/// Where no call was told to fail, what is written fails only where there is no room for it.
pub fn writes_fail_full()
    ensures { WritesFailFull }
{}
