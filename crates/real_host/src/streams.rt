//! The descriptors of the standard streams.
use std::fs;
use std::os::fd::{AsRawFd, IntoRawFd};

const NULL_DEVICE: &str = "/dev/null";

const LAST_STREAM: i32 = 2;

/// Opens /dev/null under each number from 0 to 2 that is closed, so that no file and no link takes it. It is opened to be read alone: as before
/// a write there fails.
pub fn hold_streams(rt: &HostRuntime) {
    for _ in 0..=LAST_STREAM {
        match fs::open(rt, NULL_DEVICE) {
            // The system gives the least number that is free. It stays open until the process ends.
            Ok(file) if file.as_raw_fd() <= LAST_STREAM => {
                let _stays_open = file.into_raw_fd();
            }
            _ => return,
        }
    }
}
