//! The lock by which a program has the file of a desk.

use os::RangeLock;
use std::fs::{self, OpenOptions};
use std::io::{self, ErrorKind};
use std::os::fd::AsRawFd;
use std::thread;
use std::time::Duration;

// The bytes on which the engine's lock lies, as SQLite's own do.
const FIRST_BYTE: u64 = 1 << 30;

const BYTES: u64 = 512;

// How often a second a wait looks at the file, and for how many milliseconds it sleeps between two looks.
const LOOKS: u64 = 20;

const SLEEP: u64 = 50;

/// Whether another program has the file, by its lock, which is tried and given back with the file.
pub(crate) fn is_held(file: &fs::File) -> bool {
    !take_lock(file) && io::Error::from_raw_os_error(os::errno()).kind() == ErrorKind::WouldBlock
}

/// Takes the lock of a file, which is given back with the file, and gives whether it was to be had.
pub(crate) fn take_lock(file: &fs::File) -> bool {
    os::try_lock_range(file.as_raw_fd(), RangeLock::Exclusive, FIRST_BYTE, BYTES) == 0
}

// Whether another program has the file at a path; not so where there is none, or it can't be opened.
fn is_held_at(rt: &HostRuntime, path: &str) -> bool {
    if !fs::metadata(rt, path).is_ok_and(|found| found.is_file()) {
        return false;
    }
    match OpenOptions::new().read(true).write(true).open(rt, path) {
        Ok(file) => is_held(&file),
        Err(_) => false,
    }
}

/// Waits until no other program has the file at a path, for so many seconds at most. Nothing holds it then for the caller: a
/// program may take it before the caller does.
pub fn wait_for(rt: &HostRuntime, path: &str, seconds: u64) {
    for _ in 0..seconds.saturating_mul(LOOKS) {
        if !is_held_at(rt, path) {
            return;
        }
        thread::sleep(rt, Duration::from_millis(SLEEP));
    }
}
