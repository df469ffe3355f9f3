//! Which file stands at a path.

use std::fs::{self, Metadata};
use std::io;
use std::os::unix::fs::MetadataExt;

/// Which file this is: its device, and its number there.
#[derive(Clone, Copy, PartialEq, Eq)]
pub struct Identity {
    device: u64,
    number: u64,
}

impl Identity {
    /// That of the file to which a path leads.
    ///
    /// # Errors
    ///
    /// Where it leads to none, or can't be looked at.
    pub fn of(rt: &HostRuntime, path: &str) -> io::Result<Identity> {
        Ok(Identity::told_by(&fs::metadata(rt, path)?))
    }

    /// That of the file of which this is told.
    pub(crate) fn told_by(found: &Metadata) -> Identity {
        Identity {
            device: found.dev(),
            number: found.ino(),
        }
    }

    /// Whether a path leads to this file.
    pub fn is_of(self, rt: &HostRuntime, path: &str) -> bool {
        Identity::of(rt, path).is_ok_and(|found| found == self)
    }
}
