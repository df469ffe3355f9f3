//! A new file under a name of its own, beside the path that it gets once it is whole.

use crate::beside::{named, sync_directory};
use crate::copies::{are_same, has_neighbour, make_new};
use crate::identity::Identity;
use crate::locks::{is_held, take_lock};
use std::fs::{self, Metadata, OpenOptions, Permissions};
use std::io::{self, ErrorKind};
use std::os::unix::fs::{MetadataExt, PermissionsExt, fchown};

/// A new file under a name of its own.
#[derive(Drop)]
pub(crate) struct Part {
    path: String,
    file: fs::File,
}

impl Part {
    /// Makes the file that is to get a path: it is named `-part` behind that, and its user alone may read and write it. One that a
    /// stop left there is removed.
    ///
    /// # Errors
    ///
    /// Those of making it, and `AlreadyExists` where another program has it, or it can't be removed.
    pub(crate) fn of(rt: &HostRuntime, path: &str) -> io::Result<Part> {
        let path = named(rt, path, "-part")?;
        remove_left(rt, path.as_str());
        let file = make_new(rt, path.as_str())?;
        if is_held(&file) || !is_at(rt, &file, path.as_str()) {
            return Err(ErrorKind::AlreadyExists.into());
        }
        Ok(Part { path, file })
    }

    /// The file of this path, which another holds meanwhile.
    ///
    /// # Errors
    ///
    /// Those of opening it, and `NotFound` where no regular file stands at the path itself.
    pub(crate) fn at(rt: &HostRuntime, path: &str) -> io::Result<Part> {
        let file = OpenOptions::new().read(true).write(true).open(rt, path)?;
        if !is_at(rt, &file, path) {
            return Err(ErrorKind::NotFound.into());
        }
        let path = String::from_str(rt.alloc(), path)?;
        Ok(Part { path, file })
    }

    /// Its own path.
    pub(crate) fn path(&self) -> &str {
        self.path.as_str()
    }

    /// The file, to be written.
    pub(crate) fn file(&self) -> &fs::File {
        &self.file
    }

    /// Gives its lock back, and leaves it under its own name.
    pub(crate) fn leave(self) -> String {
        let Part { path, file } = self;
        drop(file);
        path
    }

    /// Copies a file into it, and syncs it.
    ///
    /// # Errors
    ///
    /// Those of reading the one, and of writing and syncing the other.
    pub(crate) fn fill(&mut self, from: &mut fs::File) -> io::Result<()> {
        io::copy(from, &mut self.file)?;
        self.file.sync_all()
    }

    /// Gives it an owner, a group and a mode.
    ///
    /// # Errors
    ///
    /// Where this user may not.
    pub(crate) fn take_access(&self, found: &Metadata) -> io::Result<()> {
        fchown(&self.file, Some(found.uid()), Some(found.gid()))?;
        self.file
            .set_permissions(Permissions::from_mode(found.mode() & 0o777))
    }

    /// Gives it a path at which nothing stands, and syncs the directory. Where this fails nothing of it stands there. Its lock is held
    /// until it is dropped, so no program that keeps to that makes it a log before.
    ///
    /// # Errors
    ///
    /// Those of the system, and `AlreadyExists` where something stands there, or the log or the journal of another file beside it.
    pub(crate) fn link(&self, rt: &HostRuntime, to: &str) -> io::Result<()> {
        fs::hard_link(rt, self.path.as_str(), to)?;
        match self.settle(rt, to) {
            Ok(()) => Ok(()),
            Err(error) => {
                let _ = fs::remove_file(rt, to);
                Err(error)
            }
        }
    }

    // Takes its own name away, now that it has another, where no log and no journal stand beside that.
    fn settle(&self, rt: &HostRuntime, to: &str) -> io::Result<()> {
        if has_neighbour(rt, to) {
            return Err(ErrorKind::AlreadyExists.into());
        }
        self.lose_name(rt, to)
    }

    // Takes its own name away, and syncs the directory.
    fn lose_name(&self, rt: &HostRuntime, to: &str) -> io::Result<()> {
        fs::remove_file(rt, self.path.as_str())?;
        sync_directory(rt, to)
    }

    /// Gives it the path of another file, which is gone then, and syncs the directory.
    ///
    /// # Errors
    ///
    /// Those of the system. Where only the sync failed it has the path.
    pub(crate) fn replace(&self, rt: &HostRuntime, to: &str) -> io::Result<()> {
        fs::rename(rt, self.path.as_str(), to)?;
        sync_directory(rt, to)
    }

    /// Removes it, where it has still its own name, and gives whether nothing is left of it there.
    pub(crate) fn remove(&self, rt: &HostRuntime) -> bool {
        match fs::remove_file(rt, self.path.as_str()) {
            Ok(()) => true,
            Err(error) => error.kind() == ErrorKind::NotFound,
        }
    }
}

/// Takes the first name of the file at a path away, `-part` behind the path, where that is a name of this file: a copy that was stopped
/// between its link and the removal of its part has both. While a program has the file it stays.
pub fn lose_part(rt: &HostRuntime, path: &str) {
    if let Ok(part) = named(rt, path, "-part")
        && are_same(rt, path, part.as_str())
    {
        remove_left(rt, part.as_str());
    }
}

/// Removes the part at a path that a stop left there, after its log: no program has its lock. Whoever removes one has that, so that no
/// other is removed.
pub(crate) fn remove_left(rt: &HostRuntime, path: &str) {
    if let Ok(file) = OpenOptions::new().read(true).write(true).open(rt, path)
        && take_lock(&file)
        && is_at(rt, &file, path)
    {
        remove_with_log(rt, path);
    }
}

/// Removes the log of a part, and then the part; whoever calls it has the lock of that.
pub(crate) fn remove_with_log(rt: &HostRuntime, path: &str) {
    if let Ok(log) = format!(in rt.alloc(); "{path}-wal") {
        let _ = fs::remove_file(rt, log.as_str());
    }
    let _ = fs::remove_file(rt, path);
}

// Whether a regular file stands at a path itself.
fn is_at(rt: &HostRuntime, file: &fs::File, path: &str) -> bool {
    match (file.metadata(), fs::symlink_metadata(rt, path)) {
        (Ok(file), Ok(found)) => {
            found.is_file() && Identity::told_by(&file) == Identity::told_by(&found)
        }
        _ => false,
    }
}
