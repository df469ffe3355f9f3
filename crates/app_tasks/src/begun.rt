//! What a making or a restoring begins at a path, and what is taken back of it where it fails.

use crate::beside::{has_full_log, has_long_name, has_odd_log, missing_log, stands};
use crate::causes::has_journal;
use crate::copies::make_new;
use crate::identity::Identity;
use crate::locks::take_lock;
use crate::parts::{Part, lose_part};
use std::fs::{self, OpenOptions};
use std::io::{self, ErrorKind};
use std::os::unix::fs::{MetadataExt, fchown};

// How many bytes a file may have that has no more than the first page, which the engine writes as it opens an empty one. A desk has
// more once it is made and closed.
const FIRST_PAGE: u64 = 4096;

/// How far a making came that failed.
#[derive(Clone, Copy)]
pub enum Unfinished {
    /// The engine has no file: it could not open them, or another program has them.
    Unreached,
    /// The engine has the files, and holds them against every other program; no desk was made in them.
    Unmade,
    /// It has them, and the desk that was made, but could not close them.
    Unclosed,
}

/// What a making begins at a path.
#[derive(Drop)]
pub struct Begun {
    // The file that it makes the desk in.
    file: Identity,
    // Whether it made that, too; an empty one stood there otherwise.
    is_new: bool,
    // The path of the log that is to be made; `None` where one stood there.
    log: Option<String>,
}

impl Begun {
    /// Makes a file at a path where there is none, which its user alone may read and write. What stands there stays as it is.
    ///
    /// # Errors
    ///
    /// Those of making it, and of looking at it; `AlreadyExists` where another desk's log stands beside it, `Unsupported` where something
    /// else does that would be taken for its own, or its name is too long for a desk's.
    pub fn at(rt: &HostRuntime, path: &str) -> io::Result<Begun> {
        may_begin(rt, path)?;
        let is_new = match make_new(rt, path) {
            Ok(_) => true,
            Err(error) if error.kind() == ErrorKind::AlreadyExists => false,
            Err(error) => return Err(error),
        };
        let found = fs::metadata(rt, path)?;
        Ok(Begun {
            file: Identity::told_by(&found),
            is_new,
            log: missing_log(rt, path),
        })
    }

    /// Removes the log and the file that this making made, where no other program has them, and takes its bytes from a file that
    /// stood there. What it did not write stays. Where something can't be removed it stays, too.
    pub fn take_back(&self, rt: &HostRuntime, path: &str, how: Unfinished) {
        match how {
            Unfinished::Unreached => self.take_back_held(rt, path),
            Unfinished::Unmade => self.remove(rt, path, false),
            Unfinished::Unclosed => self.remove(rt, path, true),
        }
    }

    // The same where the engine does not hold the files: this does, while it removes them.
    fn take_back_held(&self, rt: &HostRuntime, path: &str) {
        if !self.is_at(rt, path) {
            return;
        }
        match open(rt, path) {
            Ok(file) if take_lock(&file) => self.remove(rt, path, false),
            _ => {}
        }
    }

    // Removes the log, and then the file, so that no other program can have made itself a log at that path; whoever calls it has the
    // lock of the file. Where no desk was made, one with more than a page is another program's, which came first.
    fn remove(&self, rt: &HostRuntime, path: &str, is_made: bool) {
        let is_own = if is_made {
            self.log.is_some()
        } else {
            is_begun(rt, path)
        };
        if !is_own || !self.is_at(rt, path) || !self.remove_log(rt) {
            return;
        }
        if self.is_new {
            let _ = fs::remove_file(rt, path);
        } else if let Ok(file) = open(rt, path) {
            let _ = file.set_len(0);
        }
    }

    // Removes the log that was made, and gives whether there is none then.
    fn remove_log(&self, rt: &HostRuntime) -> bool {
        match &self.log {
            Some(log) => match fs::remove_file(rt, log.as_str()) {
                Ok(()) => true,
                Err(error) => error.kind() == ErrorKind::NotFound,
            },
            None => true,
        }
    }

    // Whether the file stands at the path: itself, where it was made there.
    fn is_at(&self, rt: &HostRuntime, path: &str) -> bool {
        let found = if self.is_new {
            fs::symlink_metadata(rt, path)
        } else {
            fs::metadata(rt, path)
        };
        found.is_ok_and(|found| found.is_file() && Identity::told_by(&found) == self.file)
    }
}

/// A file without bytes, which this program has, and which a copy is to take the place of.
#[derive(Drop)]
pub struct EmptyFile {
    begun: Begun,
    // It has the lock.
    _file: fs::File,
}

impl EmptyFile {
    /// That at a path, which is made where there is none: its user alone may read and write it, and its owner is that of the directory,
    /// where this user may give it that, from the moment on at which it has the path.
    ///
    /// # Errors
    ///
    /// As of `Begun::at`; `WouldBlock` where another program has it, put something into it, or took its place.
    pub fn hold(rt: &HostRuntime, path: &str) -> io::Result<EmptyFile> {
        may_begin(rt, path)?;
        // One that was stopped before it lost its first name has that, too.
        lose_part(rt, path);
        let begun = begin_owned(rt, path)?;
        match lock_empty(rt, path, &begun) {
            Ok(file) => Ok(EmptyFile { begun, _file: file }),
            Err(error) => {
                begun.take_back(rt, path, Unfinished::Unreached);
                Err(error)
            }
        }
    }

    /// Removes the file, where it was made and nothing has taken its place.
    pub fn give_up(&self, rt: &HostRuntime, path: &str) {
        self.begun.take_back(rt, path, Unfinished::Unmade);
    }
}

// That no other's log or journal stands beside a path, which would be taken for those of a desk that gets it, and that these have names.
fn may_begin(rt: &HostRuntime, path: &str) -> io::Result<()> {
    if has_long_name(path) || has_journal(rt, path) || has_odd_log(rt, path) {
        return Err(ErrorKind::Unsupported.into());
    }
    if has_full_log(rt, path)? {
        return Err(ErrorKind::AlreadyExists.into());
    }
    Ok(())
}

// Makes a file at a path where there is none; where the system allows that, it gets the path once it has the owner of its directory, so
// that a stop leaves none that is not for that owner.
fn begin_owned(rt: &HostRuntime, path: &str) -> io::Result<Begun> {
    if !stands(rt, path)
        && let Ok(file) = make_owned(rt, path)
    {
        return Ok(Begun {
            file,
            is_new: true,
            log: missing_log(rt, path),
        });
    }
    Begun::at(rt, path)
}

// Makes a file with the owner of its directory at a path where nothing stands.
fn make_owned(rt: &HostRuntime, path: &str) -> io::Result<Identity> {
    let part = Part::of(rt, path)?;
    match link_owned(rt, &part, path) {
        Ok(file) => Ok(file),
        Err(error) => {
            part.remove(rt);
            Err(error)
        }
    }
}

// Gives the part of a file the owner of its directory, and then its path.
fn link_owned(rt: &HostRuntime, part: &Part, path: &str) -> io::Result<Identity> {
    give_to_owner_of_directory(rt, part.file(), part.path())?;
    part.link(rt, path)?;
    Ok(Identity::told_by(&part.file().metadata()?))
}

// Locks the file without bytes that was begun at a path, where it still stands there; a new one gets the owner of its directory.
fn lock_empty(rt: &HostRuntime, path: &str, begun: &Begun) -> io::Result<fs::File> {
    let file = open(rt, path)?;
    let has_lock = take_lock(&file);
    let found = file.metadata()?;
    if !has_lock
        || found.len() > 0
        || Identity::told_by(&found) != begun.file
        || !begun.is_at(rt, path)
    {
        return Err(ErrorKind::WouldBlock.into());
    }
    if begun.is_new {
        give_to_owner_of_directory(rt, &file, path)?;
    }
    Ok(file)
}

// Gives the file at a path the owner and the group of its directory, where this user may.
fn give_to_owner_of_directory(rt: &HostRuntime, file: &fs::File, path: &str) -> io::Result<()> {
    let mut directory = fs::canonicalize(rt, path)?;
    directory.pop();
    let found = fs::metadata(rt, directory.as_str())?;
    match fchown(file, Some(found.uid()), Some(found.gid())) {
        Err(error) if error.kind() != ErrorKind::PermissionDenied => Err(error),
        _ => Ok(()),
    }
}

// The regular file at a path, to be read and written.
fn open(rt: &HostRuntime, path: &str) -> io::Result<fs::File> {
    OpenOptions::new().read(true).write(true).open(rt, path)
}

// Whether the file at a path has no more than the first page.
fn is_begun(rt: &HostRuntime, path: &str) -> bool {
    fs::metadata(rt, path).is_ok_and(|found| found.len() <= FIRST_PAGE)
}

/// What a making that failed left at a path.
#[derive(Clone, Copy)]
pub enum Remains {
    /// Nothing, or what another program made.
    Nothing,
    /// An empty file.
    Empty,
    /// The beginning of a desk, or the desk.
    Begun,
}

impl Remains {
    /// What stands at the path: of a desk that was made, or of one that was not.
    pub fn at(rt: &HostRuntime, path: &str, is_made: bool) -> Remains {
        match fs::metadata(rt, path) {
            Ok(found) if found.is_file() && found.len() == 0 => Remains::Empty,
            Ok(_) if is_made || is_begun(rt, path) => Remains::Begun,
            _ => Remains::Nothing,
        }
    }
}
