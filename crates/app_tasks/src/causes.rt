//! Why a file is not opened, made or copied, as looking at it tells.

use crate::beside::{has_directory, has_log, has_long_name, is_beside_log, named, stands};
use crate::copies::is_beside_file;
use crate::locks::is_held;
use std::fs::{self, OpenOptions};
use std::io::{self, ErrorKind};
use std::os::unix::fs::MetadataExt;
use thiserror::Error;

/// Why a file is not opened, made or copied; its text is said of the file.
#[derive(Clone, Copy, Debug, Error)]
pub enum FileCause {
    /// There is none.
    #[error("there is no such file")]
    Missing,
    /// There is no directory for it.
    #[error("its directory is missing")]
    NoDirectory,
    /// Links that lead round, or a name that is too long.
    #[error("its path leads to no file")]
    NoPath,
    /// A directory or a device stands there.
    #[error("it is no regular file")]
    NotAFile,
    /// It has no bytes.
    #[error("it is empty")]
    Empty,
    /// It has bytes where a new one is wanted.
    #[error("there is a file already, and it stays as it is")]
    Taken,
    /// There is none, but the log of one.
    #[error("the log of another desk stands there, the file -wal beside it")]
    LogAlone,
    /// There is none, but SQLite's journal of one.
    #[error("a rollback journal of another file stands there, the file -journal beside it")]
    JournalAlone,
    /// It is the journal, the log or the part of another file.
    #[error("a file that is there has its journal, its log or its part under this name")]
    Beside,
    /// Its bytes are not those of a desk.
    #[error("it holds something else than a desk")]
    NoDesk,
    /// Another program has locked it.
    #[error("another program has it; one that serves it is asked by --socket or --port, and --wait SECONDS tries again")]
    Held,
    /// Its mode or its user is not for this one.
    #[error("this user may not read and write it")]
    Denied,
    /// Its file system takes no changes.
    #[error("its file system is read-only")]
    ReadOnly,
    /// It has more than one name.
    #[error("it has a second name, by a hard link")]
    Linked,
    /// SQLite left a transaction that was cut off.
    #[error("SQLite's rollback journal stands beside it: open it by sqlite3 first")]
    Journal,
    /// A link, a directory, a pipe or a socket stands in the place of its log.
    #[error("its log, the file -wal beside it, is no regular file")]
    LogNotAFile,
    /// Its log has more than one name.
    #[error("its log, the file -wal beside it, has a second name, by a hard link")]
    LogLinked,
    /// Its log is not for this user.
    #[error("this user may not read and write its log, the file -wal beside it")]
    LogDenied,
    /// The name of its part, or of the log of that, is taken.
    #[error("another program copies there, or the file -part or -part-wal beside it is to be removed")]
    PartTaken,
    /// Its file system gives a file no second name.
    #[error("its file system has no hard links, by which a copy gets its name")]
    NoLinks,
    /// Neither it nor its log can be made where it stands.
    #[error("no file can be made in its directory: this user may not, or that is read-only or full")]
    NoRoom,
    /// No room is left in its name for the endings of what stands beside it.
    #[error("its name is too long: a copy's has 242 bytes at most")]
    LongName,
    /// The same of the file of a desk.
    #[error("its name is too long: a desk's has 247 bytes at most")]
    LongDeskName,
    /// Its disk has no room.
    #[error("its disk is full")]
    Full,
    /// Its disk failed in what it was asked.
    #[error("its disk failed, or is full")]
    Failed,
}

impl FileCause {
    /// The cause of an error of the system at a file.
    pub(crate) fn of(error: io::Error) -> FileCause {
        match error.kind() {
            ErrorKind::NotFound => FileCause::NoDirectory,
            ErrorKind::NotADirectory => FileCause::NoDirectory,
            ErrorKind::AlreadyExists => FileCause::Taken,
            ErrorKind::PermissionDenied => FileCause::Denied,
            ErrorKind::ReadOnlyFilesystem => FileCause::ReadOnly,
            ErrorKind::StorageFull | ErrorKind::QuotaExceeded => FileCause::Full,
            _ => FileCause::Failed,
        }
    }

    /// Why the file at a path was not reached: no program could open it, or make it, or its log.
    pub fn unreached(rt: &HostRuntime, path: &str) -> FileCause {
        match fs::metadata(rt, path) {
            Ok(found) if found.is_file() => of_file(rt, path),
            Ok(_) => FileCause::NotAFile,
            Err(error) => match FileCause::of(error) {
                FileCause::NoDirectory
                    if path.is_empty() || fs::symlink_metadata(rt, path).is_ok() =>
                    FileCause::NoPath,
                FileCause::NoDirectory if has_directory(rt, path) => of_missing(rt, path),
                FileCause::Failed => FileCause::NoPath,
                cause => cause,
            },
        }
    }

    /// Why no desk is made in the file at a path, at which something stands.
    pub fn taken(rt: &HostRuntime, path: &str) -> FileCause {
        match fs::metadata(rt, path) {
            Ok(found) if !found.is_file() => FileCause::NotAFile,
            Ok(found) if found.len() > 0 => FileCause::Taken,
            _ if is_beside_file(rt, path) => FileCause::Beside,
            _ if has_log(rt, path) => FileCause::LogAlone,
            _ => FileCause::Taken,
        }
    }

    /// Why no copy gets a path, at which something stands, or beside which a log or a journal does.
    pub fn not_copied(rt: &HostRuntime, path: &str) -> FileCause {
        if stands(rt, path) {
            FileCause::Taken
        } else if is_beside_log(rt, path) {
            FileCause::LogAlone
        } else if has_journal(rt, path) {
            FileCause::JournalAlone
        } else {
            FileCause::Taken
        }
    }

    /// Why a new file could not be made, by an error of the system.
    pub(crate) fn unmade(error: io::Error) -> FileCause {
        match FileCause::of(error) {
            FileCause::Denied => FileCause::NoRoom,
            cause => cause,
        }
    }

    /// Why the part of a new file could not be made, by an error of the system.
    pub(crate) fn of_part(error: io::Error) -> FileCause {
        match FileCause::unmade(error) {
            FileCause::Taken => FileCause::PartTaken,
            cause => cause,
        }
    }

    /// Why a new file could not be linked to its path, by an error of the system.
    pub(crate) fn of_link(error: io::Error) -> FileCause {
        match FileCause::of(error) {
            FileCause::Denied => FileCause::NoLinks,
            cause => cause,
        }
    }

    /// Why the file at a path could not be read, by an error of the system.
    pub(crate) fn unread(error: io::Error) -> FileCause {
        match FileCause::of(error) {
            FileCause::NoDirectory => FileCause::Missing,
            cause => cause,
        }
    }

    /// Why the file at a path holds no desk.
    pub fn deskless(rt: &HostRuntime, path: &str) -> FileCause {
        match fs::metadata(rt, path) {
            Ok(found) if !found.is_file() => FileCause::NotAFile,
            Ok(found) if found.len() == 0 => FileCause::Empty,
            Ok(_) => FileCause::NoDesk,
            Err(_) if has_directory(rt, path) => FileCause::Missing,
            Err(_) => FileCause::NoDirectory,
        }
    }

    /// Why no copy takes the place of the file at a path, which holds no desk.
    pub fn not_replaced(rt: &HostRuntime, path: &str) -> FileCause {
        if is_beside_file(rt, path) {
            FileCause::Beside
        } else if is_beside_log(rt, path)
            && !fs::metadata(rt, path).is_ok_and(|found| found.len() > 0)
        {
            FileCause::LogAlone
        } else {
            FileCause::deskless(rt, path)
        }
    }
}

// Why a regular file was not reached.
fn of_file(rt: &HostRuntime, path: &str) -> FileCause {
    match OpenOptions::new().read(true).write(true).open(rt, path) {
        Ok(file) => {
            if is_linked(&file) {
                FileCause::Linked
            } else if is_held(&file) {
                FileCause::Held
            } else if has_journal(rt, path) {
                of_journal(&file)
            } else {
                of_log(rt, path)
            }
        }
        Err(error) => FileCause::of(error),
    }
}

// Whether a file has another name.
fn is_linked(file: &fs::File) -> bool {
    file.metadata().is_ok_and(|found| found.nlink() != 1)
}

// Why no file was made at a path where there is none.
fn of_missing(rt: &HostRuntime, path: &str) -> FileCause {
    if has_long_name(path) {
        return FileCause::LongDeskName;
    }
    if has_journal(rt, path) {
        return FileCause::JournalAlone;
    }
    match of_log(rt, path) {
        FileCause::Failed => FileCause::NoRoom,
        cause => cause,
    }
}

// Why a file was not reached beside which a journal stands: one without bytes has none of its own.
fn of_journal(file: &fs::File) -> FileCause {
    if file.metadata().is_ok_and(|found| found.len() == 0) {
        FileCause::JournalAlone
    } else {
        FileCause::Journal
    }
}

/// Whether a journal of SQLite's stands beside the file at a path, or where that would stand.
pub(crate) fn has_journal(rt: &HostRuntime, path: &str) -> bool {
    match named(rt, path, "-journal") {
        Ok(journal) => fs::symlink_metadata(rt, journal.as_str()).is_ok_and(|found| !found.is_file()
            || found.len() > 0),
        Err(_) => false,
    }
}

// Why a file was not reached, or not made, with which nothing is the matter itself, and beside which no journal stands.
fn of_log(rt: &HostRuntime, path: &str) -> FileCause {
    let Ok(log) = named(rt, path, "-wal") else {
        return FileCause::Failed;
    };
    match fs::symlink_metadata(rt, log.as_str()) {
        Ok(found) if !found.is_file() => FileCause::LogNotAFile,
        Ok(found) if found.nlink() != 1 => FileCause::LogLinked,
        _ => of_lone_log(rt, log.as_str()),
    }
}

// The same where its log, if there is one, is a regular file with this path alone.
fn of_lone_log(rt: &HostRuntime, log: &str) -> FileCause {
    match OpenOptions::new().read(true).write(true).open(rt, log) {
        Ok(_) => FileCause::Failed,
        Err(error) => match error.kind() {
            ErrorKind::NotFound => FileCause::NoRoom,
            ErrorKind::PermissionDenied => FileCause::LogDenied,
            _ => FileCause::of(error),
        },
    }
}
