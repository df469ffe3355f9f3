//! Copies of the file of a desk that is closed: new files, and such as take the place of another.
ghost use Rattle.std.specs.Prelude.{IsTrue};
ghost use Rattle.std.specs.Fs.{asks_create_new};

use crate::beside::{is_beside_log, name_of, stands, take_log_away};
use crate::causes::{FileCause, has_journal};
use crate::identity::Identity;
use crate::parts::Part;
use std::fs::{self, OpenOptions};
use std::io;
use std::os::unix::fs::OpenOptionsExt;
use thiserror::Error;

/// Why a file is not copied.
#[derive(Clone, Copy, Debug, Error)]
pub enum CopyFault {
    /// There is something at the new path, which stays as it is.
    #[error("there is a file already")]
    Taken,
    /// The new path is that of a journal, a log or a part of the file of this name without the ending.
    #[error("a file that is there has its journal, its log or its part under this name")]
    Beside,
    /// The copy is the file whose place it is to take.
    #[error("the copy is the file itself")]
    Same,
    /// The file could not be read, for this cause; no new one is left.
    #[error("copy")]
    Unread(FileCause),
    /// The new file could not be made or written, for this cause; none is left.
    #[error("copy")]
    Failed(FileCause),
    /// The new file could not be written, for this cause, and then not be removed: a part of it is left.
    #[error("copy")]
    Left(FileCause),
}

/// The copy that is made of a file, which the caller holds against every other program.
#[derive(Clone, Copy)]
pub enum Copying<'a> {
    /// A new file, which its user alone may read and write.
    New {
        /// The path of the file.
        from: &'a str,
        /// The path of the new one.
        to: &'a str,
    },
    /// A file in the place of another, with the owner and the mode of that. The caller holds that, too, and its log holds nothing.
    Replacing {
        /// The path of the file.
        from: &'a str,
        /// The path of the one whose place it takes.
        to: &'a str,
    },
    /// A new file that a desk which is served gave, and that stands under the name of its part until here. The caller holds it.
    Received {
        /// The path of the part.
        part: &'a str,
        /// The path of the new file.
        to: &'a str,
    },
}

impl Copying<'_> {
    /// The word that says that it is made.
    pub fn done(self) -> &'static str {
        match self {
            Copying::New { .. } | Copying::Received { .. } => "copied",
            Copying::Replacing { .. } => "restored",
        }
    }

    /// Makes it, whole and synced with its directory, by a part under a name of its own, so that a stop leaves at its path what
    /// stood there, or the whole copy.
    ///
    /// # Errors
    ///
    /// `Taken` where something stands at the path of a new file, `Unread` where the file could not be opened, `Failed` where the
    /// copy could not be made, written or synced: its part is then removed, or `Left` where it can't be.
    pub fn make(self, rt: &HostRuntime) -> Result<(), CopyFault> {
        match self {
            Copying::New { from, to } => copy_file(rt, from, to),
            Copying::Replacing { from, to } => replace_file(rt, from, to),
            Copying::Received { part, to } => keep_received(rt, part, to),
        }
    }
}

// How a file is opened that is to be new, for its user alone: where something stands at its path the system refuses that.
fn as_new() -> OpenOptions
    ensures { IsTrue (asks_create_new result) }
{
    let mut options = OpenOptions::new();
    options.mode(0o600);
    options.write(true).create_new(true);
    options
}

/// Makes a file at a path where there is none, which its user alone may read and write.
///
/// # Errors
///
/// Those of making it, and `AlreadyExists` where something stands there.
pub(crate) fn make_new(rt: &HostRuntime, path: &str) -> io::Result<fs::File> {
    as_new().open(rt, path)
}

/// Whether anything stands at a path, if only a link that leads nowhere, or the log or the journal of another file beside it.
pub fn is_taken(rt: &HostRuntime, path: &str) -> bool {
    stands(rt, path) || has_neighbour(rt, path)
}

/// Whether the log or the journal of another file, which holds something, stands beside a path: either would be taken for that of a file
/// which gets the path.
pub(crate) fn has_neighbour(rt: &HostRuntime, path: &str) -> bool {
    is_beside_log(rt, path) || has_journal(rt, path)
}

// How the files are named that stand beside a desk: SQLite's journal, its log, and what becomes a copy.
const BESIDE: [&str; 3] = ["-journal", "-wal", "-part"];

/// Whether a path is the name of what stands beside a file that is there: of its journal, its log or its part.
pub fn is_beside_file(rt: &HostRuntime, path: &str) -> bool {
    for ending in BESIDE {
        if path
            .strip_suffix(ending)
            .is_some_and(|file| stands(rt, file))
        {
            return true;
        }
    }
    false
}

/// Whether both paths lead to one file.
pub fn are_same(rt: &HostRuntime, one: &str, other: &str) -> bool {
    Identity::of(rt, one).is_ok_and(|one| one.is_of(rt, other))
}

// The file at a path, to be read.
fn open(rt: &HostRuntime, from: &str) -> Result<fs::File, CopyFault> {
    match fs::open(rt, from) {
        Ok(file) => Ok(file),
        Err(error) => Err(CopyFault::Unread(FileCause::unread(error))),
    }
}

// The most bytes of the name of a new copy: of what stands beside it and its part the longest names, `-part-journal` behind it, have 255
// bytes then, which file systems give them.
const LONGEST_NAME: usize = 242;

/// The part of the new copy that gets a path.
///
/// # Errors
///
/// `Failed` where the path's name is too long, or it can't be made.
pub(crate) fn begin_new(rt: &HostRuntime, to: &str) -> Result<Part, CopyFault> {
    if name_of(to).len() > LONGEST_NAME {
        return Err(CopyFault::Failed(FileCause::LongName));
    }
    begin(rt, to)
}

// The part of the copy that gets a path; `Failed` where it can't be made.
fn begin(rt: &HostRuntime, to: &str) -> Result<Part, CopyFault> {
    match Part::of(rt, to) {
        Ok(part) => Ok(part),
        Err(error) => Err(CopyFault::Failed(FileCause::of_part(error))),
    }
}

// Gives up the part of a copy that failed so, and gives the fault.
fn given_up(rt: &HostRuntime, part: &Part, cause: FileCause) -> CopyFault {
    if part.remove(rt) {
        CopyFault::Failed(cause)
    } else {
        CopyFault::Left(cause)
    }
}

// Copies a file into a new one.
fn copy_file(rt: &HostRuntime, from: &str, to: &str) -> Result<(), CopyFault> {
    let mut file = open(rt, from)?;
    let mut part = begin_new(rt, to)?;
    if let Err(error) = part.fill(&mut file) {
        return Err(given_up(rt, &part, FileCause::of(error)));
    }
    link_part(rt, &part, to)
}

// Gives the part of a copy its path.
fn link_part(rt: &HostRuntime, part: &Part, to: &str) -> Result<(), CopyFault> {
    match part.link(rt, to) {
        Ok(()) => Ok(()),
        Err(error) => match given_up(rt, part, FileCause::of_link(error)) {
            CopyFault::Failed(FileCause::Taken) => Err(CopyFault::Taken),
            fault => Err(fault),
        },
    }
}

// Gives what a desk that is served gave its path, without its log, which is in it.
fn keep_received(rt: &HostRuntime, path: &str, to: &str) -> Result<(), CopyFault> {
    let part = match Part::at(rt, path) {
        Ok(part) => part,
        Err(error) => return Err(CopyFault::Failed(FileCause::of(error))),
    };
    match settle(rt, &part) {
        Ok(()) => link_part(rt, &part, to),
        Err(error) => Err(given_up(rt, &part, FileCause::of(error))),
    }
}

// Takes the log of a part away, and syncs the part.
fn settle(rt: &HostRuntime, part: &Part) -> io::Result<()> {
    take_log_away(rt, part.path())?;
    part.file().sync_all()
}

// Copies a file into the place of another.
fn replace_file(rt: &HostRuntime, from: &str, to: &str) -> Result<(), CopyFault> {
    let mut file = open(rt, from)?;
    let to = match fs::canonicalize(rt, to) {
        Ok(to) => to,
        Err(error) => return Err(CopyFault::Failed(FileCause::of(error))),
    };
    let mut part = begin(rt, to.as_str())?;
    match put_in_place(rt, &mut file, &mut part, to.as_str()) {
        Ok(()) => Ok(()),
        Err(error) => Err(given_up(rt, &part, FileCause::of(error))),
    }
}

// Fills the part with a file, and puts it into the place of another, whose log is taken away before.
fn put_in_place(
    rt: &HostRuntime,
    file: &mut fs::File,
    part: &mut Part,
    to: &str,
) -> io::Result<()> {
    part.take_access(&fs::metadata(rt, to)?)?;
    part.fill(file)?;
    take_log_away(rt, to)?;
    part.replace(rt, to)
}
