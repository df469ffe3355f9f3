//! The file whose place a copy is to take, held against every other program.
ghost use Rattle.sqlite.specs.WalFiles.{image_at};
ghost use Rattle.app_files.specs.Endings.{EndsHolding, IsShut};

use crate::files::{DeskFile, close, empty_fault, holds_bytes, open};
use crate::left::Left;
use app_tasks::{EmptyFile, is_beside_file};
use desk_store::{OpenFault, Store};
use sqlite::{FileFrom, Start};
use sqlite_disk::Disk;

/// A file that is held until this is dropped.
pub enum HeldFile<D: Disk> {
    /// The desk that it had, closed: its log is in it.
    Desk(Left<D>),
    /// One without bytes.
    Empty(EmptyFile),
}

impl<D: Disk> HeldFile<D> {
    /// Removes the file at its path, where it was made to be held and nothing has taken its place.
    pub fn give_up(&self, rt: &HostRuntime, path: &str) {
        if let HeldFile::Empty(file) = self {
            file.give_up(rt, path);
        }
    }
}

// It is written out, as that of `Left` is.
impl<D: Disk + Drop> Drop for HeldFile<D> {
    fn drop(self) {
        match self {
            HeldFile::Desk(_left) => {}
            HeldFile::Empty(_file) => {}
        }
    }
}

/// Holds the file at a path. A desk that it has is opened and closed, and nothing else is done with it; a missing file is made, without
/// bytes.
///
/// # Errors
///
/// `NotADesk` where the file holds something else than a desk, where it is missing or empty and a log stands there that holds
/// something, or where it has the name of what stands beside another file; `NewerFormat` where it holds a desk of a later format;
/// `Storage` where the file or its store failed, or another program has it; with what is left of the files.
pub fn hold<S: Start>(
    rt: &HostRuntime,
    path: &str,
    start: S,
) -> Result<HeldFile<FileFrom<S>>, (OpenFault, Left<FileFrom<S>>)>
    ensures { EndsHolding (image_at S.Start) result }
{
    if is_beside_file(rt, path) {
        return Err((OpenFault::NotADesk, Left::Untouched));
    }
    match holds_bytes(rt, path) {
        Ok(true) => hold_desk(rt, path, start),
        Ok(false) => hold_empty(rt, path),
        Err(fault) => Err((fault, Left::Untouched)),
    }
}

// Holds the desk in the file at a path.
fn hold_desk<S: Start>(
    rt: &HostRuntime,
    path: &str,
    start: S,
) -> Result<HeldFile<FileFrom<S>>, (OpenFault, Left<FileFrom<S>>)>
    ensures { EndsHolding (image_at S.Start) result }
{
    match open(rt, path, start) {
        Ok(store) => shut(store),
        Err(unopened) => Err(unopened),
    }
}

// Closes the files of a store, and holds them.
fn shut<S: Start>(
    store: Store<DeskFile<S>>,
) -> Result<HeldFile<FileFrom<S>>, (OpenFault, Left<FileFrom<S>>)>
    ensures { IsShut store result }
{
    let (closed, left) = close(store);
    match closed {
        Ok(()) => Ok(HeldFile::Desk(left)),
        Err(fault) => Err((fault, left)),
    }
}

// Holds the file at a path that has no bytes, or is made.
fn hold_empty<S: Start>(
    rt: &HostRuntime,
    path: &str,
) -> Result<HeldFile<FileFrom<S>>, (OpenFault, Left<FileFrom<S>>)>
    ensures { EndsHolding (image_at S.Start) result }
{
    match EmptyFile::hold(rt, path) {
        Ok(file) => Ok(HeldFile::Empty(file)),
        Err(error) => Err((empty_fault(error.kind()), Left::Untouched)),
    }
}
