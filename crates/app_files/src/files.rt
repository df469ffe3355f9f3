//! The desk of the file at a path, and its log beside it.
ghost use Rattle.std.specs.Prelude.{◌≡◌, IfErr, IfOk};
ghost use Rattle.sqlite.specs.WalFiles.{image_at};
ghost use Rattle.desk_files.specs.Opening.{OpensFiles, OpensKnown};
ghost use Rattle.desk_store.specs.Making.{IsOfStorage};
ghost use Rattle.app_files.specs.Endings.{EndsMaking, IsDisplaced, IsLeft, IsUnopened, IsUntouched};

use crate::left::Left;
use app_tasks::{
    Begun, Identity, Unfinished, is_beside_file, lose_part, missing_log, remove_empty_log,
};
use desk_files::{close_from, make_from, open_from};
use desk_model::{Clock, Policy};
use desk_store::{OpenFault, Store};
use sqlite::{FileFrom, FileStore, Start};
use sqlite_disk::Disk;
use std::fs;
use std::io::ErrorKind;
use store_api::StorageFault;

/// What the engine keeps of a file, by what it takes for granted of the bytes that it finds there.
pub(crate) type DeskFile<S> = FileStore<FileFrom<S>>;

/// Whether there is a file with bytes at the path.
///
/// # Errors
///
/// `Storage` where the path can't be looked at.
pub(crate) fn holds_bytes(rt: &HostRuntime, path: &str) -> Result<bool, OpenFault>
    ensures { IfErr result IsOfStorage }
{
    match fs::metadata(rt, path) {
        Ok(found) => Ok(found.len() > 0),
        Err(error) => match error.kind() {
            ErrorKind::NotFound => Ok(false),
            kind => Err(path_fault(kind)),
        },
    }
}

// Makes a file at the path, where there is none, which its user alone may read and write. An empty one stays as it is. No file is made that
// would take another's log for its own, or be taken for what stands beside another.
fn make_empty(rt: &HostRuntime, path: &str) -> Result<Begun, OpenFault>
    ensures { IfErr result IsUntouched }
{
    if is_beside_file(rt, path) {
        return Err(OpenFault::NotADesk);
    }
    match holds_bytes(rt, path) {
        Ok(false) => {}
        Ok(true) => return Err(OpenFault::NotADesk),
        Err(fault) => return Err(fault),
    }
    match Begun::at(rt, path) {
        Ok(begun) => Ok(begun),
        Err(error) => Err(empty_fault(error.kind())),
    }
}

/// The fault of a path that can't be looked at, or at which no file can be made.
pub(crate) fn path_fault(kind: ErrorKind) -> OpenFault
    ensures { IsOfStorage result }
{
    match kind {
        ErrorKind::OutOfMemory => OpenFault::Storage(StorageFault::Memory),
        _ => OpenFault::Storage(StorageFault::Device),
    }
}

/// The fault of a file without bytes that is not made or can't be held: where a log stands alone, which is another desk's, that there is no
/// desk.
pub(crate) fn empty_fault(kind: ErrorKind) -> OpenFault
    ensures { IsUntouched result }
{
    match kind {
        ErrorKind::AlreadyExists => OpenFault::NotADesk,
        kind => path_fault(kind),
    }
}

// Removes the log at this path, where it was made for files that are refused now, and holds no commit. The engine still has them.
fn remove_log(rt: &HostRuntime, log: Option<String>, refused: OpenFault) {
    if let (Some(log), OpenFault::NotADesk | OpenFault::NewerFormat) = (log, refused) {
        remove_empty_log(rt, log.as_str());
    }
}

/// Makes a desk with a policy, at moment 0, in a new file, closes it, and gives what is left of the files. The file is made so
/// that its user alone may read and write it; one that stands empty keeps its mode. No clause ties the bytes that `S` stands
/// for to the path. Where it fails, the names of the files that it made are removed while the engine still has these.
///
/// # Errors
///
/// `NotADesk` where there is a file with bytes at the path, `Storage` where the file or its store failed.
pub fn make_desk<S: Start>(
    rt: &HostRuntime,
    path: &str,
    start: S,
    policy: Policy,
) -> (Result<(), OpenFault>, Left<FileFrom<S>>)
    ensures { EndsMaking (image_at S.Start) policy result.0 result.1 }
{
    match make_empty(rt, path) {
        Ok(begun) => {
            let (made, left) = make_in(rt, path, start, policy);
            take_back(rt, path, &begun, &left);
            (made, left)
        }
        Err(fault) => (Err(fault), Left::Untouched),
    }
}

// Makes a desk in the file at a path, and closes it.
fn make_in<S: Start>(
    rt: &HostRuntime,
    path: &str,
    start: S,
    policy: Policy,
) -> (Result<(), OpenFault>, Left<FileFrom<S>>)
    ensures { EndsMaking (image_at S.Start) policy result.0 result.1 }
{
    match make_from(rt, path, start, policy, Clock::at(0)) {
        Ok(store) => close(store),
        Err(unmade) => (Err(unmade.fault), Left::Unopened(unmade)),
    }
}

// Takes back what a making began that left its files so; nothing where they are closed.
fn take_back<D: Disk>(rt: &HostRuntime, path: &str, begun: &Begun, left: &Left<D>) {
    match left {
        Left::Closed(_) => {}
        Left::Unclosed(_) => begun.take_back(rt, path, Unfinished::Unclosed),
        Left::Unopened(_) if left.is_unreached() => {
            begun.take_back(rt, path, Unfinished::Unreached)
        }
        Left::Unopened(_) => begun.take_back(rt, path, Unfinished::Unmade),
        Left::Untouched => {}
    }
}

/// Opens the desk that a file holds, whose second name goes that a stop left a backup. Where it is refused, no log is left that was not
/// there before.
///
/// # Errors
///
/// `NotADesk` where the file is missing or empty, or holds no desk, `NewerFormat` where it holds one of a later format,
/// `Storage` where the file or its store failed, or where a copy took the place of the file meanwhile; with what is left of the files.
pub(crate) fn open<S: Start>(
    rt: &HostRuntime,
    path: &str,
    start: S,
) -> Result<Store<DeskFile<S>>, (OpenFault, Left<FileFrom<S>>)>
    ensures opened { IfOk result (OpensFiles (image_at S.Start)) }
    ensures shows { IfOk result (OpensKnown (image_at S.Start)) }
    ensures unopened { IfErr result (λ e. IsUnopened (image_at S.Start) e.0 e.1) }
{
    match holds_bytes(rt, path) {
        Ok(true) => {}
        Ok(false) => return Err((OpenFault::NotADesk, Left::Untouched)),
        Err(fault) => return Err((fault, Left::Untouched)),
    }
    lose_part(rt, path);
    let found = match Identity::of(rt, path) {
        Ok(found) => found,
        Err(error) => return Err((path_fault(error.kind()), Left::Untouched)),
    };
    let log = missing_log(rt, path);
    match open_from(rt, path, start) {
        Ok(store) => in_place(rt, path, found, store),
        Err(unopened) => {
            remove_log(rt, log, unopened.fault);
            Err((unopened.fault, Left::Unopened(unopened)))
        }
    }
}

// Gives the store of the file that was found at a path, if the path leads to that still. The engine looks at it before it takes its lock, and a
// copy that was restored in between leaves it a file without a name: that is closed.
fn in_place<S: Start>(
    rt: &HostRuntime,
    path: &str,
    found: Identity,
    store: Store<DeskFile<S>>,
) -> Result<Store<DeskFile<S>>, (OpenFault, Left<FileFrom<S>>)>
    ensures same { IfOk result (λ given. given ≡ store) }
    ensures displaced { IfErr result (λ e. IsDisplaced store e.0 e.1) }
{
    if found.is_of(rt, path) {
        return Ok(store);
    }
    let (_closed, left) = close(store);
    Err((OpenFault::Storage(StorageFault::Device), left))
}

/// Closes the file, after its log was copied into it, and gives what is left of it.
///
/// # Errors
///
/// `Storage` where the copy failed: the log then stands beside the file, and the next opening reads both.
pub(crate) fn close<S: Start>(
    store: Store<DeskFile<S>>,
) -> (Result<(), OpenFault>, Left<FileFrom<S>>)
    ensures { IsLeft store result.0 result.1 }
{
    match close_from(store) {
        Ok(files) => (Ok(()), Left::Closed(files)),
        Err((fault, last)) => (Err(fault), Left::Unclosed(last)),
    }
}
