//! What stands beside the file of a desk, under its name, and what is known beside its rows.
ghost use Rattle.std.specs.Prelude.{IfErr};
ghost use Rattle.app_tasks.specs.Faults.{IsOfLog};

use app_reports::Beside;
use desk::DeskFault;
use desk_http::moment;
use std::fs;
use std::io::{self, ErrorKind};

// The most bytes of a log of the engine's that holds no commit: its head, and what tells a whole one from a torn one.
const EMPTY_LOG: u64 = 41;

/// The path of the file whose name is that of the file at a path and this ending, where the links to that lead.
///
/// # Errors
///
/// Those of looking at the path, and of memory.
pub(crate) fn beside(rt: &HostRuntime, path: &str, ending: &str) -> io::Result<String> {
    let real = fs::canonicalize(rt, path)?;
    Ok(format!(in rt.alloc(); "{}{ending}", real.as_str())?)
}

/// The path of the file whose name is that of a path and this ending: where the links lead, or as it stands where there is no file.
///
/// # Errors
///
/// Those of memory.
pub(crate) fn named(rt: &HostRuntime, path: &str, ending: &str) -> io::Result<String> {
    match beside(rt, path, ending) {
        Ok(found) => Ok(found),
        Err(_) => Ok(format!(in rt.alloc(); "{path}{ending}")?),
    }
}

/// What is known of a desk beside the rows of its file: the machine's moment, and how many bytes the log beside the file has.
///
/// # Errors
///
/// `Memory` where memory was refused, `Device` where the size of the log is not to be had.
pub fn known_beside(rt: &HostRuntime, file: &str) -> Result<Beside, DeskFault>
    ensures { IfErr result IsOfLog }
{
    match log_len(rt, file) {
        Ok(log) => Ok(Beside {
            now: moment(rt).ok(),
            log,
        }),
        Err(fault) => Err(fault),
    }
}

// How many bytes the log beside a file has, where the links to that lead, 0 where there is none.
fn log_len(rt: &HostRuntime, file: &str) -> Result<u64, DeskFault>
    ensures { IfErr result IsOfLog }
{
    let Ok(path) = named(rt, file, "-wal") else {
        return Err(DeskFault::Memory);
    };
    match fs::metadata(rt, path.as_str()) {
        Ok(found) => Ok(found.len()),
        Err(error) => match error.kind() {
            ErrorKind::NotFound => Ok(0),
            ErrorKind::OutOfMemory => Err(DeskFault::Memory),
            _ => Err(DeskFault::Device),
        },
    }
}

/// Whether anything stands at a path, if only a link that leads nowhere.
pub(crate) fn stands(rt: &HostRuntime, path: &str) -> bool {
    fs::symlink_metadata(rt, path).is_ok()
}

/// Whether a log that can be looked at stands beside the path, and holds something.
pub(crate) fn is_beside_log(rt: &HostRuntime, path: &str) -> bool {
    matches!(has_full_log(rt, path), Ok(true))
}

/// Whether a log stands beside the path.
pub(crate) fn has_log(rt: &HostRuntime, path: &str) -> bool {
    match named(rt, path, "-wal") {
        Ok(log) => stands(rt, log.as_str()),
        Err(_) => false,
    }
}

/// Whether the log beside the path holds something; not so where there is none.
///
/// # Errors
///
/// Those of looking at it, and of memory.
pub(crate) fn has_full_log(rt: &HostRuntime, path: &str) -> io::Result<bool> {
    match fs::symlink_metadata(rt, named(rt, path, "-wal")?.as_str()) {
        Ok(found) => Ok(!found.is_file() || found.len() > EMPTY_LOG),
        Err(error) if error.kind() == ErrorKind::NotFound => Ok(false),
        Err(error) => Err(error),
    }
}

/// Whether something stands in the place of the log beside the path that is none: a link, a directory, a pipe or a socket.
pub(crate) fn has_odd_log(rt: &HostRuntime, path: &str) -> bool {
    match named(rt, path, "-wal") {
        Ok(log) => fs::symlink_metadata(rt, log.as_str()).is_ok_and(|found| !found.is_file()),
        Err(_) => false,
    }
}

// The most bytes of the name of a desk's file: the longest name of what the engine looks for beside it, that of a journal, has 255 then.
const LONGEST_NAME: usize = 247;

/// Whether the name that a path ends with is too long for a desk's.
pub(crate) fn has_long_name(path: &str) -> bool {
    name_of(path).len() > LONGEST_NAME
}

/// The name that a path ends with.
pub(crate) fn name_of(path: &str) -> &str {
    match path.rsplit_once('/') {
        Some((_, name)) => name,
        None => path,
    }
}

/// Whether there is a directory for the file at a path.
pub(crate) fn has_directory(rt: &HostRuntime, path: &str) -> bool {
    match path.rsplit_once('/') {
        None | Some(("", _)) => true,
        Some((directory, _)) => fs::metadata(rt, directory).is_ok_and(|found| found.is_dir()),
    }
}

/// The path of the log of the file at a path, where there is a file and no log; the engine then makes one.
pub fn missing_log(rt: &HostRuntime, path: &str) -> Option<String> {
    let log = beside(rt, path, "-wal").ok()?;
    match fs::symlink_metadata(rt, log.as_str()) {
        Err(error) if error.kind() == ErrorKind::NotFound => Some(log),
        _ => None,
    }
}

/// Removes the log at this path, if it holds no commit. Whoever calls it has the engine's lock, so nobody else writes the log.
pub fn remove_empty_log(rt: &HostRuntime, log: &str) {
    if fs::symlink_metadata(rt, log).is_ok_and(|found| found.is_file()
        && found.len() <= EMPTY_LOG)
    {
        let _ = fs::remove_file(rt, log);
    }
}

/// Removes the log beside the file at a path, where there is one, and syncs the directory.
///
/// # Errors
///
/// Those of looking at it, removing and syncing, and `Unsupported` where the log holds something: it stays.
pub(crate) fn take_log_away(rt: &HostRuntime, path: &str) -> io::Result<()> {
    if has_full_log(rt, path)? {
        return Err(ErrorKind::Unsupported.into());
    }
    match fs::remove_file(rt, beside(rt, path, "-wal")?.as_str()) {
        Err(error) if error.kind() != ErrorKind::NotFound => Err(error),
        _ => sync_directory(rt, path),
    }
}

/// Syncs the directory of the file at a path.
///
/// # Errors
///
/// Those of the system.
pub(crate) fn sync_directory(rt: &HostRuntime, path: &str) -> io::Result<()> {
    let mut directory = fs::canonicalize(rt, path)?;
    directory.pop();
    fs::open(rt, directory.as_str())?.sync_all()
}
