//! The files of a desk that is served, and the log of its calls.
ghost use Rattle.std.specs.Prelude.{◌≡◌};
ghost use Rattle.app_tasks.specs.CallLog.{TakesLine};

use crate::beside::beside;
use crate::call_log::write_entry;
use crate::identity::Identity;
use crate::totals::Counted;
use app_words::LogForm;
use desk_http::{Entry, Overseer, Routes};
use http_routes::route_at;
use std::fs::{self, Metadata};
use std::io::{self, Write};

// What a path led to: which file, and how long it was.
#[derive(Clone, Copy)]
struct Found {
    identity: Identity,
    length: u64,
}

impl Found {
    // What a path leads to.
    fn of(rt: &HostRuntime, path: &str) -> io::Result<Found> {
        Ok(Found::told_by(&fs::metadata(rt, path)?))
    }

    // What stands at a path itself, be it a link.
    fn at(rt: &HostRuntime, path: &str) -> io::Result<Found> {
        Ok(Found::told_by(&fs::symlink_metadata(rt, path)?))
    }

    fn told_by(found: &Metadata) -> Found {
        Found {
            identity: Identity::told_by(found),
            length: found.len(),
        }
    }

    // Whether this is the file that it was then, and no shorter.
    fn is_whole(self, then: Found) -> bool {
        self.identity == then.identity && self.length >= then.length
    }

    // Takes the length of the file at a path, where it can be looked at.
    fn keep_length(&mut self, rt: &HostRuntime, path: &str) {
        if let Ok(found) = fs::metadata(rt, path) {
            self.length = found.len();
        }
    }
}

/// The file of a desk and its log beside it, as their paths led to them when it was opened, and as long as the latest call left them.
#[derive(Drop)]
pub(crate) struct Files<'a> {
    path: &'a str,
    // Where the links of the path led; the engine has its log beside that.
    real_path: String,
    file: Found,
    log_path: String,
    log: Found,
}

impl<'a> Files<'a> {
    /// Those of the desk that is open at a path.
    ///
    /// # Errors
    ///
    /// Where the path leads to none, one of them cannot be looked at, or there is no memory for the name of the log.
    pub(crate) fn at(rt: &HostRuntime, path: &'a str) -> io::Result<Files<'a>> {
        let log_path = beside(rt, path, "-wal")?;
        let log = Found::of(rt, log_path.as_str())?;
        Ok(Files {
            path,
            real_path: beside(rt, path, "")?,
            file: Found::of(rt, path)?,
            log_path,
            log,
        })
    }

    // Whether the path leads to them still, and none is shorter. The file stands where it did, so an opening finds this log beside it.
    // Nothing is allocated, since a call that finds no memory is to be told as such.
    fn are_in_place(&self, rt: &HostRuntime) -> bool {
        match (
            Found::of(rt, self.path),
            Found::at(rt, self.real_path.as_str()),
            Found::at(rt, self.log_path.as_str()),
        ) {
            (Ok(found), Ok(file), Ok(log)) => {
                found.is_whole(self.file) && file.is_whole(self.file) && log.is_whole(self.log)
            }
            _ => false,
        }
    }

    // Keeps how long they are behind a call, in which the engine may have cut its log.
    fn keep_lengths(&mut self, rt: &HostRuntime) {
        self.file.keep_length(rt, self.path);
        self.log.keep_length(rt, self.log_path.as_str());
    }
}

/// Sees to it that the file of a desk and its log are those that were opened, counts the connections and their calls, and writes a line for
/// each connection, where a log of the calls is asked for.
#[derive(Drop)]
pub(crate) struct FileOverseer<'a, W: Write> {
    pub(crate) rt: &'a HostRuntime,
    pub(crate) files: Files<'a>,
    pub(crate) routes: Routes,
    pub(crate) counted: &'a Counted,
    pub(crate) log: Option<LogForm>,
    pub(crate) out: &'a mut W,
}

impl<'a, W: Write> Overseer for FileOverseer<'a, W> {
    ghost takes = { λ was log_entry is. (is.log ≡ was.log) × TakesLine was.log (W.contents was.out.now) log_entry (W.contents is.out.now) };

    fn is_in_place(&self) -> bool {
        self.files.are_in_place(self.rt)
    }

    // Where no request was read no call was made, and the entry has no time: what was cut meanwhile is seen at the next call.
    fn log_entry(&mut self, entry: Entry<'_>) -> bool {
        if entry.micros.is_some() {
            self.files.keep_lengths(self.rt);
        }
        let route = route_at(self.rt.alloc(), &mut self.routes, entry.path);
        self.counted.note(route.unwrap_or(None), entry);
        match self.log {
            Some(form) => {
                write_entry(self.rt.alloc(), self.out, form, entry).is_ok()
                    && self.out.flush().is_ok()
            }
            None => true,
        }
    }
}
