//! A backup that a desk which is served gives, under the name of the part of a copy until it is checked.
ghost use Rattle.std.specs.Prelude.{◌≤◌, IfOk, length};

use crate::asking::connected;
use crate::causes::FileCause;
use crate::copies::{CopyFault, begin_new, make_new};
use crate::fault::Fault;
use crate::parts::{Part, remove_left, remove_with_log};
use crate::showing::{kind_of, last_of};
use app_words::Place;
use desk::DeskFault;
use desk_http::{Inquiry, Looked, Uncopied, Unheard, copy_by, shown_head};
use std::fs;
use std::io::{self, ErrorKind, Write};

// What is asked, without a body (RFC 9112, 3).
const REQUEST: &[u8] = b"GET /office/backup HTTP/1.1\r\nHost: 127.0.0.1\r\n\r\n";

// The most bytes of the line before the file: two numbers of 64 bits, a space and its end.
const LONGEST_LINE: usize = 42;

/// The file and the log that a desk which is served gave, under the name of the part of a copy.
#[derive(Drop)]
pub struct Received {
    path: String,
}

impl Received {
    /// Has the desk that is served at a place give its file and its log, for a copy that gets a path.
    ///
    /// # Errors
    ///
    /// `Connection` where the desk could not be asked, or did not give all of it; `Copy` where they could not be made or written;
    /// `Desk` where a growth was refused. Nothing is left of them then.
    pub fn of(rt: &HostRuntime, place: Place<'_>, to: &str) -> Result<Received, Fault> {
        let part = match begin_new(rt, to) {
            Ok(part) => part,
            Err(fault) => return Err(Fault::Copy(fault)),
        };
        // A log that stands there already is another's, and stays.
        let log = match make_log(rt, &part) {
            Ok(log) => log,
            Err(fault) => {
                part.remove(rt);
                return Err(fault);
            }
        };
        match receive(rt, place, &mut Incoming::new(part.file(), &log)) {
            Ok(()) => Ok(Received { path: part.leave() }),
            Err(fault) => {
                remove_with_log(rt, part.path());
                Err(fault)
            }
        }
    }

    /// The path of the file.
    pub fn path(&self) -> &str {
        self.path.as_str()
    }

    /// Removes them. Where the caller does not hold the file, it stays if another program does.
    pub fn give_up(&self, rt: &HostRuntime, is_held: bool) {
        if is_held {
            remove_with_log(rt, self.path());
        } else {
            remove_left(rt, self.path());
        }
    }
}

// Makes the log beside the file, for that of the desk which is served.
fn make_log(rt: &HostRuntime, part: &Part) -> Result<fs::File, Fault> {
    let Ok(log_path) = format!(in rt.alloc(); "{}-wal", part.path()) else {
        return Err(Fault::Desk(DeskFault::Memory));
    };
    match make_new(rt, log_path.as_str()) {
        Ok(log) => Ok(log),
        Err(error) => Err(Fault::Copy(CopyFault::Failed(FileCause::of_part(error)))),
    }
}

// Asks the desk at a place for its files, and writes them as they come.
fn receive(rt: &HostRuntime, place: Place<'_>, incoming: &mut Incoming<'_>) -> Result<(), Fault> {
    let Ok(head) = shown_head(rt.alloc(), kind_of(&Looked::Backup)) else {
        return Err(Fault::Desk(DeskFault::Memory));
    };
    let inquiry = Inquiry {
        request: REQUEST,
        head: head.as_bytes(),
        last: last_of(&Looked::Backup).as_bytes(),
    };
    let connection = match connected(rt, place) {
        Ok(connection) => connection,
        Err(unheard) => return Err(Fault::Connection(unheard)),
    };
    match copy_by(rt, &connection, inquiry, b"", incoming) {
        Ok(_) if incoming.is_whole() => Ok(()),
        Ok(_) => Err(Fault::Connection(Unheard::Cut)),
        Err(Uncopied::Unheard(unheard)) => Err(Fault::Connection(unheard)),
        Err(Uncopied::Output) => Err(incoming.fault()),
    }
}

// What comes of a backup: the line that says how many bytes the file and the log have, and then the bytes of both.
#[derive(Drop)]
struct Incoming<'a> {
    file: &'a fs::File,
    log: &'a fs::File,
    // The line, as far as it came.
    line: [u8; LONGEST_LINE],
    begun: usize,
    // How many bytes of the two are to come; `None` while the line is not whole.
    rest: Option<Sizes>,
    // Why one of them was not written.
    failed: Option<FileCause>,
}

// How many bytes of the two files.
#[derive(Clone, Copy)]
struct Sizes {
    file: u64,
    log: u64,
}

impl<'a> Incoming<'a> {
    // Into these two files; nothing came yet.
    fn new(file: &'a fs::File, log: &'a fs::File) -> Incoming<'a> {
        Incoming {
            file,
            log,
            line: [0; LONGEST_LINE],
            begun: 0,
            rest: None,
            failed: None,
        }
    }

    // Whether all of it came.
    fn is_whole(&self) -> bool {
        matches!(self.rest, Some(Sizes { file: 0, log: 0 }))
    }

    // Why it was not written: a file could not be, or what came is no backup.
    fn fault(&self) -> Fault {
        match self.failed {
            Some(cause) => Fault::Copy(CopyFault::Failed(cause)),
            None => Fault::Connection(Unheard::Unshown),
        }
    }

    // Takes the next byte of the line.
    fn take_of_line(&mut self, byte: u8) -> io::Result<()> {
        let Some(place) = self.line.get_mut(self.begun) else {
            return Err(ErrorKind::InvalidData.into());
        };
        *place = byte;
        self.begun = self.begun.saturating_add(1);
        if byte == b'\n' {
            self.rest = Some(self.sizes()?);
        }
        Ok(())
    }

    // The numbers of the line.
    fn sizes(&self) -> io::Result<Sizes> {
        let line = self.line.get(..self.begun).unwrap_or(b"");
        match str::from_utf8(line) {
            Ok(line) => match sizes_in(line) {
                Some(sizes) => Ok(sizes),
                None => Err(ErrorKind::InvalidData.into()),
            },
            Err(_) => Err(ErrorKind::InvalidData.into()),
        }
    }

    // Writes bytes of the file or of the log, of which some are to come, and tells how many.
    fn take_of_files(&mut self, rest: Sizes, buf: &[u8]) -> io::Result<usize>
        ensures { IfOk result (λ count. count ≤ length buf.now) }
    {
        let (mut to, most) = if rest.file > 0 {
            (self.file, rest.file)
        } else {
            (self.log, rest.log)
        };
        let count = within(most, buf.len());
        if count == 0 {
            return Err(ErrorKind::InvalidData.into());
        }
        match to.write_all(&buf[..count]) {
            Ok(()) => {
                self.rest = Some(rest.without(count as u64));
                Ok(count)
            }
            Err(error) => {
                self.failed = Some(FileCause::of(error));
                Err(ErrorKind::Other.into())
            }
        }
    }
}

impl Sizes {
    // Those without the next bytes, of the file while it has some.
    fn without(self, count: u64) -> Sizes {
        if self.file > 0 {
            Sizes {
                file: self.file.saturating_sub(count),
                log: self.log,
            }
        } else {
            Sizes {
                file: 0,
                log: self.log.saturating_sub(count),
            }
        }
    }
}

impl<'a> Write for Incoming<'a> {
    fn write(&mut self, buf: &[u8]) -> io::Result<usize> {
        let Some(first) = buf.first() else {
            return Ok(0);
        };
        match self.rest {
            Some(rest) => self.take_of_files(rest, buf),
            None => {
                self.take_of_line(*first)?;
                Ok(1)
            }
        }
    }

    // The files keep nothing back.
    fn flush(&mut self) -> io::Result<()> {
        Ok(())
    }
}

// The lesser of a number of bytes and of those that are there.
fn within(most: u64, len: usize) -> usize
    ensures { result ≤ len }
{
    if most < len as u64 {
        most as usize
    } else {
        len
    }
}

// The numbers of a line of two, as it is written: in decimal, with a space between them.
fn sizes_in(line: &str) -> Option<Sizes> {
    let (file, log) = line.strip_suffix("\n")?.split_once(' ')?;
    Some(Sizes {
        file: number_in(file)?,
        log: number_in(log)?,
    })
}

// The number of a decimal text without a sign or zeros in front.
fn number_in(text: &str) -> Option<u64> {
    let is_plain = matches!(text.as_bytes(), [b'0'] | [b'1'..=b'9', ..]);
    match text.parse::<u64>() {
        Ok(number) if is_plain => Some(number),
        _ => None,
    }
}
