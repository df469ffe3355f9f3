//! The connection of one client, which is not waited for without end.
use crate::connection::Connection;
use desk_model::LONGEST_BODY;
use std::alloc::Global;
use std::io::{self, BufWriter, ErrorKind, Read, Write};
use std::time::{Clock, Duration, Instant};

/// How long a client may take to send its request, in seconds; as long again to take each part of what it is given, and for what it
/// sends after that.
pub(crate) const PATIENCE: u64 = 10;

// How many bytes are read away after the reply, at most: two times the largest body.
const READ_AWAY: usize = 2 * LONGEST_BODY;

// How many bytes are read away at once.
const PIECE: usize = 4096;

/// A client's connection, whose reads have their time in all, from the first of them on, and whose writes have theirs each.
#[derive(Drop)]
pub(crate) struct Patient<'a, C: Clock> {
    connection: &'a Connection,
    clock: &'a C,
    seconds: u64,
    until: Option<Instant>,
}

impl<'a, C: Clock> Patient<'a, C> {
    /// The connection, before its first read or write, with so many seconds for all reads, or for each write.
    pub(crate) fn new(connection: &'a Connection, clock: &'a C, seconds: u64) -> Patient<'a, C> {
        Patient {
            connection,
            clock,
            seconds,
            until: None,
        }
    }

    // The time that is left. Where there is none it is an error: a limit of 0 would be no limit.
    fn left(&mut self) -> io::Result<Duration> {
        let now = Instant::now(self.clock)?;
        let until = self
            .until
            .or(now.checked_add(Duration::from_secs(self.seconds)));
        self.until = until;
        match until {
            Some(until) if now < until => Ok(until.saturating_duration_since(now)),
            _ => Err(io::Error::from(ErrorKind::TimedOut)),
        }
    }
}

impl<'a, C: Clock> Read for Patient<'a, C> {
    fn read(&mut self, buf: &mut [u8]) -> io::Result<usize> {
        let left = self.left()?;
        self.connection.read_within(left, buf)
    }
}

impl<'a, C: Clock> Write for Patient<'a, C> {
    fn write(&mut self, buf: &[u8]) -> io::Result<usize> {
        let left = self.left()?;
        let count = self.connection.write_within(left, buf)?;
        if count == buf.len() {
            self.until = None;
        }
        Ok(count)
    }

    // A socket keeps nothing back.
    fn flush(&mut self) -> io::Result<()> {
        Ok(())
    }
}

/// The connection to write to, which takes small writes together; each alone where there is no memory for that.
pub(crate) fn gathering<'a, C: Clock>(
    alloc: Global,
    connection: &'a Connection,
    clock: &'a C,
) -> BufWriter<Patient<'a, C>> {
    if let Ok(writer) = BufWriter::new(alloc, Patient::new(connection, clock, PATIENCE)) {
        return writer;
    }
    let Ok(writer) = BufWriter::with_capacity(alloc, 0, Patient::new(connection, clock, PATIENCE))
    else {
        unreachable!()
    };
    writer
}

/// Ends the reply, and reads away what the client still sends, within limits: a connection that is closed over bytes
/// that nobody read could take the reply with it (RFC 9112, 9.6). What fails here is not told: the reply was given.
pub(crate) fn end<C: Clock>(connection: &Connection, clock: &C) {
    if connection.end_writing().is_err() {
        return;
    }
    let mut reader = Patient::new(connection, clock, PATIENCE);
    let mut piece = [0u8; PIECE];
    for _ in 0..READ_AWAY / PIECE {
        match reader.read(&mut piece) {
            Ok(0) | Err(_) => return,
            Ok(_) => {}
        }
    }
}
