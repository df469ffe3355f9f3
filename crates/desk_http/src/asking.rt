//! A request to a desk that is served, and its reply.
ghost use Rattle.std.specs.Prelude.{◌≤◌, ◌<◌, IfOk, length, take};
ghost use Rattle.std.specs.Io.KnownBytes.{Appends, Consumes, IsAtEnd};

use crate::clients::{Patient, end};
use crate::connection::Connection;
use crate::serving::{IoFault, send};
use http_wire::fill_from;
use std::io::{Read, Write};
use std::time::Clock;
use thiserror::Error;

/// How long a desk that is served may take to reply, in seconds: it may have other clients before.
pub(crate) const PATIENCE: u64 = 60;

/// Why nobody knows what came of a request to a desk that is served; its text is said of the port or the socket.
#[derive(Clone, Copy, Debug, Error)]
pub enum Unheard {
    /// It was not sent: nobody took a connection.
    #[error("nobody took a connection there, and nothing was asked")]
    Unreached,
    /// It was not sent: the socket is not for this user.
    #[error("this user may not ask there, and nothing was asked")]
    Denied,
    /// It was sent in part, or not at all.
    #[error("the request was not taken, or not all of it")]
    Unsent,
    /// It was sent, and no reply of a desk came.
    #[error("no reply of a desk came, or none within 60 seconds: it may be done or not, and asking again is safe")]
    Unanswered,
    /// It was sent, and what replies does not show what a desk would.
    #[error("what replies there does not show this: a filter, an older program, another one, or a desk that met a fault")]
    Unshown,
    /// It was sent, and its reply has no end.
    #[error("the reply broke off, or no more of it came for 60 seconds: what was written is not all of it")]
    Cut,
}

/// Sends the bytes of a request to the desk that is served at the other end of a connection, reads its reply up to its end, or until the
/// buffer is full, and tells how many bytes that were.
///
/// # Errors
///
/// `Unsent` where the desk took no request, `Unanswered` where its reply did not end within a minute.
pub fn ask_by<M: Clock>(
    machine: &M,
    connection: &Connection,
    request: &[u8],
    reply: &mut [u8],
) -> Result<usize, Unheard>
    ensures within { IfOk result (λ count. count ≤ length reply.new) }
{
    let mut reader = Patient::new(connection, machine, PATIENCE);
    let mut writer = Patient::new(connection, machine, PATIENCE);
    let outcome = ask(&mut reader, &mut writer, request, reply);
    end(connection, machine);
    match outcome {
        Ok(count) => Ok(count),
        Err(IoFault::Write) => Err(Unheard::Unsent),
        Err(IoFault::Read) => Err(Unheard::Unanswered),
    }
}

/// Sends the bytes of a request to the desk at the other end, reads its reply up to its end, or until the buffer is full, and tells
/// how many bytes that were.
///
/// # Errors
///
/// `Write` where the writer failed, `Read` where the reader did.
pub fn ask<R: Read, W: Write>(
    reader: &mut R,
    writer: &mut W,
    request: &[u8],
    reply: &mut [u8],
) -> Result<usize, IoFault>
    ensures asked { IfOk result (λ _. Appends (W.contents writer.old) (W.contents writer.new) request.now) }
    ensures within { IfOk result (λ count. count ≤ length reply.new) }
    ensures read { IfOk result (λ count. Consumes (R.remaining reader.old) (R.remaining reader.new) (take count reply.new)) }
    ensures end { IfOk result (λ count. count < length reply.new → IsAtEnd (R.remaining reader.new)) }
{
    send(writer, request)?;
    match fill_from(reader, reply, 0) {
        Ok(filled) => Ok(filled),
        Err(_) => Err(IoFault::Read),
    }
}
