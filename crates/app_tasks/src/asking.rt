//! What the operator asks of a desk that is served.
ghost use Rattle.std.specs.Prelude.{◌≡◌, IfOk, string_bytes};
ghost use Rattle.app_tasks.specs.Asked.{Hears, IsHeard, RevokesServed, TellsReply, request_of};

use crate::fault::Fault;
use crate::outcomes::{LONGEST, outcome_of};
use crate::revoking::tell_revoked;
use app_words::{Place, Revocation};
use desk::DeskFault;
use desk_http::{Connection, Unheard, ask_by};
use desk_model::Refusal;
use std::alloc::{AllocError, Global};
use std::io::{self, ErrorKind, Write};

// How much of a reply is read: a byte more than one of a desk may have tells a longer one.
const READ: usize = LONGEST + 1;

/// Has the desk that is served at a place revoke an authorization or an account, and says so; gives the exit status.
///
/// # Errors
///
/// `Connection` where the desk could not be asked or gave no reply, `Refused` where it refuses, `Output` where standard output
/// failed, `Desk` where a growth was refused.
pub fn revoke_served<W: Write>(
    rt: &HostRuntime,
    place: Place<'_>,
    target: Revocation,
    out: &mut W,
) -> Result<u8, Fault>
    ensures { RevokesServed target (W.contents out.old) (W.contents out.new) result }
{
    let Ok(request) = request_of(rt.alloc(), target) else {
        return Err(Fault::Desk(DeskFault::Memory));
    };
    let heard = ask(rt, place, request.as_bytes(), target);
    tell_reply(heard, target, out)
}

// Says what the desk replied: that it is done, or why it is not; gives the exit status. It takes the result of asking,
// so that its clause also says what follows where no reply came.
fn tell_reply<W: Write>(
    reply: Result<Option<Refusal>, Fault>,
    target: Revocation,
    out: &mut W,
) -> Result<u8, Fault>
    ensures { TellsReply target reply (W.contents out.old) (W.contents out.new) result }
{
    match reply {
        Ok(None) => tell_revoked(target, out),
        Ok(Some(refusal)) => Err(Fault::Refused(refusal)),
        Err(fault) => Err(fault),
    }
}

// The request for it, which has no body (RFC 9112, 3).
fn request_of(alloc: Global, target: Revocation) -> Result<String, AllocError>
    ensures { IfOk result (λ request. string_bytes request ≡ request_of target) }
{
    match target {
        Revocation::Authorization(number) => format!(in alloc;
            "POST /office/revoke-authz/{number} HTTP/1.1\r\nHost: 127.0.0.1\r\nContent-Length: 0\r\n\r\n"
        ),
        Revocation::Account(number) => format!(in alloc;
            "POST /office/revoke-account/{number} HTTP/1.1\r\nHost: 127.0.0.1\r\nContent-Length: 0\r\n\r\n"
        ),
    }
}

// Sends a request to the desk at a place, and gives its refusal, if it refuses.
fn ask(
    rt: &HostRuntime,
    place: Place<'_>,
    request: &[u8],
    target: Revocation,
) -> Result<Option<Refusal>, Fault>
    ensures { Hears target result }
{
    let connection = match connected(rt, place) {
        Ok(connection) => connection,
        Err(unheard) => return Err(Fault::Connection(unheard)),
    };
    let mut buffer = [0u8; READ];
    match ask_by(rt, &connection, request, &mut buffer) {
        Ok(count) => hear(rt.alloc(), target, &buffer[..count]),
        Err(unheard) => Err(Fault::Connection(unheard)),
    }
}

/// A connection to the desk that is served at a place.
///
/// # Errors
///
/// `Denied` where it is not for this user, `Unreached` where nobody took it.
pub(crate) fn connected(rt: &HostRuntime, place: Place<'_>) -> Result<Connection, Unheard> {
    match connect(rt, place) {
        Ok(connection) => Ok(connection),
        Err(error) => Err(unheard(error.kind())),
    }
}

// Why nothing was asked, by an error of connecting.
fn unheard(kind: ErrorKind) -> Unheard {
    match kind {
        ErrorKind::PermissionDenied => Unheard::Denied,
        _ => Unheard::Unreached,
    }
}

// A connection to who listens at a place.
fn connect(rt: &HostRuntime, place: Place<'_>) -> io::Result<Connection> {
    match place {
        Place::Port(port) => Connection::to_port(rt, port),
        Place::Socket(path) => Connection::to_socket(rt, path),
    }
}

// The refusal that a reply tells, or `None` where it says that it is done.
fn hear(alloc: Global, target: Revocation, reply: &[u8]) -> Result<Option<Refusal>, Fault>
    ensures { IsHeard target reply.now result }
{
    match outcome_of(alloc, target, reply) {
        Ok(Some(outcome)) => Ok(outcome),
        Ok(None) => Err(Fault::Connection(Unheard::Unanswered)),
        Err(_) => Err(Fault::Desk(DeskFault::Memory)),
    }
}
