//! Where a desk is served: at a port, at a socket, or at both.
ghost use Rattle.std.specs.Prelude.{IfErr};
ghost use Rattle.app_tasks.specs.Deeds.{IsOfBoth, IsUntaken};

use crate::fault::Fault;
use crate::shown::Visible;
use crate::sockets::take_socket;
use app_words::{Listening, Place};
use desk_http::{Listener, bind};
use std::io::{self, Write};
use std::net::SocketAddr;

/// Takes where connections are to be taken, and gives the address of the port, where there is one.
///
/// # Errors
///
/// `Bind` where the port could not be taken, `Socket` where the socket could not, `Accept` where the machine can't wait for both.
pub(crate) fn take(
    rt: &HostRuntime,
    listening: Listening<'_>,
) -> Result<(Listener, Option<SocketAddr>), Fault>
    ensures failed { IfErr result (IsUntaken listening.entry) }
{
    match listening {
        Listening::At(Place::Port(port)) => match bind(rt, port) {
            Ok((listener, address)) => Ok((Listener::Tcp(listener), Some(address))),
            Err(fault) => Err(Fault::Serve(fault)),
        },
        Listening::At(Place::Socket(path)) => match take_socket(rt, path) {
            Ok(listener) => Ok((Listener::Unix(listener), None)),
            Err(cause) => Err(Fault::Socket(cause)),
        },
        Listening::AtBoth { port, socket } => take_both(rt, port, socket),
    }
}

// Takes a port and a socket.
fn take_both(
    rt: &HostRuntime,
    port: u16,
    socket: &str,
) -> Result<(Listener, Option<SocketAddr>), Fault>
    ensures failed { IfErr result IsOfBoth }
{
    let (tcp, address) = match bind(rt, port) {
        Ok(bound) => bound,
        Err(fault) => return Err(Fault::Serve(fault)),
    };
    let unix = match take_socket(rt, socket) {
        Ok(listener) => listener,
        Err(cause) => return Err(Fault::Socket(cause)),
    };
    match Listener::both(rt, rt.alloc(), tcp, unix) {
        Ok(listener) => Ok((listener, Some(address))),
        Err(fault) => Err(Fault::Serve(fault)),
    }
}

/// Says where connections are taken, a line for each place: the address of a port, and the path of a socket.
///
/// # Errors
///
/// Those of the writer.
pub(crate) fn tell_listening<W: Write>(
    out: &mut W,
    listening: Listening<'_>,
    address: Option<SocketAddr>,
) -> io::Result<()> {
    if let Some(address) = address {
        writeln!(out, "listening on {address}")?;
    }
    match listening {
        Listening::At(Place::Socket(path)) | Listening::AtBoth { socket: path, .. } => {
            writeln!(out, "listening on {}", Visible(path))?
        }
        Listening::At(Place::Port(_)) => {}
    }
    out.flush()
}
