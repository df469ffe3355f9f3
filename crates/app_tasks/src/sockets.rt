//! The Unix socket that a desk is served at.

use desk_http::Connection;
use std::fs;
use std::io::ErrorKind;
use std::os::unix::fs::FileTypeExt;
use std::os::unix::net::UnixListener;
use thiserror::Error;

/// Why a socket is not taken; its text is said of its path.
#[derive(Clone, Copy, Debug, Error)]
pub enum SocketCause {
    /// Somebody listens at it.
    #[error("another program has it")]
    Served,
    /// Something else than a socket has its path.
    #[error("it is no socket, and it stays as it is")]
    NotASocket,
    /// It has no path, or one that is too long.
    #[error("no socket has this path: it is empty, or has more than 107 bytes")]
    NoPath,
    /// There is no directory for it.
    #[error("its directory is missing")]
    NoDirectory,
    /// It is not for this user.
    #[error("this user may not make it, or not replace the one that stands there")]
    Denied,
    /// The machine gives it to nobody.
    #[error("the machine gives no socket")]
    Failed,
}

impl SocketCause {
    // The one that an error of the machine tells.
    fn of(kind: ErrorKind) -> SocketCause {
        match kind {
            ErrorKind::AddrInUse | ErrorKind::TimedOut => SocketCause::Served,
            ErrorKind::InvalidInput => SocketCause::NoPath,
            ErrorKind::NotFound | ErrorKind::NotADirectory => SocketCause::NoDirectory,
            ErrorKind::PermissionDenied | ErrorKind::ReadOnlyFilesystem => SocketCause::Denied,
            _ => SocketCause::Failed,
        }
    }
}

/// Listens at the socket of a path, which is made. One that stands there is replaced where nobody listens at it; anything else
/// that does stays.
///
/// # Errors
///
/// What keeps the path from being that of the socket.
pub(crate) fn take_socket(rt: &HostRuntime, path: &str) -> Result<UnixListener, SocketCause> {
    if path.is_empty() {
        return Err(SocketCause::NoPath);
    }
    clear(rt, path)?;
    match UnixListener::bind(rt, path) {
        Ok(listener) => Ok(listener),
        Err(error) => Err(SocketCause::of(error.kind())),
    }
}

// Removes a socket at which nobody listens, where one has the path.
fn clear(rt: &HostRuntime, path: &str) -> Result<(), SocketCause> {
    match fs::symlink_metadata(rt, path) {
        Ok(found) if found.file_type().is_socket() => remove_unserved(rt, path),
        Ok(_) => Err(SocketCause::NotASocket),
        Err(error) if error.kind() == ErrorKind::NotFound => Ok(()),
        Err(error) => Err(SocketCause::of(error.kind())),
    }
}

// Removes the socket of a path, if nobody listens at it: a connection to it is then refused.
fn remove_unserved(rt: &HostRuntime, path: &str) -> Result<(), SocketCause> {
    match Connection::to_socket(rt, path) {
        Ok(_) => Err(SocketCause::Served),
        Err(error) if error.kind() == ErrorKind::ConnectionRefused => {
            match fs::remove_file(rt, path) {
                Ok(()) => Ok(()),
                Err(error) => Err(SocketCause::of(error.kind())),
            }
        }
        Err(error) => Err(SocketCause::of(error.kind())),
    }
}
