//! Why a port is not taken, as trying it again tells.

use std::io::ErrorKind;
use std::net::{Ipv4Addr, Net, SocketAddr};
use thiserror::Error;

/// Why a port of 127.0.0.1 is not taken; its text is said of the port.
#[derive(Clone, Copy, Debug, Error)]
pub enum PortCause {
    /// Another program listens there.
    #[error("another program has it")]
    Held,
    /// It is not for this user.
    #[error("this user may not take it")]
    Denied,
    /// Whatever had it has it no longer.
    #[error("it is free by now")]
    Free,
    /// The machine gives it to nobody.
    #[error("the machine gives no port")]
    Failed,
}

impl PortCause {
    /// Why a port could not be taken: it is taken once more, and given back where it can be had.
    pub fn untaken(rt: &HostRuntime, port: u16) -> PortCause {
        match rt.bind(SocketAddr::from((Ipv4Addr::LOCALHOST, port))) {
            Ok(_) => PortCause::Free,
            Err(error) => match error.kind() {
                ErrorKind::AddrInUse => PortCause::Held,
                ErrorKind::PermissionDenied => PortCause::Denied,
                _ => PortCause::Failed,
            },
        }
    }
}
