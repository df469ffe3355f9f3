//! What takes connections: a port of 127.0.0.1, a socket that is a file, or both.
ghost use Rattle.std.specs.Prelude.{◌≡◌, IfErr};
ghost use Rattle.desk_http.specs.declared.serve_fault.ServeFault.TheVariants as fault;

use crate::connection::Connection;
use crate::serve_fault::ServeFault;
use mio::unix::SourceFd;
use mio::{Events, Interest, Poll, Token};
use std::alloc::Global;
use std::io::{self, ErrorKind};
use std::net::{Ipv4Addr, Net, SocketAddr, TcpListener, TcpStream};
use std::os::fd::AsRawFd;
use std::os::unix::net::UnixListener;

// The tokens of the two. Which of them is ready is not asked: both are tried.
const PORT: Token = Token(0);

const SOCKET: Token = Token(1);

/// What takes connections.
#[derive(Drop)]
pub enum Listener {
    /// A port of 127.0.0.1.
    Tcp(TcpListener),
    /// A socket that is a file.
    Unix(UnixListener),
    /// Both of them.
    Both(Both),
}

/// A port and a socket, which are waited for together, and take turns where connections wait at both.
#[derive(Drop)]
pub struct Both {
    tcp: TcpListener,
    unix: UnixListener,
    poll: Poll,
    events: Events,
    is_sockets_turn: bool,
}

/// Takes a port of 127.0.0.1, 0 for one that the machine chooses, and tells the address.
///
/// # Errors
///
/// `Bind` where the port could not be taken.
pub fn bind<N: Net<Stream = TcpStream, Listener = TcpListener>>(
    net: &N,
    port: u16,
) -> Result<(TcpListener, SocketAddr), ServeFault>
    ensures failed { IfErr result (λ e. e ≡ fault.Bind) }
{
    let Ok(listener) = net.bind(SocketAddr::from((Ipv4Addr::LOCALHOST, port))) else {
        return Err(ServeFault::Bind);
    };
    match listener.local_addr() {
        Ok(bound) => Ok((listener, bound)),
        Err(_) => Err(ServeFault::Bind),
    }
}

impl Listener {
    /// A port and a socket as one.
    ///
    /// # Errors
    ///
    /// `Accept` where the machine can't wait for both.
    pub fn both<N: Net>(
        net: &N,
        alloc: Global,
        tcp: TcpListener,
        unix: UnixListener,
    ) -> Result<Listener, ServeFault>
        ensures failed { IfErr result (λ e. e ≡ fault.Accept) }
    {
        match Both::new(net, alloc, tcp, unix) {
            Ok(both) => Ok(Listener::Both(both)),
            Err(_) => Err(ServeFault::Accept),
        }
    }

    /// The next connection, which is waited for without end.
    ///
    /// # Errors
    ///
    /// Those of accepting it.
    pub(crate) fn accept(&mut self) -> io::Result<Connection> {
        match self {
            Listener::Tcp(listener) => {
                let (stream, _) = listener.accept()?;
                Ok(Connection::Tcp(stream))
            }
            Listener::Unix(listener) => {
                let (stream, _) = listener.accept()?;
                Ok(Connection::Unix(stream))
            }
            Listener::Both(both) => both.accept(),
        }
    }
}

// Has a poll tell where a connection comes to a listener.
fn watch<L: AsRawFd>(poll: &Poll, listener: &L, token: Token) -> io::Result<()> {
    let descriptor = listener.as_raw_fd();
    poll.registry()
        .register(&mut SourceFd(&descriptor), token, Interest::READABLE)
}

impl Both {
    // A port and a socket, neither of which then makes who asks it wait.
    fn new<N: Net>(
        net: &N,
        alloc: Global,
        tcp: TcpListener,
        unix: UnixListener,
    ) -> io::Result<Both> {
        tcp.set_nonblocking(true)?;
        unix.set_nonblocking(true)?;
        let poll = Poll::new(net)?;
        watch(&poll, &tcp, PORT)?;
        watch(&poll, &unix, SOCKET)?;
        Ok(Both {
            tcp,
            unix,
            poll,
            events: Events::with_capacity(alloc, 2)?,
            is_sockets_turn: false,
        })
    }

    // The next connection at either. A poll tells of changes alone, so both are tried before each.
    fn accept(&mut self) -> io::Result<Connection> {
        for _ in 0..u64::MAX {
            if let Some(connection) = self.waiting()? {
                return Ok(connection);
            }
            self.poll.poll(&mut self.events, None)?;
        }
        Err(io::Error::from(ErrorKind::TimedOut))
    }

    // A connection that waits at one of them, if one does; the other one is tried first the next time.
    fn waiting(&mut self) -> io::Result<Option<Connection>> {
        self.is_sockets_turn = !self.is_sockets_turn;
        if self.is_sockets_turn {
            match self.at_socket()? {
                Some(connection) => Ok(Some(connection)),
                None => self.at_port(),
            }
        } else {
            match self.at_port()? {
                Some(connection) => Ok(Some(connection)),
                None => self.at_socket(),
            }
        }
    }

    // A connection that waits at the port, if one does.
    fn at_port(&self) -> io::Result<Option<Connection>> {
        match self.tcp.accept() {
            Ok((stream, _)) => Ok(Some(Connection::Tcp(stream))),
            Err(error) if error.kind() == ErrorKind::WouldBlock => Ok(None),
            Err(error) => Err(error),
        }
    }

    // A connection that waits at the socket, if one does.
    fn at_socket(&self) -> io::Result<Option<Connection>> {
        match self.unix.accept() {
            Ok((stream, _)) => Ok(Some(Connection::Unix(stream))),
            Err(error) if error.kind() == ErrorKind::WouldBlock => Ok(None),
            Err(error) => Err(error),
        }
    }
}
