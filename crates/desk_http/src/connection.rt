//! A connection, by whatever way it came.
ghost use Rattle.std.specs.Io.{ReadsAtMost, WritesAtMost};

use mio::net as nonblocking;
use std::io::{self, ErrorKind, Read, Write};
use std::net::{Ipv4Addr, Net, Shutdown, SocketAddr, TcpListener, TcpStream};
use std::os::unix::net::UnixStream;
use std::thread;
use std::time::{Clock, Duration};

// How long a connection waits to be taken, in seconds: others may wait before, as many as the system has room for.
const TAKEN_WITHIN: u64 = 10;

// How often a second a socket without room is tried, and for how many milliseconds a try waits for the next.
const TRIES: u64 = 20;

const SLEEP: u64 = 50;

/// A connection. The system holds what it carries, so nothing is known of that.
#[derive(Drop)]
pub enum Connection {
    /// By a port of 127.0.0.1.
    Tcp(TcpStream),
    /// By a socket that is a file.
    Unix(UnixStream),
}

impl Connection {
    /// One to whoever listens at a port of 127.0.0.1.
    ///
    /// # Errors
    ///
    /// Those of connecting; `TimedOut` where there was no room for it for ten seconds.
    pub fn to_port<N: Net<Stream = TcpStream, Listener = TcpListener>>(
        net: &N,
        port: u16,
    ) -> io::Result<Connection> {
        let address = SocketAddr::from((Ipv4Addr::LOCALHOST, port));
        let stream = net.connect_timeout(address, Duration::from_secs(TAKEN_WITHIN))?;
        Ok(Connection::Tcp(stream))
    }

    /// One to whoever listens at the socket of a path.
    ///
    /// # Errors
    ///
    /// Those of connecting; `InvalidInput` where no socket can have the path, `TimedOut` where there was no room for it for ten seconds.
    pub fn to_socket<N: Net + Clock>(net: &N, path: &str) -> io::Result<Connection> {
        for _ in 0..TAKEN_WITHIN * TRIES {
            match nonblocking::UnixStream::connect(net, path) {
                Ok(stream) => return Connection::waiting(UnixStream::from(stream)),
                Err(error) if error.kind() == ErrorKind::WouldBlock => thread::sleep(
                    net,
                    Duration::from_millis(SLEEP),
                ),
                Err(error) => return Err(error),
            }
        }
        Err(io::Error::from(ErrorKind::TimedOut))
    }

    // One by a stream that then waits for what it reads and writes.
    fn waiting(stream: UnixStream) -> io::Result<Connection> {
        stream.set_nonblocking(false)?;
        Ok(Connection::Unix(stream))
    }

    /// Reads what the other end sends, and waits for it so long at most.
    ///
    /// # Errors
    ///
    /// Those of reading; `WouldBlock` where nothing came in that time.
    pub(crate) fn read_within(&self, left: Duration, buf: &mut [u8]) -> io::Result<usize>
        ensures { ReadsAtMost result buf.new }
    {
        match self {
            Connection::Tcp(stream) => {
                stream.set_read_timeout(Some(left))?;
                read_by(stream, buf)
            }
            Connection::Unix(stream) => {
                stream.set_read_timeout(Some(left))?;
                read_by(stream, buf)
            }
        }
    }

    /// Writes to the other end, and waits so long at most until it takes something.
    ///
    /// # Errors
    ///
    /// Those of writing; `WouldBlock` where nothing was taken in that time.
    pub(crate) fn write_within(&self, left: Duration, buf: &[u8]) -> io::Result<usize>
        ensures { WritesAtMost result buf.now }
    {
        match self {
            Connection::Tcp(stream) => {
                stream.set_write_timeout(Some(left))?;
                write_by(stream, buf)
            }
            Connection::Unix(stream) => {
                stream.set_write_timeout(Some(left))?;
                write_by(stream, buf)
            }
        }
    }

    /// Tells the other end that nothing more is written.
    ///
    /// # Errors
    ///
    /// Those of telling so.
    pub(crate) fn end_writing(&self) -> io::Result<()> {
        match self {
            Connection::Tcp(stream) => stream.shutdown(Shutdown::Write),
            Connection::Unix(stream) => stream.shutdown(Shutdown::Write),
        }
    }
}

// Reads by a stream.
fn read_by<R: Read + Drop>(mut stream: R, buf: &mut [u8]) -> io::Result<usize>
    ensures { ReadsAtMost result buf.new }
{
    stream.read(buf)
}

// Writes by a stream.
fn write_by<W: Write + Drop>(mut stream: W, buf: &[u8]) -> io::Result<usize>
    ensures { WritesAtMost result buf.now }
{
    stream.write(buf)
}
