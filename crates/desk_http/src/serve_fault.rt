//! Why a desk is served no longer.
use desk::DeskFault;
use std::error::Error;
use std::fmt;

/// Why a desk is served no longer.
#[derive(Clone, Copy, Debug)]
pub enum ServeFault {
    /// The port could not be taken.
    Bind,
    /// No connection could be accepted.
    Accept,
    /// The machine's clock failed, or stands before 1970.
    Clock,
    /// The machine gave no random bytes.
    Random,
    /// An entry of a connection that was served is not kept.
    Output,
    /// The desk is no more where it was opened.
    Replaced,
    /// The desk is closed by this fault.
    Desk(DeskFault),
}

impl fmt::Display for ServeFault {
    fn fmt<W: fmt::Write>(&self, f: &mut fmt::Formatter<W>) -> fmt::Result {
        match self {
            ServeFault::Bind => f.write_str("bind"),
            ServeFault::Accept => f.write_str("accept"),
            ServeFault::Clock => f.write_str("clock"),
            ServeFault::Random => f.write_str("random"),
            ServeFault::Output => f.write_str("output"),
            ServeFault::Replaced => write!(f, "{}", DeskFault::Device),
            ServeFault::Desk(fault) => write!(f, "{fault}"),
        }
    }
}

impl Error for ServeFault {}
