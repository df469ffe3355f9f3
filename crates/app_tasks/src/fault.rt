//! Why a command ends, and how that is said.
ghost use Rattle.std.specs.Prelude.{◌≡◌};
ghost use Rattle.app_tasks.specs.declared.fault.Fault.TheVariants.{Serve};
ghost use Rattle.app_tasks.specs.Faults.{IsOfDesk, report_fault};

use crate::copies::CopyFault;
use crate::sockets::SocketCause;
use app_reports::ReportFault;
use desk::DeskFault;
use desk_http::{ServeFault, Unheard};
use desk_model::Refusal;
use std::io::Write;
use thiserror::Error;

/// Why a command ends.
#[derive(Clone, Copy, Debug, Error)]
pub enum Fault {
    /// A fault of the desk, 20 to 27.
    #[error(transparent)]
    Desk(DeskFault),
    /// A fault of the desk, 20 to 27, whose place a copy was to take, and whether the engine could not even open its file.
    #[error("{0}")]
    Place(DeskFault, bool),
    /// The file is not copied.
    #[error(transparent)]
    Copy(CopyFault),
    /// Standard output failed.
    #[error("output")]
    Output,
    /// The desk refuses what the operator asks.
    #[error("{}", .0.detail())]
    Refused(Refusal),
    /// The desk that is served could not be asked, or gave no reply.
    #[error("connection")]
    Connection(Unheard),
    /// The socket could not be taken.
    #[error("bind")]
    Socket(SocketCause),
    /// The desk's clock is further ahead of the machine's than it may be.
    #[error("that is more than --max-ahead allows: set the machine's clock, or restore a backup from before the wrong reading")]
    Ahead,
    /// The machine failed, or the desk is served no longer.
    #[error(transparent)]
    Serve(ServeFault),
}

impl From<DeskFault> for Fault {
    ghost from_gives = { IsOfDesk };

    fn from(fault: DeskFault) -> Fault {
        Fault::Desk(fault)
    }
}

impl From<ServeFault> for Fault {
    ghost from_gives = { λ fault e. e ≡ Serve fault };

    fn from(fault: ServeFault) -> Fault {
        Fault::Serve(fault)
    }
}

impl From<ReportFault> for Fault {
    ghost from_gives = { λ fault e. e ≡ report_fault fault };

    fn from(fault: ReportFault) -> Fault {
        match fault {
            ReportFault::Storage(fault) => Fault::Desk(DeskFault::from(fault)),
            ReportFault::Output => Fault::Output,
        }
    }
}

/// Says why a command ended, and gives the exit status.
pub fn write_fault<E: Write>(errors: &mut E, fault: Fault) -> u8
    ensures { result ≡ 1 }
{
    let _ = writeln!(errors, "desk: {fault}");
    1
}

/// What a word gets wrong that the parser does not see.
#[derive(Clone, Copy, Debug, Error)]
pub enum Wrong {
    /// A limit of the terms is broken.
    #[error("bad policy")]
    Policy,
    /// It names no status of an order.
    #[error("no status of an order")]
    Status,
    /// It stands for no name that an order may ask for.
    #[error("not a name that is served")]
    Name,
}

/// Says what a word gets wrong, and gives the exit status.
pub fn refuse<E: Write>(errors: &mut E, wrong: Wrong) -> u8
    ensures { result ≡ 2 }
{
    let _ = writeln!(errors, "desk: {wrong}");
    2
}
