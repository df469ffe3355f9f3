//! What is said of a fault behind its line.

use app_files::Left;
use app_tasks::{
    CopyFault, Fault, FileCause, PortCause, Remains, SocketCause, Visible, broken_limit,
};
use app_words::{Command, Listening, Place, Revocation};
use desk::DeskFault;
use desk_http::{ServeFault, Unheard};
use desk_model::Refusal;
use sqlite_disk::Disk;
use std::io::Write;
use thiserror::Error;

// The exit status where a limit is broken.
const BROKEN: u8 = 2;

/// Says which file a fault is of, and its cause, or which limit is broken, where the words ask for that.
pub(crate) fn explain<D: Disk, E: Write>(
    rt: &HostRuntime,
    errors: &mut E,
    is_verbose: bool,
    command: Command<'_>,
    how: Result<u8, Fault>,
    left: &Left<D>,
) {
    if !is_verbose {
        return;
    }
    match how {
        Ok(BROKEN) => explain_limit(errors, command),
        Err(Fault::Copy(fault)) => explain_copy(rt, errors, command, fault),
        Err(Fault::Place(fault, is_unreached)) => {
            explain_place(rt, errors, command, fault, is_unreached)
        }
        Err(Fault::Serve(fault)) => explain_serving(rt, errors, command, fault, left),
        Err(Fault::Socket(cause)) => explain_socket(errors, command, cause),
        Err(Fault::Desk(fault)) => explain_desk_fault(rt, errors, command, fault, left),
        Err(Fault::Connection(unheard)) => explain_unheard(errors, command, unheard),
        Err(Fault::Refused(refusal)) => explain_refusal(errors, command, refusal),
        Ok(_) | Err(Fault::Output | Fault::Ahead) => {}
    }
}

// Says which limit the terms break that a desk was to be made with.
fn explain_limit<E: Write>(errors: &mut E, command: Command<'_>) {
    if let Command::Make { terms, .. } = command {
        let _ = writeln!(errors, "desk: {}", broken_limit(terms));
    }
}

// Says which of its files a copy failed at, and why.
fn explain_copy<E: Write>(
    rt: &HostRuntime,
    errors: &mut E,
    command: Command<'_>,
    fault: CopyFault,
) {
    let (file, to) = match command {
        Command::BackUp { file, to } => (file, to),
        Command::BackUpServed { to, .. } => (to, to),
        Command::Restore { copy, file } => (copy, file),
        _ => return,
    };
    let _ = match fault {
        CopyFault::Taken => writeln!(
            errors,
            "desk: {}: {}",
            Visible(to),
            FileCause::not_copied(rt, to)
        ),
        CopyFault::Same | CopyFault::Beside => return,
        CopyFault::Unread(cause) => writeln!(errors, "desk: {}: {cause}", Visible(file)),
        CopyFault::Failed(cause) => writeln!(errors, "desk: {}: {cause}", Visible(to)),
        CopyFault::Left(cause) => {
            writeln!(
                errors,
                "desk: {}: {cause}; a part of it is left: remove it, the file -part beside it",
                Visible(to)
            )
        }
    };
}

// Says why the desk whose place a copy was to take could not be held.
fn explain_place<E: Write>(
    rt: &HostRuntime,
    errors: &mut E,
    command: Command<'_>,
    fault: DeskFault,
    is_unreached: bool,
) {
    if let Command::Restore { file, .. } = command {
        let cause = place_cause(rt, file, fault, is_unreached);
        let _ = writeln!(errors, "desk: {}: {cause}", Visible(file));
    }
}

// Says why the desk of a file is served no longer, or was not; nothing where the fault's own line says it.
fn explain_serving<D: Disk, E: Write>(
    rt: &HostRuntime,
    errors: &mut E,
    command: Command<'_>,
    fault: ServeFault,
    left: &Left<D>,
) {
    let Command::Serve { file, serving } = command else {
        return;
    };
    match fault {
        ServeFault::Bind => explain_port(rt, errors, serving.listening),
        ServeFault::Replaced => {
            let _ = writeln!(
                errors,
                "desk: {}: {}",
                Visible(file.path),
                FaultCause::Replaced
            );
        }
        ServeFault::Desk(fault) => explain_desk_fault(rt, errors, command, fault, left),
        ServeFault::Accept | ServeFault::Clock | ServeFault::Random | ServeFault::Output => {}
    }
}

// Says why the port at which connections were to be taken was not to be had.
fn explain_port<E: Write>(rt: &HostRuntime, errors: &mut E, listening: Listening<'_>) {
    match listening {
        Listening::At(Place::Port(port)) | Listening::AtBoth { port, .. } => {
            let _ = writeln!(
                errors,
                "desk: port {port}: {}",
                PortCause::untaken(rt, port)
            );
        }
        Listening::At(Place::Socket(_)) => {}
    }
}

// Says why the socket at which they were to be taken was not.
fn explain_socket<E: Write>(errors: &mut E, command: Command<'_>, cause: SocketCause) {
    let Command::Serve { serving, .. } = command else {
        return;
    };
    match serving.listening {
        Listening::At(Place::Socket(path)) | Listening::AtBoth { socket: path, .. } => {
            let _ = writeln!(errors, "desk: {}: {cause}", Visible(path));
        }
        Listening::At(Place::Port(_)) => {}
    }
}

// Says why nobody knows what came of a request to the desk that is served at a place, or all of what it shows.
fn explain_unheard<E: Write>(errors: &mut E, command: Command<'_>, unheard: Unheard) {
    let place = match command {
        Command::Look { place, .. }
        | Command::BackUpServed { place, .. }
        | Command::RevokeServed { place, .. } => place,
        _ => return,
    };
    let _ = match place {
        Place::Port(port) => writeln!(errors, "desk: port {port}: {unheard}"),
        Place::Socket(path) => writeln!(errors, "desk: {}: {unheard}", Visible(path)),
    };
}

// Says in words why the desk refuses to revoke something.
fn explain_refusal<E: Write>(errors: &mut E, command: Command<'_>, refusal: Refusal) {
    let target = match command {
        Command::Revoke { target, .. } | Command::RevokeServed { target, .. } => target,
        _ => return,
    };
    let cause = match refusal {
        Refusal::NotFound => "the desk has none of this number",
        Refusal::Conflict => "it has ended already, otherwise than by being revoked",
        Refusal::ServerInternal =>
            "the desk met a fault: see its log, and what it wrote on standard error",
        _ => return,
    };
    let _ = match target {
        Revocation::Authorization(number) => writeln!(errors, "desk: authz {number}: {cause}"),
        Revocation::Account(number) => writeln!(errors, "desk: account {number}: {cause}"),
    };
}

// Says which file a fault of a desk is of, and its cause: where a desk that is served gave its files, the copy; nothing of a desk in memory.
fn explain_desk_fault<D: Disk, E: Write>(
    rt: &HostRuntime,
    errors: &mut E,
    command: Command<'_>,
    fault: DeskFault,
    left: &Left<D>,
) {
    if let Command::BackUpServed { to, .. } = command {
        let _ = writeln!(errors, "desk: {}: {}", Visible(to), FaultCause::of(fault));
    } else if let Some(file) = command.file() {
        let cause = match fault {
            DeskFault::Device => { FaultCause::OfFile(device_cause(rt, file, left.is_unreached())) }
            DeskFault::NotADesk => FaultCause::OfFile(deskless_cause(rt, file, command)),
            _ => FaultCause::of(fault),
        };
        let remains = match command {
            Command::Make { .. } if cause.is_of_machine() => remains(rt, file, left),
            _ => "",
        };
        let _ = writeln!(errors, "desk: {}: {cause}{remains}", Visible(file));
    }
}

// What a fault comes from of a desk whose place a copy was to take.
fn place_cause(rt: &HostRuntime, file: &str, fault: DeskFault, is_unreached: bool) -> FaultCause {
    match fault {
        DeskFault::Device => FaultCause::OfFile(device_cause(rt, file, is_unreached)),
        DeskFault::NotADesk => FaultCause::OfFile(FileCause::not_replaced(rt, file)),
        _ => FaultCause::of(fault),
    }
}

// What is to be done with what a making left that the machine failed.
fn remains<D: Disk>(rt: &HostRuntime, file: &str, left: &Left<D>) -> &'static str {
    match Remains::at(rt, file, matches!(left, Left::Unclosed(_))) {
        Remains::Nothing => "",
        Remains::Empty => "; an empty file stands there, which may be removed",
        Remains::Begun => "; what was begun is left: remove it, and the file -wal beside it",
    }
}

// Why a file was not reached, or failed.
fn device_cause(rt: &HostRuntime, file: &str, is_unreached: bool) -> FileCause {
    if is_unreached {
        FileCause::unreached(rt, file)
    } else {
        FileCause::Failed
    }
}

// Why a file holds no desk, or none is made in it.
fn deskless_cause(rt: &HostRuntime, file: &str, command: Command<'_>) -> FileCause {
    match command {
        Command::Make { .. } => FileCause::taken(rt, file),
        _ => FileCause::deskless(rt, file),
    }
}

// What a fault of a desk comes from; its text is said of the file.
#[derive(Clone, Copy, Debug, Error)]
enum FaultCause {
    // What looking at the file tells.
    #[error(transparent)]
    OfFile(FileCause),
    #[error("it or its log was replaced, cut or removed while it was served")]
    Replaced,
    #[error("a growth of memory was refused")]
    Memory,
    #[error("an earlier fault closed the desk, and the next start opens it")]
    Closed,
    #[error("a moment is past the last one that a desk knows")]
    Moment,
    #[error("a call has too few random bytes")]
    ShortRandom,
    #[error("a number would be past 2^62")]
    Full,
    #[error("a newer program wrote it")]
    Newer,
}

impl FaultCause {
    // That of a fault, as far as no look at the file tells it.
    fn of(fault: DeskFault) -> FaultCause {
        match fault {
            DeskFault::Device => FaultCause::OfFile(FileCause::Failed),
            DeskFault::NotADesk => FaultCause::OfFile(FileCause::NoDesk),
            DeskFault::Memory => FaultCause::Memory,
            DeskFault::Reopen => FaultCause::Closed,
            DeskFault::Moment => FaultCause::Moment,
            DeskFault::ShortRandom => FaultCause::ShortRandom,
            DeskFault::Full => FaultCause::Full,
            DeskFault::NewerFormat => FaultCause::Newer,
        }
    }

    // Whether the machine had no memory or no room, or its disk failed.
    fn is_of_machine(self) -> bool {
        matches!(
            self,
            FaultCause::OfFile(FileCause::NoRoom | FileCause::Full | FileCause::Failed)
                | FaultCause::Memory
                | FaultCause::Closed
        )
    }
}
