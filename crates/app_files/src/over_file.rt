//! A task by the store of a file.
ghost use Rattle.std.specs.Prelude.{◌≡◌, ◌≢◌, Ok, IfErr, IfOk, IsErrAnd};
ghost use Rattle.sqlite.specs.WalFiles.{image_at};
ghost use Rattle.app_files.specs.Endings.{OverStore, EndsOver};
ghost use Rattle.app_files.specs.Faults.{open_fault};

use crate::fault::desk_fault;
use crate::files::{close, open};
use crate::left::Left;
use app_tasks::Task;
use desk::DeskFault;
use desk_store::{OpenFault, Store};
use sqlite::{Alter, FileFrom, Start};
use std::io::Write;

/// Opens the desk of a file, does a task with its store, closes it, and gives the exit status and what is left of the files. No
/// clause ties the bytes that `S` stands for to the path.
///
/// The file is missing or empty, or holds no desk: `NotADesk`. It holds one of a later format: `NewerFormat`. What is taken for
/// granted of bytes whose write was cut off is said by the start: nothing by `Wary`, so that each commit syncs twice, and by
/// `Unknown` that each byte is the old or the new one, so that most commits sync once.
///
/// # Errors
///
/// The task's own, and those of opening and closing the file; where the task has a fault, or another exit status than 0,
/// closing adds none.
pub fn run_over_file<S: Start, T: Task + Drop, W: Write>(
    rt: &HostRuntime,
    file: &str,
    start: S,
    task: T,
    out: &mut W,
) -> (Result<u8, T::Fault>, Left<FileFrom<S>>)
where
    T::Fault: From<DeskFault>,
    ensures { EndsOver T.Fault.from_gives (image_at S.Start) (T.Task.does task) (W.contents out.old) (W.contents out.new) result.0 result.1 }
{
    let mut task = task;
    match open(rt, file, start) {
        Ok(store) => {
            let (store, outcome) = run_over(store, &mut task, out);
            let (closed, left) = close(store);
            (ended(outcome, closed), left)
        }
        Err((fault, left)) => (failed(fault), left),
    }
}

/// How a task ends that was not begun.
pub(crate) fn failed<F: From<DeskFault>>(fault: OpenFault) -> Result<u8, F>
    ensures { IsErrAnd result (F.from_gives (open_fault fault)) }
{
    Err(F::from(desk_fault(fault)))
}

// How a task ends once its file was closed, or could not be.
fn ended<F: From<DeskFault>>(outcome: Result<u8, F>, closed: Result<(), OpenFault>) -> Result<u8, F>
    ensures closed { outcome ≡ Ok 0 → IfOk closed (λ _. result ≡ Ok 0) }
    ensures unclosed { outcome ≡ Ok 0 → IfErr closed (λ cause. IsErrAnd result (F.from_gives (open_fault cause))) }
    ensures otherwise { outcome ≢ Ok 0 → result ≡ outcome }
{
    match outcome {
        Ok(0) => match closed {
            Ok(()) => Ok(0),
            Err(fault) => failed(fault),
        },
        outcome => outcome,
    }
}

/// Does a task with a store, whatever the engine keeps it in.
pub(crate) fn run_over<S: Alter + Drop, T: Task, W: Write>(
    store: Store<S>,
    task: &mut T,
    out: &mut W,
) -> (Store<S>, Result<u8, T::Fault>)
    ensures { OverStore (T.does task.old (W.contents out.old) (W.contents out.new)) S.Store store result.0 result.1 }
{
    task.run(store, out)
}
