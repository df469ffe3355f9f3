//! The end of a desk over two files.
ghost use Rattle.std.specs.Prelude.{IfErr, IfOk};
ghost use Rattle.sqlite.specs.FileStore.{recovers};
ghost use Rattle.sqlite.specs.Tree.{Trees};
ghost use Rattle.desk_files.specs.Closing.{EndsAsStop, FailedToCloseBy, KeepsInFile, LeavesAsStop, WasHonest};
ghost use Rattle.desk_store.specs.Making.{IsOfStorage};

use crate::fault::close_fault;
use desk_store::{OpenFault, Store};
use sqlite::{FileStore, Files};
use sqlite_disk::Disk;

/// Copies the log into the database file, and gives both files back.
///
/// A desk need not be closed to be kept: each recorded call is durable when it is answered. Closing spares the next opening
/// the log, and lets the database file be copied alone.
///
/// # Errors
///
/// `Storage` where the copy failed, by the fault of the engine's error: a stop then leaves no more than it did, and the next opening reads both files.
#[tactic(auto, using(crate::proofs::Closed::ends_as_stop, crate::proofs::Closed::has_closed, crate::proofs::Closed::left_of))]
pub fn close_from<D: Disk + Drop>(
    store: Store<FileStore<D>>,
) -> Result<Files<D>, (OpenFault, FileStore<D>)>
    ensures closed { IfOk result (KeepsInFile store) }
    ensures ended { IfOk result (EndsAsStop store) }
    ensures honest { IfOk result (WasHonest store) }
    ensures fault { IfErr result (λ e. IsOfStorage e.0) }
    ensures failed { IfErr result (λ e. FailedToCloseBy store e.0 e.1) }
    ensures left { IfErr result (λ e. (trees : Trees) → recovers e.1 trees → recovers store.conn.store trees) }
{
    match store.close().close_files() {
        Ok(files) => Ok(files),
        Err((error, last)) => Err((close_fault(error), last)),
    }
}

/// Gives both files up as they are, with the log beside the database file, as a stop between two calls would leave them: nothing
/// is copied, and the next opening reads both.
pub fn leave_from<D: Disk + Drop>(store: Store<FileStore<D>>) -> FileStore<D>
    ensures { LeavesAsStop store result }
{
    store.close().into_store()
}
