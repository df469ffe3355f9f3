//! The faults of files that are not opened or closed.
ghost use Rattle.std.specs.Prelude.{◌≡◌};
ghost use Rattle.desk_store.specs.Causes.{cause_of};
ghost use Rattle.desk_files.specs.Opening.{fault_of_close, fault_of_files, fault_of_refusal};

use desk_store::{EngineCause, OpenFault, cause_of};
use sqlite::{Error, ErrorCode};
use store_api::StorageFault;

/// The fault of files that the engine does not open. Those that it calls corrupt, or whose rows break their schema (a foreign
/// key to no row, say), are no desk's.
pub(crate) fn refusal_fault(error: Error) -> OpenFault
    ensures { result ≡ fault_of_refusal error }
{
    match error {
        Error::SqliteFailure(ErrorCode::NotADatabase | ErrorCode::DatabaseCorrupt) => {
            OpenFault::NotADesk
        }
        _ => OpenFault::Storage(files_fault(error)),
    }
}

/// The fault of files that the engine does not close.
pub(crate) fn close_fault(error: Error) -> OpenFault
    ensures { result ≡ fault_of_close error }
{
    OpenFault::Storage(files_fault(error))
}

// The fault of a failure of memory, or of the disk.
fn files_fault(error: Error) -> StorageFault
    ensures { result ≡ fault_of_files (cause_of error) }
{
    match cause_of(error) {
        EngineCause::Memory => StorageFault::Memory,
        EngineCause::Device | EngineCause::Other => StorageFault::Device,
    }
}
