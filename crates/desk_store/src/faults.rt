//! Why a call of the store fails.
ghost use Rattle.std.specs.Prelude.{◌≡◌, false, IsTrue};
ghost use Rattle.sqlite.specs.State.{HasCleanDisk, IsUnchanged};
ghost use Rattle.sqlite.specs.Held.{state};
ghost use Rattle.sql_write.specs.Committing.{IsBeforeCommit};
ghost use Rattle.sql_schema.specs.Stays.{Asks};
ghost use Rattle.store_api.specs.declared.fault.StorageFault.TheVariants.{Memory as memory, Reopen as reopen};
ghost use Rattle.desk_store.specs.Asked.{tells_open};
ghost use Rattle.desk_store.specs.Causes.{IsOfMemory, IsOfReading, IsOfSave, IsOfStatement, IsSilent, cause_of, commit_fault};

use sql_read::ReadFault;
use sql_write::{SaveFault, WriteFault};
use sqlite::{Alter, Connection, Error, ErrorCode, Statement};
use store_api::StorageFault;

/// What an error of the engine comes from.
#[derive(Clone, Copy)]
pub enum EngineCause {
    /// A growth was refused.
    Memory,
    /// The disk failed, or a row is too large for it.
    Device,
    /// Anything else.
    Other,
}

/// What an error of the engine comes from: `OutOfMemory` from memory; a failure of the system's calls, pages that are
/// corrupt, a full disk and a row that is too large from the device.
pub fn cause_of(error: Error) -> EngineCause
    ensures { result ≡ cause_of error }
{
    match error {
        Error::SqliteFailure(code) => match code {
            ErrorCode::OutOfMemory => EngineCause::Memory,
            ErrorCode::SystemIoFailure
            | ErrorCode::DatabaseCorrupt
            | ErrorCode::DiskFull
            | ErrorCode::TooBig => EngineCause::Device,
            _ => EngineCause::Other,
        },
        _ => EngineCause::Other,
    }
}

// Whether the connection is open, since it says that a word is no statement. The engine says so only once it looked that it is
// open, and takes no memory for it.
fn is_answering<S: Alter>(conn: &mut Connection<S>) -> bool
    ensures unchanged { HasCleanDisk (state S.Store conn.new) → IsTrue result → IsUnchanged (state S.Store conn.old) (state S.Store conn.new) }
    ensures silent { HasCleanDisk (state S.Store conn.new) → result ≡ false → IsSilent (state S.Store conn.old) (state S.Store conn.new) }
    ensures asks { Asks (state S.Store conn.old) (state S.Store conn.new) }
{
    tells_open(conn.prepare("ANSWER"))
}

// Whether what came of a text that is no statement tells that the connection is open.
fn tells_open(came: Result<Statement, Error>) -> bool
    ensures { result ≡ tells_open came }
{
    match came {
        Ok(_) => true,
        Err(Error::SqlInputError(_)) => true,
        Err(_) => false,
    }
}

/// The fault where memory ran out: the store goes on where its connection is still open.
pub(crate) fn memory_fault<S: Alter>(conn: &mut Connection<S>) -> StorageFault
    ensures fault { IsOfMemory result }
    ensures unchanged { HasCleanDisk (state S.Store conn.new) → result ≡ memory → IsUnchanged (state S.Store conn.old) (state S.Store conn.new) }
    ensures silent { HasCleanDisk (state S.Store conn.new) → result ≡ reopen → IsSilent (state S.Store conn.old) (state S.Store conn.new) }
    ensures asks { Asks (state S.Store conn.old) (state S.Store conn.new) }
{
    if is_answering(conn) {
        StorageFault::Memory
    } else {
        StorageFault::Reopen
    }
}

/// The fault of a statement that failed, after its transaction was given up.
pub(crate) fn statement_fault<S: Alter>(conn: &mut Connection<S>, error: Error) -> StorageFault
    ensures fault { IsOfStatement (cause_of error) result }
    ensures unchanged { HasCleanDisk (state S.Store conn.new) → result ≡ memory → IsUnchanged (state S.Store conn.old) (state S.Store conn.new) }
    ensures silent { HasCleanDisk (state S.Store conn.new) → result ≡ reopen → IsSilent (state S.Store conn.old) (state S.Store conn.new) }
    ensures asks { Asks (state S.Store conn.old) (state S.Store conn.new) }
{
    match cause_of(error) {
        EngineCause::Memory => memory_fault(conn),
        EngineCause::Device | EngineCause::Other => StorageFault::Device,
    }
}

/// The fault of a commit that failed.
pub(crate) fn commit_fault(error: Error) -> StorageFault
    ensures { result ≡ commit_fault (cause_of error) }
{
    match cause_of(error) {
        EngineCause::Device => StorageFault::Device,
        EngineCause::Memory | EngineCause::Other => StorageFault::Reopen,
    }
}

/// The fault of a save that failed. It is one of memory only where the save failed before its commit.
#[tactic(auto, using(sql_schema::proofs::StaysLemmas::asks_nothing))]
pub(crate) fn saving_fault<S: Alter>(conn: &mut Connection<S>, fault: SaveFault) -> StorageFault
    ensures fault { IsOfSave fault result }
    ensures early { result ≡ memory → IsBeforeCommit fault }
    ensures unchanged { HasCleanDisk (state S.Store conn.new) → result ≡ memory → IsUnchanged (state S.Store conn.old) (state S.Store conn.new) }
    ensures silent { HasCleanDisk (state S.Store conn.new) → result ≡ reopen → IsBeforeCommit fault
        → IsSilent (state S.Store conn.old) (state S.Store conn.new) }
    ensures asks { Asks (state S.Store conn.old) (state S.Store conn.new) }
{
    match fault {
        SaveFault::Row(WriteFault::Memory) => memory_fault(conn),
        SaveFault::Row(WriteFault::TooLarge) => StorageFault::Device,
        SaveFault::Statement(error) => statement_fault(conn, error),
        SaveFault::Commit(error) => commit_fault(error),
    }
}

/// The fault of a reading that failed.
pub(crate) fn reading_fault<S: Alter>(conn: &mut Connection<S>, fault: ReadFault) -> StorageFault
    ensures fault { IsOfReading fault result }
    ensures unchanged { HasCleanDisk (state S.Store conn.new) → result ≡ memory → IsUnchanged (state S.Store conn.old) (state S.Store conn.new) }
    ensures silent { HasCleanDisk (state S.Store conn.new) → result ≡ reopen → IsSilent (state S.Store conn.old) (state S.Store conn.new) }
    ensures asks { Asks (state S.Store conn.old) (state S.Store conn.new) }
{
    match fault {
        ReadFault::Engine(error) => statement_fault(conn, error),
        ReadFault::NotARow => StorageFault::Device,
    }
}
