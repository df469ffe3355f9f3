//! Why rows are not read.
ghost use Rattle.std.specs.Prelude.{◌≡◌};
ghost use Rattle.sql_read.specs.declared.fault.ReadFault.TheVariants.{Engine};
ghost use Rattle.sqlite.specs.{declared.error.ErrorCode.TheVariants.OutOfMemory, declared.error.Error.TheVariants.SqliteFailure};

use sqlite::ErrorCode;
use std::alloc::{AllocError, AllocFailed};
use thiserror::Error;

/// Why rows were not read.
#[derive(Clone, Copy, Debug, Error)]
pub enum ReadFault {
    /// The engine's error; a growth that was refused is its `OutOfMemory`.
    #[error("{0}")]
    Engine(sqlite::Error),
    /// A row is not one of a desk.
    #[error("a row is not one of a desk")]
    NotARow,
}

impl From<sqlite::Error> for ReadFault {
    ghost from_gives = { λ error fault. fault ≡ Engine error };

    fn from(error: sqlite::Error) -> ReadFault {
        ReadFault::Engine(error)
    }
}

impl From<AllocError> for ReadFault {
    ghost from_gives = { λ _ fault. fault ≡ Engine (SqliteFailure OutOfMemory) };

    fn from(_refused: AllocError) -> ReadFault {
        ReadFault::Engine(sqlite::Error::SqliteFailure(ErrorCode::OutOfMemory))
    }
}

impl<T: Drop> From<AllocFailed<T>> for ReadFault {
    ghost from_gives = { λ _ fault. fault ≡ Engine (SqliteFailure OutOfMemory) };

    fn from(_refused: AllocFailed<T>) -> ReadFault {
        ReadFault::Engine(sqlite::Error::SqliteFailure(ErrorCode::OutOfMemory))
    }
}
