//! Why rows are not saved.
ghost use Rattle.sql_write.specs.declared.fault.WriteFault.TheVariants.{Memory};
ghost use Rattle.std.specs.Prelude.{◌≡◌};
ghost use Rattle.sql_write.specs.declared.fault.SaveFault.TheVariants.{Row, Statement};

use std::alloc::AllocError;
use thiserror::Error;

/// Why a row is not written.
#[derive(Clone, Copy, Debug, Error)]
pub enum WriteFault {
    /// A growth was refused.
    #[error("out of memory")]
    Memory,
    /// A number is above 2^63 - 1, the greatest of an INTEGER column.
    #[error("a number is too large for its column")]
    TooLarge,
}

impl From<AllocError> for WriteFault {
    ghost from_gives = { λ _ why. why ≡ Memory };

    fn from(_refused: AllocError) -> WriteFault {
        WriteFault::Memory
    }
}

/// Why rows are not saved.
#[derive(Clone, Copy, Debug, Error)]
pub enum SaveFault {
    /// A row is not written as columns.
    #[error("a row is not written: {0}")]
    Row(WriteFault),
    /// A statement was refused, or failed.
    #[error("a statement is not run: {0}")]
    Statement(sqlite::Error),
    /// The commit failed.
    #[error("the changes are not committed: {0}")]
    Commit(sqlite::Error),
}

impl From<WriteFault> for SaveFault {
    ghost from_gives = { λ fault why. why ≡ Row fault };

    fn from(fault: WriteFault) -> SaveFault {
        SaveFault::Row(fault)
    }
}

impl From<sqlite::Error> for SaveFault {
    ghost from_gives = { λ error why. why ≡ Statement error };

    fn from(error: sqlite::Error) -> SaveFault {
        SaveFault::Statement(error)
    }
}
