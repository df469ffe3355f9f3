//! Why rows do not become a book.
ghost use Rattle.std.specs.Prelude.{◌≡◌};
ghost use Rattle.store_book.specs.declared.rows_fault.RowsFault.TheVariants.{Memory};

use std::alloc::{AllocError, AllocFailed};
use thiserror::Error;

/// Why rows did not become a book.
#[derive(Clone, Copy, Debug, Error)]
pub enum RowsFault {
    /// No book has these rows.
    #[error("the rows are not those of a desk")]
    NotABook,
    /// There was no memory for the book.
    #[error("out of memory")]
    Memory,
}

impl From<AllocError> for RowsFault {
    ghost from_gives = { λ _ fault. fault ≡ Memory };

    fn from(_refused: AllocError) -> RowsFault {
        RowsFault::Memory
    }
}

impl<T: Drop> From<AllocFailed<T>> for RowsFault {
    ghost from_gives = { λ _ fault. fault ≡ Memory };

    fn from(_refused: AllocFailed<T>) -> RowsFault {
        RowsFault::Memory
    }
}
