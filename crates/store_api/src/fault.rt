//! Why the tables of a desk are not read or changed.
ghost use Rattle.store_api.specs.declared.fault.StorageFault.TheVariants.{Memory};
ghost use Rattle.std.specs.Prelude.{◌≡◌};

use std::alloc::AllocError;
use std::error::Error;
use std::fmt;

/// Why the tables of a desk are not read or changed.
#[derive(Clone, Copy, Debug)]
pub enum StorageFault {
    /// A growth was refused; nothing changed.
    Memory,
    /// The store reported a failure of the disk.
    Device,
    /// The store is to be opened again.
    Reopen,
}

impl fmt::Display for StorageFault {
    fn fmt<W: fmt::Write>(&self, f: &mut fmt::Formatter<W>) -> fmt::Result {
        let text = match self {
            StorageFault::Memory => "out of memory",
            StorageFault::Device => "the disk failed",
            StorageFault::Reopen => "the store is to be opened again",
        };
        f.write_str(text)
    }
}

impl Error for StorageFault {}

impl From<AllocError> for StorageFault {
    ghost from_gives = { λ _ e. e ≡ Memory };

    fn from(_refused: AllocError) -> StorageFault {
        StorageFault::Memory
    }
}
