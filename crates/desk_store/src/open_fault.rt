//! Why a desk is not made or opened.
ghost use Rattle.std.specs.Prelude.{◌≡◌};
ghost use Rattle.desk_store.specs.declared.open_fault.OpenFault.TheVariants.{Storage};

use std::error::Error;
use std::fmt;
use store_api::StorageFault;

/// Why a desk is not made or opened.
#[derive(Clone, Copy, Debug)]
pub enum OpenFault {
    /// The store failed.
    Storage(StorageFault),
    /// The database is not that of a desk or, where one is to be made, has an object.
    NotADesk,
    /// The tables are of a later format.
    NewerFormat,
}

impl fmt::Display for OpenFault {
    fn fmt<W: fmt::Write>(&self, f: &mut fmt::Formatter<W>) -> fmt::Result {
        match self {
            OpenFault::Storage(fault) => write!(f, "{fault}"),
            OpenFault::NotADesk => f.write_str("not the database of a desk"),
            OpenFault::NewerFormat => f.write_str("a desk of a later format"),
        }
    }
}

impl Error for OpenFault {}

impl From<StorageFault> for OpenFault {
    ghost from_gives = { λ fault e. e ≡ Storage fault };

    fn from(fault: StorageFault) -> OpenFault {
        OpenFault::Storage(fault)
    }
}
