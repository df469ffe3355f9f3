//! Why a report ends early.
ghost use Rattle.std.specs.Prelude.{◌≡◌};
ghost use Rattle.app_reports.specs.{declared.fault.ReportFault.TheVariants.Storage, Reported.LeavesRows};

use std::io::{self, ErrorKind};
use store_api::StorageFault;
use thiserror::Error;

/// Why a report is not written to its end.
#[derive(Clone, Copy, Debug, Error)]
pub enum ReportFault {
    /// A growth was refused, or the rows could not be read.
    #[error("{0}")]
    Storage(StorageFault),
    /// The writer failed.
    #[error("output")]
    Output,
}

impl From<StorageFault> for ReportFault {
    ghost from_gives = { λ fault e. e ≡ Storage fault };

    fn from(fault: StorageFault) -> ReportFault {
        ReportFault::Storage(fault)
    }
}

impl From<io::Error> for ReportFault {
    ghost from_gives = { λ _ e. LeavesRows e };

    fn from(error: io::Error) -> ReportFault {
        match error.kind() {
            ErrorKind::OutOfMemory => ReportFault::Storage(StorageFault::Memory),
            _ => ReportFault::Output,
        }
    }
}
