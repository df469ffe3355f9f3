//! The fault of a desk that was not opened, made or closed.
ghost use Rattle.std.specs.Prelude.{◌≡◌};
ghost use Rattle.app_files.specs.Faults.{open_fault};

use desk::DeskFault;
use desk_store::OpenFault;

/// The fault, 20 to 27, of a desk that was not opened, made or closed.
pub fn desk_fault(fault: OpenFault) -> DeskFault
    ensures { result ≡ open_fault fault }
{
    match fault {
        OpenFault::Storage(fault) => DeskFault::from(fault),
        OpenFault::NotADesk => DeskFault::NotADesk,
        OpenFault::NewerFormat => DeskFault::NewerFormat,
    }
}
