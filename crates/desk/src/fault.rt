//! Why a call is not answered, or a desk not opened.
ghost use Rattle.std.specs.Prelude.{◌≡◌};
ghost use Rattle.desk.specs.Faults.{closes, number_of, call_fault, core_fault, storage_fault};

use desk_core::CoreFault;
use identifiers::CallFault;
use std::error::Error;
use std::fmt;
use store_api::StorageFault;

/// Why a call is not answered, or a desk not opened.
#[derive(Clone, Copy, Debug, PartialEq, Eq)]
pub enum DeskFault {
    /// A growth was refused.
    Memory,
    /// The store reported a failure of the disk.
    Device,
    /// The desk is closed, and is to be opened again.
    Reopen,
    /// The file holds no desk.
    NotADesk,
    /// The call's moment is above the last one.
    Moment,
    /// The call needs more random bytes than it has.
    ShortRandom,
    /// A number above the greatest would be needed.
    Full,
    /// The file is of a later format.
    NewerFormat,
}

impl DeskFault {
    /// The number of the fault, 20 to 27.
    pub fn number(self) -> u8
        ensures { result ≡ number_of self }
    {
        match self {
            DeskFault::Memory => 20,
            DeskFault::Device => 21,
            DeskFault::Reopen => 22,
            DeskFault::NotADesk => 23,
            DeskFault::Moment => 24,
            DeskFault::ShortRandom => 25,
            DeskFault::Full => 26,
            DeskFault::NewerFormat => 27,
        }
    }

    /// Whether the desk is closed after this fault.
    pub fn closes(self) -> bool
        ensures { result ≡ closes self }
    {
        matches!(self, DeskFault::Device | DeskFault::Reopen)
    }
}

impl fmt::Display for DeskFault {
    fn fmt<W: fmt::Write>(&self, f: &mut fmt::Formatter<W>) -> fmt::Result {
        let text = match self {
            DeskFault::Memory => "fault 20 memory",
            DeskFault::Device => "fault 21 device",
            DeskFault::Reopen => "fault 22 reopen",
            DeskFault::NotADesk => "fault 23 not a desk",
            DeskFault::Moment => "fault 24 moment",
            DeskFault::ShortRandom => "fault 25 short random",
            DeskFault::Full => "fault 26 full",
            DeskFault::NewerFormat => "fault 27 newer format",
        };
        f.write_str(text)
    }
}

impl Error for DeskFault {}

impl From<CoreFault> for DeskFault {
    ghost from_gives = { λ fault e. e ≡ core_fault fault };

    fn from(fault: CoreFault) -> DeskFault {
        match fault {
            CoreFault::Memory => DeskFault::Memory,
            CoreFault::ShortRandom => DeskFault::ShortRandom,
            CoreFault::Full => DeskFault::Full,
        }
    }
}

impl From<CallFault> for DeskFault {
    ghost from_gives = { λ fault e. e ≡ call_fault fault };

    fn from(fault: CallFault) -> DeskFault {
        match fault {
            CallFault::Memory => DeskFault::Memory,
            CallFault::Moment => DeskFault::Moment,
        }
    }
}

impl From<StorageFault> for DeskFault {
    ghost from_gives = { λ fault e. e ≡ storage_fault fault };

    fn from(fault: StorageFault) -> DeskFault {
        match fault {
            StorageFault::Memory => DeskFault::Memory,
            StorageFault::Device => DeskFault::Device,
            StorageFault::Reopen => DeskFault::Reopen,
        }
    }
}
