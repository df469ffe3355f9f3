//! Why a call that was read is not decided.
ghost use Rattle.core_rules.specs.declared.fault.CoreFault.TheVariants.{Memory};
ghost use Rattle.std.specs.Prelude.{◌≡◌};

use std::alloc::AllocError;

/// Why a call is not made; the book stays as it was.
#[derive(Clone, Copy)]
pub enum CoreFault {
    /// A growth was refused (fault 20).
    Memory,
    /// The call needs more random bytes than it has (fault 25).
    ShortRandom,
    /// A number above the greatest would be needed (fault 26).
    Full,
}

impl From<AllocError> for CoreFault {
    ghost from_gives = { λ _ e. e ≡ Memory };

    fn from(_refused: AllocError) -> CoreFault {
        CoreFault::Memory
    }
}
