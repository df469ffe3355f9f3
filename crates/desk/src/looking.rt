//! What looks at the store of a desk, and leaves it as it was.
ghost use Rattle.std.specs.Prelude.{◌≡◌, ℕ, List, Option, Result};
ghost use Rattle.desk.specs.declared.looking.LookFault.{LookFault as FaultOfLook};
ghost use Rattle.desk.specs.Looking.{Looks, look_closes};

use crate::fault::DeskFault;
use std::alloc::Global;
use std::io::Write;
use store_api::{Storage, StorageFault};

/// Why a look is not written to its end.
#[derive(Clone, Copy, Debug)]
pub enum LookFault {
    /// A growth was refused, or the store could not be read.
    Storage(StorageFault),
    /// The writer failed.
    Output,
}

impl LookFault {
    /// Whether the desk is closed after this fault: its tables may be out of reach.
    pub fn closes(self) -> bool
        ensures { result ≡ look_closes self }
    {
        match self {
            LookFault::Storage(fault) => DeskFault::from(fault).closes(),
            LookFault::Output => false,
        }
    }
}

/// What looks at a store for whoever asks this, and writes what it sees.
pub trait Look<K: Storage, A> {
    // What is so of what was asked, of the writer and of the store before and after, where it ends so.
    ghost shows: { Self → A → (was is : Option (List ℕ)) → K → K → Result Unit FaultOfLook → Type 0 };

    /// Looks at the store, and writes what it sees.
    ///
    /// # Errors
    ///
    /// `Storage` where a growth was refused or the store could not be read, `Output` where the writer failed.
    fn look<W: Write>(
        &self,
        alloc: Global,
        asked: &A,
        store: &mut K,
        out: &mut W,
    ) -> Result<(), LookFault>
        ensures shows { shows self.now asked.now (W.contents out.old) (W.contents out.new) store.old store.new result }
        ensures looks { Looks K.Kept.sight store.old store.new result };
}
