//! What is done with the store of a desk.
ghost use Rattle.app_tasks.specs.Doing.{Deed};

use std::io::Write;
use store_api::{RowsAbove, Storage};

/// What a command does with a store. It is over any store whose rows can be read one by one, since a check pays for each call
/// that names the engine's own type.
pub trait Task {
    /// Why it ends, if not by its exit status.
    type Fault;

    // What is so of its writer and of the store before and after, where the task ends by this exit status or this fault.
    ghost does: { Self → Deed Self.Fault };

    /// Does it, writes what it says to `out`, and gives the store back, with the exit status.
    ///
    /// # Errors
    ///
    /// The task's own; the store comes back as that left it.
    fn run<K: Storage + RowsAbove + Drop, W: Write>(
        &mut self,
        store: K,
        out: &mut W,
    ) -> (K, Result<u8, Self::Fault>)
        ensures { does self.old (W.contents out.old) (W.contents out.new) _ _ _ K.Kept.sight K.Storage.causes K.Kept.sight store result.0 result.1 };
}
