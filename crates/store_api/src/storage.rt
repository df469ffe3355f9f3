//! A store of the tables of a desk.
ghost use Rattle.std.specs.Prelude.{◌≡◌, IfErr, IfOk, None, Some};
ghost use Rattle.store_api.specs.Sight.{ForTables, Reads};
ghost use Rattle.store_api.specs.Storing.{Causes, Loads, SavesFrom};

use crate::fault::StorageFault;
use crate::kept::Kept;
use desk_book::Book;
use desk_model::{Change, Policy};
use identifiers::ParsedCall;
use std::alloc::Global;

/// A store of the tables of a desk.
pub trait Storage: Kept {
    // What is so of the store before and after a call that failed with this fault, a look-up or the saving of these changes: what
    // the fault comes from.
    ghost causes: { Causes Self };

    /// The policy that the desk was made with.
    ///
    /// # Errors
    ///
    /// As `load_part`.
    fn policy(&mut self, alloc: Global) -> Result<Policy, StorageFault>
        ensures reads { Reads Self.sight self.old self.new result }
        ensures found { ForTables Self.sight self.old self.new (λ T. IfOk result (λ policy. policy ≡ T.meta.policy)) }
        ensures caused { IfErr result (causes None self.old self.new) };

    /// A book of rows that are enough for the call: it answers as all rows do.
    ///
    /// # Errors
    ///
    /// `Memory`: the store has what it had. `Device` or `Reopen`: it is to be opened again.
    fn load_part(&mut self, alloc: Global, call: &ParsedCall) -> Result<Book, StorageFault>
        ensures loads { Loads Self.sight call.now self.old self.new result }
        ensures caused { IfErr result (causes None self.old self.new) };

    /// Makes the changes in turn, all of them or none. The part has rows of the tables as they are, and may tell which of those
    /// that are put need not be written whole.
    ///
    /// # Errors
    ///
    /// `Memory`: the store has what it had. `Device` or `Reopen`: it is to be opened again, and then has all changes or
    /// none.
    fn save(&mut self, alloc: Global, part: &Book, changes: Vec<Change>) -> Result<(), StorageFault>
        ensures saves { SavesFrom Self.sight part.now changes.items self.old self.new result }
        ensures caused { IfErr result (causes (Some (record { part = part.now; changes = changes.items })) self.old self.new) };
}
