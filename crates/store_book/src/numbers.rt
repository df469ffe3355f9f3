//! The numbers of rows.
ghost use Rattle.std.specs.Prelude.{◌≡◌, ◌++◌, [], ◌∷◌, IsTrue, OnOk};
ghost use Rattle.store_book.specs.BookRows.{IsAmong, Rise};

use std::alloc::{AllocError, Global};
use std::marker::Model;

/// The numbers of rows, in the order in which these came.
#[derive(Drop)]
pub struct Numbers {
    items: Vec<u64>,
}

impl Model for Numbers {
    ghost use Rattle.std.specs.Prelude.{List, ℕ};

    ghost Value = { List ℕ };

    ghost view = { λ n. n.items.items };
}

impl Numbers {
    /// None.
    pub(crate) fn new(alloc: Global) -> Numbers
        ensures { result ≡ [] }
    {
        Numbers {
            items: Vec::new(alloc),
        }
    }

    /// One more.
    ///
    /// # Errors
    ///
    /// Where there is no memory for it.
    pub(crate) fn push(&mut self, number: u64) -> Result<(), AllocError>
        ensures { OnOk result (self.new ≡ self.old ++ number ∷ []) }
    {
        Ok(self.items.push(number)?)
    }

    /// Whether this number is found among them, as it is where they rise and have it.
    pub(crate) fn has(&self, number: u64) -> bool
        ensures among { IsTrue result → IsAmong self.now number }
        ensures found { Rise self.now → IsAmong self.now number → IsTrue result }
    {
        self.items.binary_search(&number).is_ok()
    }

    /// The numbers.
    pub(crate) fn as_slice(&self) -> &[u64]
        ensures { result.now ≡ self.now }
    {
        &self.items
    }
}
