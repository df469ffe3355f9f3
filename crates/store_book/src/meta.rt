//! The row of `meta`.
ghost use Rattle.std.specs.Prelude.{◌≡◌, None};
ghost use Rattle.store_book.specs.Passing.{IsOneRow, IsOnlyRow, IsRowSoFar};
ghost use Rattle.std.proofs.Common.{sym};

use crate::row_check::RowCheck;
use desk_model::{Counters, Meta};
use std::alloc::{AllocError, Global};
use store_columns::MetaColumns;

/// Checks that there is one row; keeps its counters.
#[derive(Drop)]
pub struct MetaCheck {
    counters: Option<Counters>,
}

impl MetaCheck {
    /// Before the first row.
    pub fn new() -> MetaCheck
        ensures { result ≡ record { counters = None } }
    {
        MetaCheck { counters: None }
    }
}

impl RowCheck<MetaColumns> for MetaCheck {
    type Kept = Counters;

    ghost Passed = { λ first now rows. IsRowSoFar now.counters rows };

    ghost IsWhole = { λ first rows kept. IsOnlyRow kept rows };

    ghost AreAll = { λ first rows. IsOneRow rows };

    fn passes(&mut self, row: &Meta) -> Result<bool, AllocError> {
        if self.counters.is_some() {
            return Ok(false);
        }
        self.counters = Some(row.counters);
        Ok(true)
    }

    fn finish(self, _alloc: Global) -> Result<Option<Counters>, AllocError> {
        Ok(self.counters)
    }

    ghost passed_alike = { λ first now rows row other same passed. rw same at passed };

    ghost all_alike = { λ first rows rest row other same all. rw (sym same) at all };
}
