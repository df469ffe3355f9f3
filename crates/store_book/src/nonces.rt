//! The rows of `nonce`.
ghost use Rattle.std.specs.Prelude.{◌≡◌};
ghost use Rattle.model_laws.specs.Ordered.{IsTable};
ghost use Rattle.store_book.specs.Passing.{IsUpTo};
ghost use Rattle.std.proofs.Common.{sym};

use crate::counter::Counter;
use crate::row_check::RowCheck;
use desk_model::Nonce;
use std::alloc::{AllocError, Global};
use store_columns::NonceColumns;

/// Checks that serials ascend, and that none is above the last one given.
#[derive(Drop)]
pub struct NonceCheck {
    counter: Counter,
}

impl NonceCheck {
    /// Before the first row; the last serial given.
    pub fn new(last: u64) -> NonceCheck
        ensures { result ≡ record { counter = record { top = 0; last = last } } }
    {
        NonceCheck {
            counter: Counter::new(last),
        }
    }
}

impl RowCheck<NonceColumns> for NonceCheck {
    type Kept = ();

    ghost Passed = { λ first now rows. IsUpTo (λ n. n.serial) first.counter now.counter rows };

    ghost IsWhole = { λ first rows kept. IsTable (λ n. n.serial) first.counter.last rows };

    ghost AreAll = { λ first rows. IsTable (λ n. n.serial) first.counter.last rows };

    #[tactic(auto, using(crate::proofs::Steps::counts_on, crate::proofs::Steps::up_to_more))]
    fn passes(&mut self, row: &Nonce) -> Result<bool, AllocError> {
        Ok(self.counter.passes(row.serial))
    }

    fn finish(self, _alloc: Global) -> Result<Option<()>, AllocError> {
        Ok(Some(()))
    }

    ghost passed_alike = { λ first now rows row other same passed. rw same at passed };

    ghost all_alike = { λ first rows rest row other same all. rw (sym same) at all };
}
