//! The rows of `chall_key`.
ghost use Rattle.std.specs.Prelude.{◌≡◌, ◌++◌, map};
ghost use Rattle.store_book.specs.BookRows.{AreKeys};
ghost use Rattle.std.proofs.Common.{sym};

use crate::numbers::Numbers;
use crate::row_check::RowCheck;
use std::alloc::{AllocError, Global};
use store_columns::{AnswerKey, ChallKeyColumns};

/// Checks that there is one key for each of these challenges, in their order.
#[derive(Drop)]
pub struct KeyCheck<'a> {
    left: &'a [u64],
}

impl<'a> KeyCheck<'a> {
    /// Before the first row; the challenges that were answered.
    pub fn new(answered: &'a Numbers) -> KeyCheck<'a>
        ensures { result.left.now ≡ answered.now }
    {
        KeyCheck {
            left: answered.as_slice(),
        }
    }
}

impl<'a> RowCheck<ChallKeyColumns> for KeyCheck<'a> {
    type Kept = ();

    ghost Passed = { λ first now rows. map (λ k. k.challenge) rows ++ now.left.now ≡ first.left.now };

    ghost IsWhole = { λ first rows kept. AreKeys first.left.now rows };

    ghost AreAll = { λ first rows. AreKeys first.left.now rows };

    fn passes(&mut self, row: &AnswerKey) -> Result<bool, AllocError> {
        let Some((first, behind)) = self.left.split_first() else {
            return Ok(false);
        };
        if *first != row.challenge {
            return Ok(false);
        }
        self.left = behind;
        Ok(true)
    }

    #[tactic(auto, using(crate::proofs::Steps::none_behind))]
    fn finish(self, _alloc: Global) -> Result<Option<()>, AllocError> {
        if self.left.is_empty() {
            Ok(Some(()))
        } else {
            Ok(None)
        }
    }

    ghost passed_alike = { λ first now rows row other same passed. rw same at passed };

    ghost all_alike = { λ first rows rest row other same all. rw (sym same) at all };
}
