//! The rows of `account`.
ghost use Rattle.std.specs.Prelude.{◌≡◌, ◌↔◌, [], IfOk, IsTrue, map};
ghost use Rattle.std.specs.List.{IsDistinct};
ghost use Rattle.std.specs.Ordering.{eq_by_cmp, is_lt};
ghost use Rattle.model_laws.specs.Distinct.{Distinct};
ghost use Rattle.store_book.specs.{BookRows.AreAccounts, Passing.IsUpTo};
ghost use Rattle.std.proofs.Common.{sym};

use crate::counter::Counter;
use crate::numbers::Numbers;
use crate::row_check::RowCheck;
use desk_model::{AccountRow, Jwk};
use std::alloc::{AllocError, Global};
use store_columns::AccountColumns;

/// Checks that numbers ascend, that none is above the last one given, and that no key stands twice; keeps the numbers.
#[derive(Drop)]
pub struct AccountCheck {
    counter: Counter,
    numbers: Numbers,
    keys: Vec<Jwk>,
}

impl AccountCheck {
    /// Before the first row; the last number given.
    pub fn new(alloc: Global, last: u64) -> AccountCheck
        ensures counter { result.counter ≡ record { top = 0; last = last } }
        ensures numbers { result.numbers ≡ [] }
        ensures keys { result.keys.items ≡ [] }
    {
        AccountCheck {
            counter: Counter::new(last),
            numbers: Numbers::new(alloc),
            keys: Vec::new(alloc),
        }
    }
}

impl RowCheck<AccountColumns> for AccountCheck {
    type Kept = Numbers;

    ghost Passed = { λ first now rows. IsUpTo (λ a. a.number) first.counter now.counter rows × (now.numbers ≡ map (λ a. a.number) rows)
        × (now.keys.items ≡ map (λ a. a.key) rows) };

    ghost IsWhole = { λ first rows kept. AreAccounts first.counter.last rows × (kept ≡ map (λ a. a.number) rows) };

    ghost AreAll = { λ first rows. AreAccounts first.counter.last rows };

    #[tactic(auto, using(crate::proofs::Steps::counts_on, crate::proofs::Steps::kept_more, crate::proofs::Steps::up_to_more))]
    fn passes(&mut self, row: &AccountRow) -> Result<bool, AllocError> {
        if !self.counter.passes(row.number) {
            return Ok(false);
        }
        self.numbers.push(row.number)?;
        self.keys.push(row.key.clone()?)?;
        Ok(true)
    }

    fn finish(self, alloc: Global) -> Result<Option<Numbers>, AllocError> {
        if !have_distinct_texts(alloc, &self.keys)? {
            return Ok(None);
        }
        Ok(Some(self.numbers))
    }

    ghost passed_alike = { λ first now rows row other same passed. rw same at passed };

    ghost all_alike = { λ first rows rest row other same all. rw (sym same) at all };
}

// Whether no key stands twice.
fn have_distinct_texts(alloc: Global, keys: &[Jwk]) -> Result<bool, AllocError>
    ensures { IfOk result (λ distinct. IsTrue distinct ↔ Distinct (λ key. key) keys.now) }
{
    let mut texts = Vec::new(alloc);
    for key in keys {
        texts.push(key.canonical())?;
    }
    Ok(are_distinct(texts))
}

// Whether a key stands before the next.
fn precedes<K: Ord>(key: &K, next: &K) -> bool
    ensures { result ≡ is_lt (K.cmp key.now next.now) }
{
    key.cmp(next).is_lt()
}

// Whether no key stands twice.
fn are_distinct<K: Ord + Drop>(mut keys: Vec<K>) -> bool
    ensures { IsTrue result ↔ IsDistinct (eq_by_cmp K.cmp) keys.items }
{
    keys.sort_unstable();
    keys.is_sorted_by(precedes)
}
