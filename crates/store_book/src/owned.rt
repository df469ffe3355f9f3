//! The rows of `ord`, `authz` and `chall`, each of which belongs to another.
ghost use Rattle.std.specs.Prelude.{◌≡◌, ◌<◌, ◌≤◌, ◌++◌, [], ◌∷◌, IfOk, IsTrue, OnOk, map, option_to_list};
ghost use Rattle.desk_model.specs.Kept.{EachOf};
ghost use Rattle.store_book.specs.BookRows.{AreAuthorizations, AreChallenges, AreOrders, IsAmong, Rise, answered_number, answered_numbers};
ghost use Rattle.store_book.specs.Passing.{Counts, IsUpTo};
ghost use Rattle.store_book.specs.Alike.{each_alike, owned_alike, table_alike};
ghost use Rattle.std.proofs.Common.{subst, sym};

use crate::counter::Counter;
use crate::numbers::Numbers;
use crate::row_check::RowCheck;
use desk_model::{AuthorizationRow, OrderRow};
use std::alloc::{AllocError, Global};
use store_columns::{AuthzColumns, BareChallenge, ChallColumns, OrderColumns, Owned};

/// Checks that numbers ascend, that none is above the last one given, and that each row belongs to one of these; keeps the numbers.
#[derive(Drop)]
pub struct OwnedCheck<'a> {
    counter: Counter,
    owners: &'a Numbers,
    numbers: Numbers,
}

impl<'a> OwnedCheck<'a> {
    /// Before the first row; the last number given, and the rows to which these may belong.
    pub fn new(alloc: Global, last: u64, owners: &'a Numbers) -> OwnedCheck<'a>
        ensures counter { result.counter ≡ record { top = 0; last = last } }
        ensures owners { result.owners.now ≡ owners.now }
        ensures numbers { result.numbers ≡ [] }
    {
        OwnedCheck {
            counter: Counter::new(last),
            owners,
            numbers: Numbers::new(alloc),
        }
    }

    // Whether the row of this number, which belongs to that one, passes.
    fn takes(&mut self, number: u64, owner: u64) -> Result<bool, AllocError>
        ensures counts { IfOk result (λ passes. IsTrue passes → Counts self.old.counter number self.new.counter) }
        ensures numbers { IfOk result (λ passes. IsTrue passes → self.new.numbers ≡ self.old.numbers ++ number ∷ []) }
        ensures among { IfOk result (λ passes. IsTrue passes → IsAmong self.old.owners.now owner) }
        ensures fine { IfOk result (λ passes. self.old.counter.top < number → number ≤ self.old.counter.last
            → Rise self.old.owners.now → IsAmong self.old.owners.now owner → IsTrue passes) }
        ensures owners { self.new.owners.now ≡ self.old.owners.now }
    {
        if !self.counter.passes(number) || !self.owners.has(owner) {
            return Ok(false);
        }
        self.numbers.push(number)?;
        Ok(true)
    }
}

impl<'a> RowCheck<OrderColumns> for OwnedCheck<'a> {
    type Kept = Numbers;

    ghost Passed = { λ first now rows. IsUpTo (λ o. o.number) first.counter now.counter rows × (now.numbers ≡ map (λ o. o.number) rows)
        × (now.owners.now ≡ first.owners.now) × EachOf (λ o. IsAmong first.owners.now o.account) rows };

    ghost IsWhole = { λ first rows kept. AreOrders first.counter.last first.owners.now rows × (kept ≡ map (λ o. o.number) rows) };

    ghost AreAll = { λ first rows. Rise first.owners.now × AreOrders first.counter.last first.owners.now rows };

    fn passes(&mut self, row: &OrderRow) -> Result<bool, AllocError> {
        self.takes(row.number, row.account)
    }

    fn finish(self, _alloc: Global) -> Result<Option<Numbers>, AllocError> {
        Ok(Some(self.numbers))
    }

    ghost passed_alike = { λ first now rows row other same passed. owned_alike row other (λ o. o.number) (λ o. o.account) first.counter now.counter
        now.owners.now first.owners.now now.numbers rows same.number same.account passed };

    ghost all_alike = { λ first rows rest row other same all. (
      all.0,
      record {
        table = table_alike row other (λ o. o.number) first.counter.last rows rest (sym same.number) all.1.table;
        accounts_found = each_alike row other (λ o. IsAmong first.owners.now o.account) rows rest (subst (IsAmong first.owners.now) (sym same.account)) all.1.accounts_found;
      },
    ) };
}

impl<'a> RowCheck<AuthzColumns> for OwnedCheck<'a> {
    type Kept = Numbers;

    ghost Passed = { λ first now rows. IsUpTo (λ a. a.number) first.counter now.counter rows × (now.numbers ≡ map (λ a. a.number) rows)
        × (now.owners.now ≡ first.owners.now) × EachOf (λ a. IsAmong first.owners.now a.account) rows };

    ghost IsWhole = { λ first rows kept. AreAuthorizations first.counter.last first.owners.now rows × (kept ≡ map (λ a. a.number) rows) };

    ghost AreAll = { λ first rows. Rise first.owners.now × AreAuthorizations first.counter.last first.owners.now rows };

    fn passes(&mut self, row: &AuthorizationRow) -> Result<bool, AllocError> {
        self.takes(row.number, row.account)
    }

    fn finish(self, _alloc: Global) -> Result<Option<Numbers>, AllocError> {
        Ok(Some(self.numbers))
    }

    ghost passed_alike = { λ first now rows row other same passed. rw same at passed };

    ghost all_alike = { λ first rows rest row other same all. rw (sym same) at all };
}

/// Checks that numbers ascend, that none is above the last one given, and that each challenge is of one of these authorizations;
/// keeps the numbers of those that were answered.
#[derive(Drop)]
pub struct ChallengeCheck<'a> {
    counter: Counter,
    authorizations: &'a Numbers,
    answered: Numbers,
}

impl<'a> ChallengeCheck<'a> {
    /// Before the first row; the last number given, and the authorizations.
    pub fn new(alloc: Global, last: u64, authorizations: &'a Numbers) -> ChallengeCheck<'a>
        ensures counter { result.counter ≡ record { top = 0; last = last } }
        ensures authorizations { result.authorizations.now ≡ authorizations.now }
        ensures answered { result.answered ≡ [] }
    {
        ChallengeCheck {
            counter: Counter::new(last),
            authorizations,
            answered: Numbers::new(alloc),
        }
    }
}

// Pushes the number of a challenge that was answered.
fn push_answered(numbers: &mut Numbers, row: &Owned<BareChallenge>) -> Result<(), AllocError>
    ensures { OnOk result (numbers.new ≡ numbers.old ++ option_to_list (answered_number row.now)) }
{
    if row.row.answered.is_none() {
        return Ok(());
    }
    numbers.push(row.row.number)
}

impl<'a> RowCheck<ChallColumns> for ChallengeCheck<'a> {
    type Kept = Numbers;

    ghost Passed = { λ first now rows. IsUpTo (λ c. c.row.number) first.counter now.counter rows × (now.answered ≡ answered_numbers rows)
        × (now.authorizations.now ≡ first.authorizations.now) × EachOf (λ c. IsAmong first.authorizations.now c.owner) rows };

    ghost IsWhole = { λ first rows kept. AreChallenges first.counter.last first.authorizations.now rows × (kept ≡ answered_numbers rows) };

    ghost AreAll = { λ first rows. Rise first.authorizations.now × AreChallenges first.counter.last first.authorizations.now rows };

    fn passes(&mut self, row: &Owned<BareChallenge>) -> Result<bool, AllocError> {
        if !self.counter.passes(row.row.number) || !self.authorizations.has(row.owner) {
            return Ok(false);
        }
        push_answered(&mut self.answered, row)?;
        Ok(true)
    }

    fn finish(self, _alloc: Global) -> Result<Option<Numbers>, AllocError> {
        Ok(Some(self.answered))
    }

    ghost passed_alike = { λ first now rows row other same passed. rw same at passed };

    ghost all_alike = { λ first rows rest row other same all. rw (sym same) at all };
}
