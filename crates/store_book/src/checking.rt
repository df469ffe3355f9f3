//! The rows of all tables, in the order of their keys, past their checks.
ghost use Rattle.std.specs.Prelude.{◌≡◌, [], MatchResult};
ghost use Rattle.desk_model.specs.declared.rows.Meta.{Meta};
ghost use Rattle.store_book.specs.{BookRows.AreBookRows, Passing.PlacedFrom};
ghost use Rattle.store_book.specs.declared.rows_fault.RowsFault.TheVariants.{NotABook};

use crate::accounts::AccountCheck;
use crate::keys::KeyCheck;
use crate::listed::ListedCheck;
use crate::meta::MetaCheck;
use crate::nonces::NonceCheck;
use crate::owned::{ChallengeCheck, OwnedCheck};
use crate::row_check::RowCheck;
use crate::rows_fault::RowsFault;
use std::alloc::Global;
use store_columns::{
    AccountColumns, AuthzColumns, ChallColumns, ChallKeyColumns, Columns, FlatRows, MetaColumns,
    NonceColumns, OrderAuthzColumns, OrderColumns,
};

// What is kept of the rows of a table, which pass one after the other.
fn check_rows<C: Columns, K: RowCheck<C>>(
    alloc: Global,
    rows: &[C::Row],
    check: K,
) -> Result<K::Kept, RowsFault>
    requires { K.Passed check check [] }
    ensures { MatchResult result
        (λ kept. K.IsWhole check rows.now kept)
        (λ fault. fault ≡ NotABook → K.AreAll check rows.now → ⊥) }
{
    let mut check = check;
    for row in rows {
        if !check.passes(row)? {
            return Err(RowsFault::NotABook);
        }
    }
    check.finish(alloc)?.ok_or(RowsFault::NotABook)
}

/// Checks that these rows, which stand table by table in the order of their keys, are those of a book.
///
/// # Errors
///
/// `NotABook` where they are not, `Memory` where there is none to tell.
pub(crate) fn check_tables(alloc: Global, rows: &FlatRows) -> Result<(), RowsFault>
    requires { PlacedFrom 0 0 rows.now.listed }
    ensures { MatchResult result
        (λ _. (meta : Meta) × AreBookRows meta rows.now)
        (λ fault. fault ≡ NotABook → (meta : Meta) → AreBookRows meta rows.now → ⊥) }
{
    let last = check_rows::<MetaColumns, _>(alloc, rows.metas.as_slice(), MetaCheck::new())?;
    let check = NonceCheck::new(last.nonces);
    check_rows::<NonceColumns, _>(alloc, rows.nonces.as_slice(), check)?;
    let check = AccountCheck::new(alloc, last.accounts);
    let accounts = check_rows::<AccountColumns, _>(alloc, rows.accounts.as_slice(), check)?;
    let check = OwnedCheck::new(alloc, last.orders, &accounts);
    let orders = check_rows::<OrderColumns, _>(alloc, rows.orders.as_slice(), check)?;
    let check = OwnedCheck::new(alloc, last.authorizations, &accounts);
    let authzs = check_rows::<AuthzColumns, _>(alloc, rows.authorizations.as_slice(), check)?;
    let check = ListedCheck::new(&orders, &authzs);
    check_rows::<OrderAuthzColumns, _>(alloc, rows.listed.as_slice(), check)?;
    let check = ChallengeCheck::new(alloc, last.challenges, &authzs);
    let answered = check_rows::<ChallColumns, _>(alloc, rows.challenges.as_slice(), check)?;
    let check = KeyCheck::new(&answered);
    check_rows::<ChallKeyColumns, _>(alloc, rows.keys.as_slice(), check)?;
    Ok(())
}
