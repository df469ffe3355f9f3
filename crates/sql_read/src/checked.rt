//! The rows of all tables, read and checked one after the other: whether they are known to be those of a book.
ghost use Rattle.std.specs.Prelude.{◌≡◌, ◌⊎◌, [], ◌∷◌, false, IfErr, IfOk, IfSome, IsTrue, List, None, OnOk, map};
ghost use Rattle.sqlite.specs.State.{HasCleanDisk, IsUnchanged};
ghost use Rattle.sqlite.specs.Held.{state};
ghost use Rattle.sql_schema.specs.{Failing.IsFailure, Stays.Asks};
ghost use Rattle.sql_read.specs.Checking.{GoesOn, ShowsOnly, ShowsTable, Stops};
ghost use Rattle.sql_read.specs.Failures.{FailsHere, IsMet, IsOutOfMemory, IsReadable, MayRead, HasTexts};
ghost use Rattle.sql_read.specs.{Selecting.IsQuery, AllTables.FailsAtTable, Held.ForHeld, Shown.AreShown, declared.formats.Format.TheVariants.Second as second};
ghost use Rattle.store_columns.specs.declared.columns.StoredRows.{StoredRows};
ghost use Rattle.store_columns.specs.Laws.{AreToldApart};
ghost use Rattle.desk_model.specs.{Kept.EachOf, Tables.Tables};
ghost use Rattle.sql_read.specs.BookShown.{Checks, ShowsAccounts, ShowsAuthorizations, ShowsBookRows, ShowsChallenges, ShowsKeys, ShowsListed, ShowsNonces};
ghost use Rattle.sql_read.specs.BookShown.{ShowsOrders};
ghost use Rattle.store_book.specs.{BookRows.answered_numbers, IsBook.IsBookOfStored, IsBook.IsStoredBook};
ghost use Rattle.sql_read.specs.Only.{ShowsOnlyBook, ShowsOnlyMetas};

use crate::formats::Format;
use crate::rows::Selected;
use desk_model::Counters;
use sql_schema::{accounts, authorizations, challenges, keys, listed, meta, nonces, orders};
use sqlite::{Alter, Connection, Error, ErrorCode, Row};
use std::alloc::Global;
use store_book::{
    AccountCheck, ChallengeCheck, KeyCheck, ListedCheck, MetaCheck, NonceCheck, Numbers,
    OwnedCheck, RowCheck,
};
use store_columns::{
    AccountColumns, AuthzColumns, ChallColumns, ChallKeyColumns, MetaColumns, NonceColumns,
    OrderAuthzColumns, OrderColumns,
};

// ---- those of one table

// Whether the next row is one in its limits that passes.
fn check_row<C: Selected, K: RowCheck<C>>(
    alloc: Global,
    row: &Row,
    check: &mut K,
) -> Result<bool, Error>
    requires apart { AreToldApart C.Columns.write C.Columns.IsStored }
    ensures passed { IfOk result (λ passes. IsTrue passes → (found : C.Row) × C.Columns.IsStored found × (C.spelled row.now ≡ C.Columns.write found)
        × GoesOn K.Passed check.old check.new (found ∷ [])) }
    ensures stopped { IfOk result (λ passes. passes ≡ false → C.Fits row.now → (found : C.Row) → C.Columns.IsStored found
        → C.spelled row.now ≡ C.Columns.write found → Stops K.Passed K.AreAll check.old found) }
    ensures fails { IfErr result IsOutOfMemory }
{
    let Some(like) = C::like(alloc, row)? else {
        return Ok(false);
    };
    Ok(check.passes(&like)?)
}

// Whether each row that a query shows passes, one after the other; the first that does not ends the query. More rows than can be
// counted fail as what memory has no room for.
#[tactic(auto, using(crate::proofs::Streaming::asks_begun, crate::proofs::Streaming::asks_refused, crate::proofs::Streaming::begun_query, crate::proofs::Results::failed_as, crate::proofs::Streaming::given_all, crate::proofs::Streaming::given_none, std::proofs::Common::inl, std::proofs::Common::inr, crate::proofs::MetFaults::met_behind, crate::proofs::Streaming::met_refused, crate::proofs::MetFaults::query_met, crate::proofs::Streaming::refused_query, crate::proofs::Streaming::stops_all))]
fn check_each<S: Alter, C: Selected, K: RowCheck<C>>(
    alloc: Global,
    conn: &mut Connection<S>,
    text: &str,
    check: &mut K,
) -> Result<bool, Error>
    requires query { IsQuery text.now }
    requires apart { AreToldApart C.Columns.write C.Columns.IsStored }
    ensures passed { HasCleanDisk (state S.Store conn.new) → IfOk result (λ passes. IsTrue passes
        → ShowsTable S.Store text.now C.spelled C.Columns.write C.Columns.IsStored (state S.Store conn.old).now (GoesOn K.Passed check.old check.new)) }
    ensures stopped { HasCleanDisk (state S.Store conn.new) → IfOk result (λ passes. passes ≡ false → (all : List C.Row) → EachOf C.Columns.IsStored all
        → ShowsOnly S.Store text.now C.spelled C.Columns.write C.Fits (state S.Store conn.old).now all → K.Passed check.old check.old []
        → K.AreAll check.old all → ⊥) }
    ensures fails { HasCleanDisk (state S.Store conn.new) → MayRead (state S.Store conn.old) → IsReadable S.Store conn.old text.now C.Fits
        → IfErr result IsFailure }
    ensures refused { HasCleanDisk (state S.Store conn.new) → IfErr result (λ e. IsOutOfMemory e ⊎ FailsHere S.Store conn.old text.now C.Fits e) }
    ensures met { HasCleanDisk (state S.Store conn.new) → IfErr result (IsMet (state S.Store conn.old) (state S.Store conn.new)) }
    ensures unchanged { HasCleanDisk (state S.Store conn.new) → OnOk result (IsUnchanged (state S.Store conn.old) (state S.Store conn.new)) }
    ensures asks { Asks (state S.Store conn.old) (state S.Store conn.new) }
{
    let mut rows = conn.query(text, &[])?;
    for _ in 0..u64::MAX {
        let Some(row) = rows.next()? else {
            return Ok(true);
        };
        if !check_row(alloc, row, check)? {
            return Ok(false);
        }
    }
    Err(Error::SqliteFailure(ErrorCode::OutOfMemory))
}

/// What is kept of the table that a query shows, or `None` where its rows are no whole table, and then it shows no other; the rows
/// are read one after the other, up to the first that does not pass.
///
/// # Errors
///
/// The engine's; the connection is as it was, or what was not committed is undone.
pub fn check_table<S: Alter, C: Selected, K: RowCheck<C>>(
    alloc: Global,
    conn: &mut Connection<S>,
    text: &str,
    check: K,
) -> Result<Option<K::Kept>, Error>
    requires query { IsQuery text.now }
    requires apart { AreToldApart C.Columns.write C.Columns.IsStored }
    requires begun { K.Passed check check [] }
    ensures whole { HasCleanDisk (state S.Store conn.new) → IfOk result (λ kept. IfSome kept (λ kept.
        ShowsTable S.Store text.now C.spelled C.Columns.write C.Columns.IsStored (state S.Store conn.old).now (λ rows. K.IsWhole check rows kept))) }
    ensures none { HasCleanDisk (state S.Store conn.new) → IfOk result (λ kept. kept ≡ None → (all : List C.Row) → EachOf C.Columns.IsStored all
        → ShowsOnly S.Store text.now C.spelled C.Columns.write C.Fits (state S.Store conn.old).now all → K.AreAll check all → ⊥) }
    ensures fails { HasCleanDisk (state S.Store conn.new) → MayRead (state S.Store conn.old) → IsReadable S.Store conn.old text.now C.Fits
        → IfErr result IsFailure }
    ensures refused { HasCleanDisk (state S.Store conn.new) → IfErr result (λ e. IsOutOfMemory e ⊎ FailsHere S.Store conn.old text.now C.Fits e) }
    ensures met { HasCleanDisk (state S.Store conn.new) → IfErr result (IsMet (state S.Store conn.old) (state S.Store conn.new)) }
    ensures unchanged { HasCleanDisk (state S.Store conn.new) → OnOk result (IsUnchanged (state S.Store conn.old) (state S.Store conn.new)) }
    ensures asks { Asks (state S.Store conn.old) (state S.Store conn.new) }
{
    let mut check = check;
    if !check_each(alloc, conn, text, &mut check)? {
        return Ok(None);
    }
    Ok(check.finish(alloc)?)
}

// ---- those of all

// Each of these reads one table and then those below it, up to the first row that does not pass.

fn check_keys<S: Alter>(
    alloc: Global,
    conn: &mut Connection<S>,
    answered: &Numbers,
) -> Result<bool, Error>
    ensures { Checks S.Store second conn.old conn.new (λ db. ShowsKeys S.Store db answered.now)
        (λ _ meta rows. answered.now ≡ answered_numbers rows.challenges) result }
{
    let check = KeyCheck::new(answered);
    let Some(()) = check_table::<S, ChallKeyColumns, _>(alloc, conn, keys::SELECT, check)? else {
        return Ok(false);
    };
    Ok(true)
}

fn check_challenges<S: Alter>(
    alloc: Global,
    conn: &mut Connection<S>,
    format: Format,
    last: Counters,
    authorizations: &Numbers,
) -> Result<bool, Error>
    ensures { Checks S.Store format conn.old conn.new (λ db. ShowsChallenges S.Store db format last authorizations.now)
        (λ _ meta rows. (last ≡ meta.counters) × (authorizations.now ≡ map (λ a. a.number) rows.authorizations)) result }
{
    let check = ChallengeCheck::new(alloc, last.challenges, authorizations);
    let Some(answered) = check_table::<S, ChallColumns, _>(alloc, conn, challenges::SELECT, check)?
    else {
        return Ok(false);
    };
    match format {
        Format::First => Ok(true),
        Format::Second => check_keys(alloc, conn, &answered),
    }
}

fn check_listed<S: Alter>(
    alloc: Global,
    conn: &mut Connection<S>,
    format: Format,
    last: Counters,
    orders: &Numbers,
    authorizations: &Numbers,
) -> Result<bool, Error>
    ensures { Checks S.Store format conn.old conn.new (λ db. ShowsListed S.Store db format last orders.now authorizations.now)
        (λ _ meta rows. (last ≡ meta.counters) × (orders.now ≡ map (λ o. o.number) rows.orders)
        × (authorizations.now ≡ map (λ a. a.number) rows.authorizations)) result }
{
    let check = ListedCheck::new(orders, authorizations);
    let Some(()) = check_table::<S, OrderAuthzColumns, _>(alloc, conn, listed::SELECT, check)?
    else {
        return Ok(false);
    };
    check_challenges(alloc, conn, format, last, authorizations)
}

fn check_authorizations<S: Alter>(
    alloc: Global,
    conn: &mut Connection<S>,
    format: Format,
    last: Counters,
    accounts: &Numbers,
    orders: &Numbers,
) -> Result<bool, Error>
    ensures { Checks S.Store format conn.old conn.new (λ db. ShowsAuthorizations S.Store db format last accounts.now orders.now)
        (λ _ meta rows. (last ≡ meta.counters) × (accounts.now ≡ map (λ a. a.number) rows.accounts)
        × (orders.now ≡ map (λ o. o.number) rows.orders)) result }
{
    let check = OwnedCheck::new(alloc, last.authorizations, accounts);
    let Some(authorizations) = check_table::<S, AuthzColumns, _>(
        alloc,
        conn,
        authorizations::SELECT,
        check,
    )?
    else {
        return Ok(false);
    };
    check_listed(alloc, conn, format, last, orders, &authorizations)
}

fn check_orders<S: Alter>(
    alloc: Global,
    conn: &mut Connection<S>,
    format: Format,
    last: Counters,
    accounts: &Numbers,
) -> Result<bool, Error>
    ensures { Checks S.Store format conn.old conn.new (λ db. ShowsOrders S.Store db format last accounts.now)
        (λ _ meta rows. (last ≡ meta.counters) × (accounts.now ≡ map (λ a. a.number) rows.accounts)) result }
{
    let check = OwnedCheck::new(alloc, last.orders, accounts);
    let Some(orders) = check_table::<S, OrderColumns, _>(alloc, conn, orders::SELECT, check)? else {
        return Ok(false);
    };
    check_authorizations(alloc, conn, format, last, accounts, &orders)
}

fn check_accounts<S: Alter>(
    alloc: Global,
    conn: &mut Connection<S>,
    format: Format,
    last: Counters,
) -> Result<bool, Error>
    ensures { Checks S.Store format conn.old conn.new (λ db. ShowsAccounts S.Store db format last)
        (λ _ meta rows. last ≡ meta.counters) result }
{
    let check = AccountCheck::new(alloc, last.accounts);
    let Some(accounts) = check_table::<S, AccountColumns, _>(alloc, conn, accounts::SELECT, check)?
    else {
        return Ok(false);
    };
    check_orders(alloc, conn, format, last, &accounts)
}

/// As `has_book_rows`, of all tables but `meta`, in this format; the last numbers given.
pub(crate) fn check_nonces<S: Alter>(
    alloc: Global,
    conn: &mut Connection<S>,
    format: Format,
    last: Counters,
) -> Result<bool, Error>
    ensures { Checks S.Store format conn.old conn.new (λ db. ShowsNonces S.Store db format last)
        (λ _ meta rows. last ≡ meta.counters) result }
{
    let check = NonceCheck::new(last.nonces);
    let Some(()) = check_table::<S, NonceColumns, _>(alloc, conn, nonces::SELECT, check)? else {
        return Ok(false);
    };
    check_accounts(alloc, conn, format, last)
}

fn check_meta<S: Alter>(alloc: Global, conn: &mut Connection<S>) -> Result<bool, Error>
    ensures { Checks S.Store second conn.old conn.new (λ db. ShowsBookRows S.Store db)
        (λ db meta rows. ShowsOnlyMetas S.Store db rows.metas) result }
{
    let check = MetaCheck::new();
    let Some(last) = check_table::<S, MetaColumns, _>(alloc, conn, meta::SELECT, check)? else {
        return Ok(false);
    };
    check_nonces(alloc, conn, Format::Second, last)
}

/// Whether the rows of the tables are those of a book: in the order of their keys each passes; they are read up to the first that
/// does not. One row is held at a time, and of the rows before it the numbers and the keys of accounts.
///
/// # Errors
///
/// The engine's; the connection is as it was, or what was not committed is undone.
pub fn has_book_rows<S: Alter>(alloc: Global, conn: &mut Connection<S>) -> Result<bool, Error>
    ensures book { HasCleanDisk (state S.Store conn.new) → IfOk result (λ answer. IsTrue answer
        → (stored : StoredRows) × AreShown S.Store conn.old stored × (T : Tables) × IsBookOfStored stored T) }
    ensures none { HasCleanDisk (state S.Store conn.new) → IfOk result (λ answer. answer ≡ false → (T : Tables)
        → ShowsOnlyBook S.Store (state S.Store conn.old).now T → ⊥) }
    ensures found { ForHeld (state S.Store conn.old) (state S.Store conn.new) (λ T. IsStoredBook T → IfOk result IsTrue) }
    ensures fails { ForHeld (state S.Store conn.old) (state S.Store conn.new) (λ T. MayRead (state S.Store conn.old) → HasTexts T → IfErr result IsFailure) }
    ensures refused { HasCleanDisk (state S.Store conn.new) → IfErr result (λ e. IsOutOfMemory e ⊎ FailsAtTable S.Store conn.old e) }
    ensures met { HasCleanDisk (state S.Store conn.new) → IfErr result (IsMet (state S.Store conn.old) (state S.Store conn.new)) }
    ensures unchanged { HasCleanDisk (state S.Store conn.new) → OnOk result (IsUnchanged (state S.Store conn.old) (state S.Store conn.new)) }
    ensures asks { Asks (state S.Store conn.old) (state S.Store conn.new) }
{
    check_meta(alloc, conn)
}
