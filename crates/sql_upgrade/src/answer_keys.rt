//! The keys of all answers in format 1, those that the accounts have, by rows that are read one after the other.
ghost use Rattle.std.specs.Prelude.{◌⊎◌, MatchOption};
ghost use Rattle.sqlite.specs.Held.{state};
ghost use Rattle.sql_read.specs.{AllTables.FailsAtFirst, Failures.IsOutOfMemory, FirstRows.IsFirstReadable, Reads.Reads};
ghost use Rattle.sql_upgrade.specs.FoundKeys.{LacksAnswers, LacksOwners, LacksThumbs, ShowsAnswers, ShowsOwners, ShowsThumbs};

use crate::key_checks::{AccountThumb, AnswerCheck, AuthorizationAccount, OwnerCheck, ThumbCheck};
use desk_book::Table;
use sql_read::check_table;
use sql_schema::{accounts, authorizations, challenges};
use sqlite::{Alter, Connection, Error};
use std::alloc::Global;
use store_columns::{AccountColumns, AnswerKey, AuthzColumns, ChallColumns};

// The keys of the challenges, by the accounts of authorizations and the thumbprints of their keys.
fn keys_of_challenges<S: Alter>(
    alloc: Global,
    conn: &mut Connection<S>,
    accounts: &Table<AuthorizationAccount>,
    thumbs: &Table<AccountThumb>,
) -> Result<Option<Vec<AnswerKey>>, Error>
    ensures { Reads S.Store conn.old conn.new
        (λ found. MatchOption found (LacksAnswers S.Store (state S.Store conn.old).now accounts.now thumbs.now)
        (λ keys. ShowsAnswers S.Store (state S.Store conn.old).now accounts.now thumbs.now keys.items))
        (IsFirstReadable S.Store conn.old) (λ e. IsOutOfMemory e ⊎ FailsAtFirst S.Store conn.old e) result }
{
    let check = AnswerCheck::new(alloc, accounts, thumbs);
    check_table::<S, ChallColumns, _>(alloc, conn, challenges::SELECT, check)
}

// The keys of the challenges of all authorizations, by the thumbprints of the keys of their accounts.
#[tactic(auto, using(sql_read::proofs::FirstTables::authorizations_selected, sql_read::proofs::FirstTables::first_authorizations, std::proofs::Common::inl, std::proofs::Common::inr, sql_read::proofs::FirstChecked::reads_ok, crate::proofs::KeyReadings::table_failed))]
fn keys_of_authorizations<S: Alter>(
    alloc: Global,
    conn: &mut Connection<S>,
    thumbs: &Table<AccountThumb>,
) -> Result<Option<Vec<AnswerKey>>, Error>
    ensures { Reads S.Store conn.old conn.new
        (λ found. MatchOption found (LacksOwners S.Store (state S.Store conn.old).now thumbs.now)
        (λ keys. ShowsOwners S.Store (state S.Store conn.old).now thumbs.now keys.items))
        (IsFirstReadable S.Store conn.old) (λ e. IsOutOfMemory e ⊎ FailsAtFirst S.Store conn.old e) result }
{
    let check = OwnerCheck::new(alloc);
    match check_table::<S, AuthzColumns, _>(alloc, conn, authorizations::SELECT, check) {
        Ok(Some(accounts)) => keys_of_challenges(alloc, conn, &accounts, thumbs),
        Ok(None) => Ok(None),
        Err(error) => Err(error),
    }
}

/// The keys of all answers, by number, each the one that the account has, if each account is found. Of the rows one is held at a
/// time, and of accounts and authorizations numbers and thumbprints.
///
/// # Errors
///
/// The engine's; the connection is as it was, or what was not committed is undone.
pub(crate) fn read_keys<S: Alter>(
    alloc: Global,
    conn: &mut Connection<S>,
) -> Result<Option<Vec<AnswerKey>>, Error>
    ensures { Reads S.Store conn.old conn.new
        (λ found. MatchOption found (LacksThumbs S.Store (state S.Store conn.old).now)
        (λ keys. ShowsThumbs S.Store (state S.Store conn.old).now keys.items))
        (IsFirstReadable S.Store conn.old) (λ e. IsOutOfMemory e ⊎ FailsAtFirst S.Store conn.old e) result }
{
    let check = ThumbCheck::new(alloc);
    match check_table::<S, AccountColumns, _>(alloc, conn, accounts::SELECT, check) {
        Ok(Some(thumbs)) => keys_of_authorizations(alloc, conn, &thumbs),
        Ok(None) => Ok(None),
        Err(error) => Err(error),
    }
}
