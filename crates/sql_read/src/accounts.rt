//! Accounts, read from the rows of an answer and looked up.
ghost use Rattle.std.specs.Prelude.{◌≡◌};
ghost use Rattle.model_parts.specs.{Above.accounts_above, Above.first_of, LookUps.accounts_where};
ghost use Rattle.sql_read.specs.{Looking.LooksUp, Queries.account_query, Queries.asked};
ghost use Rattle.sql_read.specs.Spelled.{FitsAccount, account_in};

use crate::fault::ReadFault;
use crate::rows::{Query, Selected, find_rows};
use crate::values::{both, number_or_none, numbers, text, text_or_none};
use desk_model::AccountRow;
use model_parts::AccountsWhere;
use sql_schema::accounts;
use sqlite::{Alter, Connection, Error, Row};
use std::alloc::Global;
use store_columns::AccountColumns;

impl Selected for AccountColumns {
    ghost spelled = { account_in };

    ghost Fits = { FitsAccount };

    fn of(row: &Row) -> Result<AccountColumns, Error> {
        let [num, opened] = numbers(row, [0, 3])?;
        let ended = number_or_none(row, 4)?;
        let ((jwk, contacts), (end_kind, status)) = both(
            both(text(row, 1), text(row, 2)),
            both(text_or_none(row, 5), text(row, 6)),
        )?;
        Ok(AccountColumns {
            num,
            jwk,
            contacts,
            opened,
            ended,
            end_kind,
            status,
        })
    }
}

// The query, with its text and its parameters.
fn query_of<'a>(which: AccountsWhere<'a>) -> Query<'a>
    ensures { asked result ≡ account_query which.entry }
{
    match which {
        AccountsWhere::Any => Query::all(accounts::SELECT),
        AccountsWhere::Number(number) => Query::number(accounts::SELECT_NUMBERED, number),
        AccountsWhere::Key(key) => Query::text(accounts::SELECT_WITH_KEY, key.canonical()),
    }
}

/// The accounts of a query, by number.
///
/// # Errors
///
/// As of each reading (`lib.rt`).
pub fn find_accounts<S: Alter>(
    alloc: Global,
    conn: &mut Connection<S>,
    which: AccountsWhere<'_>,
) -> Result<Vec<AccountRow>, ReadFault>
    ensures { LooksUp S.Store conn.old conn.new (λ T rows. rows.items ≡ accounts_where T which.entry) result }
{
    find_rows::<S, AccountColumns>(alloc, conn, query_of(which))
}

/// The account of the least number above this one, if there is one.
///
/// # Errors
///
/// As of each reading (`lib.rt`).
pub fn account_above<S: Alter>(
    alloc: Global,
    conn: &mut Connection<S>,
    number: u64,
) -> Result<Vec<AccountRow>, ReadFault>
    ensures { LooksUp S.Store conn.old conn.new (λ T rows. rows.items ≡ first_of (accounts_above T number)) result }
{
    find_rows::<S, AccountColumns>(alloc, conn, Query::number(accounts::SELECT_ABOVE, number))
}
