//! Authorizations, each with its challenges, read from the rows of answers and looked up.
ghost use Rattle.std.specs.Prelude.{◌≡◌, ◌<◌, IfErr, IfOk};
ghost use Rattle.store_columns.specs.{Flat.without_challenges};
ghost use Rattle.model_parts.specs.Above.{authorizations_above, challenges_above, first_of};
ghost use Rattle.model_parts.specs.LookUps.{authorizations_where, bare_authorizations};
ghost use Rattle.sql_read.specs.Earliest.{TellsEarliest, authorization_ends};
ghost use Rattle.sql_read.specs.Failures.{IsOfNoDevice, IsOutOfMemory};
ghost use Rattle.sql_read.specs.Looking.{LooksUp};
ghost use Rattle.sql_read.specs.{Queries.asked, Queries.authorization_query, Under.HasItsChallenges};
ghost use Rattle.sql_read.specs.Spelled.{FitsAuthorization, FitsAuthorizationFrom, FitsChallenge, authorization_from, authorization_in, challenge_in};

use crate::answers::KeyedColumns;
use crate::fault::ReadFault;
use crate::rows::{Parted, Query, Selected, earliest, find_rows, find_wholes, without_owners};
use crate::values::{both, bytes, number_or_none, numbers, numbers_or_none, text, text_or_none};
use desk_model::{AuthorizationRow, AuthzStatus, ChallengeRow, Sequence};
use model_parts::AuthorizationsWhere;
use sql_schema::{authorizations, challenges};
use sqlite::{Alter, Connection, Error, Row};
use std::alloc::Global;
use store_columns::{AuthzColumns, ChallColumns};

/// The columns of an authorization, in a row from this place on.
pub(crate) fn authz_columns(row: &Row, from: usize) -> Result<AuthzColumns, Error>
    requires { from < 100 }
    ensures read { IfOk result (λ c. c ≡ authorization_from from row.now) }
    ensures fails { FitsAuthorizationFrom from row.now → IfErr result IsOutOfMemory }
    ensures kind { IfErr result IsOfNoDevice }
{
    let places = [from, from + 1, from + 3, from + 4, from + 5];
    let [num, account, wildcard, made, expires] = numbers(row, places)?;
    let ended = number_or_none(row, from + 6)?;
    let (name, (end_kind, status)) = both(
        text(row, from + 2),
        both(text_or_none(row, from + 7), text(row, from + 8)),
    )?;
    Ok(AuthzColumns {
        num,
        account,
        name,
        wildcard,
        made,
        expires,
        ended,
        end_kind,
        status,
    })
}

impl Selected for AuthzColumns {
    ghost spelled = { authorization_in };

    ghost Fits = { FitsAuthorization };

    fn of(row: &Row) -> Result<AuthzColumns, Error> {
        authz_columns(row, 0)
    }
}

impl Selected for ChallColumns {
    ghost spelled = { challenge_in };

    ghost Fits = { FitsChallenge };

    fn of(row: &Row) -> Result<ChallColumns, Error> {
        let [num, authz] = numbers(row, [0, 1])?;
        let [answered, reported] = numbers_or_none(row, [4, 5])?;
        let ((kind, token), (outcome, status)) = both(
            both(text(row, 2), bytes(row, 3)),
            both(text_or_none(row, 6), text(row, 7)),
        )?;
        Ok(ChallColumns {
            num,
            authz,
            kind,
            token,
            answered,
            reported,
            outcome,
            status,
        })
    }
}

// An authorization, which has its challenges in another table.
impl Parted for AuthorizationRow {
    type Whole = AuthorizationRow;

    ghost bare = { without_challenges };

    ghost HasItsPart = { λ T. HasItsChallenges T.authorizations };

    fn complete<S: Alter>(
        self,
        alloc: Global,
        conn: &mut Connection<S>,
    ) -> Result<AuthorizationRow, ReadFault> {
        let query = Query::number(challenges::SELECT_OF, self.number);
        let rows = find_wholes::<S, KeyedColumns, _>(alloc, conn, query)?;
        let challenges = Sequence::new(without_owners(alloc, rows)?);
        Ok(AuthorizationRow { challenges, ..self })
    }
}

// The query, with its text and its parameters.
fn query_of<'a>(which: AuthorizationsWhere<'a>) -> Query<'a>
    ensures { asked result ≡ authorization_query which.entry }
{
    match which {
        AuthorizationsWhere::Any => Query::all(authorizations::SELECT),
        AuthorizationsWhere::Number(number) => {
            Query::number(authorizations::SELECT_NUMBERED, number)
        }
        AuthorizationsWhere::Account(account) => Query::number(authorizations::SELECT_OF, account),
        AuthorizationsWhere::Named(account, base) => {
            Query::number_and_text(authorizations::SELECT_NAMED, account, base)
        }
        AuthorizationsWhere::Past(status, moment) => {
            Query::text_and_number(authorizations::SELECT_PAST, status.as_str(), moment)
        }
    }
}

/// The authorizations of a query, by number, each with its challenges.
///
/// # Errors
///
/// As of each reading (`lib.rt`).
pub fn find_authorizations<S: Alter>(
    alloc: Global,
    conn: &mut Connection<S>,
    which: AuthorizationsWhere<'_>,
) -> Result<Vec<AuthorizationRow>, ReadFault>
    ensures { LooksUp S.Store conn.old conn.new (λ T rows. rows.items ≡ authorizations_where T which.entry) result }
{
    find_wholes::<S, AuthzColumns, _>(alloc, conn, query_of(which))
}

/// The authorization of a number, without its challenges.
///
/// # Errors
///
/// As of each reading (`lib.rt`).
pub fn bare_authorizations<S: Alter>(
    alloc: Global,
    conn: &mut Connection<S>,
    number: u64,
) -> Result<Vec<AuthorizationRow>, ReadFault>
    ensures { LooksUp S.Store conn.old conn.new (λ T rows. rows.items ≡ bare_authorizations T number) result }
{
    let query = Query::number(authorizations::SELECT_NUMBERED, number);
    find_rows::<S, AuthzColumns>(alloc, conn, query)
}

/// The authorization of the least number above this one, if there is one.
///
/// # Errors
///
/// As of each reading (`lib.rt`).
pub fn authorization_above<S: Alter>(
    alloc: Global,
    conn: &mut Connection<S>,
    number: u64,
) -> Result<Vec<AuthorizationRow>, ReadFault>
    ensures { LooksUp S.Store conn.old conn.new (λ T rows. rows.items ≡ first_of (authorizations_above T number)) result }
{
    let query = Query::number(authorizations::SELECT_ABOVE, number);
    find_wholes::<S, AuthzColumns, _>(alloc, conn, query)
}

/// The challenge of the least number above this one, of whatever authorization, if there is one.
///
/// # Errors
///
/// As of each reading (`lib.rt`).
pub fn challenge_above<S: Alter>(
    alloc: Global,
    conn: &mut Connection<S>,
    number: u64,
) -> Result<Vec<ChallengeRow>, ReadFault>
    ensures { LooksUp S.Store conn.old conn.new (λ T rows. rows.items ≡ first_of (challenges_above T number)) result }
{
    let query = Query::number(challenges::SELECT_ABOVE, number);
    let rows = find_wholes::<S, KeyedColumns, _>(alloc, conn, query)?;
    without_owners(alloc, rows)
}

/// The earliest end, in seconds since 1970, of an authorization of a stored status, or `None` where there is none.
///
/// # Errors
///
/// As of each reading (`lib.rt`).
pub fn earliest_authorization_end<S: Alter>(
    conn: &mut Connection<S>,
    status: AuthzStatus,
) -> Result<Option<u64>, ReadFault>
    ensures { TellsEarliest S.Store conn.old conn.new (λ T. authorization_ends T status) result }
{
    earliest(
        conn,
        Query::text(authorizations::SELECT_EARLIEST, status.as_str()),
    )
}
