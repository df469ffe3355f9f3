//! Authorizations, their challenges, and the keys of the answers to these, each written into a table of its own.
ghost use Rattle.std.specs.Prelude.{◌≡◌, IfErr, IfOk, IsOk, ℕ};
ghost use Rattle.sqlite.specs.Values.{bound, bound_value};
ghost use Rattle.sqlite_value.specs.Value.{owned};
ghost use Rattle.store_columns.specs.Columns.{authorization_columns, authorization_end_columns, challenge_columns, report_columns};
ghost use Rattle.sql_write.specs.Bound.{authorization_numbers, challenge_numbers};
ghost use Rattle.sql_write.specs.Fits.{FitsAuthorization, FitsChallenge, FitsKey};
ghost use Rattle.sql_write.specs.Makes.{Writes, AddsOrPuts};
ghost use Rattle.sql_write.specs.{Numbers.IsNotTooLarge, Refusals.HasWritten};
ghost use Rattle.sql_write.specs.Statements.{authorization_writing, writes, challenge_writing, key_writing};
ghost use Rattle.sql_tables.specs.Images.{authorization_kept, authorization_updates, authorization_params, text_or_null, challenge_kept, challenge_updates};
ghost use Rattle.sql_tables.specs.Images.{challenge_params};
ghost use Rattle.sql_tables.specs.Layouts.{authorization_layout, challenge_layout, key_layout};
ghost use Rattle.store_columns.specs.Flat.{bare_row};

use crate::fault::{SaveFault, WriteFault};
use crate::statements::{
    date_column, int_or_null, number_column, number_columns, text, wildcard_column, write_row,
};
use crate::stored::Write;
use desk_model::{AuthorizationEnd, AuthorizationRow, ChallengeRow, Report};
use sql_schema::{authorizations, challenges, keys};
use sqlite::types::ValueRef;
use sqlite::{Alter, Transaction};
use store_columns::AnswerKey;

// ---- authorizations

// The numbers and dates of an authorization, as columns.
#[derive(Clone, Copy)]
struct AuthorizationNumbers {
    number: i64,
    account: i64,
    made: i64,
    expires: i64,
    ended: Option<i64>,
}

// How an authorization ended, or NULL.
fn authorization_end<'a>(end: Option<AuthorizationEnd>) -> ValueRef<'a>
    ensures { bound_value (owned result) ≡ text_or_null (authorization_end_columns end).1 }
{
    match end {
        Some(end) => text(end.kind.as_str()),
        None => ValueRef::Null,
    }
}

// The numbers and dates of an authorization.
fn authorization_numbers(row: &AuthorizationRow) -> Result<AuthorizationNumbers, WriteFault>
    ensures numbers { IfOk result (λ numbers. numbers ≡ authorization_numbers (authorization_columns row.now)) }
    ensures fits { FitsAuthorization row.now → IsOk result }
{
    let [number, account, made, expires] = number_columns([
        row.number,
        row.account,
        row.made,
        row.expires,
    ])?;
    Ok(AuthorizationNumbers {
        number,
        account,
        made,
        expires,
        ended: date_column(row.ended.map(|end| end.date))?,
    })
}

// The parameters for a row, of which these are the numbers: all, and those that renew it.
fn authorization_values<'a>(
    row: &'a AuthorizationRow,
    numbers: &AuthorizationNumbers,
) -> ([ValueRef<'a>; 9], [ValueRef<'a>; 4])
    requires { numbers.now ≡ authorization_numbers (authorization_columns row.now) }
    ensures all { bound result.0 ≡ authorization_params (authorization_columns row.now) }
    ensures updates { bound result.1 ≡ authorization_updates (authorization_columns row.now) }
{
    let all = [
        ValueRef::Int(numbers.number),
        ValueRef::Int(numbers.account),
        text(row.name.base()),
        ValueRef::Int(wildcard_column(row.name.is_wildcard())),
        ValueRef::Int(numbers.made),
        ValueRef::Int(numbers.expires),
        int_or_null(&numbers.ended),
        authorization_end(row.ended),
        text(row.status.as_str()),
    ];
    let updates = [all[0], all[6], all[7], all[8]];
    (all, updates)
}

/// Writes an authorization, without its challenges.
pub(crate) fn write_bare_authorization<S: Alter>(
    tx: &mut Transaction<'_, S>,
    write: Write,
    row: &AuthorizationRow,
) -> Result<(), SaveFault>
    ensures same_reference { tx.new.conn.ghost_name ≡ tx.old.conn.ghost_name }
    ensures writes { HasWritten S.Store (writes authorization_writing write row.now)
        (Writes authorization_layout (λ x. authorization_kept (authorization_columns x)) write row.now) tx.old.conn.now tx.new.conn.now result }
    ensures fits { FitsAuthorization row.now → IfErr result IsNotTooLarge }
{
    let numbers = authorization_numbers(row)?;
    let (all, updates) = authorization_values(row, &numbers);
    write_row(tx, write, authorizations::WRITING, &all, &updates)
}

// ---- challenges

// The numbers and dates of a challenge, as columns.
#[derive(Clone, Copy)]
struct ChallengeNumbers {
    number: i64,
    authorization: i64,
    answered: Option<i64>,
    reported: Option<i64>,
}

// What a report showed, or NULL.
fn outcome<'a>(report: Option<Report>) -> ValueRef<'a>
    ensures { bound_value (owned result) ≡ text_or_null (report_columns report).1 }
{
    match report {
        Some(report) => text(report.outcome.as_str()),
        None => ValueRef::Null,
    }
}

// The numbers and dates of a challenge of this authorization.
fn challenge_numbers(authorization: u64, row: &ChallengeRow) -> Result<ChallengeNumbers, WriteFault>
    ensures numbers { IfOk result (λ numbers. numbers ≡ challenge_numbers (challenge_columns (bare_row (record { owner = authorization; row = row.now })))) }
    ensures fits { FitsChallenge (record { owner = authorization; row = row.now }) → IsOk result }
{
    Ok(ChallengeNumbers {
        number: number_column(row.number)?,
        authorization: number_column(authorization)?,
        answered: date_column(row.answered.map(|answer| answer.date))?,
        reported: date_column(row.reported.map(|report| report.date))?,
    })
}

// The parameters for a row of an authorization, of which these are the numbers: all, and those that renew it.
fn challenge_values<'a>(
    row: &'a ChallengeRow,
    numbers: &ChallengeNumbers,
) -> ([ValueRef<'a>; 8], [ValueRef<'a>; 5])
    ensures all { (authorization : ℕ) → numbers.now ≡ challenge_numbers (challenge_columns (bare_row (record { owner = authorization; row = row.now })))
        → bound result.0 ≡ challenge_params (challenge_columns (bare_row (record { owner = authorization; row = row.now }))) }
    ensures updates { (authorization : ℕ) → numbers.now ≡ challenge_numbers (challenge_columns (bare_row (record { owner = authorization; row = row.now })))
        → bound result.1 ≡ challenge_updates (challenge_columns (bare_row (record { owner = authorization; row = row.now }))) }
{
    let all = [
        ValueRef::Int(numbers.number),
        ValueRef::Int(numbers.authorization),
        text(row.kind.as_str()),
        ValueRef::Blob(&row.token),
        int_or_null(&numbers.answered),
        int_or_null(&numbers.reported),
        outcome(row.reported),
        text(row.status.as_str()),
    ];
    let updates = [all[0], all[4], all[5], all[6], all[7]];
    (all, updates)
}

/// Writes a challenge of an authorization.
pub(crate) fn write_challenge<S: Alter>(
    tx: &mut Transaction<'_, S>,
    write: Write,
    authorization: u64,
    row: &ChallengeRow,
) -> Result<(), SaveFault>
    ensures same_reference { tx.new.conn.ghost_name ≡ tx.old.conn.ghost_name }
    ensures writes { HasWritten S.Store (writes challenge_writing write (record { owner = authorization; row = row.now }))
        (Writes challenge_layout (λ c. challenge_kept (challenge_columns (bare_row c))) write (record { owner = authorization; row = row.now }))
        tx.old.conn.now tx.new.conn.now result }
    ensures fits { FitsChallenge (record { owner = authorization; row = row.now }) → IfErr result IsNotTooLarge }
{
    let numbers = challenge_numbers(authorization, row)?;
    let (all, updates) = challenge_values(row, &numbers);
    write_row(tx, write, challenges::WRITING, &all, &updates)
}

// ---- the keys of answers

/// Writes the key of an answer.
pub(crate) fn write_key<S: Alter>(
    tx: &mut Transaction<'_, S>,
    write: Write,
    row: &AnswerKey,
) -> Result<(), SaveFault>
    ensures same_reference { tx.new.conn.ghost_name ≡ tx.old.conn.ghost_name }
    ensures writes { HasWritten S.Store (writes key_writing write row.now) (AddsOrPuts key_layout write row.now) tx.old.conn.now tx.new.conn.now result }
    ensures fits { FitsKey row.now → IfErr result IsNotTooLarge }
{
    let challenge = number_column(row.challenge)?;
    let values = [ValueRef::Int(challenge), ValueRef::Blob(&row.thumb)];
    write_row(tx, write, keys::WRITING, &values, &values)
}
