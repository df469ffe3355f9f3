//! What columns hold: numbers, moments, marks, JSON values, and facts that several record together; and tables, read row by row.
ghost use Rattle.std.specs.Prelude.{◌≡◌, ◌↔◌, pos, option_map, IfOk, false, IsTrue, map};
ghost use Rattle.store_columns.specs.Columns.{account_end_columns, authorization_end_columns, dated_bytes_columns, dated_problem_columns};
ghost use Rattle.store_columns.specs.Columns.{report_columns};
ghost use Rattle.store_columns.specs.Columns.{wildcard_column};
ghost use Rattle.store_columns.specs.Limits.{AreDatedBytes, IfRecorded, IsAccountEnd, IsAuthorizationEnd, IsDatedProblem, IsMoment, IsReport};
ghost use Rattle.store_columns.specs.Limits.{IsSixteen};
ghost use Rattle.store_columns.specs.Limits.{IsThirtyTwo, IsNumber, IsCounter, IsExpiry};
ghost use Rattle.store_columns.specs.Reading.{IsRead, IsAtMost, IsFrom, Unlimited};
ghost use Rattle.serde_json.specs.View.{view};
ghost use Rattle.serde_json.specs.Written.{compact_text, has_float};
ghost use Rattle.desk_model.specs.Kept.{EachOf};

use crate::orders::read_problem;
use desk_model::{
    AccountEnd, AuthorizationEnd, DatedBytes, DatedProblem, EndKind, Ending, LAST_END, LAST_MOMENT,
    LAST_NUMBER, Outcome, Report, Sequence, Text, is_same_text,
};
use serde_json::Value;
use std::alloc::{AllocError, Global};

/// When and how an account ended.
pub(crate) fn read_account_end(
    ended: Option<i64>,
    end_kind: &Option<Text>,
) -> Option<Option<AccountEnd>>
    ensures { IsRead account_end_columns (IfRecorded IsAccountEnd) (ended, end_kind.now) result }
{
    match (ended, end_kind) {
        (None, None) => Some(None),
        (Some(ended), Some(end_kind)) => {
            let date = read_moment(ended)?;
            let ending = Ending::from_text(end_kind.as_str())?;
            Some(Some(AccountEnd { date, ending }))
        }
        _ => None,
    }
}

/// When and how an authorization ended.
pub(crate) fn read_authorization_end(
    ended: Option<i64>,
    end_kind: &Option<Text>,
) -> Option<Option<AuthorizationEnd>>
    ensures { IsRead authorization_end_columns (IfRecorded IsAuthorizationEnd) (ended, end_kind.now) result }
{
    match (ended, end_kind) {
        (None, None) => Some(None),
        (Some(ended), Some(end_kind)) => {
            let date = read_moment(ended)?;
            let kind = EndKind::from_text(end_kind.as_str())?;
            Some(Some(AuthorizationEnd { date, kind }))
        }
        _ => None,
    }
}

/// When a challenge was reported, and what the report showed.
pub(crate) fn read_report(reported: Option<i64>, outcome: &Option<Text>) -> Option<Option<Report>>
    ensures { IsRead report_columns (IfRecorded IsReport) (reported, outcome.now) result }
{
    match (reported, outcome) {
        (None, None) => Some(None),
        (Some(reported), Some(outcome)) => {
            let date = read_moment(reported)?;
            let outcome = Outcome::from_text(outcome.as_str())?;
            Some(Some(Report { date, outcome }))
        }
        _ => None,
    }
}

/// When bytes were handed in, and the bytes.
pub(crate) fn read_dated_bytes(
    dated: Option<i64>,
    bytes: Option<Sequence<u8>>,
) -> Option<Option<DatedBytes>>
    ensures { IsRead dated_bytes_columns (IfRecorded AreDatedBytes) (dated, bytes) result }
{
    match (dated, bytes) {
        (None, None) => Some(None),
        (Some(dated), Some(bytes)) => {
            let date = read_moment(dated)?;
            Some(Some(DatedBytes { date, bytes }))
        }
        _ => None,
    }
}

/// When an order failed, and why.
pub(crate) fn read_dated_problem(
    alloc: Global,
    failed: Option<i64>,
    problem: &Option<Text>,
) -> Result<Option<Option<DatedProblem>>, AllocError>
    ensures { IfOk result (λ failure. IsRead dated_problem_columns (IfRecorded IsDatedProblem) (failed, problem.now) failure) }
{
    match (failed, problem) {
        (None, None) => Ok(Some(None)),
        (Some(failed), Some(problem)) => {
            let Some(date) = read_moment(failed) else {
                return Ok(None);
            };
            match read_problem(alloc, problem.as_str())? {
                Some(problem) => Ok(Some(Some(DatedProblem { date, problem }))),
                None => Ok(None),
            }
        }
        _ => Ok(None),
    }
}

/// A moment that may be NULL.
pub(crate) fn read_answered(answered: Option<i64>) -> Option<Option<u64>>
    ensures { IsRead (λ m. option_map (λ n. pos n) m) (IfRecorded IsMoment) answered result }
{
    match answered {
        None => Some(None),
        Some(answered) => {
            let date = read_moment(answered)?;
            Some(Some(date))
        }
    }
}

/// The bytes of a nonce or a token.
pub(crate) fn read_sixteen(bytes: &[u8]) -> Option<[u8; 16]>
    ensures { IsRead (λ b. b) IsSixteen bytes.now result }
{
    bytes.as_array::<16>().copied()
}

/// The bytes of a thumbprint.
pub(crate) fn read_thirty_two(bytes: &[u8]) -> Option<[u8; 32]>
    ensures { IsRead (λ b. b) IsThirtyTwo bytes.now result }
{
    bytes.as_array::<32>().copied()
}

// ---- numbers, moments and marks

/// The number of an object, from 1 to the greatest.
pub(crate) fn read_number(column: i64) -> Option<u64>
    ensures { IsRead (λ n. pos n) IsNumber column result }
{
    let number = read_count(column, LAST_NUMBER)?;
    if number >= 1 { Some(number) } else { None }
}

/// The last number given, 0 for none.
pub(crate) fn read_counter(column: i64) -> Option<u64>
    ensures { IsRead (λ n. pos n) IsCounter column result }
{
    read_count(column, LAST_NUMBER)
}

/// A moment.
pub(crate) fn read_moment(column: i64) -> Option<u64>
    ensures { IsRead (λ n. pos n) IsMoment column result }
{
    read_count(column, LAST_MOMENT)
}

/// A moment and a life.
pub(crate) fn read_expiry(column: i64) -> Option<u64>
    ensures { IsRead (λ n. pos n) IsExpiry column result }
{
    read_count(column, LAST_END)
}

/// A place in an order, from 1.
pub(crate) fn read_place(column: i64) -> Option<u64>
    ensures { IsRead (λ n. pos n) (IsFrom 1) column result }
{
    let place = read_natural(column)?;
    if place >= 1 { Some(place) } else { None }
}

// A number of 0 to this limit.
fn read_count(column: i64, limit: u64) -> Option<u64>
    ensures { IsRead (λ n. pos n) (IsAtMost limit) column result }
{
    let number = read_natural(column)?;
    if number <= limit { Some(number) } else { None }
}

/// A number from 0.
pub(crate) fn read_natural(column: i64) -> Option<u64>
    ensures { IsRead (λ n. pos n) Unlimited column result }
{
    if column >= 0 {
        Some(column as u64)
    } else {
        None
    }
}

/// Whether a name is a wildcard.
pub(crate) fn read_wildcard(column: i64) -> Option<bool>
    ensures { IsRead wildcard_column Unlimited column result }
{
    match column {
        0 => Some(false),
        1 => Some(true),
        _ => None,
    }
}

// ---- JSON values

/// Whether a text is the compact text of a value.
pub(crate) fn is_compact(alloc: Global, value: &Value, text: &str) -> Result<bool, AllocError>
    ensures { IfOk result (λ compact. has_float (view value.now) ≡ false → IsTrue compact ↔ (text.now ≡ compact_text (view value.now))) }
{
    let written = value.to_string(alloc)?;
    Ok(is_same_text(text, written.as_str()))
}

// ---- tables, read row by row

/// Columns that spell the rows of a table.
pub trait Columns: Drop {
    type Row: Drop;

    // The columns of a row.
    ghost write: { Self.Row → Self };

    // What a row keeps in the table.
    ghost IsStored: { Self.Row → Type 0 };

    // Rows that no check of the table tells apart.
    ghost AreAlike: { Self.Row → Self.Row → Type 0 } = { λ row other. row ≡ other };

    /// The row with these columns, or `None` where none in its limits has them.
    ///
    /// # Errors
    ///
    /// Where there is no memory for it.
    fn read(self, alloc: Global) -> Result<Option<Self::Row>, AllocError>
        ensures { IfOk result (λ row. IsRead write IsStored self row) };

    // It does not tell a row apart from itself.
    ghost alike_itself: { (row : Self.Row) → AreAlike row row };
}

/// The rows with these columns, or `None` where no row in its limits has some of them.
///
/// # Errors
///
/// Where there is no memory for them.
#[tactic(auto, using(crate::proofs::TableRows::not_read, crate::proofs::TableRows::read_more))]
pub fn read_table<C: Columns>(
    alloc: Global,
    table: Sequence<C>,
) -> Result<Option<Sequence<C::Row>>, AllocError>
    ensures { IfOk result (λ rows. IsRead (map C.write) (EachOf C.IsStored) table rows) }
{
    let mut rows = Vec::new(alloc);
    for columns in table.into_vec() {
        let Some(row) = columns.read(alloc)? else {
            return Ok(None);
        };
        rows.push(row)?;
    }
    Ok(Some(Sequence::new(rows)))
}
