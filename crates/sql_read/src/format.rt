//! The format of the tables.
ghost use Rattle.std.specs.Prelude.{◌≡◌, ◌↔◌, IfOk, OnOk, IsTrue, false, ◌≢◌, ℤ, MatchOption, IfErr};
ghost use Rattle.sqlite.specs.{Order.column, Held.state};
ghost use Rattle.sqlite.specs.declared.types.Value.TheVariants.{Int};
ghost use Rattle.sqlite.specs.State.{HasCleanDisk, IsUnchanged};
ghost use Rattle.sql_schema.specs.{Failing.IsFailure, Stays.Asks};
ghost use Rattle.sql_read.specs.Failures.{IsMet, MayRead};
ghost use Rattle.sql_read.specs.{First.ForFirst, Held.ForHeld};
ghost use Rattle.sql_read.specs.Format.{FailsToShowFormat, IsNewer, IsOfLaterFormat, ShowsFormats};

use crate::rows::{Query, all_rows};
use sql_schema::meta;
use sqlite::types::ValueRef;
use sqlite::{Alter, Connection, Error, Row};
use store_columns::FORMAT;

// The number that a row begins with, or `None` where it begins with no number.
fn first_number(row: &Row) -> Option<i64>
    ensures { MatchOption result ((n : ℤ) → column row.now 0 ≢ Int n) (λ n. column row.now 0 ≡ Int n) }
{
    match row.get_ref(0) {
        Ok(ValueRef::Int(n)) => Some(n),
        _ => None,
    }
}

// Whether this is one row of a later format.
fn is_newer_row(rows: &[Row]) -> bool
    ensures { IsTrue result ↔ IsNewer rows.now }
{
    match rows {
        [row] => match first_number(row) {
            Some(format) => format > FORMAT,
            None => false,
        },
        _ => false,
    }
}

/// Whether the tables are of a later format: `meta` has one row, whose format is a whole number above 2.
///
/// # Errors
///
/// The engine's; the connection is as it was, or what was not committed is undone.
pub fn is_newer<S: Alter>(conn: &mut Connection<S>) -> Result<bool, Error>
    ensures newer { HasCleanDisk (state S.Store conn.new)
        → IfOk result (λ newer. IsTrue newer → ShowsFormats (state S.Store conn.old) (state S.Store conn.new) IsNewer) }
    ensures shows { HasCleanDisk (state S.Store conn.new)
        → IfOk result (λ newer. newer ≡ false → ShowsFormats (state S.Store conn.old) (state S.Store conn.new) (λ rows. ¬ IsNewer rows)) }
    ensures desk { ForHeld (state S.Store conn.old) (state S.Store conn.new) (λ T. IfOk result (λ newer. newer ≡ false)) }
    ensures first { ForFirst (state S.Store conn.old) (state S.Store conn.new) (λ T. IfOk result (λ newer. newer ≡ false)) }
    ensures first_fails { ForFirst (state S.Store conn.old) (state S.Store conn.new) (λ T. MayRead (state S.Store conn.old) → IfErr result IsFailure) }
    ensures fails { ForHeld (state S.Store conn.old) (state S.Store conn.new) (λ T. MayRead (state S.Store conn.old) → IfErr result IsFailure) }
    ensures later { HasCleanDisk (state S.Store conn.new) → IsOfLaterFormat (state S.Store conn.old).now → IfOk result IsTrue }
    ensures later_fails { HasCleanDisk (state S.Store conn.new) → IsOfLaterFormat (state S.Store conn.old).now → MayRead (state S.Store conn.old)
        → IfErr result IsFailure }
    ensures refused { HasCleanDisk (state S.Store conn.new) → IfErr result (FailsToShowFormat (state S.Store conn.old) (state S.Store conn.new)) }
    ensures met { HasCleanDisk (state S.Store conn.new) → IfErr result (IsMet (state S.Store conn.old) (state S.Store conn.new)) }
    ensures unchanged { HasCleanDisk (state S.Store conn.new) → OnOk result (IsUnchanged (state S.Store conn.old) (state S.Store conn.new)) }
    ensures asks { Asks (state S.Store conn.old) (state S.Store conn.new) }
{
    let rows = all_rows(conn, Query::all(meta::SELECT_FORMAT))?;
    Ok(is_newer_row(&rows))
}
