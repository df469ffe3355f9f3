//! Queries with their parameters, and the rows of a desk that their answers spell: by columns, with children, and under owners.
ghost use Rattle.std.specs.Prelude.{◌≡◌, [], ◌∷◌, ◌≢◌, pos, ℕ, List, None, Ok, option_map, IfErr, IfOk, IfSome, IsTrue, map};
ghost use Rattle.sqlite.specs.declared.types.Value.TheVariants.{Int, Text as SqlText};
ghost use Rattle.sql_read.specs.{Bounded.bounded, Queries.asked, Selecting.IsQuery};
ghost use Rattle.sqlite.specs.{Values.bound, Held.state, Order.Row as SqlRow};
ghost use Rattle.sql_schema.specs.Stays.{Asks};
ghost use Rattle.sql_read.specs.Reads.{ReadsRows};
ghost use Rattle.desk_model.specs.{Tables.Tables, Kept.EachOf};
ghost use Rattle.sql_read.specs.Earliest.{FindsEarliest, TellsEarliest, first_number};
ghost use Rattle.sql_read.specs.LookUpFaults.{AreTableRows, BeginWithMoment, IsOfMemory};
ghost use Rattle.sql_tables.specs.Holds.{Holds};
ghost use Rattle.sql_read.specs.Failures.{IsOfNoDevice, IsOutOfMemory};
ghost use Rattle.sql_read.specs.Looking.{Finds, LooksFor};

use crate::fault::ReadFault;
use crate::values::numbers;
use sqlite::types::ValueRef;
use sqlite::{Alter, Connection, Error, ErrorCode, Row};
use std::alloc::Global;
use store_columns::{Columns, Owned};

// ---- queries: their texts, with what their parameters are bound to

// What the parameters of a query are bound to.
#[derive(Clone, Copy)]
enum Params<'a> {
    None,
    One(ValueRef<'a>),
    Two(ValueRef<'a>, ValueRef<'a>),
}

/// A query: its text, with its parameters.
#[derive(Clone, Copy)]
pub(crate) struct Query<'a> {
    text: &'static str,
    params: Params<'a>,
}

// The number as SQL has it; one above 2^63 - 1, which no row of a desk has, becomes 2^63 - 1, which none has either.
fn bounded(number: u64) -> i64
    ensures { result ≡ pos (bounded number) }
{
    if number <= i64::MAX as u64 {
        number as i64
    } else {
        i64::MAX
    }
}

impl<'a> Query<'a> {
    /// With no parameter.
    pub(crate) fn all(text: &'static str) -> Query<'a>
        ensures { asked result ≡ (text.now, []) }
    {
        Query {
            text,
            params: Params::None,
        }
    }

    /// With a number.
    pub(crate) fn number(text: &'static str, number: u64) -> Query<'a>
        ensures { asked result ≡ (text.now, Int (pos (bounded number)) ∷ []) }
    {
        Query {
            text,
            params: Params::One(ValueRef::Int(bounded(number))),
        }
    }

    /// With a text.
    pub(crate) fn text(text: &'static str, value: &'a str) -> Query<'a>
        ensures { asked result ≡ (text.now, SqlText value.now ∷ []) }
    {
        Query {
            text,
            params: Params::One(ValueRef::Text(value.as_bytes())),
        }
    }

    /// With a number and a text.
    pub(crate) fn number_and_text(text: &'static str, number: u64, value: &'a str) -> Query<'a>
        ensures { asked result ≡ (text.now, Int (pos (bounded number)) ∷ SqlText value.now ∷ []) }
    {
        Query {
            text,
            params: Params::Two(
                ValueRef::Int(bounded(number)),
                ValueRef::Text(value.as_bytes()),
            ),
        }
    }

    /// With a text and a number.
    pub(crate) fn text_and_number(text: &'static str, value: &'a str, number: u64) -> Query<'a>
        ensures { asked result ≡ (text.now, SqlText value.now ∷ Int (pos (bounded number)) ∷ []) }
    {
        Query {
            text,
            params: Params::Two(
                ValueRef::Text(value.as_bytes()),
                ValueRef::Int(bounded(number)),
            ),
        }
    }
}

// ---- the rows of queries

// The rows of the query that a text and these parameters are.
fn rows_by<S: Alter>(
    conn: &mut Connection<S>,
    text: &str,
    params: &[ValueRef<'_>],
) -> Result<Vec<Row>, Error>
    requires { IsQuery text.now }
    ensures { ReadsRows S.Store (λ rows. rows.items) (text.now, bound params.now) conn.old conn.new result }
{
    conn.query_all(text, params)
}

/// The rows of a query.
///
/// # Errors
///
/// The engine's.
pub(crate) fn all_rows<S: Alter>(
    conn: &mut Connection<S>,
    query: Query<'_>,
) -> Result<Vec<Row>, Error>
    requires { IsQuery (asked query).0 }
    ensures { ReadsRows S.Store (λ rows. rows.items) (asked query.entry) conn.old conn.new result }
{
    match query.params {
        Params::None => rows_by(conn, query.text, &[]),
        Params::One(value) => rows_by(conn, query.text, &[value]),
        Params::Two(value, other) => rows_by(conn, query.text, &[value, other]),
    }
}

// ---- the earliest moment that a query shows

// The number as a moment.
fn moment(number: i64) -> Result<u64, ReadFault>
    ensures moment { IfOk result (λ moment. pos moment ≡ number) }
    ensures none { IfErr result (λ _. (m : ℕ) → number ≢ pos m) }
{
    if number >= 0 {
        Ok(number as u64)
    } else {
        Err(ReadFault::NotARow)
    }
}

// The moment with which the first row begins, or `None` where there is no row.
fn first_moment(rows: &[Row]) -> Result<Option<u64>, ReadFault>
    ensures found { IfOk result (λ found. option_map (λ m. pos m) found ≡ first_number rows.now) }
    ensures fault { BeginWithMoment rows.now → IfErr result IsOfMemory }
{
    match rows {
        [] => Ok(None),
        [row, ..] => {
            let [number] = numbers(row, [0])?;
            Ok(Some(moment(number)?))
        }
    }
}

/// The moment with which the first row of a query begins, or `None` where it shows no row.
///
/// # Errors
///
/// The engine's, and `NotARow`.
pub(crate) fn earliest<S: Alter>(
    conn: &mut Connection<S>,
    query: Query<'_>,
) -> Result<Option<u64>, ReadFault>
    requires { IsQuery (asked query).0 }
    ensures { (moments : Tables → List ℕ)
        → ((T : Tables) → Holds (state S.Store conn.old).now T → FindsEarliest S.Store (asked query.entry) conn.old (moments T))
        → TellsEarliest S.Store conn.old conn.new moments result }
{
    let rows = all_rows(conn, query)?;
    first_moment(&rows)
}

// ---- the columns of a row

/// Columns that a row of an answer spells.
pub trait Selected: Columns {
    // The columns that a row spells.
    ghost spelled: { SqlRow → Self };

    // The values of a row are of the kinds of these columns.
    ghost Fits: { SqlRow → Type 0 };

    /// The columns of a row.
    fn of(row: &Row) -> Result<Self, Error>
        ensures read { IfOk result (λ c. c ≡ spelled row.now) }
        ensures fails { Fits row.now → IfErr result IsOutOfMemory }
        ensures kind { IfErr result IsOfNoDevice };

    /// A row that no check of the table tells apart from the one with these columns, or `None` where no row in its limits has them.
    ///
    /// # Errors
    ///
    /// `OutOfMemory` alone.
    fn like(alloc: Global, row: &Row) -> Result<Option<Self::Row>, Error>
        ensures like { IfOk result (λ like. IfSome like (λ like. (found : Self.Row) × Self.IsStored found × (spelled row.now ≡ Self.write found)
            × Self.AreAlike like found)) }
        ensures none { IfOk result (λ like. like ≡ None → Fits row.now → (found : Self.Row) → Self.IsStored found
            → spelled row.now ≡ Self.write found → ⊥) }
        ensures fails { IfErr result IsOutOfMemory }
    {
        let Some(columns) = if_of_kinds(Self::of(row))? else {
            return Ok(None);
        };
        Ok(columns.read(alloc)?)
    }
}

/// What a row spells, or `None` where it has values of other kinds.
///
/// # Errors
///
/// `OutOfMemory` alone.
pub(crate) fn if_of_kinds<T: Drop>(read: Result<T, Error>) -> Result<Option<T>, Error>
    ensures read { IfOk result (λ found. IfSome found (λ found. read ≡ Ok found)) }
    ensures none { IfOk result (λ found. found ≡ None → IfErr read IsOutOfMemory → ⊥) }
    ensures fails { IfErr result IsOutOfMemory }
{
    match read {
        Ok(found) => Ok(Some(found)),
        Err(Error::SqliteFailure(ErrorCode::OutOfMemory)) => {
            Err(Error::SqliteFailure(ErrorCode::OutOfMemory))
        }
        Err(_) => Ok(None),
    }
}

// ---- the rows

// The row whose columns a row of an answer spells.
//
// # Errors
//
// Where it has other values, or there is no memory; `NotARow` where no row in its limits has the columns.
fn row_of<C: Selected>(alloc: Global, row: &Row) -> Result<C::Row, ReadFault>
    ensures row { IfOk result (λ found. C.Columns.IsStored found × (C.spelled row.now ≡ C.Columns.write found)) }
    ensures fault { C.Fits row.now → (found : C.Row) → C.Columns.IsStored found → C.spelled row.now ≡ C.Columns.write found → IfErr result IsOfMemory }
{
    match C::of(row)?.read(alloc)? {
        Some(found) => Ok(found),
        None => Err(ReadFault::NotARow),
    }
}

// The rows whose columns the rows of an answer spell. It fails as `row_of` does, of rows of a table for memory alone.
fn rows_of<C: Selected>(alloc: Global, rows: &[Row]) -> Result<Vec<C::Row>, ReadFault>
    ensures rows { IfOk result (λ found. EachOf C.Columns.IsStored found.items × (map C.spelled rows.now ≡ map C.Columns.write found.items)) }
    ensures fault { AreTableRows C.spelled C.Fits C.Columns.write C.Columns.IsStored rows.now → IfErr result IsOfMemory }
{
    let mut all = Vec::new(alloc);
    for row in rows {
        let found = row_of::<C>(alloc, row)?;
        all.push(found)?;
    }
    Ok(all)
}

/// The rows that a query shows.
///
/// # Errors
///
/// The engine's, and `NotARow`.
pub(crate) fn find_rows<S: Alter, C: Selected>(
    alloc: Global,
    conn: &mut Connection<S>,
    query: Query<'_>,
) -> Result<Vec<C::Row>, ReadFault>
    requires { IsQuery (asked query).0 }
    ensures { LooksFor S.Store conn.old conn.new
        (λ _ rows. Finds S.Store C.spelled C.Fits C.Columns.write C.Columns.IsStored (asked query.entry) conn.old rows)
        (λ rows found. found.items ≡ rows) result }
{
    let rows = all_rows(conn, query)?;
    rows_of::<C>(alloc, &rows)
}

// ---- rows that are looked up, each with its part in another table

/// A row that has a part in another table.
pub(crate) trait Parted: Drop {
    /// The row with its part.
    type Whole: Drop;

    // The row without its part.
    ghost bare: { Self.Whole → Self };

    // What stands under its number in these tables is its part.
    ghost HasItsPart: { Tables → Self.Whole → Type 0 };

    /// The row with its part. It fails as `find_rows` does.
    fn complete<S: Alter>(
        self,
        alloc: Global,
        conn: &mut Connection<S>,
    ) -> Result<Self::Whole, ReadFault>
        ensures looks { IsTrue (state S.Store conn.old).is_open → LooksFor S.Store conn.old conn.new
            (λ T whole. HasItsPart T whole × (self ≡ bare whole)) (λ whole found. found ≡ whole) result }
        ensures asks { Asks (state S.Store conn.old) (state S.Store conn.new) };
}

// The rows, each with its part. It fails as `find_rows` does.
fn complete_all<S: Alter, P: Parted>(
    alloc: Global,
    conn: &mut Connection<S>,
    heads: Vec<P>,
) -> Result<Vec<P::Whole>, ReadFault>
    ensures looks { IsTrue (state S.Store conn.old).is_open → LooksFor S.Store conn.old conn.new
        (λ T rows. EachOf (P.HasItsPart T) rows × (heads.items ≡ map P.bare rows)) (λ rows found. found.items ≡ rows) result }
    ensures asks { Asks (state S.Store conn.old) (state S.Store conn.new) }
{
    let mut rows = Vec::new(alloc);
    for head in heads {
        let whole = head.complete(alloc, conn)?;
        rows.push(whole)?;
    }
    Ok(rows)
}

/// The rows that a query shows, each with its part. It fails as `find_rows` does.
pub(crate) fn find_wholes<S: Alter, C: Selected<Row = P>, P: Parted>(
    alloc: Global,
    conn: &mut Connection<S>,
    query: Query<'_>,
) -> Result<Vec<P::Whole>, ReadFault>
    requires { IsQuery (asked query).0 }
    ensures { LooksFor S.Store conn.old conn.new (λ T rows. EachOf (P.HasItsPart T) rows
        × Finds S.Store C.spelled C.Fits C.Columns.write C.Columns.IsStored (asked query.entry) conn.old (map P.bare rows))
        (λ rows found. found.items ≡ rows) result }
{
    let heads = find_rows::<S, C>(alloc, conn, query)?;
    complete_all(alloc, conn, heads)
}

// ---- rows that belong to others

/// The rows without the numbers of their owners.
pub(crate) fn without_owners<T: Drop>(
    alloc: Global,
    rows: Vec<Owned<T>>,
) -> Result<Vec<T>, ReadFault>
    ensures rows { IfOk result (λ all. all.items ≡ map (λ r. r.row) rows.items) }
    ensures fault { IfErr result IsOfMemory }
{
    Ok(rows.into_iter().map(|owned| owned.row).collect(alloc)?)
}
