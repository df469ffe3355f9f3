//! The row of a desk in format 1, and whether its rows are those of a book.
ghost use Rattle.std.specs.Prelude.{◌≡◌, ◌≢◌, ◌⊎◌, [], ◌∷◌, All, IfErr, IfOk, IfSome, IsSome, MatchOption, None, OnOk, Some, map};
ghost use Rattle.sqlite.specs.State.{HasCleanDisk, IsUnchanged};
ghost use Rattle.sqlite.specs.Held.{state};
ghost use Rattle.desk_model.specs.Tables.{Tables};
ghost use Rattle.store_columns.specs.{Columns.meta_columns, Limits.IsStoredMeta};
ghost use Rattle.store_columns.specs.declared.columns.StoredRows.{StoredRows};
ghost use Rattle.store_book.specs.IsBook.{IsBookOfStored, IsStoredBook};
ghost use Rattle.sql_schema.specs.declared.meta.TheConstants.{SELECT};
ghost use Rattle.sql_schema.specs.{Failing.IsFailure, Stays.Asks};
ghost use Rattle.sql_read.specs.{AllTables.FailsAtFirst, Spelled.FitsMeta, Spelled.meta_in, Reads.Reads};
ghost use Rattle.sql_read.specs.Failures.{FailsHere, HasTexts, IsMet, IsOfNoDevice, IsOutOfMemory, IsReadable, MayRead};
ghost use Rattle.sql_read.specs.First.{AreFirstShown, ForFirst, ShowsFirstMeta, raised, raised_meta};
ghost use Rattle.sql_read.specs.FirstRows.{HasNoFirstBook, HasNoFirstMeta, HasNoRowsWith, IsFirstMeta, IsFirstReadable, IsWithRows};

use crate::checked::check_nonces;
use crate::formats::Format;
use crate::rows::{Query, Selected, all_rows};
use desk_model::Meta;
use sql_schema::meta;
use sqlite::{Alter, Connection, Error, Row};
use std::alloc::Global;
use store_columns::{Columns, FIRST_FORMAT, FORMAT, MetaColumns};

// Today's format where the row is of format 1, and format 1 where it is of any other.
fn raised(row: &MetaColumns) -> i64
    ensures { result ≡ raised row.now.format }
{
    if row.format == FIRST_FORMAT {
        FORMAT
    } else {
        FIRST_FORMAT
    }
}

// The row of `meta`, in today's format where it is of format 1.
fn raised_meta(row: MetaColumns) -> MetaColumns
    ensures { result ≡ raised_meta row }
{
    let format = raised(&row);
    MetaColumns {
        id: row.id,
        format,
        base: row.base,
        nonce_life: row.nonce_life,
        order_life: row.order_life,
        authz_life: row.authz_life,
        clock: row.clock,
        nonces: row.nonces,
        accounts: row.accounts,
        orders: row.orders,
        authzs: row.authzs,
        challs: row.challs,
    }
}

// The row whose columns in format 1 the one row of an answer spells, where there is one, in its limits.
fn only_meta(alloc: Global, rows: &[Row]) -> Result<Option<Meta>, Error>
    ensures row { IfOk result (λ found. IfSome found (λ row. IsStoredMeta row × (map (λ r. raised_meta (meta_in r)) rows.now ≡ map meta_columns (row ∷ [])))) }
    ensures none { IfOk result (λ found. found ≡ None → (row : Meta) → IsStoredMeta row
        → map (λ r. raised_meta (meta_in r)) rows.now ≢ map meta_columns (row ∷ [])) }
    ensures fails { All FitsMeta rows.now → IfErr result IsOutOfMemory }
    ensures kind { IfErr result IsOfNoDevice }
{
    let [row] = rows else {
        return Ok(None);
    };
    let columns = MetaColumns::of(row)?;
    Ok(raised_meta(columns).read(alloc)?)
}

// The row of `meta`, where there is one, of format 1.
fn read_first_meta<S: Alter>(alloc: Global, conn: &mut Connection<S>) -> Result<Option<Meta>, Error>
    ensures { Reads S.Store conn.old conn.new (λ found. MatchOption found (HasNoFirstMeta S.Store conn.old) (ShowsFirstMeta S.Store conn.old))
        (IsReadable S.Store conn.old SELECT.now FitsMeta) (λ e. IsOutOfMemory e ⊎ FailsHere S.Store conn.old SELECT.now FitsMeta e) result }
{
    match all_rows(conn, Query::all(meta::SELECT)) {
        Ok(rows) => only_meta(alloc, &rows),
        Err(error) => Err(error),
    }
}

// The row, where the rows of the other tables are those of a book with it.
fn with_checked_rows<S: Alter>(
    alloc: Global,
    conn: &mut Connection<S>,
    meta: Meta,
) -> Result<Option<Meta>, Error>
    ensures { Reads S.Store conn.old conn.new (λ found. MatchOption found (HasNoRowsWith S.Store conn.old meta)
        (IsWithRows S.Store conn.old meta)) (IsFirstReadable S.Store conn.old)
        (λ e. IsOutOfMemory e ⊎ FailsAtFirst S.Store conn.old e) result }
{
    match check_nonces(alloc, conn, Format::First, meta.counters) {
        Ok(true) => Ok(Some(meta)),
        Ok(false) => Ok(None),
        Err(error) => Err(error),
    }
}

// As `first_meta`.
fn checked_meta<S: Alter>(alloc: Global, conn: &mut Connection<S>) -> Result<Option<Meta>, Error>
    ensures { Reads S.Store conn.old conn.new (λ found. MatchOption found (HasNoFirstBook S.Store conn.old)
        (IsFirstMeta S.Store conn.old)) (IsFirstReadable S.Store conn.old)
        (λ e. IsOutOfMemory e ⊎ FailsAtFirst S.Store conn.old e) result }
{
    match read_first_meta(alloc, conn) {
        Ok(Some(meta)) => with_checked_rows(alloc, conn, meta),
        Ok(None) => Ok(None),
        Err(error) => Err(error),
    }
}

/// The row of the desk, where the rows of the tables of format 1 are those of a book: in the order of their keys each passes; they
/// are read up to the first that does not. One row is held at a time, and of the rows before it the numbers and the keys of accounts.
///
/// # Errors
///
/// The engine's; the connection is as it was, or what was not committed is undone.
pub fn first_meta<S: Alter>(alloc: Global, conn: &mut Connection<S>) -> Result<Option<Meta>, Error>
    ensures book { HasCleanDisk (state S.Store conn.new) → IfOk result (λ answer. IsSome answer
        → (stored : StoredRows) × AreFirstShown S.Store conn.old stored × (T : Tables) × IsBookOfStored stored T) }
    ensures none { HasCleanDisk (state S.Store conn.new) → IfOk result (λ answer. answer ≡ None → HasNoFirstBook S.Store conn.old) }
    ensures found { ForFirst (state S.Store conn.old) (state S.Store conn.new) (λ T. IsStoredBook T → IfOk result (λ answer. answer ≡ Some T.meta)) }
    ensures fails { ForFirst (state S.Store conn.old) (state S.Store conn.new) (λ T. MayRead (state S.Store conn.old) → HasTexts T → IfErr result IsFailure) }
    ensures refused { HasCleanDisk (state S.Store conn.new) → IfErr result (λ e. IsOutOfMemory e ⊎ FailsAtFirst S.Store conn.old e) }
    ensures met { HasCleanDisk (state S.Store conn.new) → IfErr result (IsMet (state S.Store conn.old) (state S.Store conn.new)) }
    ensures unchanged { HasCleanDisk (state S.Store conn.new) → OnOk result (IsUnchanged (state S.Store conn.old) (state S.Store conn.new)) }
    ensures asks { Asks (state S.Store conn.old) (state S.Store conn.new) }
{
    checked_meta(alloc, conn)
}
