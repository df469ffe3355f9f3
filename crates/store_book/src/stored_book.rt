//! The book of rows that stand in the order of their keys.
ghost use Rattle.std.specs.Prelude.{◌≡◌, [], ◌∷◌, IfErr, IfOk, MatchResult};
ghost use Rattle.desk_model.specs.Tables.{Tables};
ghost use Rattle.store_columns.specs.{Columns.rows_columns, Limits.AreStored};
ghost use Rattle.store_columns.specs.declared.columns.FlatRows.{FlatRows as Rows};
ghost use Rattle.store_book.specs.{BookRows.AreBookRows, ByKey.AreStoredByKey, IsBook.IsBookOf, IsBook.IsBookOfStored};
ghost use Rattle.store_book.specs.declared.rows_fault.RowsFault.TheVariants.{NotABook};

use crate::checking::check_tables;
use crate::joining::join;
use crate::nesting::{nested_table_of, table_of};
use crate::rows_fault::RowsFault;
use desk_book::Book;
use desk_model::{Meta, Sequence};
use std::alloc::Global;
use store_columns::{FlatRows, StoredRows, read_rows};

/// The book whose rows the tables of a file hold, in the order of their keys (format 2).
///
/// # Errors
///
/// `NotABook` where no book has these rows, `Memory` where there is none for the book.
pub fn from_rows(alloc: Global, rows: StoredRows) -> Result<Book, RowsFault>
    requires { AreStoredByKey rows }
    ensures book { IfOk result (λ book. IsBookOfStored rows book) }
    ensures not_a_book { IfErr result (λ fault. fault ≡ NotABook → (T : Tables) → IsBookOfStored rows T → ⊥) }
{
    let rows = rows_of_columns(alloc, rows)?;
    check_tables(alloc, &rows)?;
    book_of_rows(alloc, rows)
}

// The rows that these columns spell.
fn rows_of_columns(alloc: Global, stored: StoredRows) -> Result<FlatRows, RowsFault>
    ensures { MatchResult result
        (λ rows. AreStored rows × (stored ≡ rows_columns rows))
        (λ fault. fault ≡ NotABook → (rows : Rows) → AreStored rows → stored ≡ rows_columns rows → ⊥) }
{
    match read_rows(alloc, stored)? {
        Some(rows) => Ok(rows),
        None => Err(RowsFault::NotABook),
    }
}

// The one row of a table.
fn only_row(rows: Sequence<Meta>) -> Result<Meta, RowsFault>
    ensures { MatchResult result (λ row. rows ≡ row ∷ []) (λ _. (row : Meta) → rows ≡ row ∷ [] → ⊥) }
{
    let mut rows = rows.into_vec();
    if rows.len() != 1 {
        return Err(RowsFault::NotABook);
    }
    rows.pop().ok_or(RowsFault::NotABook)
}

// The book of rows that passed.
fn book_of_rows(alloc: Global, rows: FlatRows) -> Result<Book, RowsFault>
    requires stored { AreStored rows }
    requires passed { (meta : Meta) × AreBookRows meta rows }
    ensures { MatchResult result (λ book. IsBookOf rows book) (λ fault. fault ≡ NotABook → ⊥) }
{
    let meta = only_row(rows.metas)?;
    let nonces = table_of(alloc, rows.nonces.into_vec())?;
    let accounts = table_of(alloc, rows.accounts.into_vec())?;
    let challenges = join(alloc, rows.challenges.as_slice(), rows.keys.as_slice())?;
    let authorizations = nested_table_of(alloc, rows.authorizations.into_vec(), challenges)?;
    let orders = nested_table_of(alloc, rows.orders.into_vec(), rows.listed.into_vec())?;
    Ok(Book::of_tables(meta, nonces, accounts, authorizations, orders))
}
