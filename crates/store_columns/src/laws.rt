//! Laws of columns.
ghost use Rattle.store_columns.specs.Laws.{ColumnsTellRowsApart, TextsAreWritten};

/// In each table, different rows in their limits have different columns.
#[tactic(auto, using(crate::proofs::RowsApart::all_apart))]
pub fn columns_tell_rows_apart()
    ensures { ColumnsTellRowsApart }
{}

/// Where the texts of rows are UTF-8, so is each TEXT column of theirs.
#[tactic(auto, using(crate::proofs::Utf8Columns::texts_are_written))]
pub fn texts_are_written()
    ensures { TextsAreWritten }
{}
