//! The laws of rows in the order of their keys.
ghost use Rattle.store_book.specs.{BookRows.RowsAreBooks, ByKey.BooksHaveRows};

/// Rows that stand table by table in the order of their keys, below their counters, with what they refer to, are a book's; and a
/// book's rows, in that order, are such rows.
pub fn rows_in_order_are_books()
    ensures books { RowsAreBooks }
    ensures rows { BooksHaveRows }
{}
