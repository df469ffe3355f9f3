//! What is loaded is a book.
ghost use Rattle.store_api.specs.Laws.{TouchedIsABook};

/// The rows of a book that a call touches are a book.
pub fn touched_rows_are_a_book()
    ensures { TouchedIsABook }
{}
