//! The tables of a desk's history as rows of a file: a book, in the limits of the columns, which the columns tell. `sql_read`,
//! `sql_upgrade`, `desk_store` and `desk` stand on it.
#![tactic(auto)]

ghost use Rattle.store_laws.specs.Laws.{PicturesAreBooks};

/// The tables of a legal history are a book whose rows are in the limits of their columns, and a file that holds these
/// columns, in any order, holds no other book; their texts are UTF-8, and what a call records puts no row beyond the limits.
pub fn pictures_are_books()
    ensures { PicturesAreBooks }
{}
