//! Which tables a store may have.
ghost use Rattle.desk_store.specs.Desks.{PicturesAreDesks};

/// A database that holds the tables of a legal history holds a book that a file can hold.
pub fn desks_are_books()
    ensures { PicturesAreDesks }
{}
