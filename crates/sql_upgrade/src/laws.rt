//! Which databases hold a desk in format 1.
ghost use Rattle.sql_upgrade.specs.FirstDesks.{PicturesAreFirstDesks};

/// A database that holds the tables of a legal history in format 1 is such a desk, where no account got another key.
pub fn first_desks_upgrade()
    ensures { PicturesAreFirstDesks }
{}
