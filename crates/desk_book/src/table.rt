//! Tables: rows in the order of their numbers, each under its own.
ghost use Rattle.std.specs.Prelude.{◌≡◌, ◌==◌, [], List, find, OnOk, OnErr, option_copied, ℕ};
ghost use Rattle.std.specs.Map.Iter.{ShowsInOrder, deref};
ghost use Rattle.desk_model.specs.Change.{put, remove};

use desk_model::{AccountRow, AuthorizationRow, ChallengeRow, Listed, Nonce, OrderRow};
use std::alloc::{AllocError, Global};
use std::collections::BTreeMap;
use std::collections::btree_map::Values;
use std::marker::Model;

/// The rows of one kind, each under its number, which contracts see as the list of the rows.
#[derive(Drop)]
pub struct Table<R: Row + Drop> {
    rows: BTreeMap<u64, R>,
}

impl<R: Row + Drop> Model for Table<R> {
    ghost use Rattle.std.specs.{Prelude.List, BTreeMap.values};
    ghost use Rattle.desk_book.specs.Keyed.{IsKeyed};

    ghost Value = { List R };

    ghost view = { λ t. values t.rows };

    ghost invariant = { λ t. IsKeyed R.number t.rows.entries };
}

impl<R: Row + Drop> Table<R> {
    /// A table without rows.
    pub fn new(alloc: Global) -> Table<R>
        ensures { result ≡ [] }
    {
        Table {
            rows: BTreeMap::new(alloc),
        }
    }

    /// The row of this number.
    pub fn get(&self, number: u64) -> Option<&R>
        ensures { option_copied result ≡ find (λ row. R.number row == number) self.now }
    {
        self.rows.get(&number)
    }

    /// The rows in the order of their numbers.
    pub fn iter(&self) -> Values<'_, u64, R>
        ensures rest { result ≡ self.now }
        ensures runs { ShowsInOrder (deref {X = R}) }
    {
        self.rows.values()
    }

    /// Puts a row in the place of the one with its number.
    ///
    /// # Errors
    ///
    /// Where there is no memory for it: the table is then as it was.
    pub fn put(&mut self, row: R) -> Result<(), AllocError>
        ensures done { OnOk result (self.new ≡ put (λ r. R.number r) row self.old) }
        ensures unchanged { OnErr result (self.new ≡ self.old) }
    {
        let number = row.number();
        self.rows.insert(number, row)?;
        Ok(())
    }

    /// Removes the row of this number, if there is one.
    pub fn remove(&mut self, number: u64)
        ensures { self.new ≡ remove (λ r. R.number r) number self.old }
    {
        // A map's length comes with the order of its keys: no other row has this number.
        let _rows = self.rows.len();
        self.rows.remove(&number);
    }
}

impl<R: Row + Drop> Clone for Table<R> {
    ghost is_clone = { λ table copy. copy ≡ table };

    fn clone(&self) -> Result<Table<R>, AllocError> {
        let rows = self.rows.clone()?;
        Ok(Table { rows })
    }
}

// ---- rows, which have numbers

/// A row of a table, which has a number of its own.
pub trait Row: Clone {
    ghost number: { Self → ℕ };

    /// The number of the row in its table.
    fn number(&self) -> u64
        ensures { result ≡ number self.now };

    ghost clones: { (row copy : Self) → Self.is_clone row copy → copy ≡ row };
}

impl Row for Nonce {
    ghost number = { λ row. row.serial };

    ghost clones = { λ row copy same. same };

    fn number(&self) -> u64 {
        self.serial
    }
}

impl Row for AccountRow {
    ghost number = { λ row. row.number };

    ghost clones = { λ row copy same. same };

    fn number(&self) -> u64 {
        self.number
    }
}

impl Row for AuthorizationRow {
    ghost number = { λ row. row.number };

    ghost clones = { λ row copy same. same };

    fn number(&self) -> u64 {
        self.number
    }
}

impl Row for OrderRow {
    ghost number = { λ row. row.number };

    ghost clones = { λ row copy same. same };

    fn number(&self) -> u64 {
        self.number
    }
}

impl Row for ChallengeRow {
    ghost number = { λ row. row.number };

    ghost clones = { λ row copy same. same };

    fn number(&self) -> u64 {
        self.number
    }
}

impl Row for Listed {
    ghost number = { λ row. row.place };

    ghost clones = { λ row copy same. same };

    fn number(&self) -> u64 {
        self.place
    }
}
