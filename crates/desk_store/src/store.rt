//! The store of a desk, and how a desk asks for it.
ghost use Rattle.std.specs.Prelude.{◌≡◌, ◌⊎◌, false, Err, IfErr, IfOk, IsTrue, MatchResult, None, Ok, OnOk};
ghost use Rattle.sqlite.specs.State.{HasCleanDisk, IsUnchanged, Survives};
ghost use Rattle.sqlite.specs.{Held.state, Tree.Trees};
ghost use Rattle.desk_model.specs.History.{first_history};
ghost use Rattle.desk_model.specs.Tables.{Tables, picture};
ghost use Rattle.sql_write.specs.{Committing.GoesBack, Stored.IsPartOf};
ghost use Rattle.sql_schema.specs.Names.{uses_key_table};
ghost use Rattle.sql_schema.specs.{Schema.no_schema, Stays.Asks};
ghost use Rattle.sql_read.specs.{Failures.MayRead, Held.ForHeld, LookUpFaults.IsOfMemoryOrDisk};
ghost use Rattle.store_api.specs.Sight.{ForTables, Keeps, Reads};
ghost use Rattle.store_api.specs.Storing.{SavesOf};
ghost use Rattle.store_api.specs.declared.fault.StorageFault.TheVariants.{Memory as memory, Reopen as reopen};
ghost use Rattle.desk_store.specs.Causes.{Failed, FailedToChange};
ghost use Rattle.desk_store.specs.Desks.{HasDesk, store_sight};
ghost use Rattle.desk_store.specs.Making.{FailedToMake, IsNewDesk, IsOfStorage, has_objects};
ghost use Rattle.desk_store.specs.Opening.{FailedToOpen, HasLaterFormat, IsUpgraded, IsWhole, IsWholeFirst, ShowsKnownFormat, ShowsNewerFormat, RefusesFormat};
ghost use Rattle.desk_store.specs.Opening.{ShowsNoDesk, ShowsNoLaterFormat};
ghost use Rattle.desk_store.specs.declared.open_fault.OpenFault.TheVariants.{NewerFormat as newer_format, NotADesk as not_a_desk, Storage as of_storage};
ghost use Rattle.sql_upgrade.specs.FirstDesks.{HasFirst};
ghost use Rattle.store_book.specs.IsBook.{IsStoredBook};

use crate::faults::{reading_fault, saving_fault};
use crate::known::Known;
use crate::making::{has_objects, make_desk};
use crate::open_fault::OpenFault;
use crate::opening::open_desk;
use desk_book::Book;
use desk_model::{Change, Clock, Policy};
use sql_read::{ReadFault, meta_row};
use sql_write::save_all;
use sqlite::{Alter, Connection};
use std::alloc::Global;
use store_api::{Kept, ParsedCall, Storage, StorageFault, load_enough, whole_book};

/// The tables of a desk over a connection, which is in no transaction between two calls.
#[derive(Drop)]
pub struct Store<S: Alter> {
    pub(crate) conn: Connection<S>,
    // What is so of these tables, as far as it is known.
    pub(crate) known: Known,
}

/// Why there is no store, and the connection that was given.
#[derive(Drop)]
pub struct Unopened<S: Alter> {
    /// Of the store, or of what the database holds.
    pub fault: OpenFault,
    /// As the attempt left it.
    pub conn: Connection<S>,
}

impl<S: Alter> Store<S> {
    /// Makes a desk with a policy at a moment, in seconds since 1970, in an empty database, by one transaction.
    ///
    /// # Errors
    ///
    /// `NotADesk` where there is a table, an index or a view; the connection is then the one that was given. `Storage` where the
    /// store failed, by the faults of `save`: `Device` where a statement is refused for what is neither memory, the disk nor a
    /// size. A connection that is still open has what it had.
    #[tactic(auto, using(crate::proofs::NewDesks::asked_is_none, crate::proofs::NothingWritten::failed, crate::proofs::OpeningFaults::not_bare, crate::proofs::Knowing::nothing_known, crate::proofs::OpeningFaults::same_storage))]
    pub fn make(
        alloc: Global,
        conn: Connection<S>,
        policy: Policy,
        at: Clock,
    ) -> Result<Store<S>, Unopened<S>>
        requires idle { conn.in_transaction ≡ false }
        ensures taken { IsTrue (has_objects (state S.Store conn).now.schema) → result ≡ Err (record { fault = not_a_desk; conn = conn }) }
        ensures idle { MatchResult result (λ store. store.conn.in_transaction ≡ false) (λ un. un.conn.in_transaction ≡ false) }
        ensures empty { IfOk result (λ _. (state S.Store conn).now.schema ≡ no_schema) }
        ensures made { IfOk result (λ store. HasCleanDisk (state S.Store store.conn)
            → (state S.Store conn).step_limit ≡ None → Keeps (store_sight S.Store) store (picture (first_history policy at))) }
        ensures failed { has_objects (state S.Store conn).now.schema ≡ false → IfErr result (λ un. FailedToMake S.Store policy at conn un.conn un.fault) }
        ensures back { has_objects (state S.Store conn).now.schema ≡ false
            → IfErr result (λ un. HasCleanDisk (state S.Store un.conn) → GoesBack (state S.Store conn) (state S.Store un.conn)) }
        ensures answering { IfErr result (λ un. HasCleanDisk (state S.Store un.conn) → un.fault ≡ of_storage memory → IsTrue (state S.Store un.conn).is_open) }
        ensures left { has_objects (state S.Store conn).now.schema ≡ false → MatchResult result
            (λ store. Survives (state S.Store conn) (state S.Store store.conn) (IsNewDesk policy at (state S.Store conn)))
            (λ un. Survives (state S.Store conn) (state S.Store un.conn) (IsNewDesk policy at (state S.Store conn))) }
    {
        let mut conn = conn;
        if has_objects(conn.schema()) {
            return Err(Unopened {
                fault: OpenFault::NotADesk,
                conn,
            });
        }
        match make_desk(alloc, &mut conn, policy, at) {
            Ok(()) => Ok(Store {
                conn,
                known: Known::nothing(),
            }),
            Err(fault) => Err(Unopened {
                fault: OpenFault::Storage(fault),
                conn,
            }),
        }
    }

    /// Opens the desk that the database of a connection holds; one of format 1 becomes one of today's format first, by one transaction.
    ///
    /// # Errors
    ///
    /// `NewerFormat` where `meta` has one row of a later format; else `NotADesk` where a table, a column or an index is
    /// missing, or where no book has the rows: nothing was changed. `Storage` where the store failed: after `Memory` the
    /// database is as it was; else a stop leaves what it left before or, of a desk in format 1, the same desk in today's format.
    /// A reading that is refused for what is neither memory, the disk nor a size is `NotADesk`, a statement of the upgrade `Device`; a
    /// reading has `Device` only where the disk failed.
    #[tactic(auto, using(crate::proofs::NothingWritten::desk_unchanged, crate::proofs::EitherFormat::keeps_second, crate::proofs::Knowing::nothing_known, crate::proofs::EitherFormat::uses_keys))]
    pub fn open(alloc: Global, conn: Connection<S>) -> Result<Store<S>, Unopened<S>>
        requires idle { conn.in_transaction ≡ false }
        ensures idle { MatchResult result (λ store. store.conn.in_transaction ≡ false) (λ un. un.conn.in_transaction ≡ false) }
        ensures asks { IsTrue (uses_key_table (state S.Store conn).now.schema)
            → MatchResult result (λ store. Asks (state S.Store conn) (state S.Store store.conn)) (λ un. Asks (state S.Store conn) (state S.Store un.conn)) }
        ensures unchanged { IsTrue (uses_key_table (state S.Store conn).now.schema)
            → IfOk result (λ store. HasCleanDisk (state S.Store store.conn) → IsUnchanged (state S.Store conn) (state S.Store store.conn)) }
        ensures refused { IfErr result (λ un. (un.fault ≡ not_a_desk) ⊎ (un.fault ≡ newer_format) → Asks (state S.Store conn) (state S.Store un.conn)) }
        ensures kept { IfOk result (λ store. HasCleanDisk (state S.Store store.conn) → (T : Tables) → HasDesk (state S.Store conn) T
            → Keeps (store_sight S.Store) store T) }
        ensures upgraded { IfOk result (λ store. HasCleanDisk (state S.Store store.conn) → (T : Tables) → HasFirst (state S.Store conn) T
            → Keeps (store_sight S.Store) store T) }
        ensures back { (state S.Store conn).now ≡ (state S.Store conn).committed
            → IfErr result (λ un. HasCleanDisk (state S.Store un.conn) → GoesBack (state S.Store conn) (state S.Store un.conn)) }
        ensures left { MatchResult result (λ store. Survives (state S.Store conn) (state S.Store store.conn) (IsUpgraded (state S.Store conn)))
            (λ un. Survives (state S.Store conn) (state S.Store un.conn) (IsUpgraded (state S.Store conn))) }
        ensures spared { IfErr result (λ un. un.fault ≡ of_storage memory → Survives (state S.Store conn) (state S.Store un.conn) (λ _. ⊥)) }
        ensures newer { IfErr result (λ un. HasCleanDisk (state S.Store un.conn) → un.fault ≡ newer_format → ShowsNewerFormat S.Store conn) }
        ensures shows { IfOk result (λ store. HasCleanDisk (state S.Store store.conn) → ShowsKnownFormat S.Store conn) }
        ensures no_later { IfErr result (λ un. HasCleanDisk (state S.Store un.conn) → un.fault ≡ not_a_desk → ShowsNoLaterFormat S.Store conn) }
        ensures no_desk { IfErr result (λ un. HasCleanDisk (state S.Store un.conn) → un.fault ≡ not_a_desk
            → RefusesFormat S.Store conn ⊎ ShowsNoDesk S.Store conn) }
        ensures whole { IfOk result (λ store. HasCleanDisk (state S.Store store.conn) → IsTrue (uses_key_table (state S.Store conn).now.schema)
            → IsWhole S.Store conn) }
        ensures whole_first { IfOk result (λ store. HasCleanDisk (state S.Store store.conn) → uses_key_table (state S.Store conn).now.schema ≡ false
            → IsWholeFirst S.Store conn) }
        ensures desk { IfErr result (λ un. HasCleanDisk (state S.Store un.conn) → (T : Tables) → HasDesk (state S.Store conn) T → IsOfStorage un.fault) }
        ensures first { IfErr result (λ un. HasCleanDisk (state S.Store un.conn) → (T : Tables) → HasFirst (state S.Store conn) T → IsOfStorage un.fault) }
        ensures later { HasLaterFormat (state S.Store conn) → MatchResult result
            (λ store. HasCleanDisk (state S.Store store.conn) → ⊥)
            (λ un. HasCleanDisk (state S.Store un.conn) → (un.fault ≡ newer_format) ⊎ IsOfStorage un.fault) }
        ensures failed { IfErr result (λ un. FailedToOpen S.Store conn un.conn un.fault) }
        ensures answering { IfErr result (λ un. HasCleanDisk (state S.Store un.conn) → un.fault ≡ of_storage memory → IsTrue (state S.Store un.conn).is_open) }
    {
        let mut conn = conn;
        match open_desk(alloc, &mut conn) {
            Ok(()) => Ok(Store {
                conn,
                known: Known::nothing(),
            }),
            Err(fault) => Err(Unopened { fault, conn }),
        }
    }

    /// The book of the tables.
    ///
    /// # Errors
    ///
    /// `Memory`: the store has what it had. `Device` or `Reopen`: it is to be opened again. Of a desk's tables `Device` comes only
    /// where the disk failed.
    #[tactic(auto, using(crate::proofs::Books::book_ordered, crate::proofs::Failing::read_failed))]
    pub fn load(&mut self, alloc: Global) -> Result<Book, StorageFault>
        ensures reads { Reads (store_sight S.Store) self.old self.new result }
        ensures book { ForTables (store_sight S.Store) self.old self.new (λ T. IfOk result (λ book. book ≡ T)) }
        ensures failed { IfErr result (Failed S.Store None self.old.conn self.new.conn) }
    {
        whole_book(alloc, self)
    }

    /// The policy that the desk was made with.
    ///
    /// # Errors
    ///
    /// As of `load`.
    #[tactic(auto, using(sql_schema::proofs::StaysLemmas::asks_then, crate::proofs::NothingWritten::failed, crate::proofs::NothingWritten::hands_on, crate::proofs::Failing::read_failed, store_api::proofs::Readings::reads_failed_as, store_api::proofs::Readings::reads_unchanged, store_api::proofs::Readings::unchanged_read))]
    pub fn policy(&mut self, alloc: Global) -> Result<Policy, StorageFault>
        ensures reads { Reads (store_sight S.Store) self.old self.new result }
        ensures found { ForTables (store_sight S.Store) self.old self.new (λ T. IfOk result (λ policy. policy ≡ T.meta.policy)) }
        ensures asks { Asks (state S.Store self.old.conn) (state S.Store self.new.conn) }
        ensures failed { IfErr result (Failed S.Store None self.old.conn self.new.conn) }
        ensures answering { IfErr result (λ why. HasCleanDisk (state S.Store self.new.conn) → why ≡ memory → IsTrue (state S.Store self.new.conn).is_open) }
    {
        let read = meta_row(alloc, &mut self.conn);
        match self.or_fault(read) {
            Ok(meta) => Ok(meta.policy),
            Err(fault) => Err(fault),
        }
    }

    /// Makes changes that fit the tables, one after the other, in one transaction: all of them, or none. They fit where each row
    /// in the place of another keeps its children, and the tables with all of them are a book. What is known is a part of the
    /// tables, whose rows need not be written where they are as they were.
    ///
    /// # Errors
    ///
    /// `Memory` where a growth was refused before the commit and the transaction was given up: the store has what it had.
    /// `Reopen` where memory was refused otherwise, or where the commit was refused by anything but the disk. `Device` for each
    /// other refusal. After `Device` or `Reopen` the store is to be opened again, and then has all changes or none.
    pub fn save(
        &mut self,
        alloc: Global,
        part: &Book,
        changes: &[Change],
    ) -> Result<(), StorageFault>
        ensures saves { SavesOf (store_sight S.Store) (IsPartOf part.now) changes.now self.old self.new result }
        ensures failed { IfErr result (λ why. self.old.conn.in_transaction ≡ false
            → FailedToChange S.Store part.now changes.now self.old.conn self.new.conn why) }
        ensures closed { IsTrue self.old.conn.in_transaction → (result ≡ Err reopen) × (self.new ≡ self.old) }
    {
        // No call leaves a transaction open; a store that had one would not know what it holds.
        if !self.conn.is_autocommit() {
            return Err(StorageFault::Reopen);
        }
        match save_all(alloc, &mut self.conn, part, changes) {
            Ok(()) => {
                self.known.follow(changes);
                Ok(())
            }
            Err(fault) => {
                self.known = Known::nothing();
                Err(saving_fault(&mut self.conn, fault))
            }
        }
    }

    // What a reading found, or the fault of the store where it failed.
    pub(crate) fn or_fault<R>(&mut self, read: Result<R, ReadFault>) -> Result<R, StorageFault>
        ensures reads { (was : Store S) → was.known ≡ self.old.known → Asks (state S.Store was.conn) (state S.Store self.old.conn)
            → (HasCleanDisk (state S.Store self.old.conn) → OnOk read (IsUnchanged (state S.Store was.conn) (state S.Store self.old.conn)))
            → (ForHeld (state S.Store was.conn) (state S.Store self.old.conn) (λ T. IsStoredBook T → MayRead (state S.Store was.conn)
            → IfErr read (IsOfMemoryOrDisk (state S.Store was.conn) (state S.Store self.old.conn))))
            → Reads (store_sight S.Store) was self.new result }
        ensures known { self.new.known ≡ self.old.known }
        ensures found { IfOk result (λ found. read ≡ Ok found) }
        ensures honest { HasCleanDisk (state S.Store self.new.conn) → HasCleanDisk (state S.Store self.old.conn) }
        ensures asks { Asks (state S.Store self.old.conn) (state S.Store self.new.conn) }
        ensures answering { IfErr result (λ why. HasCleanDisk (state S.Store self.new.conn) → why ≡ memory → IsTrue (state S.Store self.new.conn).is_open) }
    {
        match read {
            Ok(found) => Ok(found),
            Err(fault) => Err(reading_fault(&mut self.conn, fault)),
        }
    }

    /// The connection, as it is.
    pub fn close(self) -> Connection<S>
        ensures { result ≡ self.conn }
    {
        self.conn
    }
}

// ---- as a desk asks for it

impl<S: Alter> Kept for Store<S> {
    ghost Content = { Trees };

    ghost sight = { store_sight S.Store };
}

impl<S: Alter> Storage for Store<S> {
    ghost causes = { λ changes old new why. Failed S.Store changes old.conn new.conn why };

    fn policy(&mut self, alloc: Global) -> Result<Policy, StorageFault> {
        Store::policy(self, alloc)
    }

    #[tactic(auto, using(crate::proofs::Failing::read_failed))]
    fn load_part(&mut self, alloc: Global, call: &ParsedCall) -> Result<Book, StorageFault> {
        load_enough(alloc, self, call)
    }

    #[tactic(auto, using(crate::proofs::SavedDesks::part_found, crate::proofs::SavedDesks::saves_of))]
    fn save(
        &mut self,
        alloc: Global,
        part: &Book,
        changes: Vec<Change>,
    ) -> Result<(), StorageFault> {
        Store::save(self, alloc, part, changes.as_slice())
    }
}
