//! The making of a desk.
ghost use Rattle.std.specs.Prelude.{◌≡◌, false, OnOk, OnErr, IfErr, Err, IsTrue};
ghost use Rattle.sqlite.specs.State.{HasCleanDisk, Survives};
ghost use Rattle.sqlite.specs.Held.{state};
ghost use Rattle.sql_write.specs.Committing.{GoesBack};
ghost use Rattle.store_api.specs.declared.fault.StorageFault.TheVariants.{Memory as memory};
ghost use Rattle.desk_store.specs.Making.{FailedToDefine, IsNewDesk, Makes, has_objects};

use crate::faults::saving_fault;
use desk_book::Book;
use desk_model::{Clock, Policy};
use sql_write::make_tables;
use sqlite::{Alter, Connection};
use sqlite_schema::schema::Schema;
use std::alloc::Global;
use store_api::StorageFault;

/// Whether there is a table, an index or a view.
pub(crate) fn has_objects(schema: &Schema) -> bool
    ensures { result ≡ has_objects schema.now }
{
    !schema.tables.as_slice().is_empty()
        || !schema.indexes.as_slice().is_empty()
        || !schema.views.as_slice().is_empty()
}

/// Makes the tables of a desk, at a moment in seconds since 1970, in one transaction.
///
/// # Errors
///
/// `Memory`, where a growth was refused and the connection is still open: it has what it had. `Device` or `Reopen`
/// otherwise: a stop leaves what it left before, or the new desk.
#[tactic(auto, using(crate::proofs::NothingWritten::back_then, crate::proofs::NewDesks::desk_left, crate::proofs::NewDesks::desk_made, crate::proofs::Failing::failed_to_save, crate::proofs::NothingWritten::same_fault, sqlite::proofs::StateLemmas::survives_then, sqlite::proofs::StateLemmas::survives_weaker))]
pub(crate) fn make_desk<S: Alter>(
    alloc: Global,
    conn: &mut Connection<S>,
    policy: Policy,
    at: Clock,
) -> Result<(), StorageFault>
    requires idle { conn.old.in_transaction ≡ false }
    ensures idle { conn.new.in_transaction ≡ false }
    ensures made { HasCleanDisk (state S.Store conn.new) → OnOk result (Makes policy at (state S.Store conn.old) (state S.Store conn.new)) }
    ensures back { HasCleanDisk (state S.Store conn.new) → OnErr result (GoesBack (state S.Store conn.old) (state S.Store conn.new)) }
    ensures failed { IfErr result (FailedToDefine S.Store policy at conn.old conn.new) }
    ensures answering { HasCleanDisk (state S.Store conn.new) → result ≡ Err memory → IsTrue (state S.Store conn.new).is_open }
    ensures left { Survives (state S.Store conn.old) (state S.Store conn.new) (IsNewDesk policy at (state S.Store conn.old)) }
{
    let book = Book::new(alloc, policy, at);
    let made = make_tables(conn, book.meta());
    // Before the ways part, so that it is dropped in one place.
    drop(book);
    match made {
        Ok(()) => Ok(()),
        Err(fault) => Err(saving_fault(conn, fault)),
    }
}
