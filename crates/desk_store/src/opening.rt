//! The opening of a desk.
ghost use Rattle.std.specs.Prelude.{◌≡◌, ◌≢◌, ◌⊎◌, Err, IfErr, IfOk, IsTrue, MatchResult, OnErr, OnOk, false};
ghost use Rattle.sqlite.specs.State.{HasCleanDisk, IsUnchanged, Survives};
ghost use Rattle.sqlite.specs.Held.{state};
ghost use Rattle.desk_model.specs.Tables.{Tables};
ghost use Rattle.sql_read.specs.Format.{IsNewer, ShowsFormats};
ghost use Rattle.sql_write.specs.Committing.{GoesBack, IsLeft};
ghost use Rattle.sql_schema.specs.{Names.uses_key_table, Stays.Asks};
ghost use Rattle.store_api.specs.declared.fault.StorageFault.TheVariants.{Memory as memory, Reopen as reopen};
ghost use Rattle.desk_store.specs.Causes.{IsMetFault, IsOfOpening, IsSilent, cause_of};
ghost use Rattle.desk_store.specs.Desks.{AreOfDesk, HasDesk};
ghost use Rattle.desk_store.specs.Making.{IsOfStorage};
ghost use Rattle.desk_store.specs.Opening.{FailedToOpen, FailedToWiden, HasLaterFormat, ShowsFirstBook};
ghost use Rattle.desk_store.specs.Opening.{OpensKnown, ReadsDesk, ReadsFirst, RefusesFormat, ShowsKnownFormat, ShowsNewerFormat};
ghost use Rattle.desk_store.specs.Opening.{ShowsNoDesk, ShowsNoFirstBook, ShowsNoLaterFormat};
ghost use Rattle.desk_store.specs.declared.open_fault.OpenFault.TheVariants.{NewerFormat as newer_format, NotADesk as not_a_desk, Storage as of_storage};
ghost use Rattle.sql_upgrade.specs.FirstDesks.{BringsDesk, HasFirst, HasSecond, IsAdded, UpgradesDesk};

use crate::faults::{EngineCause, cause_of, memory_fault, saving_fault};
use crate::open_fault::OpenFault;
use sql_read::{has_book_rows, is_newer};
use sql_schema::{has_indexes, uses_key_table};
use sql_upgrade::{Additions, read_additions, upgrade};
use sqlite::{Alter, Connection, Error};
use std::alloc::Global;
use store_api::StorageFault;

// The fault of a reading that failed in opening.
fn opening_fault<S: Alter>(conn: &mut Connection<S>, error: Error) -> OpenFault
    ensures fault { IsOfOpening (cause_of error) result }
    ensures unchanged { HasCleanDisk (state S.Store conn.new) → result ≡ of_storage memory → IsUnchanged (state S.Store conn.old) (state S.Store conn.new) }
    ensures silent { HasCleanDisk (state S.Store conn.new) → result ≡ of_storage reopen → IsSilent (state S.Store conn.old) (state S.Store conn.new) }
    ensures asks { Asks (state S.Store conn.old) (state S.Store conn.new) }
{
    match cause_of(error) {
        EngineCause::Memory => OpenFault::Storage(memory_fault(conn)),
        EngineCause::Device => OpenFault::Storage(StorageFault::Device),
        EngineCause::Other => OpenFault::NotADesk,
    }
}

// That the tables are not of a later format.
fn check_format<S: Alter>(conn: &mut Connection<S>) -> Result<(), OpenFault>
    ensures shows { HasCleanDisk (state S.Store conn.new)
        → OnOk result (ShowsFormats (state S.Store conn.old) (state S.Store conn.new) (λ rows. ¬ IsNewer rows)) }
    ensures newer { HasCleanDisk (state S.Store conn.new) → result ≡ Err newer_format → ShowsFormats (state S.Store conn.old) (state S.Store conn.new) IsNewer }
    ensures refused { HasCleanDisk (state S.Store conn.new) → result ≡ Err not_a_desk → RefusesFormat S.Store conn.old }
    ensures unchanged { HasCleanDisk (state S.Store conn.new) → OnOk result (IsUnchanged (state S.Store conn.old) (state S.Store conn.new)) }
    ensures desk { HasCleanDisk (state S.Store conn.new) → IfErr result (λ why. (T : Tables) → HasDesk (state S.Store conn.old) T → IsOfStorage why) }
    ensures first { HasCleanDisk (state S.Store conn.new) → IfErr result (λ why. (T : Tables) → HasFirst (state S.Store conn.old) T → IsOfStorage why) }
    ensures later { HasCleanDisk (state S.Store conn.new) → HasLaterFormat (state S.Store conn.old)
        → MatchResult result (λ _. ⊥) (λ why. (why ≡ newer_format) ⊎ IsOfStorage why) }
    ensures met { HasCleanDisk (state S.Store conn.new) → IfErr result (IsMetFault (state S.Store conn.old) (state S.Store conn.new)) }
    ensures answering { HasCleanDisk (state S.Store conn.new) → result ≡ Err (of_storage memory) → IsTrue (state S.Store conn.new).is_open }
    ensures asks { Asks (state S.Store conn.old) (state S.Store conn.new) }
{
    match is_newer(conn) {
        Ok(true) => Err(OpenFault::NewerFormat),
        Ok(false) => Ok(()),
        Err(error) => Err(opening_fault(conn, error)),
    }
}

// What today's format adds to the desk. The rows are read one after the other, so that of each no more than what is added is held.
//
// # Errors
//
// `NotADesk` where the tables are no desk's, `Storage` where the store failed.
fn find_additions<S: Alter>(alloc: Global, conn: &mut Connection<S>) -> Result<Additions, OpenFault>
    ensures added { HasCleanDisk (state S.Store conn.new)
        → IfOk result (λ additions. (T : Tables) → HasFirst (state S.Store conn.old) T → IsAdded additions T) }
    ensures reads { ReadsFirst S.Store conn.old conn.new result }
{
    match read_additions(alloc, conn) {
        Ok(Some(additions)) => Ok(additions),
        Ok(None) => Err(OpenFault::NotADesk),
        Err(error) => Err(opening_fault(conn, error)),
    }
}

// Makes of the desk in format 1 to which these are added one of today's format, in one transaction.
#[tactic(auto, using(crate::proofs::NothingWritten::back_then, crate::proofs::Failing::failed_to_save, crate::proofs::NothingWritten::same_fault, sqlite::proofs::StateLemmas::survives_then))]
fn upgrade_with<S: Alter>(
    conn: &mut Connection<S>,
    additions: Additions,
) -> Result<(), StorageFault>
    requires idle { conn.old.in_transaction ≡ false }
    ensures idle { conn.new.in_transaction ≡ false }
    ensures brings { HasCleanDisk (state S.Store conn.new) → OnOk result (BringsDesk additions (state S.Store conn.old) (state S.Store conn.new)) }
    ensures back { (state S.Store conn.old).now ≡ (state S.Store conn.old).committed → HasCleanDisk (state S.Store conn.new)
        → OnErr result (GoesBack (state S.Store conn.old) (state S.Store conn.new)) }
    ensures failed { IfErr result (FailedToWiden S.Store additions conn.old conn.new) }
    ensures answering { HasCleanDisk (state S.Store conn.new) → result ≡ Err memory → IsTrue (state S.Store conn.new).is_open }
    ensures left { Survives (state S.Store conn.old) (state S.Store conn.new) (IsLeft (UpgradesDesk additions (state S.Store conn.old).now)) }
    ensures spared { result ≡ Err memory → Survives (state S.Store conn.old) (state S.Store conn.new) (λ _. ⊥) }
{
    let upgraded = upgrade(conn, &additions);
    // Before the ways part, so that it is dropped in one place.
    drop(additions);
    match upgraded {
        Ok(()) => Ok(()),
        Err(fault) => Err(saving_fault(conn, fault)),
    }
}

// Makes of a desk in format 1 the same desk in today's format, in one transaction; or says why not, as `find_additions` or `upgrade_with`.
#[tactic(auto, using(crate::proofs::NothingWritten::failed, crate::proofs::Upgrading::first_unchanged, std::proofs::Common::inr, crate::proofs::Failing::leaves_nothing, crate::proofs::Failing::opened_nothing, crate::proofs::NothingWritten::same_fault, crate::proofs::OpeningFaults::same_storage, sqlite::proofs::StateLemmas::survives_then, crate::proofs::Upgrading::upgrade_left))]
fn upgrade_desk<S: Alter>(alloc: Global, conn: &mut Connection<S>) -> Result<(), OpenFault>
    requires idle { conn.old.in_transaction ≡ false }
    ensures idle { conn.new.in_transaction ≡ false }
    ensures upgraded { HasCleanDisk (state S.Store conn.new)
        → OnOk result ((T : Tables) → HasFirst (state S.Store conn.old) T → HasSecond (state S.Store conn.new) T) }
    ensures shown { HasCleanDisk (state S.Store conn.new) → OnOk result ((book : Tables) × ShowsFirstBook S.Store conn.old book) }
    ensures no_newer { result ≢ Err newer_format }
    ensures no_desk { HasCleanDisk (state S.Store conn.new) → result ≡ Err not_a_desk → ShowsNoFirstBook S.Store conn.old }
    ensures refused { result ≡ Err not_a_desk → Asks (state S.Store conn.old) (state S.Store conn.new) }
    ensures back { (state S.Store conn.old).now ≡ (state S.Store conn.old).committed → HasCleanDisk (state S.Store conn.new)
        → OnErr result (GoesBack (state S.Store conn.old) (state S.Store conn.new)) }
    ensures left { Survives (state S.Store conn.old) (state S.Store conn.new) (λ trees. (T : Tables) → HasFirst (state S.Store conn.old) T
        → AreOfDesk trees T) }
    ensures spared { result ≡ Err (of_storage memory) → Survives (state S.Store conn.old) (state S.Store conn.new) (λ _. ⊥) }
    ensures desk { HasCleanDisk (state S.Store conn.new) → IfErr result (λ why. (T : Tables) → HasFirst (state S.Store conn.old) T → IsOfStorage why) }
    ensures failed { IfErr result (FailedToOpen S.Store conn.old conn.new) }
    ensures answering { HasCleanDisk (state S.Store conn.new) → result ≡ Err (of_storage memory) → IsTrue (state S.Store conn.new).is_open }
{
    match find_additions(alloc, conn) {
        Ok(additions) => match upgrade_with(conn, additions) {
            Ok(()) => Ok(()),
            Err(fault) => Err(OpenFault::Storage(fault)),
        },
        Err(fault) => Err(fault),
    }
}

// That the rows are a book's. They are read one after the other, so that no more than their numbers are held.
fn check_rows<S: Alter>(alloc: Global, conn: &mut Connection<S>) -> Result<(), OpenFault>
    ensures { ReadsDesk S.Store conn.old conn.new result }
{
    match has_book_rows(alloc, conn) {
        Ok(true) => Ok(()),
        Ok(false) => Err(OpenFault::NotADesk),
        Err(error) => Err(opening_fault(conn, error)),
    }
}

// As `open_desk`, where the tables are not of a later format.
#[tactic(auto, using(sql_schema::proofs::StaysLemmas::asks_nothing, std::proofs::Common::inl, std::proofs::Common::inr))]
fn open_known<S: Alter>(alloc: Global, conn: &mut Connection<S>) -> Result<(), OpenFault>
    requires idle { conn.old.in_transaction ≡ false }
    ensures idle { conn.new.in_transaction ≡ false }
    ensures opens { OpensKnown S.Store conn.old conn.new result }
    ensures refused { result ≡ Err not_a_desk → Asks (state S.Store conn.old) (state S.Store conn.new) }
    ensures no_newer { result ≢ Err newer_format }
    ensures no_desk { HasCleanDisk (state S.Store conn.new) → result ≡ Err not_a_desk → ShowsNoDesk S.Store conn.old }
{
    if !has_indexes(conn.schema()) {
        return Err(OpenFault::NotADesk);
    }
    if uses_key_table(conn.schema()) {
        check_rows(alloc, conn)
    } else {
        upgrade_desk(alloc, conn)
    }
}

/// Finds a desk in today's format, or makes one of a desk in format 1, in one transaction.
///
/// # Errors
///
/// `NewerFormat`, where `meta` has one row of a later format; else `NotADesk`, where a table, a column or an index is missing,
/// or no book has these rows: nothing was changed. `Storage` where the store failed: of a desk in format 1 a stop leaves what it
/// left before, or the same desk in today's format.
#[tactic(auto, using(std::proofs::Common::inl, std::proofs::Common::inr))]
pub(crate) fn open_desk<S: Alter>(alloc: Global, conn: &mut Connection<S>) -> Result<(), OpenFault>
    requires idle { conn.old.in_transaction ≡ false }
    ensures idle { conn.new.in_transaction ≡ false }
    ensures opens { OpensKnown S.Store conn.old conn.new result }
    ensures refused { IfErr result (λ why. (why ≡ not_a_desk) ⊎ (why ≡ newer_format) → Asks (state S.Store conn.old) (state S.Store conn.new)) }
    ensures newer { HasCleanDisk (state S.Store conn.new) → result ≡ Err newer_format → ShowsNewerFormat S.Store conn.old }
    ensures shows { HasCleanDisk (state S.Store conn.new) → OnOk result (ShowsKnownFormat S.Store conn.old) }
    ensures no_later { HasCleanDisk (state S.Store conn.new) → result ≡ Err not_a_desk → ShowsNoLaterFormat S.Store conn.old }
    ensures no_desk { HasCleanDisk (state S.Store conn.new) → result ≡ Err not_a_desk
        → RefusesFormat S.Store conn.old ⊎ ShowsNoDesk S.Store conn.old }
    ensures later { HasCleanDisk (state S.Store conn.new) → HasLaterFormat (state S.Store conn.old)
        → MatchResult result (λ _. ⊥) (λ why. (why ≡ newer_format) ⊎ IsOfStorage why) }
{
    match check_format(conn) {
        Ok(()) => open_known(alloc, conn),
        Err(fault) => Err(fault),
    }
}
