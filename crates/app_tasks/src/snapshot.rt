//! What is known of a desk that is served at one moment: what was counted, and what its rows tell.
ghost use Rattle.std.specs.Prelude.{◌≡◌, IfOk, count_by, length};
ghost use Rattle.app_tasks.specs.Metrics.{IsSnapshotOf, challenges_waiting, snapshot_of};
ghost use Rattle.desk_model.specs.Authorization.{is_pending};
ghost use Rattle.model_laws.specs.Ordered.{IsOrdered};
ghost use Rattle.model_parts.specs.LookUps.{orders_processing};
ghost use Rattle.store_api.specs.Sight.{ForTables, Reads};

use crate::totals::Totals;
use app_reports::{Beside, seconds_ahead};
use desk_model::Counters;
use std::alloc::Global;
use store_api::{LookUps, StorageFault};
use store_columns::JoinedChallenge;

/// What is known of a desk that is served beside its rows.
#[derive(Clone, Copy)]
pub(crate) struct Reading {
    /// What was counted since it is served.
    pub(crate) served: Totals,
    /// The machine's moment, and how many bytes the log has.
    pub(crate) beside: Beside,
    /// How many bytes the file has.
    pub(crate) file: u64,
}

/// What its metrics tell.
#[derive(Clone, Copy)]
pub(crate) struct Snapshot {
    /// What was counted since it is served.
    pub(crate) served: Totals,
    /// The last numbers that it gave, and its clock.
    pub(crate) counters: Counters,
    /// By how many seconds that is ahead of the machine's.
    pub(crate) ahead: u64,
    /// How many bytes its file has.
    pub(crate) file: u64,
    /// How many its log has.
    pub(crate) log: u64,
    /// How many challenges are stored as waiting for the validator.
    pub(crate) challenges: u64,
    /// How many orders are stored as waiting for the signing office.
    pub(crate) orders: u64,
}

/// The snapshot of a desk, beside what is known otherwise. What waits is looked up by the stored status alone.
///
/// # Errors
///
/// Those of the store: a growth was refused, or the rows could not be read.
pub(crate) fn take_snapshot<K: LookUps>(
    alloc: Global,
    source: &mut K,
    reading: &Reading,
) -> Result<Snapshot, StorageFault>
    ensures reads { Reads K.sight source.old source.new result }
    ensures found { ForTables K.sight source.old source.new (λ T. IfOk result (IsSnapshotOf reading.now T)) }
{
    let counters = counters_of(alloc, source)?;
    let challenges = count_challenges(alloc, source)?;
    let orders = count_orders(alloc, source)?;
    Ok(snapshot_of(*reading, counters, challenges, orders))
}

// The last numbers that the desk gave, and its clock.
fn counters_of<K: LookUps>(alloc: Global, source: &mut K) -> Result<Counters, StorageFault>
    ensures reads { Reads K.sight source.old source.new result }
    ensures found { ForTables K.sight source.old source.new (λ T. IfOk result (λ counters. counters ≡ T.meta.counters)) }
{
    let meta = source.meta_row(alloc)?;
    Ok(meta.counters)
}

// How many challenges are stored as waiting for the validator, under an authorization that is stored as pending: one that has ended keeps
// its challenges as they are, and nobody validates them.
fn count_challenges<K: LookUps>(alloc: Global, source: &mut K) -> Result<u64, StorageFault>
    ensures reads { Reads K.sight source.old source.new result }
    ensures found { ForTables K.sight source.old source.new (λ T. IfOk result (λ count. IsOrdered T → count ≡ length (challenges_waiting T))) }
{
    let waiting = source.waiting_challenges(alloc)?;
    Ok(count_pending(waiting.as_slice()))
}

// How many of these challenges are under an authorization that is stored as pending.
fn count_pending(waiting: &[JoinedChallenge]) -> u64
    ensures { result ≡ count_by (λ w. is_pending w.authorization.status) waiting.now }
{
    waiting
        .iter()
        .filter(|found| found.authorization.status.is_pending())
        .count() as u64
}

// How many orders are stored as waiting for the signing office.
fn count_orders<K: LookUps>(alloc: Global, source: &mut K) -> Result<u64, StorageFault>
    ensures reads { Reads K.sight source.old source.new result }
    ensures found { ForTables K.sight source.old source.new (λ T. IfOk result (λ count. count ≡ length (orders_processing T))) }
{
    let orders = source.processing_orders(alloc)?;
    Ok(orders.len() as u64)
}

// The snapshot of a desk with these numbers.
fn snapshot_of(reading: Reading, counters: Counters, challenges: u64, orders: u64) -> Snapshot
    ensures { result ≡ snapshot_of reading counters challenges orders }
{
    let lead = seconds_ahead(counters.clock.moment(), reading.beside.now);
    Snapshot {
        served: reading.served,
        counters,
        ahead: lead.unwrap_or(0),
        file: reading.file,
        log: reading.beside.log,
        challenges,
        orders,
    }
}
