//! The status faults of a desk, one after the other.
ghost use Rattle.std.specs.Prelude.{◌≡◌, ◌<◌, ◌^◌, IfOk, IfErr, IfSome, OnOk, OnSome, None, Some};
ghost use Rattle.desk_model.specs.Tables.{Tables};
ghost use Rattle.store_api.specs.Sight.{ForTables, IsCaused, LeavesUnchanged, Reads};
ghost use Rattle.store_api.specs.declared.fault.StorageFault.{StorageFault as Fault};
ghost use Rattle.store_passes.specs.{InOrder.IsInOrder, Stepping.Steps};
ghost use Rattle.store_passes.specs.Left.{IsNext, faults_above, faults_of};

use crate::checked::{Checked, check_after};
use crate::fault_kind::FaultKind;
use desk_model::StatusFault;
use std::alloc::Global;
use store_api::{LookUps, RowsAbove, StorageFault};

/// The moment that the desk's clock shows.
///
/// # Errors
///
/// `Memory` where a growth was refused, `Device` or `Reopen` where the row could not be read.
pub fn moment_of<S: LookUps>(alloc: Global, source: &mut S) -> Result<u64, StorageFault>
    ensures reads { Reads S.sight source.old source.new result }
    ensures found { ForTables S.sight source.old source.new (λ T. IfOk result (λ moment. moment ≡ T.meta.counters.clock)) }
{
    let meta = source.meta_row(alloc)?;
    Ok(meta.counters.clock.moment())
}

/// A pass through the status faults of one kind of object, by number, which keeps one object's rows at most: an object has a
/// fault where its stored status is not the one that its columns give (RFC 8555, 7.1.6).
///
/// After a fault of the storage it gives the same again, and reads no more.
#[derive(Drop)]
pub struct StatusFaults<'a, S: RowsAbove> {
    source: &'a mut S,
    kind: FaultKind,
    moment: u64,
    above: u64,
    fault: Option<StorageFault>,
}

impl<'a, S: RowsAbove> StatusFaults<'a, S> {
    /// A pass through all objects of this kind, at the moment of the desk's clock, which `moment_of` gives.
    #[tactic(auto, using(crate::proofs::Alls::all_of_kind, crate::proofs::Alls::books_in_order))]
    pub fn new(source: &'a mut S, kind: FaultKind, moment: u64) -> StatusFaults<'a, S>
        ensures same_source { result.source.ghost_name ≡ source.entry.ghost_name }
        ensures unread { result.source.now ≡ source.old }
        ensures unfailed { result.fault ≡ None }
        ensures all { (T : Tables) → S.sight.holds source.old T → moment ≡ T.meta.counters.clock →
            faults_above T result.kind result.moment result.above ≡ faults_of T kind }
    {
        StatusFaults {
            source,
            kind,
            moment,
            above: 0,
            fault: None,
        }
    }

    /// The fault of the next object that has one, or `None` after the last.
    ///
    /// # Errors
    ///
    /// As a look-up of the source; of tables by no other fault. `Reopen` also where rows do not stand by number, which no tables have.
    #[tactic(auto, using(crate::proofs::Alls::books_in_order))]
    pub fn next(&mut self, alloc: Global) -> Result<Option<StatusFault>, StorageFault>
        ensures same_source { self.new.source.ghost_name ≡ self.old.source.ghost_name }
        ensures reads { LeavesUnchanged S.sight self.old.source.now self.new.source.now result }
        ensures caused { self.old.fault ≡ None → IsCaused S.sight self.old.source.now self.new.source.now result }
        ensures next { ForTables S.sight self.old.source.now self.new.source.now (λ T.
            IfOk result (λ found. IsNext found (faults_above T self.old.kind self.old.moment self.old.above)
            (faults_above T self.new.kind self.new.moment self.new.above))) }
        ensures onward { IfOk result (λ found. OnSome found (self.old.above < self.new.above × self.new.above < 2 ^ 64)) }
        ensures unfailed { OnOk result (self.new.fault ≡ None) }
        ensures failed { IfErr result (λ fault. self.new.fault ≡ Some fault) }
        ensures again { (fault : Fault) → self.old.fault ≡ Some fault → (result ≡ Err fault) × (self.new ≡ self.old) }
    {
        match self.fault {
            Some(fault) => Err(fault),
            None => self.advance(alloc),
        }
    }

    // Goes on to the next object with a fault.
    fn advance(&mut self, alloc: Global) -> Result<Option<StatusFault>, StorageFault>
        ensures same_source { self.new.source.ghost_name ≡ self.old.source.ghost_name }
        ensures reads { Reads S.sight self.old.source.now self.new.source.now result }
        ensures next { ForTables S.sight self.old.source.now self.new.source.now (λ T. IsInOrder T →
            IfOk result (λ found. IsNext found (faults_above T self.old.kind self.old.moment self.old.above)
            (faults_above T self.new.kind self.new.moment self.new.above))) }
        ensures onward { IfOk result (λ found. OnSome found (self.old.above < self.new.above × self.new.above < 2 ^ 64)) }
        ensures unfailed { OnOk result (self.new.fault ≡ self.old.fault) }
        ensures failed { IfErr result (λ fault. self.new.fault ≡ Some fault) }
    {
        while let Some(checked) = self.step(alloc)? {
            if checked.fault.is_some() {
                return Ok(checked.fault);
            }
        }
        Ok(None)
    }

    // Checks one object.
    fn step(&mut self, alloc: Global) -> Result<Option<Checked>, StorageFault>
        ensures same_source { self.new.source.ghost_name ≡ self.old.source.ghost_name }
        ensures same_kind { self.new.kind ≡ self.old.kind }
        ensures same_moment { self.new.moment ≡ self.old.moment }
        ensures reads { Reads S.sight self.old.source.now self.new.source.now result }
        ensures steps { ForTables S.sight self.old.source.now self.new.source.now (λ T. IsInOrder T →
            IfOk result (λ checked. Steps checked (faults_above T self.old.kind self.old.moment) self.old.above)) }
        ensures onward { IfOk result (λ checked. IfSome checked (λ c. self.old.above < c.number × self.new.above ≡ c.number × c.number < 2 ^ 64)) }
        ensures unfailed { OnOk result (self.new.fault ≡ self.old.fault) }
        ensures failed { IfErr result (λ fault. self.new.fault ≡ Some fault) }
    {
        match check_after(alloc, self.source, self.kind, self.moment, self.above) {
            Ok(Some(checked)) => {
                self.above = checked.number;
                Ok(Some(checked))
            }
            Ok(None) => Ok(None),
            Err(fault) => {
                self.fault = Some(fault);
                Err(fault)
            }
        }
    }
}
