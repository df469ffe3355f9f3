//! The orders of a desk, one after the other.
ghost use Rattle.std.specs.Prelude.{◌≡◌, ◌<◌, ◌^◌, IfOk, IfErr, OnSome, None, Some};
ghost use Rattle.model_parts.specs.Above.{orders_above};
ghost use Rattle.store_api.specs.Sight.{ForTables, IsCaused, LeavesUnchanged, Reads};
ghost use Rattle.store_api.specs.declared.fault.StorageFault.{StorageFault as Fault};
ghost use Rattle.desk_model.specs.Tables.{Tables};
ghost use Rattle.store_passes.specs.{InOrder.IsInOrder, Left.IsNext};

use crate::passed::row_after;
use desk_model::OrderRow;
use std::alloc::Global;
use store_api::{RowsAbove, StorageFault};

/// A pass through the orders of a desk, by number, which keeps one of them at most.
///
/// After a fault it gives the same fault again, and reads no more.
#[derive(Drop)]
pub struct Orders<'a, S: RowsAbove> {
    source: &'a mut S,
    above: u64,
    fault: Option<StorageFault>,
}

impl<'a, S: RowsAbove> Orders<'a, S> {
    /// A pass through all orders of this source.
    #[tactic(auto, using(crate::proofs::Alls::all_orders, crate::proofs::Alls::books_in_order))]
    pub fn new(source: &'a mut S) -> Orders<'a, S>
        ensures same_source { result.source.ghost_name ≡ source.entry.ghost_name }
        ensures unread { result.source.now ≡ source.old }
        ensures unfailed { result.fault ≡ None }
        ensures all { (T : Tables) → S.sight.holds source.old T → orders_above T result.above ≡ T.orders }
    {
        Orders {
            source,
            above: 0,
            fault: None,
        }
    }

    /// The next order, or `None` after the last.
    ///
    /// # Errors
    ///
    /// As a look-up of the source; of tables by no other fault. `Reopen` also where rows do not stand by number, which no tables have.
    #[tactic(auto, using(crate::proofs::Alls::books_in_order))]
    pub fn next(&mut self, alloc: Global) -> Result<Option<OrderRow>, StorageFault>
        ensures same_source { self.new.source.ghost_name ≡ self.old.source.ghost_name }
        ensures reads { LeavesUnchanged S.sight self.old.source.now self.new.source.now result }
        ensures caused { self.old.fault ≡ None → IsCaused S.sight self.old.source.now self.new.source.now result }
        ensures next { ForTables S.sight self.old.source.now self.new.source.now (λ T.
            IfOk result (λ order. IsNext order (orders_above T self.old.above) (orders_above T self.new.above))) }
        ensures onward { IfOk result (λ order. OnSome order (self.old.above < self.new.above × self.new.above < 2 ^ 64)) }
        ensures failed { IfErr result (λ fault. self.new.fault ≡ Some fault) }
        ensures again { (fault : Fault) → self.old.fault ≡ Some fault → (result ≡ Err fault) × (self.new ≡ self.old) }
    {
        match self.fault {
            Some(fault) => Err(fault),
            None => self.advance(alloc),
        }
    }

    // Reads the next order.
    fn advance(&mut self, alloc: Global) -> Result<Option<OrderRow>, StorageFault>
        ensures same_source { self.new.source.ghost_name ≡ self.old.source.ghost_name }
        ensures reads { Reads S.sight self.old.source.now self.new.source.now result }
        ensures next { ForTables S.sight self.old.source.now self.new.source.now (λ T. IsInOrder T →
            IfOk result (λ order. IsNext order (orders_above T self.old.above) (orders_above T self.new.above))) }
        ensures onward { IfOk result (λ order. OnSome order (self.old.above < self.new.above × self.new.above < 2 ^ 64)) }
        ensures failed { IfErr result (λ fault. self.new.fault ≡ Some fault) }
    {
        match row_after::<OrderRow, S>(alloc, self.source, self.above) {
            Ok(Some(order)) => {
                self.above = order.number;
                Ok(Some(order))
            }
            Ok(None) => Ok(None),
            Err(fault) => {
                self.fault = Some(fault);
                Err(fault)
            }
        }
    }
}
