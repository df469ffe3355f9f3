//! The desk of a store, and its clock.
ghost use Rattle.std.specs.Prelude.{◌≡◌, IfOk, MatchResult};
ghost use Rattle.store_api.specs.Sight.{ForTables, Unchanged};
ghost use Rattle.app_tasks.specs.Deeds.{Adopts, FailsToAdopt};

use crate::fault::Fault;
use desk::{Desk, DeskFault};
use std::alloc::Global;
use store_api::{LookUps, Storage};

/// The desk of a store.
///
/// # Errors
///
/// `Desk` with the fault of the store, which comes back with it.
pub(crate) fn adopt<K: Storage + Drop>(alloc: Global, store: K) -> Result<Desk<K>, (K, Fault)>
    ensures { MatchResult result (Adopts K.Kept.sight store) (λ un. FailsToAdopt K.Kept.sight store un.0 un.1) }
{
    match Desk::adopt(alloc, store) {
        Ok(desk) => Ok(desk),
        Err(unadopted) => Err((
            unadopted.store,
            Fault::Desk(DeskFault::from(unadopted.fault)),
        )),
    }
}

/// The clock of the desk of a store, in seconds since 1970-01-01T00:00:00Z: the latest moment at which something was recorded.
///
/// # Errors
///
/// `Desk` with the fault of the store.
pub(crate) fn clock_of<K: LookUps>(alloc: Global, store: &mut K) -> Result<u64, Fault>
    ensures reads { MatchResult result
        (λ clock. Unchanged K.Kept.sight store.old store.new)
        (λ f. FailsToAdopt K.Kept.sight store.old store.new f) }
    ensures found { ForTables K.Kept.sight store.old store.new (λ T. IfOk result (λ clock. clock ≡ T.meta.counters.clock)) }
{
    match store.meta_row(alloc) {
        Ok(meta) => Ok(meta.counters.clock.moment()),
        Err(fault) => Err(Fault::Desk(DeskFault::from(fault))),
    }
}
