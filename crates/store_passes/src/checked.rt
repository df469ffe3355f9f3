//! One step of a pass through the objects of a kind.
ghost use Rattle.std.specs.Prelude.{◌≡◌, ◌<◌, ℕ, List, IfOk, IfSome};
ghost use Rattle.std.specs.List.{flat_map};
ghost use Rattle.desk_model.specs.Derived.{account_faults, authorization_faults, challenge_faults};
ghost use Rattle.desk_model.specs.declared.rows.StatusFault.{StatusFault as Fault};
ghost use Rattle.model_parts.specs.Above.{above as rows_above};
ghost use Rattle.store_api.specs.Sight.{ForTables, Reads};
ghost use Rattle.store_passes.specs.{InOrder.IsInOrder, Left.faults_above, Stepping.Steps};
ghost use Rattle.store_book.specs.RowFaults.{listed_fault};

use crate::fault_kind::FaultKind;
use crate::listed::listed_statuses;
use crate::passed::{PassedRow, row_after};
use desk_model::{AccountRow, AuthorizationRow, ChallengeRow, OrderRow, StatusFault};
use std::alloc::Global;
use store_api::{RowsAbove, StorageFault};
use store_book::{account_fault, authorization_fault, challenge_fault, order_fault};

/// What is found at one object: its number, and its status fault, if it has one.
#[derive(Clone, Copy)]
pub(crate) struct Checked {
    pub(crate) number: u64,
    pub(crate) fault: Option<StatusFault>,
}

/// A row whose status fault its own columns tell.
trait Faulty: PassedRow {
    // Its faults at a moment.
    ghost faults: { ℕ → Self → List Fault };

    /// Its fault at a moment, if it has one.
    fn fault_at(&self, moment: u64) -> Option<StatusFault>
        ensures { listed_fault result ≡ faults moment self.now };
}

impl Faulty for AccountRow {
    ghost faults = { λ moment row. account_faults row };

    fn fault_at(&self, _moment: u64) -> Option<StatusFault> {
        account_fault(self)
    }
}

impl Faulty for AuthorizationRow {
    ghost faults = { λ moment row. authorization_faults moment row };

    fn fault_at(&self, moment: u64) -> Option<StatusFault> {
        authorization_fault(moment, self)
    }
}

impl Faulty for ChallengeRow {
    ghost faults = { λ moment row. challenge_faults row };

    fn fault_at(&self, _moment: u64) -> Option<StatusFault> {
        challenge_fault(self)
    }
}

// Checks the row of the least number above this one, by its own columns.
fn check_row<R: Faulty + Drop, S: RowsAbove>(
    alloc: Global,
    source: &mut S,
    moment: u64,
    above: u64,
) -> Result<Option<Checked>, StorageFault>
    ensures reads { Reads S.sight source.old source.new result }
    ensures steps { ForTables S.sight source.old source.new (λ T. IsInOrder T →
        IfOk result (λ checked. Steps checked (λ n. flat_map (R.faults moment) (rows_above R.number n (R.rows T))) above)) }
    ensures onward { IfOk result (λ checked. IfSome checked (λ c. above < c.number)) }
{
    let Some(row) = row_after::<R, S>(alloc, source, above)? else {
        return Ok(None);
    };
    Ok(Some(Checked {
        number: row.number(),
        fault: row.fault_at(moment),
    }))
}

// Checks the order of the least number above this one, by the authorizations that it lists.
fn check_order<S: RowsAbove>(
    alloc: Global,
    source: &mut S,
    moment: u64,
    above: u64,
) -> Result<Option<Checked>, StorageFault>
    ensures reads { Reads S.sight source.old source.new result }
    ensures steps { ForTables S.sight source.old source.new (λ T. IsInOrder T →
        IfOk result (λ checked. Steps checked (faults_above T FaultKind.Order moment) above)) }
    ensures onward { IfOk result (λ checked. IfSome checked (λ c. above < c.number)) }
{
    let Some(row) = row_after::<OrderRow, S>(alloc, source, above)? else {
        return Ok(None);
    };
    let statuses = listed_statuses(alloc, source, row.listed.as_slice())?;
    Ok(Some(Checked {
        number: row.number,
        fault: order_fault(moment, &row, &statuses),
    }))
}

/// Checks the object of a kind that has the least number above this one, at a moment.
pub(crate) fn check_after<S: RowsAbove>(
    alloc: Global,
    source: &mut S,
    kind: FaultKind,
    moment: u64,
    above: u64,
) -> Result<Option<Checked>, StorageFault>
    ensures reads { Reads S.sight source.old source.new result }
    ensures steps { ForTables S.sight source.old source.new (λ T. IsInOrder T →
        IfOk result (λ checked. Steps checked (faults_above T kind moment) above)) }
    ensures onward { IfOk result (λ checked. IfSome checked (λ c. above < c.number)) }
{
    match kind {
        FaultKind::Account => check_row::<AccountRow, S>(alloc, source, moment, above),
        FaultKind::Order => check_order(alloc, source, moment, above),
        FaultKind::Authorization => check_row::<AuthorizationRow, S>(alloc, source, moment, above),
        FaultKind::Challenge => check_row::<ChallengeRow, S>(alloc, source, moment, above),
    }
}
