//! The rows of a table, one after the other.
ghost use Rattle.std.specs.Prelude.{◌<◌, ◌≡◌, IfOk, IfSome, List};
ghost use Rattle.model_parts.specs.Above.{above as rows_above, first_of};
ghost use Rattle.store_api.specs.Sight.{ForTables, Reads, Gives};
ghost use Rattle.store_passes.specs.{Left.IsRowAfter, InOrder.IsInOrder};
ghost use Rattle.desk_model.specs.{Tables.Tables, Derived.sorted_challenges};
ghost use Rattle.model_laws.specs.Ordered.{Ascends};
ghost use Rattle.std.specs.List.{flat_map};

use crate::first::first_above;
use desk_book::Row;
use desk_model::{AccountRow, AuthorizationRow, ChallengeRow, OrderRow};
use std::alloc::Global;
use store_api::{Found, RowsAbove, StorageFault};

/// A row of a table that is gone through by number.
pub trait PassedRow: Row {
    // The rows of its table.
    ghost rows: { Tables → List Self };

    /// The row of the least number above this one, if there is one.
    ///
    /// # Errors
    ///
    /// As a look-up of the source.
    fn found_above<S: RowsAbove>(alloc: Global, source: &mut S, above: u64) -> Found<Self>
        ensures { Gives S.sight source.old source.new (λ T found. found.items ≡ first_of (rows_above Self.number above (rows T))) result };

    // In tables in order they stand by number.
    ghost ascends: { (T : Tables) → IsInOrder T → Ascends Self.number 1 (rows T) };
}

impl PassedRow for AccountRow {
    ghost rows = { λ T. T.accounts };

    fn found_above<S: RowsAbove>(alloc: Global, source: &mut S, above: u64) -> Found<AccountRow> {
        source.account_above(alloc, above)
    }

    ghost ascends = { λ T h. h.tables.accounts.0 };
}

impl PassedRow for AuthorizationRow {
    ghost rows = { λ T. T.authorizations };

    fn found_above<S: RowsAbove>(
        alloc: Global,
        source: &mut S,
        above: u64,
    ) -> Found<AuthorizationRow> {
        source.authorization_above(alloc, above)
    }

    ghost ascends = { λ T h. h.tables.authorizations.0 };
}

impl PassedRow for OrderRow {
    ghost rows = { λ T. T.orders };

    fn found_above<S: RowsAbove>(alloc: Global, source: &mut S, above: u64) -> Found<OrderRow> {
        source.order_above(alloc, above)
    }

    ghost ascends = { λ T h. h.tables.orders.0 };
}

impl PassedRow for ChallengeRow {
    ghost rows = { λ T. sorted_challenges (flat_map (λ r. r.challenges) T.authorizations) };

    fn found_above<S: RowsAbove>(alloc: Global, source: &mut S, above: u64) -> Found<ChallengeRow> {
        source.challenge_above(alloc, above)
    }

    ghost ascends = { λ T h. h.challenges };
}

/// The row of the least number above this one, if there is one. What is above its number is what is left of the table.
///
/// # Errors
///
/// As a look-up of the source; of tables by no other fault. `Reopen` also where rows do not stand by number, which no tables have.
pub fn row_after<R: PassedRow + Drop, S: RowsAbove>(
    alloc: Global,
    source: &mut S,
    above: u64,
) -> Result<Option<R>, StorageFault>
    ensures reads { Reads S.sight source.old source.new result }
    ensures next { ForTables S.sight source.old source.new (λ T. IfOk result (IsRowAfter R.number (R.rows T) above)) }
    ensures onward { IfOk result (λ row. IfSome row (λ r. above < R.number r)) }
{
    let rows = R::found_above(alloc, source, above)?;
    first_above(rows, above)
}
