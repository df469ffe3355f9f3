//! The first of the rows above a number.
ghost use Rattle.std.specs.Prelude.{◌≡◌, ◌<◌, List, IfErr, IfOk, IfSome};
ghost use Rattle.model_parts.specs.Above.{above as rows_above, first_of};
ghost use Rattle.store_passes.specs.Stepping.{IsFirst};

use desk_book::Row;
use store_api::StorageFault;

/// The row among those that were found above a number, if one was.
///
/// # Errors
///
/// `Reopen` where the row is not above the number.
#[tactic(auto, using(crate::proofs::Rows::last_is_above))]
pub(crate) fn first_above<R: Row + Drop>(
    rows: Vec<R>,
    above: u64,
) -> Result<Option<R>, StorageFault>
    ensures first { IfOk result (λ row. (all : List R) → rows.items ≡ first_of all → IsFirst row all) }
    ensures onward { IfOk result (λ row. IfSome row (λ r. above < R.number r)) }
    ensures orderly { (all : List R) → rows.items ≡ first_of (rows_above R.number above all) → IfErr result (λ why. ⊥) }
{
    let mut rows = rows;
    let Some(row) = rows.pop() else {
        return Ok(None);
    };
    if row.number() <= above {
        return Err(StorageFault::Reopen);
    }
    Ok(Some(row))
}
