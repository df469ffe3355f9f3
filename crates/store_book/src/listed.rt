//! The rows of `ord_authz`.
ghost use Rattle.std.specs.Prelude.{◌≡◌, ◌++◌, ◌∷◌, IsTrue, List};
ghost use Rattle.desk_model.specs.Kept.{EachOf};
ghost use Rattle.store_book.specs.BookRows.{AreListed, IsAmong, PlacesRise};
ghost use Rattle.store_book.specs.Passing.{ArePlaced, IsPlacedNext, IsPlacedUpTo, ListedRow, PlacedFrom};
ghost use Rattle.std.proofs.Common.{sym};

use crate::numbers::Numbers;
use crate::row_check::RowCheck;
use desk_model::Listed;
use std::alloc::{AllocError, Global};
use store_columns::{OrderAuthzColumns, Owned};

/// Checks that orders ascend, and the places of each, and that these orders list these authorizations.
#[derive(Drop)]
pub struct ListedCheck<'a> {
    order: u64,
    place: u64,
    orders: &'a Numbers,
    authorizations: &'a Numbers,
}

impl<'a> ListedCheck<'a> {
    /// Before the first row.
    pub fn new(orders: &'a Numbers, authorizations: &'a Numbers) -> ListedCheck<'a>
        ensures order { result.order ≡ 0 }
        ensures place { result.place ≡ 0 }
        ensures orders { result.orders.now ≡ orders.now }
        ensures authorizations { result.authorizations.now ≡ authorizations.now }
    {
        ListedCheck {
            order: 0,
            place: 0,
            orders,
            authorizations,
        }
    }

    // Whether the place of the order is above the one before.
    fn is_next(&self, order: u64, place: u64) -> bool
        ensures placed { IsTrue result → IsPlacedNext self.now.order self.now.place order place }
        ensures fine { IsPlacedNext self.now.order self.now.place order place → IsTrue result }
    {
        order > self.order || (order == self.order && place > self.place)
    }
}

impl<'a> RowCheck<OrderAuthzColumns> for ListedCheck<'a> {
    type Kept = ();

    ghost Passed = { λ first now rows. PlacesRise rows × EachOf (IsPlacedUpTo now.order now.place) rows
        × (now.orders.now ≡ first.orders.now) × (now.authorizations.now ≡ first.authorizations.now)
        × EachOf (λ l. IsAmong first.orders.now l.owner) rows × EachOf (λ l. IsAmong first.authorizations.now l.row.authorization) rows
        × ((row : ListedRow) (rest : List ListedRow) → PlacedFrom first.order first.place (rows ++ row ∷ rest)
        → IsPlacedNext now.order now.place row.owner row.row.place) };

    ghost IsWhole = { λ first rows kept. AreListed first.orders.now first.authorizations.now rows };

    ghost AreAll = { λ first rows. ArePlaced first.order first.place first.orders.now first.authorizations.now rows };

    #[tactic(auto, using(crate::proofs::Steps::each_at, crate::proofs::Steps::each_more, crate::proofs::Steps::placed_behind, crate::proofs::Steps::placed_more, crate::proofs::Steps::places_more))]
    fn passes(&mut self, row: &Owned<Listed>) -> Result<bool, AllocError> {
        if !self.is_next(row.owner, row.row.place) {
            return Ok(false);
        }
        self.order = row.owner;
        self.place = row.row.place;
        Ok(self.orders.has(row.owner) && self.authorizations.has(row.row.authorization))
    }

    fn finish(self, _alloc: Global) -> Result<Option<()>, AllocError> {
        Ok(Some(()))
    }

    ghost passed_alike = { λ first now rows row other same passed. rw same at passed };

    ghost all_alike = { λ first rows rest row other same all. rw (sym same) at all };
}
