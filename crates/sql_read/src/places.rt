//! What the orders that wait for a certificate list: each place beside its authorization, found by one join.
ghost use Rattle.std.specs.Prelude.{◌≡◌, ◌∷◌, [], map};
ghost use Rattle.store_columns.specs.Flat.{listed_rows};
ghost use Rattle.desk_model.specs.Kept.{EachOf};
ghost use Rattle.model_parts.specs.LookUps.{bare_authorizations, orders_processing};
ghost use Rattle.sql_read.specs.Looking.{LooksUp};
ghost use Rattle.sql_read.specs.Spelled.{FitsPlace, place_in};

use crate::authorizations::authz_columns;
use crate::fault::ReadFault;
use crate::rows::{Query, Selected, find_rows};
use crate::values::both;
use desk_model::{AuthorizationRow, Listed, OrderStatus};
use sql_schema::listed;
use sqlite::{Alter, Connection, Error, Row};
use std::alloc::Global;
use store_columns::{AuthzColumns, OrderAuthzColumns, Owned};

// The columns of a place of an order, and those of the authorization at it.
type PlaceColumns = (OrderAuthzColumns, AuthzColumns);

impl Selected for PlaceColumns {
    ghost spelled = { place_in };

    ghost Fits = { FitsPlace };

    fn of(row: &Row) -> Result<PlaceColumns, Error> {
        both(OrderAuthzColumns::of(row), authz_columns(row, 3))
    }
}

/// What the orders that are stored as waiting for a certificate list, by order and place, each place beside its authorization,
/// without challenges.
///
/// # Errors
///
/// As of each reading (`lib.rt`).
pub fn processing_places<S: Alter>(
    alloc: Global,
    conn: &mut Connection<S>,
) -> Result<Vec<(Owned<Listed>, AuthorizationRow)>, ReadFault>
    ensures { LooksUp S.Store conn.old conn.new (λ T rows. (map (λ p. p.0) rows.items ≡ listed_rows (orders_processing T))
        × EachOf (λ p. (p.1.number ≡ p.0.row.authorization) × (bare_authorizations T p.1.number ≡ p.1 ∷ [])) rows.items) result }
{
    let waiting = OrderStatus::Processing.as_str();
    let query = Query::text(listed::SELECT_JOINED, waiting);
    find_rows::<S, PlaceColumns>(alloc, conn, query)
}
