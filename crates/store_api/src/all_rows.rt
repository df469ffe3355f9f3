//! The rows of each table, and the book of all rows.
ghost use Rattle.std.specs.Prelude.{◌≡◌, IfOk};
ghost use Rattle.model_laws.specs.Ordered.{IsOrdered};
ghost use Rattle.store_api.specs.Finding.{AreNone, AreRowsOf, Finds};
ghost use Rattle.store_api.specs.Sight.{ForTables, Reads};

use crate::fault::StorageFault;
use crate::links::add_found;
use crate::look_ups::LookUps;
use desk_book::{Book, Table};
use desk_model::{AccountRow, AuthorizationRow, Nonce, OrderRow};
use model_parts::{AccountsWhere, AuthorizationsWhere, NoncesWhere, OrdersWhere};
use std::alloc::Global;

/// Rows of each table.
#[derive(Drop)]
pub(crate) struct Rows {
    pub(crate) nonces: Table<Nonce>,
    pub(crate) accounts: Table<AccountRow>,
    pub(crate) authorizations: Table<AuthorizationRow>,
    pub(crate) orders: Table<OrderRow>,
}

// Puts all rows into empty tables.
fn add_all_rows<S: LookUps>(
    alloc: Global,
    source: &mut S,
    rows: &mut Rows,
) -> Result<(), StorageFault>
    ensures { Finds S.sight source.old source.new result (λ T. IsOrdered T → AreNone rows.old → AreRowsOf T rows.new) }
{
    add_found(
        &mut rows.nonces,
        source.find_nonces(alloc, NoncesWhere::Any),
    )?;
    add_found(
        &mut rows.accounts,
        source.find_accounts(alloc, AccountsWhere::Any),
    )?;
    add_found(
        &mut rows.authorizations,
        source.find_authorizations(alloc, AuthorizationsWhere::Any),
    )?;
    add_found(
        &mut rows.orders,
        source.find_orders(alloc, OrdersWhere::Any),
    )
}

/// The book of all rows.
///
/// # Errors
///
/// `Memory` where a growth was refused: the source then has the tables that it had. `Device` or `Reopen` where the tables
/// could not be read: they may be out of reach, and a stop leaves no more than it did.
pub fn whole_book<S: LookUps>(alloc: Global, source: &mut S) -> Result<Book, StorageFault>
    ensures reads { Reads S.sight source.old source.new result }
    ensures whole { ForTables S.sight source.old source.new (λ T. IsOrdered T → IfOk result (λ book. book ≡ T)) }
{
    let meta = source.meta_row(alloc)?;
    let mut rows = Rows {
        nonces: Table::new(alloc),
        accounts: Table::new(alloc),
        authorizations: Table::new(alloc),
        orders: Table::new(alloc),
    };
    add_all_rows(alloc, source, &mut rows)?;
    Ok(Book::of_tables(
        meta,
        rows.nonces,
        rows.accounts,
        rows.authorizations,
        rows.orders,
    ))
}
