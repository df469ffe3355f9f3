//! Which rows lead to which, and how rows that are found are gathered into tables.
ghost use Rattle.std.specs.Prelude.{◌≡◌, ◌∷◌, [], List, Err, IfErr, IfOk, OnOk};
ghost use Rattle.std.specs.List.{flat_map};
ghost use Rattle.desk_model.specs.{Tables.Tables, Derived.numbers_of};
ghost use Rattle.model_laws.specs.Placing.{puts};
ghost use Rattle.store_api.specs.Finding.{Finds, LacksMemory};
ghost use Rattle.store_api.specs.Needing.{lacking, missing, missings};
ghost use Rattle.model_parts.specs.LookUps.{accounts_numbered, authorizations_numbered, authorizations_of, nonces_numbered, authorizations_past};
ghost use Rattle.model_parts.specs.LookUps.{orders_listing, orders_numbered, orders_past, bare_authorizations};

use crate::fault::StorageFault;
use crate::look_ups::{Found, LookUps};
use desk_book::{Row, Table};
use desk_model::{AccountRow, AuthorizationRow, AuthzStatus, Listed, Nonce, OrderRow, OrderStatus};
use model_parts::{AccountsWhere, AuthorizationsWhere, NoncesWhere, OrdersWhere};
use std::alloc::{AllocError, Global};

/// What leads to rows of a table.
pub(crate) trait LeadsTo<R: Row + Drop> {
    // The rows.
    ghost rows_of: { Tables → Self → List R };

    /// Puts the rows into a table, each in its place.
    fn add_rows<S: LookUps>(
        &self,
        alloc: Global,
        source: &mut S,
        table: &mut Table<R>,
    ) -> Result<(), StorageFault>
        ensures { Finds S.sight source.old source.new result (λ T. table.new ≡ puts R.number (rows_of T self.now) table.old) };
}

// Puts a copy of a row into a table, in its place.
fn add_copy<R: Row + Drop>(table: &mut Table<R>, row: &R) -> Result<(), AllocError>
    ensures { OnOk result (table.new ≡ puts R.number (row.now ∷ []) table.old) }
{
    table.put(row.clone()?)
}

/// Puts the rows that were found into a table, each in its place.
pub(crate) fn add_found<R: Row + Drop>(
    table: &mut Table<R>,
    found: Found<R>,
) -> Result<(), StorageFault>
    ensures put { IfOk found (λ rows. OnOk result (table.new ≡ puts R.number rows.items table.old)) }
    ensures lacks { IfOk found (λ rows. IfErr result LacksMemory) }
    ensures fails { IfErr found (λ fault. result ≡ Err fault) }
{
    for row in found? {
        table.put(row)?;
    }
    Ok(())
}

/// Puts a row into a table, unless it has one of its number already.
pub(crate) fn put_lacking<R: Row + Drop>(table: &mut Table<R>, row: R) -> Result<(), AllocError>
    ensures { OnOk result (table.new ≡ missing R.number (λ n. row ∷ []) (R.number row) table.old) }
{
    let is_there = table.get(row.number()).is_some();
    if is_there { Ok(()) } else { table.put(row) }
}

/// Puts the rows that were found into a table, those alone whose numbers it lacks.
pub(crate) fn add_lacking<R: Row + Drop>(
    table: &mut Table<R>,
    found: Found<R>,
) -> Result<(), StorageFault>
    ensures put { IfOk found (λ rows. OnOk result (table.new ≡ lacking R.number rows.items table.old)) }
    ensures lacks { IfOk found (λ rows. IfErr result LacksMemory) }
    ensures fails { IfErr found (λ fault. result ≡ Err fault) }
{
    for row in found? {
        put_lacking(table, row)?;
    }
    Ok(())
}

/// Puts the rows to which an item leads into a table, unless it has the row of this number already.
pub(crate) fn add_missing<S: LookUps, Q: LeadsTo<R>, R: Row + Drop>(
    alloc: Global,
    source: &mut S,
    table: &mut Table<R>,
    number: u64,
    item: &Q,
) -> Result<(), StorageFault>
    ensures { Finds S.sight source.old source.new result (λ T.
        table.new ≡ missing R.number (λ n. Q.rows_of T item.now) number table.old) }
{
    let is_known = table.get(number).is_some();
    if is_known {
        Ok(())
    } else {
        item.add_rows(alloc, source, table)
    }
}

/// Puts the rows to which these items lead into a table.
pub(crate) fn add_each<S: LookUps, Q: LeadsTo<R>, R: Row + Drop>(
    alloc: Global,
    source: &mut S,
    table: &mut Table<R>,
    items: &[Q],
) -> Result<(), StorageFault>
    ensures { Finds S.sight source.old source.new result (λ T. table.new ≡ puts R.number (flat_map (Q.rows_of T) items.now) table.old) }
{
    for item in items {
        item.add_rows(alloc, source, table)?;
    }
    Ok(())
}

/// Puts the rows to which the rows of a table lead into another.
pub(crate) fn add_linked<S: LookUps, Q: Row + Drop + LeadsTo<R>, R: Row + Drop>(
    alloc: Global,
    source: &mut S,
    table: &mut Table<R>,
    others: &Table<Q>,
) -> Result<(), StorageFault>
    ensures { Finds S.sight source.old source.new result (λ T. table.new ≡ puts R.number (flat_map (Q.rows_of T) others.now) table.old) }
{
    for other in others.iter() {
        other.add_rows(alloc, source, table)?;
    }
    Ok(())
}

// ---- which rows lead to which

// ---- a number

impl LeadsTo<Nonce> for u64 {
    ghost rows_of = { nonces_numbered };

    fn add_rows<S: LookUps>(
        &self,
        alloc: Global,
        source: &mut S,
        table: &mut Table<Nonce>,
    ) -> Result<(), StorageFault> {
        add_found(table, source.find_nonces(alloc, NoncesWhere::Serial(*self)))
    }
}

impl LeadsTo<AccountRow> for u64 {
    ghost rows_of = { accounts_numbered };

    fn add_rows<S: LookUps>(
        &self,
        alloc: Global,
        source: &mut S,
        table: &mut Table<AccountRow>,
    ) -> Result<(), StorageFault> {
        add_found(
            table,
            source.find_accounts(alloc, AccountsWhere::Number(*self)),
        )
    }
}

impl LeadsTo<OrderRow> for u64 {
    ghost rows_of = { orders_numbered };

    fn add_rows<S: LookUps>(
        &self,
        alloc: Global,
        source: &mut S,
        table: &mut Table<OrderRow>,
    ) -> Result<(), StorageFault> {
        add_found(table, source.find_orders(alloc, OrdersWhere::Number(*self)))
    }
}

impl LeadsTo<AuthorizationRow> for u64 {
    ghost rows_of = { authorizations_numbered };

    fn add_rows<S: LookUps>(
        &self,
        alloc: Global,
        source: &mut S,
        table: &mut Table<AuthorizationRow>,
    ) -> Result<(), StorageFault> {
        add_found(
            table,
            source.find_authorizations(alloc, AuthorizationsWhere::Number(*self)),
        )
    }
}

// ---- a stored status, with the moment by which the end is past

impl LeadsTo<OrderRow> for (OrderStatus, u64) {
    ghost rows_of = { λ T past. orders_past T past.0 past.1 };

    fn add_rows<S: LookUps>(
        &self,
        alloc: Global,
        source: &mut S,
        table: &mut Table<OrderRow>,
    ) -> Result<(), StorageFault> {
        add_found(
            table,
            source.find_orders(alloc, OrdersWhere::Past(self.0, self.1)),
        )
    }
}

impl LeadsTo<AuthorizationRow> for (AuthzStatus, u64) {
    ghost rows_of = { λ T past. authorizations_past T past.0 past.1 };

    fn add_rows<S: LookUps>(
        &self,
        alloc: Global,
        source: &mut S,
        table: &mut Table<AuthorizationRow>,
    ) -> Result<(), StorageFault> {
        add_found(
            table,
            source.find_authorizations(alloc, AuthorizationsWhere::Past(self.0, self.1)),
        )
    }
}

// ---- an account

impl LeadsTo<AuthorizationRow> for AccountRow {
    ghost rows_of = { λ T row. authorizations_of T row.number };

    fn add_rows<S: LookUps>(
        &self,
        alloc: Global,
        source: &mut S,
        table: &mut Table<AuthorizationRow>,
    ) -> Result<(), StorageFault> {
        add_found(
            table,
            source.find_authorizations(alloc, AuthorizationsWhere::Account(self.number)),
        )
    }
}

// ---- an authorization

// The same authorization.
impl LeadsTo<AuthorizationRow> for AuthorizationRow {
    ghost rows_of = { λ T row. row ∷ [] };

    fn add_rows<S: LookUps>(
        &self,
        alloc: Global,
        source: &mut S,
        table: &mut Table<AuthorizationRow>,
    ) -> Result<(), StorageFault> {
        Ok(add_copy(table, self)?)
    }
}

// The orders that list it.
impl LeadsTo<OrderRow> for AuthorizationRow {
    ghost rows_of = { λ T row. flat_map (orders_numbered T) (orders_listing T row.number) };

    fn add_rows<S: LookUps>(
        &self,
        alloc: Global,
        source: &mut S,
        table: &mut Table<OrderRow>,
    ) -> Result<(), StorageFault> {
        add_found(table, source.orders_with_authorization(alloc, self.number))
    }
}

// ---- the authorizations that orders list, without their challenges

/// An authorization without its challenges, by its number.
#[derive(Clone, Copy)]
pub(crate) struct Bare {
    pub(crate) authorization: u64,
}

impl LeadsTo<AuthorizationRow> for Bare {
    ghost rows_of = { λ T bare. bare_authorizations T bare.authorization };

    fn add_rows<S: LookUps>(
        &self,
        alloc: Global,
        source: &mut S,
        table: &mut Table<AuthorizationRow>,
    ) -> Result<(), StorageFault> {
        add_found(table, source.bare_authorizations(alloc, self.authorization))
    }
}

// Puts the authorizations at these places into a table, those alone that it lacks.
fn add_bare_places<S: LookUps>(
    alloc: Global,
    source: &mut S,
    authorizations: &mut Table<AuthorizationRow>,
    places: &[Listed],
) -> Result<(), StorageFault>
    ensures { Finds S.sight source.old source.new result (λ T.
        authorizations.new ≡ missings (λ r. r.number) (bare_authorizations T) (numbers_of places.now) authorizations.old) }
{
    for place in places {
        let bare = Bare {
            authorization: place.authorization,
        };
        add_missing(alloc, source, authorizations, place.authorization, &bare)?;
    }
    Ok(())
}

/// Puts the authorizations that these orders list into a table, those alone that it lacks.
pub(crate) fn add_bare_listed<S: LookUps>(
    alloc: Global,
    source: &mut S,
    authorizations: &mut Table<AuthorizationRow>,
    orders: &Table<OrderRow>,
) -> Result<(), StorageFault>
    ensures { Finds S.sight source.old source.new result (λ T.
        authorizations.new ≡ missings (λ r. r.number) (bare_authorizations T) (flat_map (λ o. numbers_of o.listed) orders.now) authorizations.old) }
{
    for order in orders.iter() {
        add_bare_places(alloc, source, authorizations, order.listed.as_slice())?;
    }
    Ok(())
}
