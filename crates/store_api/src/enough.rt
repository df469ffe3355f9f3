//! The book of the rows that are enough for a call.
ghost use Rattle.std.specs.Prelude.{◌≡◌, [], ◌&&◌, List, filter, map, IfErr, IfOk, OnOk};
ghost use Rattle.desk_model.specs.declared.rows.OrderRow.{OrderRow as Order};
ghost use Rattle.model_laws.specs.{Ordered.Ascends, Ordered.IsOrdered, Placing.puts};
ghost use Rattle.store_columns.specs.Flat.{listed_rows, without_listed};
ghost use Rattle.desk_model.specs.{Touched.only_meta, Lookup.holds};
ghost use Rattle.store_api.specs.{Finding.Finds, Finding.LacksMemory, Storing.Loads, Needing.NeedsFor, Needing.lacking};
ghost use Rattle.model_parts.specs.IsEnough.{challenge_work_rows, enough, is_worked_on, order_work_rows};
ghost use Rattle.model_parts.specs.{LookUps.orders_processing, Thinned.without_challenges};
ghost use Rattle.store_api.specs.Sight.{ForTables, Reads};
ghost use Rattle.desk_model.specs.Payload.{account_change};
ghost use Rattle.identifiers.specs.Parsed.{ask_of};
ghost use Rattle.model_parts.specs.MinimalPart.{is_end, needs_holders, needs_listed, changes_statuses, target_changes_statuses};

use crate::fault::StorageFault;
use crate::links::{add_found, put_lacking};
use crate::look_ups::LookUps;
use crate::minimal_part::minimal_book;
use crate::named::{Named, named_in};
use crate::waiting::add_working;
use desk_book::{Book, Table};
use desk_model::{Ask, AuthorizationRow, DnsName, Listed, OfficeAsk, OrderRow, Target};
use identifiers::{ParsedAsk, ParsedCall, ParsedSigned, says_deactivated};
use std::alloc::{AllocError, Global};
use store_book::with_listed;
use store_columns::Owned;

// ---- the work of the validator

// The book of the authorizations of which a challenge waits.
fn challenge_work_book<S: LookUps>(alloc: Global, source: &mut S) -> Result<Book, StorageFault>
    ensures reads { Reads S.sight source.old source.new result }
    ensures found { ForTables S.sight source.old source.new (λ T. IsOrdered T → IfOk result (λ book. book ≡ challenge_work_rows T)) }
{
    let meta = source.meta_row(alloc)?;
    let mut authorizations = Table::new(alloc);
    add_working(alloc, source, &mut authorizations)?;
    Ok(Book::of_tables(
        meta,
        Table::new(alloc),
        Table::new(alloc),
        authorizations,
        Table::new(alloc),
    ))
}

// ---- the work of the issuer

// Puts the authorizations beside these places into a table, those alone that it lacks, and gives the places.
fn take_places(
    alloc: Global,
    authorizations: &mut Table<AuthorizationRow>,
    places: Vec<(Owned<Listed>, AuthorizationRow)>,
) -> Result<Vec<Owned<Listed>>, AllocError>
    ensures { IfOk result (λ listed. (listed.items ≡ map (λ p. p.0) places.items)
        × (authorizations.new ≡ lacking (λ r. r.number) (map (λ p. p.1) places.items) authorizations.old)) }
{
    let mut listed = Vec::new(alloc);
    for found in places {
        let (place, authorization) = found;
        put_lacking(authorizations, authorization)?;
        listed.push(place)?;
    }
    Ok(listed)
}

// Puts orders with what they list into a table, and the authorizations beside that into another, those alone that it lacks.
fn add_listing(
    alloc: Global,
    authorizations: &mut Table<AuthorizationRow>,
    orders: &mut Table<OrderRow>,
    bare: Vec<OrderRow>,
    places: Vec<(Owned<Listed>, AuthorizationRow)>,
) -> Result<(), StorageFault>
    ensures put { OnOk result ((authorizations.new ≡ lacking (λ r. r.number) (map (λ p. p.1) places.items) authorizations.old)
        × ((rows : List Order) → Ascends (λ o. o.number) 1 rows → bare.items ≡ map without_listed rows
        → map (λ p. p.0) places.items ≡ listed_rows rows → orders.new ≡ puts (λ o. o.number) rows orders.old)) }
    ensures lacks { IfErr result LacksMemory }
{
    let listed = take_places(alloc, authorizations, places)?;
    let whole = with_listed(alloc, bare, listed)?;
    add_found(orders, Ok(whole))
}

// Puts the orders that wait for a certificate into an empty table, and the authorizations that they list, without their challenges,
// into another.
fn add_processing<S: LookUps>(
    alloc: Global,
    source: &mut S,
    authorizations: &mut Table<AuthorizationRow>,
    orders: &mut Table<OrderRow>,
) -> Result<(), StorageFault>
    ensures { Finds S.sight source.old source.new result (λ T. IsOrdered T → authorizations.old ≡ [] → orders.old ≡ []
        → (authorizations.new ≡ map without_challenges (filter (is_worked_on T) T.authorizations)) × (orders.new ≡ orders_processing T)) }
{
    let bare = source.processing_orders(alloc)?;
    let places = source.processing_places(alloc)?;
    add_listing(alloc, authorizations, orders, bare, places)
}

// The book of these orders and authorizations.
fn order_work_book<S: LookUps>(alloc: Global, source: &mut S) -> Result<Book, StorageFault>
    ensures reads { Reads S.sight source.old source.new result }
    ensures found { ForTables S.sight source.old source.new (λ T. IsOrdered T → IfOk result (λ book. book ≡ order_work_rows T)) }
{
    let meta = source.meta_row(alloc)?;
    let mut authorizations = Table::new(alloc);
    let mut orders = Table::new(alloc);
    add_processing(alloc, source, &mut authorizations, &mut orders)?;
    Ok(Book::of_tables(
        meta,
        Table::new(alloc),
        Table::new(alloc),
        authorizations,
        orders,
    ))
}

// ---- the directory

// The book of the desk's own row.
fn directory_book<S: LookUps>(alloc: Global, source: &mut S) -> Result<Book, StorageFault>
    ensures reads { Reads S.sight source.old source.new result }
    ensures found { ForTables S.sight source.old source.new (λ T. IfOk result (λ book. book ≡ only_meta T)) }
{
    let meta = source.meta_row(alloc)?;
    Ok(Book::of_tables(
        meta,
        Table::new(alloc),
        Table::new(alloc),
        Table::new(alloc),
        Table::new(alloc),
    ))
}

// ---- each call

// The book of the rows that are enough for a call.
fn enough_book<S: LookUps>(
    alloc: Global,
    source: &mut S,
    call: &ParsedCall,
) -> Result<Book, StorageFault>
    ensures reads { Reads S.sight source.old source.new result }
    ensures enough { ForTables S.sight source.old source.new (λ T. IsOrdered T → IfOk result (λ book. book ≡ enough T call.now)) }
{
    match &call.call().ask {
        Ask::Office(OfficeAsk::ChallengeWork) => challenge_work_book(alloc, source),
        Ask::Office(OfficeAsk::OrderWork) => order_work_book(alloc, source),
        Ask::Office(OfficeAsk::Directory) => directory_book(alloc, source),
        _ => minimal_book(alloc, source, call),
    }
}

/// A book that is enough for the call, whatever legal history's picture the source has: the rows that it names or lists, those
/// that fall by the passing of time, and those that decide a status that may change or is shown.
///
/// # Errors
///
/// As of `load_part`.
#[tactic(auto, using(crate::proofs::Parting::loads_enough))]
pub fn load_enough<S: LookUps>(
    alloc: Global,
    source: &mut S,
    call: &ParsedCall,
) -> Result<Book, StorageFault>
    ensures loads { Loads S.sight call.now source.old source.new result }
    ensures enough { ForTables S.sight source.old source.new (λ T. IsOrdered T → IfOk result (λ book. book ≡ enough T call.now)) }
{
    enough_book(alloc, source, call)
}

// ---- what is enough for an ask, by numbers, and what leads to more

/// What is enough for an ask: what it names, and what leads to more.
#[derive(Drop)]
pub(crate) struct RowsNeeded<'a> {
    pub(crate) named: Named,
    /// When the call acts.
    pub(crate) moment: u64,
    /// Whether statuses of authorizations may change, and with them those of orders.
    pub(crate) changes_statuses: bool,
    /// Whether what the orders that are named list is needed.
    pub(crate) needs_listed: bool,
    /// Whether the accounts of the authorizations that are named are needed.
    pub(crate) needs_holders: bool,
    /// The names that a new order asks for.
    pub(crate) names: Option<&'a [DnsName]>,
}

impl<'a> RowsNeeded<'a> {
    /// Whether an account that is named ends, and its authorizations with it.
    pub(crate) fn ends_account(&self) -> bool
        ensures { result ≡ (self.now.changes_statuses && self.now.named.asks_authorizations) }
    {
        self.changes_statuses && self.named.asks_authorizations
    }
}

// Whether a request ends the account that it is sent to.
#[tactic(auto, unfolding(desk_model::specs::Payload::object_in))]
fn ends_account(request: &ParsedSigned) -> bool
    ensures { result ≡ holds is_end (account_change request.now.payload) }
{
    if request.request().payload.as_str().is_empty() {
        return false;
    }
    match request.value() {
        Some(value) if value.is_object() => says_deactivated(value),
        _ => false,
    }
}

// Whether a request may change statuses of authorizations.
fn target_changes_statuses(request: &ParsedSigned) -> bool
    ensures { result ≡ target_changes_statuses request.now.target request.now.payload }
{
    let signed = request.request();
    match &signed.target {
        Target::Account(_) => ends_account(request),
        Target::Authz(_) => !signed.payload.as_str().is_empty(),
        _ => false,
    }
}

// Whether an ask may change statuses of authorizations.
fn changes_statuses(ask: &ParsedAsk) -> bool
    ensures { result ≡ changes_statuses (ask_of ask.now) }
{
    match ask {
        ParsedAsk::Signed(request) => target_changes_statuses(request),
        ParsedAsk::Office(OfficeAsk::Report { .. }) => true,
        ParsedAsk::Office(OfficeAsk::RevokeAuthz(_)) => true,
        ParsedAsk::Office(OfficeAsk::RevokeAccount(_)) => true,
        _ => false,
    }
}

// Whether what the orders that an ask names list is needed.
fn needs_listed(ask: &Ask) -> bool
    ensures { result ≡ needs_listed ask.now }
{
    match ask {
        Ask::Signed(request) => match request.target {
            Target::Orders(_) | Target::Cert(_) => false,
            _ => true,
        },
        _ => true,
    }
}

// Whether the accounts of the authorizations that an ask names are needed: a report takes the key's thumbprint from the answer.
fn needs_holders(ask: &Ask) -> bool
    ensures { result ≡ needs_holders ask.now }
{
    match ask {
        Ask::Office(OfficeAsk::Report { .. }) => false,
        Ask::Office(OfficeAsk::RevokeAuthz(_)) => false,
        _ => true,
    }
}

/// What is enough for a call that acts at a moment, by what its payload says.
pub(crate) fn rows_needed<'a>(call: &'a ParsedCall, moment: u64) -> RowsNeeded<'a>
    ensures { NeedsFor call.now.ask moment result }
{
    let ask = &call.call().ask;
    RowsNeeded {
        named: named_in(call.ask()),
        moment,
        changes_statuses: changes_statuses(call.ask()),
        needs_listed: needs_listed(ask),
        needs_holders: needs_holders(ask),
        names: call.names(),
    }
}
