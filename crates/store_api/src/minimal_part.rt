//! The rows that are enough for a call, the directory and the lists of work apart.
ghost use Rattle.std.specs.Prelude.{◌≡◌, ◌++◌, [], IfOk, if◌then◌else◌, map, max, option_map, option_to_list};
ghost use Rattle.model_laws.specs.{Ordered.IsOrdered, Placing.puts};
ghost use Rattle.store_api.specs.Finding.{AreNone, AreRowsOf, Finds};
ghost use Rattle.store_api.specs.Needing.{NeedsFor, holders_by, lacking, listed_with, missings, movable_by, named_alone, opened_with};
ghost use Rattle.store_api.specs.Needing.{orders_by, restated_by, with_named};
ghost use Rattle.model_parts.specs.{MinimalPart.needed_rows, Loaded.authorizations_asked_of};
ghost use Rattle.model_parts.specs.LookUps.{accounts_numbered, bare_authorizations, summaries_of};
ghost use Rattle.std.specs.List.{flat_map};
ghost use Rattle.desk_model.specs.Derived.{numbers_of};
ghost use Rattle.identifiers.specs.Parsed.{ask_of};
ghost use Rattle.store_api.specs.Sight.{ForTables, Reads};

use crate::all_rows::Rows;
use crate::enough::{RowsNeeded, rows_needed};
use crate::fault::StorageFault;
use crate::links::{add_bare_listed, add_each, add_lacking, add_linked, add_missing};
use crate::look_ups::LookUps;
use crate::named::{add_asked, add_asked_names, add_keyed, add_new_keyed, add_nonces, add_owner};
use desk_book::{Book, Table};
use desk_model::{AccountRow, AuthorizationRow, AuthzStatus, OrderRow, OrderStatus, Policy};
use identifiers::{ParsedAsk, ParsedCall};
use std::alloc::Global;

// ---- accounts, and the authorizations that are named

// Puts the account of a number into a table, if one is named and the table lacks it.
fn add_missing_account<S: LookUps>(
    alloc: Global,
    source: &mut S,
    accounts: &mut Table<AccountRow>,
    number: Option<u64>,
) -> Result<(), StorageFault>
    ensures { Finds S.sight source.old source.new result (λ T.
        accounts.new ≡ missings (λ x. x.number) (accounts_numbered T) (option_to_list number) accounts.old) }
{
    match number {
        Some(number) => add_missing(alloc, source, accounts, number, &number),
        None => Ok(()),
    }
}

// Puts the accounts that are named into a table, by their keys, and by number where it lacks them.
#[tactic(auto, using(crate::proofs::Found::finds_failing, crate::proofs::Gathered::put_then))]
fn add_named_accounts<S: LookUps>(
    alloc: Global,
    source: &mut S,
    accounts: &mut Table<AccountRow>,
    ask: &ParsedAsk,
    needs: &RowsNeeded,
) -> Result<(), StorageFault>
    requires { NeedsFor (ask_of ask.now) needs.now.moment needs.now }
    ensures { Finds S.sight source.old source.new result (λ T. accounts.new ≡ with_named T (ask_of ask.now) accounts.old) }
{
    add_keyed(alloc, source, accounts, ask)?;
    add_new_keyed(alloc, source, accounts, ask)?;
    add_missing_account(alloc, source, accounts, needs.named.account)
}

// Puts the authorizations that are named into a table, and those of these accounts, where an account ends.
#[tactic(auto, using(crate::proofs::Found::fails_behind, crate::proofs::Found::finds_failing, crate::proofs::Found::finds_third, crate::proofs::Found::listed_as, crate::proofs::Gathered::put_by, crate::proofs::Gathered::put_then))]
fn add_movable<S: LookUps>(
    alloc: Global,
    source: &mut S,
    movable: &mut Table<AuthorizationRow>,
    needs: &RowsNeeded,
    accounts: &Table<AccountRow>,
) -> Result<(), StorageFault>
    ensures { Finds S.sight source.old source.new result (λ T. movable.new ≡ puts (λ r. r.number) (movable_by T needs.now accounts.now) movable.old) }
{
    add_each(alloc, source, movable, needs.named.authorization.as_slice())?;
    add_owner(alloc, source, movable, needs.named.challenge)?;
    add_asked(alloc, source, movable, accounts, needs.ends_account())
}

// Puts the accounts of authorizations into a table, those alone that it lacks.
fn add_missing_holders<S: LookUps>(
    alloc: Global,
    source: &mut S,
    accounts: &mut Table<AccountRow>,
    rows: &Table<AuthorizationRow>,
) -> Result<(), StorageFault>
    ensures { Finds S.sight source.old source.new result (λ T.
        accounts.new ≡ missings (λ x. x.number) (accounts_numbered T) (map (λ r. r.account) rows.now) accounts.old) }
{
    for row in rows.iter() {
        add_missing(alloc, source, accounts, row.account, &row.account)?;
    }
    Ok(())
}

// Puts these accounts into the table, where they are needed.
fn add_needed_holders<S: LookUps>(
    alloc: Global,
    source: &mut S,
    accounts: &mut Table<AccountRow>,
    rows: &Table<AuthorizationRow>,
    needed: bool,
) -> Result<(), StorageFault>
    ensures { Finds S.sight source.old source.new result (λ T.
        accounts.new ≡ missings (λ x. x.number) (accounts_numbered T) (if needed then map (λ r. r.account) rows.now else []) accounts.old) }
{
    if needed {
        add_missing_holders(alloc, source, accounts, rows)
    } else {
        Ok(())
    }
}

// Puts the accounts that are named into a table, the authorizations that are named into another, and their accounts, where
// they are needed, into the first.
fn add_holders<S: LookUps>(
    alloc: Global,
    source: &mut S,
    accounts: &mut Table<AccountRow>,
    movable: &mut Table<AuthorizationRow>,
    ask: &ParsedAsk,
    needs: &RowsNeeded,
) -> Result<(), StorageFault>
    requires { NeedsFor (ask_of ask.now) needs.now.moment needs.now }
    ensures { Finds S.sight source.old source.new result (λ T.
        (movable.new ≡ puts (λ r. r.number) (movable_by T needs.now (with_named T (ask_of ask.now) accounts.old)) movable.old)
        × (accounts.new ≡ missings (λ x. x.number) (accounts_numbered T) (holders_by needs.now movable.new)
        (with_named T (ask_of ask.now) accounts.old))) }
{
    add_named_accounts(alloc, source, accounts, ask, needs)?;
    add_movable(alloc, source, movable, needs, accounts)?;
    add_needed_holders(alloc, source, accounts, movable, needs.needs_holders)
}

// ---- what decides statuses

// Puts the authorizations whose statuses may change into a table: those past their moment and, where the ask may change
// them, those that are named.
#[tactic(auto, using(crate::proofs::Found::finds_failing, crate::proofs::Gathered::put_then, crate::proofs::MinimalRows::themselves))]
fn add_restated<S: LookUps>(
    alloc: Global,
    source: &mut S,
    authorizations: &mut Table<AuthorizationRow>,
    movable: &Table<AuthorizationRow>,
    needs: &RowsNeeded,
) -> Result<(), StorageFault>
    ensures { Finds S.sight source.old source.new result (λ T.
        authorizations.new ≡ puts (λ r. r.number) (restated_by T needs.now movable.now) authorizations.old) }
{
    let past = [
        (AuthzStatus::Pending, needs.moment),
        (AuthzStatus::Valid, needs.moment),
    ];
    add_each(alloc, source, authorizations, &past)?;
    add_asked(
        alloc,
        source,
        authorizations,
        movable,
        needs.changes_statuses,
    )
}

// Puts the order that is named into a table, where it is asked for.
fn add_named_order<S: LookUps>(
    alloc: Global,
    source: &mut S,
    orders: &mut Table<OrderRow>,
    needs: &RowsNeeded,
    asked: bool,
) -> Result<(), StorageFault>
    ensures { Finds S.sight source.old source.new result (λ T.
        orders.new ≡ puts (λ o. o.number) (if asked then orders_by T needs.now else []) orders.old) }
{
    if asked {
        add_each(alloc, source, orders, needs.named.order.as_slice())
    } else {
        Ok(())
    }
}

// Puts the orders whose statuses may change into a table, and the one that is named, where what it lists is needed.
fn add_opened<S: LookUps>(
    alloc: Global,
    source: &mut S,
    orders: &mut Table<OrderRow>,
    authorizations: &Table<AuthorizationRow>,
    needs: &RowsNeeded,
) -> Result<(), StorageFault>
    ensures { Finds S.sight source.old source.new result (λ T.
        orders.new ≡ puts (λ o. o.number) (opened_with T needs.now authorizations.now) orders.old) }
{
    let past = [
        (OrderStatus::Pending, needs.moment),
        (OrderStatus::Ready, needs.moment),
        (OrderStatus::Processing, needs.moment),
    ];
    add_each(alloc, source, orders, &past)?;
    add_linked(alloc, source, orders, authorizations)?;
    add_named_order(alloc, source, orders, needs, needs.needs_listed)
}

// Puts the authorizations and orders whose statuses may change into two tables.
fn add_statuses<S: LookUps>(
    alloc: Global,
    source: &mut S,
    authorizations: &mut Table<AuthorizationRow>,
    orders: &mut Table<OrderRow>,
    movable: &Table<AuthorizationRow>,
    needs: &RowsNeeded,
) -> Result<(), StorageFault>
    ensures { Finds S.sight source.old source.new result (λ T.
        (authorizations.new ≡ puts (λ r. r.number) (restated_by T needs.now movable.now) authorizations.old)
        × (orders.new ≡ puts (λ o. o.number) (opened_with T needs.now authorizations.new) orders.old)) }
{
    add_restated(alloc, source, authorizations, movable, needs)?;
    add_opened(alloc, source, orders, authorizations, needs)
}

// ---- what leads to nothing more

// Puts the authorizations that are named, and those that a new order asks for, into a table.
#[tactic(auto, using(crate::proofs::Found::finds_failing, crate::proofs::Gathered::put_then, crate::proofs::MinimalRows::themselves))]
fn add_wanted<S: LookUps>(
    alloc: Global,
    source: &mut S,
    authorizations: &mut Table<AuthorizationRow>,
    movable: &Table<AuthorizationRow>,
    needs: &RowsNeeded,
    accounts: &Table<AccountRow>,
) -> Result<(), StorageFault>
    ensures { Finds S.sight source.old source.new result (λ T. authorizations.new ≡ puts (λ r. r.number)
        (movable.now ++ authorizations_asked_of T (option_map (λ v. v.now) needs.now.names) accounts.now) authorizations.old) }
{
    add_linked(alloc, source, authorizations, movable)?;
    add_asked_names(alloc, source, authorizations, needs.names, accounts)
}

// Puts the authorizations that are named, and those that a new order asks for, into a table, and then those that these orders
// list and that it lacks, without their challenges.
fn add_others<S: LookUps>(
    alloc: Global,
    source: &mut S,
    authorizations: &mut Table<AuthorizationRow>,
    orders: &Table<OrderRow>,
    movable: &Table<AuthorizationRow>,
    needs: &RowsNeeded,
    accounts: &Table<AccountRow>,
) -> Result<(), StorageFault>
    ensures { Finds S.sight source.old source.new result (λ T.
        authorizations.new ≡ missings (λ r. r.number) (bare_authorizations T) (flat_map (λ o. numbers_of o.listed) orders.now)
        (puts (λ r. r.number) (movable.now ++ authorizations_asked_of T (option_map (λ v. v.now) needs.now.names) accounts.now)
        authorizations.old)) }
{
    add_wanted(alloc, source, authorizations, movable, needs, accounts)?;
    add_bare_listed(alloc, source, authorizations, orders)
}

// Puts the orders of these accounts into a table in summary, those alone that it lacks.
fn add_summaries<S: LookUps>(
    alloc: Global,
    source: &mut S,
    orders: &mut Table<OrderRow>,
    accounts: &Table<AccountRow>,
) -> Result<(), StorageFault>
    ensures { Finds S.sight source.old source.new result (λ T.
        orders.new ≡ lacking (λ o. o.number) (flat_map (λ x. summaries_of T x.number) accounts.now) orders.old) }
{
    for account in accounts.iter() {
        add_lacking(orders, source.summaries_of(alloc, account.number))?;
    }
    Ok(())
}

// Puts them into the table, where they are asked for.
fn add_listed<S: LookUps>(
    alloc: Global,
    source: &mut S,
    orders: &mut Table<OrderRow>,
    accounts: &Table<AccountRow>,
    asked: bool,
) -> Result<(), StorageFault>
    ensures { Finds S.sight source.old source.new result (λ T.
        orders.new ≡ lacking (λ o. o.number) (if asked then flat_map (λ x. summaries_of T x.number) accounts.now else []) orders.old) }
{
    if asked {
        add_summaries(alloc, source, orders, accounts)
    } else {
        Ok(())
    }
}

// Puts the order that is named, where nothing that it lists is needed, into a table, and then the orders of these accounts,
// where they are asked for, that it lacks, in summary.
fn add_alone<S: LookUps>(
    alloc: Global,
    source: &mut S,
    orders: &mut Table<OrderRow>,
    needs: &RowsNeeded,
    accounts: &Table<AccountRow>,
) -> Result<(), StorageFault>
    ensures { Finds S.sight source.old source.new result (λ T.
        orders.new ≡ lacking (λ o. o.number) (listed_with T needs.now accounts.now) (puts (λ o. o.number) (named_alone T needs.now) orders.old)) }
{
    add_named_order(alloc, source, orders, needs, !needs.needs_listed)?;
    add_listed(alloc, source, orders, accounts, needs.named.asks_orders)
}

// ---- all of them

// Puts the rows that are enough for an ask into empty tables, those that are named into one of their own, too.
fn add_minimal<S: LookUps>(
    alloc: Global,
    source: &mut S,
    rows: &mut Rows,
    movable: &mut Table<AuthorizationRow>,
    policy: &Policy,
    ask: &ParsedAsk,
    needs: &RowsNeeded,
) -> Result<(), StorageFault>
    requires { NeedsFor (ask_of ask.now) needs.now.moment needs.now }
    ensures { Finds S.sight source.old source.new result (λ T. IsOrdered T → policy.now ≡ T.meta.policy → AreNone rows.old → movable.old ≡ []
        → AreRowsOf (needed_rows T needs.now.moment (ask_of ask.now)) rows.new) }
{
    add_nonces(alloc, source, &mut rows.nonces, policy, needs.moment, ask)?;
    add_holders(alloc, source, &mut rows.accounts, movable, ask, needs)?;
    add_statuses(
        alloc,
        source,
        &mut rows.authorizations,
        &mut rows.orders,
        movable,
        needs,
    )?;
    add_others(
        alloc,
        source,
        &mut rows.authorizations,
        &rows.orders,
        movable,
        needs,
        &rows.accounts,
    )?;
    add_alone(alloc, source, &mut rows.orders, needs, &rows.accounts)
}

/// The book of the rows that are enough for a call that names rows.
pub(crate) fn minimal_book<S: LookUps>(
    alloc: Global,
    source: &mut S,
    call: &ParsedCall,
) -> Result<Book, StorageFault>
    ensures reads { Reads S.sight source.old source.new result }
    ensures found { ForTables S.sight source.old source.new (λ T. IsOrdered T
        → IfOk result (λ book. book ≡ needed_rows T (max call.now.at T.meta.counters.clock) call.now.ask)) }
{
    let meta = source.meta_row(alloc)?;
    let counters = meta.counters;
    let moment = counters.clock.moment_of(call.call().at);
    let needs = rows_needed(call, moment);
    let mut movable = Table::new(alloc);
    let mut rows = Rows {
        nonces: Table::new(alloc),
        accounts: Table::new(alloc),
        authorizations: Table::new(alloc),
        orders: Table::new(alloc),
    };
    add_minimal(
        alloc,
        source,
        &mut rows,
        &mut movable,
        &meta.policy,
        call.ask(),
        &needs,
    )?;
    Ok(Book::of_tables(
        meta,
        rows.nonces,
        rows.accounts,
        rows.authorizations,
        rows.orders,
    ))
}
