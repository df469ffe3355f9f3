//! Changes, made in one transaction.
ghost use Rattle.std.specs.Prelude.{◌≡◌, ◌++◌, false, OnOk, OnErr, IfErr, option_copied};
ghost use Rattle.sqlite.specs.State.{HasCleanDisk, Survives};
ghost use Rattle.sqlite.specs.Held.{state};
ghost use Rattle.desk_model.specs.{Change.applied, Kept.EachOf};
ghost use Rattle.sql_write.specs.Committing.{GoesBack, HasCommitted, IsBeforeCommit, IsLeft};
ghost use Rattle.sql_write.specs.{Fitting.Saves, Highest.IsAbove};
ghost use Rattle.sql_write.specs.Refusals.{IsCause, HasWritten};
ghost use Rattle.sql_write.specs.Statements.{save_statements, lists, saves_account, saves_authorization, saves_bare_authorization, saves_meta, saves_nonce};
ghost use Rattle.sql_write.specs.Statements.{saves_order, order_writing, statements_from, statements_of, writes};
ghost use Rattle.sql_write.specs.Numbers.{FitsColumns, IsNotTooLarge};
ghost use Rattle.desk_model.specs.declared.rows.Change.TheVariants.{PutAuthorization, PutOrder};
ghost use Rattle.sql_write.specs.Makes.{Makes, MakesAll, PutsOver, SavesAuthorization, SavesMeta, SavesOrder, WritesOrder};
ghost use Rattle.sql_tables.specs.Effects.{Puts};
ghost use Rattle.sql_tables.specs.Layouts.{account_layout, authorization_layout, nonce_layout};
ghost use Rattle.sql_write.specs.Fits.{FitsAccount, FitsAuthorization, FitsMeta, FitsNonce};

use crate::accounts::write_account;
use crate::authorizations::write_bare_authorization;
use crate::children::{save_challenges, write_all_listed};
use crate::fault::SaveFault;
use crate::meta::write_meta;
use crate::nonces::{remove_nonce, write_nonce};
use crate::orders::write_bare_order;
use crate::statements::end;
use crate::stored::{
    Highest, Write, account_difference, authorization_difference, meta_difference,
    order_difference, stored_row,
};
use desk_book::Book;
use desk_model::{AccountRow, AuthorizationRow, Change, Counters, Meta, Nonce, OrderRow};
use sqlite::{Alter, Connection, Transaction};
use std::alloc::Global;

/// Makes the changes in one transaction: all of them, or none. A part of the tables is known: a row of it is written in the columns
/// that calls move, and not at all where it is as it was; one with a number above the last that was given is inserted.
///
/// # Errors
///
/// `Row` or `Statement` where a change was not made, `Commit` where their commit failed; a row is too large only where a number
/// is above 2^63 - 1. A connection that is still open has what was committed before, and after `Row` or `Statement` a stop leaves
/// nothing that it did not leave before.
pub fn save_all<S: Alter>(
    alloc: Global,
    conn: &mut Connection<S>,
    part: &Book,
    changes: &[Change],
) -> Result<(), SaveFault>
    requires idle { conn.old.in_transaction ≡ false }
    ensures idle { conn.new.in_transaction ≡ false }
    ensures ok { HasCleanDisk (state S.Store conn.new)
        → OnOk result (HasCommitted (state S.Store conn.old) (state S.Store conn.new) (Saves part.now changes.now)) }
    ensures err { HasCleanDisk (state S.Store conn.new) → OnErr result (GoesBack (state S.Store conn.old) (state S.Store conn.new)) }
    ensures before { IfErr result (λ why. IsBeforeCommit why → Survives (state S.Store conn.old) (state S.Store conn.new) (λ _. ⊥)) }
    ensures left { Survives (state S.Store conn.old) (state S.Store conn.new)
        (IsLeft (Saves part.now changes.now (state S.Store conn.old).now)) }
    ensures fits { EachOf FitsColumns changes.now → IfErr result IsNotTooLarge }
    ensures cause { IfErr result (IsCause S.Store (EachOf FitsColumns changes.now) (save_statements part.now changes.now) conn.old conn.new) }
{
    let mut tx = conn.transaction();
    let last = part.meta().counters;
    let made = make_changes(alloc, &mut tx, part, &last, changes);
    end(tx, made)
}

// ---- the changes, one after the other

// Saves the row of `meta`, of which this is stored.
fn save_meta<S: Alter>(
    tx: &mut Transaction<'_, S>,
    stored: Option<&Meta>,
    row: &Meta,
) -> Result<(), SaveFault>
    ensures same_reference { tx.new.conn.ghost_name ≡ tx.old.conn.ghost_name }
    ensures writes { HasWritten S.Store (saves_meta (option_copied stored.entry) row.now) (SavesMeta (option_copied stored.entry) row.now)
        tx.old.conn.now tx.new.conn.now result }
    ensures fits { FitsMeta row.now → IfErr result IsNotTooLarge }
{
    match Write::of(meta_difference(stored, row), false) {
        Some(write) => write_meta(tx, write, row),
        None => Ok(()),
    }
}

// Saves a nonce; one whose serial is above the last that was given is new.
fn save_nonce<S: Alter>(
    tx: &mut Transaction<'_, S>,
    last: u64,
    row: &Nonce,
) -> Result<(), SaveFault>
    ensures same_reference { tx.new.conn.ghost_name ≡ tx.old.conn.ghost_name }
    ensures writes { HasWritten S.Store (saves_nonce last row.now) (Puts nonce_layout row.now) tx.old.conn.now tx.new.conn.now result }
    ensures fits { FitsNonce row.now → IfErr result IsNotTooLarge }
{
    match Write::of(None, row.serial > last) {
        Some(write) => write_nonce(tx, write, row),
        None => Ok(()),
    }
}

// Saves an account, of which this row is stored.
fn save_account<S: Alter>(
    alloc: Global,
    tx: &mut Transaction<'_, S>,
    stored: Option<&AccountRow>,
    last: u64,
    row: &AccountRow,
) -> Result<(), SaveFault>
    ensures same_reference { tx.new.conn.ghost_name ≡ tx.old.conn.ghost_name }
    ensures writes { HasWritten S.Store (saves_account (option_copied stored.entry) last row.now) (PutsOver account_layout (option_copied stored.entry) row.now)
        tx.old.conn.now tx.new.conn.now result }
    ensures fits { FitsAccount row.now → IfErr result IsNotTooLarge }
{
    match Write::of(account_difference(stored, row), row.number > last) {
        Some(write) => write_account(alloc, tx, write, row),
        None => Ok(()),
    }
}

// Saves an authorization without its challenges, of which this row is stored.
fn save_bare_authorization<S: Alter>(
    tx: &mut Transaction<'_, S>,
    stored: Option<&AuthorizationRow>,
    last: u64,
    row: &AuthorizationRow,
) -> Result<(), SaveFault>
    ensures same_reference { tx.new.conn.ghost_name ≡ tx.old.conn.ghost_name }
    ensures writes { HasWritten S.Store (saves_bare_authorization (option_copied stored.entry) last row.now)
        (PutsOver authorization_layout (option_copied stored.entry) row.now) tx.old.conn.now tx.new.conn.now result }
    ensures fits { FitsAuthorization row.now → IfErr result IsNotTooLarge }
{
    match Write::of(authorization_difference(stored, row), row.number > last) {
        Some(write) => write_bare_authorization(tx, write, row),
        None => Ok(()),
    }
}

// Saves an authorization, of which this row is stored, with its challenges.
fn save_authorization<S: Alter>(
    tx: &mut Transaction<'_, S>,
    stored: Option<&AuthorizationRow>,
    last: &Counters,
    row: &AuthorizationRow,
) -> Result<(), SaveFault>
    ensures same_reference { tx.new.conn.ghost_name ≡ tx.old.conn.ghost_name }
    ensures writes { HasWritten S.Store (saves_authorization (option_copied stored.entry) last.now row.now)
        (SavesAuthorization (option_copied stored.entry) row.now)
        tx.old.conn.now tx.new.conn.now result }
    ensures fits { FitsColumns (PutAuthorization row.now) → IfErr result IsNotTooLarge }
{
    save_bare_authorization(tx, stored, last.authorizations, row)?;
    save_challenges(
        tx,
        stored,
        last.challenges,
        row.number,
        row.challenges.as_slice(),
    )
}

// Writes an order with what it lists; one that is renewed keeps that.
fn write_order<S: Alter>(
    alloc: Global,
    tx: &mut Transaction<'_, S>,
    write: Write,
    row: &OrderRow,
) -> Result<(), SaveFault>
    ensures same_reference { tx.new.conn.ghost_name ≡ tx.old.conn.ghost_name }
    ensures writes { HasWritten S.Store (writes order_writing write row.now ++ lists write row.now) (WritesOrder write row.now)
        tx.old.conn.now tx.new.conn.now result }
    ensures fits { FitsColumns (PutOrder row.now) → IfErr result IsNotTooLarge }
{
    write_bare_order(alloc, tx, write, row)?;
    match write {
        Write::Upsert | Write::Insert => {
            write_all_listed(tx, write, row.number, row.listed.as_slice())
        }
        Write::Update => Ok(()),
    }
}

// Saves an order, of which this row is stored.
#[tactic(auto, using(crate::proofs::Differing::order_keeps, crate::proofs::Differing::order_written, crate::proofs::Written::written_as, crate::proofs::Written::written_with))]
fn save_order<S: Alter>(
    alloc: Global,
    tx: &mut Transaction<'_, S>,
    stored: Option<&OrderRow>,
    last: u64,
    row: &OrderRow,
) -> Result<(), SaveFault>
    ensures same_reference { tx.new.conn.ghost_name ≡ tx.old.conn.ghost_name }
    ensures writes { HasWritten S.Store (saves_order (option_copied stored.entry) last row.now) (SavesOrder (option_copied stored.entry) row.now)
        tx.old.conn.now tx.new.conn.now result }
    ensures fits { FitsColumns (PutOrder row.now) → IfErr result IsNotTooLarge }
{
    match Write::of(order_difference(stored, row), row.number > last) {
        Some(write) => write_order(alloc, tx, write, row),
        None => Ok(()),
    }
}

// Makes one change behind others, which put no row above the highest, by rows that were known before all of them and the last
// number of each kind then.
fn make_change<S: Alter>(
    alloc: Global,
    tx: &mut Transaction<'_, S>,
    part: &Book,
    before: &[Change],
    highest: &Highest,
    last: &Counters,
    change: &Change,
) -> Result<(), SaveFault>
    requires above { IsAbove highest.now before.now }
    ensures same_reference { tx.new.conn.ghost_name ≡ tx.old.conn.ghost_name }
    ensures writes { HasWritten S.Store (statements_of (applied before.now part.now) last.now change.now)
        (Makes (applied before.now part.now) change.now) tx.old.conn.now tx.new.conn.now result }
    ensures fits { FitsColumns change.now → IfErr result IsNotTooLarge }
{
    match change {
        Change::PutMeta(row) => save_meta(tx, stored_row(part, before, 1, 1), row),
        Change::PutNonce(row) => save_nonce(tx, last.nonces, row),
        Change::RemoveNonce(serial) => remove_nonce(tx, *serial),
        Change::PutAccount(row) => {
            let stored = stored_row(part, before, highest.accounts, row.number);
            save_account(alloc, tx, stored, last.accounts, row)
        }
        Change::PutAuthorization(row) => {
            let stored = stored_row(part, before, highest.authorizations, row.number);
            save_authorization(tx, stored, last, row)
        }
        Change::PutOrder(row) => {
            let stored = stored_row(part, before, highest.orders, row.number);
            save_order(alloc, tx, stored, last.orders, row)
        }
    }
}

// Makes the changes in turn, by rows that are known to stand in the tables and the last number of each kind.
fn make_changes<S: Alter>(
    alloc: Global,
    tx: &mut Transaction<'_, S>,
    part: &Book,
    last: &Counters,
    changes: &[Change],
) -> Result<(), SaveFault>
    ensures same_reference { tx.new.conn.ghost_name ≡ tx.old.conn.ghost_name }
    ensures writes { HasWritten S.Store (statements_from last.now part.now changes.now) (MakesAll part.now changes.now)
        tx.old.conn.now tx.new.conn.now result }
    ensures fits { EachOf FitsColumns changes.now → IfErr result IsNotTooLarge }
{
    let mut highest = Highest::none();
    for place in 0..changes.len() {
        let change = &changes[place];
        make_change(alloc, tx, part, &changes[..place], &highest, last, change)?;
        highest = highest.with(change);
    }
    Ok(())
}
