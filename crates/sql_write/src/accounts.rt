//! Accounts, written into their table.
ghost use Rattle.std.specs.Prelude.{◌≡◌, IfErr, IfOk, IsOk};
ghost use Rattle.sqlite.specs.Values.{bound, bound_value};
ghost use Rattle.sqlite_value.specs.Value.{owned};
ghost use Rattle.store_columns.specs.Columns.{account_columns, account_end_columns};
ghost use Rattle.store_columns.specs.Spelling.{contacts_text};
ghost use Rattle.sql_write.specs.{Bound.account_numbers, Fits.FitsAccount, Makes.Writes, Numbers.IsNotTooLarge, Refusals.HasWritten};
ghost use Rattle.sql_write.specs.Statements.{account_writing, writes};
ghost use Rattle.sql_write.specs.declared.fault.WriteFault.TheVariants.{Memory};
ghost use Rattle.sql_tables.specs.Images.{account_kept, account_updates, account_params, text_or_null};
ghost use Rattle.sql_tables.specs.Layouts.{account_layout};

use crate::fault::{SaveFault, WriteFault};
use crate::statements::{date_column, int_or_null, number_column, text, write_row};
use crate::stored::Write;
use desk_model::{AccountEnd, AccountRow, Text};
use json_texts::written_list;
use sql_schema::accounts;
use sqlite::types::ValueRef;
use sqlite::{Alter, Transaction};
use std::alloc::Global;

// The numbers and dates of an account, as columns.
#[derive(Clone, Copy)]
struct AccountNumbers {
    number: i64,
    opened: i64,
    ended: Option<i64>,
}

// How an account ended, or NULL.
fn account_end<'a>(end: Option<AccountEnd>) -> ValueRef<'a>
    ensures { bound_value (owned result) ≡ text_or_null (account_end_columns end).1 }
{
    match end {
        Some(end) => text(end.ending.as_str()),
        None => ValueRef::Null,
    }
}

// The numbers and dates of an account.
fn account_numbers(row: &AccountRow) -> Result<AccountNumbers, WriteFault>
    ensures numbers { IfOk result (λ numbers. numbers ≡ account_numbers (account_columns row.now)) }
    ensures fits { FitsAccount row.now → IsOk result }
{
    Ok(AccountNumbers {
        number: number_column(row.number)?,
        opened: number_column(row.opened)?,
        ended: date_column(row.ended.map(|end| end.date))?,
    })
}

// The text of contacts.
fn contacts_column(alloc: Global, contacts: &[Text]) -> Result<Text, WriteFault>
    ensures column { IfOk result (λ text. text ≡ contacts_text contacts.now) }
    ensures fits { IfErr result (λ why. why ≡ Memory) }
{
    Ok(Text::new(written_list(alloc, contacts)?))
}

// The parameters for a row, of which these are the numbers and the text of its contacts: all, and those that renew it.
fn account_values<'a>(
    row: &'a AccountRow,
    numbers: &AccountNumbers,
    contacts: &'a Text,
) -> ([ValueRef<'a>; 7], [ValueRef<'a>; 6])
    requires numbers { numbers.now ≡ account_numbers (account_columns row.now) }
    requires contacts { contacts.now ≡ contacts_text row.now.contacts }
    ensures all { bound result.0 ≡ account_params (account_columns row.now) }
    ensures updates { bound result.1 ≡ account_updates (account_columns row.now) }
{
    let all = [
        ValueRef::Int(numbers.number),
        text(row.key.canonical()),
        text(contacts.as_str()),
        ValueRef::Int(numbers.opened),
        int_or_null(&numbers.ended),
        account_end(row.ended),
        text(row.status.as_str()),
    ];
    let updates = [all[0], all[1], all[2], all[4], all[5], all[6]];
    (all, updates)
}

/// Writes an account.
pub(crate) fn write_account<S: Alter>(
    alloc: Global,
    tx: &mut Transaction<'_, S>,
    write: Write,
    row: &AccountRow,
) -> Result<(), SaveFault>
    ensures same_reference { tx.new.conn.ghost_name ≡ tx.old.conn.ghost_name }
    ensures writes { HasWritten S.Store (writes account_writing write row.now) (Writes account_layout (λ x. account_kept (account_columns x)) write row.now)
        tx.old.conn.now tx.new.conn.now result }
    ensures fits { FitsAccount row.now → IfErr result IsNotTooLarge }
{
    let contacts = contacts_column(alloc, row.contacts.as_slice())?;
    let numbers = account_numbers(row)?;
    let (all, updates) = account_values(row, &numbers, &contacts);
    let written = write_row(tx, write, accounts::WRITING, &all, &updates);
    drop(contacts);
    written
}
