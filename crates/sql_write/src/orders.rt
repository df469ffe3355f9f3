//! Orders, written into their table, and what they list into another.
ghost use Rattle.std.specs.Prelude.{◌≡◌, IfErr, IfOk, IsOk};
ghost use Rattle.sqlite.specs.Values.{bound, bound_value};
ghost use Rattle.sqlite_value.specs.Value.{owned};
ghost use Rattle.store_columns.specs.Columns.{dated_bytes_columns, dated_problem_columns, order_columns};
ghost use Rattle.sql_write.specs.{Bound.order_numbers, Numbers.IsNotTooLarge, Refusals.HasWritten, declared.fault.WriteFault.TheVariants.Memory};
ghost use Rattle.sql_write.specs.Fits.{FitsOrder, FitsListed};
ghost use Rattle.sql_write.specs.Makes.{Writes, AppendsOrPlaces};
ghost use Rattle.sql_write.specs.Statements.{order_writing, writes, writes_listed};
ghost use Rattle.sql_tables.specs.Images.{blob_or_null, order_kept, order_updates, order_params};
ghost use Rattle.sql_tables.specs.Layouts.{order_layout};

use crate::fault::{SaveFault, WriteFault};
use crate::statements::{date_column, int_or_null, number_columns, text, text_or_null, write_row};
use crate::stored::Write;
use desk_model::{DatedBytes, DatedProblem, Listed, OrderRow, Text};
use sql_schema::{listed, orders};
use sqlite::types::ValueRef;
use sqlite::{Alter, Transaction};
use std::alloc::Global;
use store_columns::problem_text;

// The numbers and dates of an order, as columns.
#[derive(Clone, Copy)]
struct OrderNumbers {
    number: i64,
    account: i64,
    made: i64,
    expires: i64,
    finalized: Option<i64>,
    certified: Option<i64>,
    failed: Option<i64>,
}

// The numbers and dates of an order.
fn order_numbers(row: &OrderRow) -> Result<OrderNumbers, WriteFault>
    ensures numbers { IfOk result (λ numbers. numbers ≡ order_numbers (order_columns row.now)) }
    ensures fits { FitsOrder row.now → IsOk result }
{
    let [number, account, made, expires] = number_columns([
        row.number,
        row.account,
        row.made,
        row.expires,
    ])?;
    Ok(OrderNumbers {
        number,
        account,
        made,
        expires,
        finalized: date_column(row.finalized.as_ref().map(|kept| kept.date))?,
        certified: date_column(row.certified.as_ref().map(|kept| kept.date))?,
        failed: date_column(row.failed.as_ref().map(|failure| failure.date))?,
    })
}

// The bytes that were handed in, or NULL.
fn bytes_or_null<'a>(kept: &'a Option<DatedBytes>) -> ValueRef<'a>
    ensures { bound_value (owned result) ≡ blob_or_null (dated_bytes_columns kept.now).1 }
{
    match kept {
        Some(kept) => ValueRef::Blob(kept.bytes.as_slice()),
        None => ValueRef::Null,
    }
}

// The text of the problem for which an order failed.
fn failure_text(alloc: Global, failure: &Option<DatedProblem>) -> Result<Option<Text>, WriteFault>
    ensures column { IfOk result (λ text. text ≡ (dated_problem_columns failure.now).1) }
    ensures fits { IfErr result (λ why. why ≡ Memory) }
{
    match failure {
        Some(failure) => {
            let text = problem_text(alloc, &failure.problem)?;
            Ok(Some(Text::new(text)))
        }
        None => Ok(None),
    }
}

// The parameters for a row, of which these are the numbers and the text of its problem: all, and those that renew it.
fn order_values<'a>(
    row: &'a OrderRow,
    numbers: &OrderNumbers,
    problem: &'a Option<Text>,
) -> ([ValueRef<'a>; 11], [ValueRef<'a>; 8])
    requires numbers { numbers.now ≡ order_numbers (order_columns row.now) }
    requires problem { problem.now ≡ (order_columns row.now).problem }
    ensures all { bound result.0 ≡ order_params (order_columns row.now) }
    ensures updates { bound result.1 ≡ order_updates (order_columns row.now) }
{
    let all = [
        ValueRef::Int(numbers.number),
        ValueRef::Int(numbers.account),
        ValueRef::Int(numbers.made),
        ValueRef::Int(numbers.expires),
        int_or_null(&numbers.finalized),
        bytes_or_null(&row.finalized),
        int_or_null(&numbers.certified),
        bytes_or_null(&row.certified),
        int_or_null(&numbers.failed),
        text_or_null(problem),
        text(row.status.as_str()),
    ];
    let updates = [
        all[0], all[4], all[5], all[6], all[7], all[8], all[9], all[10],
    ];
    (all, updates)
}

/// Writes an order, without what it lists.
pub(crate) fn write_bare_order<S: Alter>(
    alloc: Global,
    tx: &mut Transaction<'_, S>,
    write: Write,
    row: &OrderRow,
) -> Result<(), SaveFault>
    ensures same_reference { tx.new.conn.ghost_name ≡ tx.old.conn.ghost_name }
    ensures writes { HasWritten S.Store (writes order_writing write row.now) (Writes order_layout (λ x. order_kept (order_columns x)) write row.now)
        tx.old.conn.now tx.new.conn.now result }
    ensures fits { FitsOrder row.now → IfErr result IsNotTooLarge }
{
    let problem = failure_text(alloc, &row.failed)?;
    let numbers = order_numbers(row)?;
    let (all, updates) = order_values(row, &numbers, &problem);
    let written = write_row(tx, write, orders::WRITING, &all, &updates);
    drop(problem);
    written
}

// ---- what an order lists

/// Writes what an order lists at a place.
pub(crate) fn write_listed<S: Alter>(
    tx: &mut Transaction<'_, S>,
    write: Write,
    order: u64,
    row: &Listed,
) -> Result<(), SaveFault>
    ensures same_reference { tx.new.conn.ghost_name ≡ tx.old.conn.ghost_name }
    ensures writes { HasWritten S.Store (writes_listed write order row.now) (AppendsOrPlaces write (record { owner = order; row = row.now }))
        tx.old.conn.now tx.new.conn.now result }
    ensures fits { FitsListed (record { owner = order; row = row.now }) → IfErr result IsNotTooLarge }
{
    let [order, place, authorization] = number_columns([order, row.place, row.authorization])?;
    let values = [
        ValueRef::Int(order),
        ValueRef::Int(place),
        ValueRef::Int(authorization),
    ];
    write_row(tx, write, listed::WRITING, &values, &values)
}
