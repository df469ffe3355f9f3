//! The row of `meta`, written into its table.
ghost use Rattle.std.specs.Prelude.{◌≡◌, IfErr, IfOk, IsOk};
ghost use Rattle.sqlite.specs.Values.{bound};
ghost use Rattle.store_columns.specs.Columns.{known_format, meta_columns};
ghost use Rattle.sql_write.specs.{Bound.meta_numbers, Fits.FitsMeta, Makes.RenewsOrPuts, Numbers.IsNotTooLarge, Refusals.HasWritten};
ghost use Rattle.sql_write.specs.Statements.{meta_writing, writes};
ghost use Rattle.sql_tables.specs.Images.{formatted_columns, meta_kept, meta_updates, meta_params};
ghost use Rattle.sql_tables.specs.Layouts.{formatted_layout};

use crate::fault::{SaveFault, WriteFault};
use crate::statements::{number_columns, text, write_row};
use crate::stored::Write;
use desk_model::Meta;
use sql_schema::meta;
use sqlite::types::ValueRef;
use sqlite::{Alter, Transaction};
use store_columns::FORMAT;

// The numbers of the row, as columns.
#[derive(Clone, Copy)]
struct MetaNumbers {
    nonce_life: i64,
    order_life: i64,
    authz_life: i64,
    clock: i64,
    nonces: i64,
    accounts: i64,
    orders: i64,
    authzs: i64,
    challs: i64,
}

// The numbers of the row.
fn meta_numbers(row: &Meta) -> Result<MetaNumbers, WriteFault>
    ensures numbers { IfOk result (λ numbers. numbers ≡ meta_numbers (meta_columns row.now)) }
    ensures fits { FitsMeta row.now → IsOk result }
{
    let policy = &row.policy;
    let counters = &row.counters;
    let [nonce_life, order_life, authz_life] = number_columns([
        policy.nonce_life(),
        policy.order_life(),
        policy.authz_life(),
    ])?;
    let [clock, nonces, accounts, orders, authzs, challs] = number_columns([
        counters.clock.moment(),
        counters.nonces,
        counters.accounts,
        counters.orders,
        counters.authorizations,
        counters.challenges,
    ])?;
    Ok(MetaNumbers {
        nonce_life,
        order_life,
        authz_life,
        clock,
        nonces,
        accounts,
        orders,
        authzs,
        challs,
    })
}

// The parameters for the row, of which these are the numbers: all, and those that renew it.
fn meta_values<'a>(row: &'a Meta, numbers: &MetaNumbers) -> ([ValueRef<'a>; 12], [ValueRef<'a>; 7])
    requires { numbers.now ≡ meta_numbers (meta_columns row.now) }
    ensures all { bound result.0 ≡ meta_params (meta_columns row.now) }
    ensures updates { bound result.1 ≡ meta_updates (meta_columns row.now) }
{
    let all = [
        ValueRef::Int(1),
        ValueRef::Int(FORMAT),
        text(row.policy.base()),
        ValueRef::Int(numbers.nonce_life),
        ValueRef::Int(numbers.order_life),
        ValueRef::Int(numbers.authz_life),
        ValueRef::Int(numbers.clock),
        ValueRef::Int(numbers.nonces),
        ValueRef::Int(numbers.accounts),
        ValueRef::Int(numbers.orders),
        ValueRef::Int(numbers.authzs),
        ValueRef::Int(numbers.challs),
    ];
    let updates = [all[0], all[6], all[7], all[8], all[9], all[10], all[11]];
    (all, updates)
}

/// Writes the row of `meta`, in the place of one in whatever format unless it is renewed.
pub(crate) fn write_meta<S: Alter>(
    tx: &mut Transaction<'_, S>,
    write: Write,
    row: &Meta,
) -> Result<(), SaveFault>
    ensures same_reference { tx.new.conn.ghost_name ≡ tx.old.conn.ghost_name }
    ensures writes { HasWritten S.Store (writes meta_writing write (known_format, row.now))
        (RenewsOrPuts formatted_layout (λ x. meta_kept (formatted_columns x)) write (known_format, row.now)) tx.old.conn.now tx.new.conn.now result }
    ensures fits { FitsMeta row.now → IfErr result IsNotTooLarge }
{
    let numbers = meta_numbers(row)?;
    let (all, updates) = meta_values(row, &numbers);
    write_row(tx, write, meta::WRITING, &all, &updates)
}
