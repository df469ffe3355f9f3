//! Nonces, written into their table.
ghost use Rattle.std.specs.Prelude.{◌≡◌, pos, IfErr};
ghost use Rattle.sqlite.specs.Values.{bound};
ghost use Rattle.store_columns.specs.Columns.{nonce_columns};
ghost use Rattle.sql_write.specs.{Makes.AddsOrPuts, Numbers.IsNotTooLarge, Refusals.HasWritten};
ghost use Rattle.sql_write.specs.Statements.{nonce_writing, removes_nonce, writes};
ghost use Rattle.sql_tables.specs.{Effects.Removes, Images.nonce_params, Layouts.nonce_layout};
ghost use Rattle.sql_write.specs.Fits.{Fits, FitsNonce};

use crate::fault::SaveFault;
use crate::statements::{execute_or_fault, number_column, number_columns, write_row};
use crate::stored::Write;
use desk_model::Nonce;
use sql_schema::nonces;
use sqlite::types::ValueRef;
use sqlite::{Alter, Transaction};

// The parameters for a row, of which these are the numbers.
fn nonce_values<'a>(row: &'a Nonce, serial: i64, issued: i64) -> [ValueRef<'a>; 3]
    requires serial { serial ≡ pos row.now.serial }
    requires issued { issued ≡ pos row.now.issued }
    ensures { bound result ≡ nonce_params (nonce_columns row.now) }
{
    [
        ValueRef::Int(serial),
        ValueRef::Blob(&row.random),
        ValueRef::Int(issued),
    ]
}

/// Writes a nonce.
pub(crate) fn write_nonce<S: Alter>(
    tx: &mut Transaction<'_, S>,
    write: Write,
    row: &Nonce,
) -> Result<(), SaveFault>
    ensures same_reference { tx.new.conn.ghost_name ≡ tx.old.conn.ghost_name }
    ensures writes { HasWritten S.Store (writes nonce_writing write row.now) (AddsOrPuts nonce_layout write row.now) tx.old.conn.now tx.new.conn.now result }
    ensures fits { FitsNonce row.now → IfErr result IsNotTooLarge }
{
    let [serial, issued] = number_columns([row.serial, row.issued])?;
    let values = nonce_values(row, serial, issued);
    write_row(tx, write, nonces::WRITING, &values, &values)
}

/// Removes the nonce of this serial, if there is one.
pub(crate) fn remove_nonce<S: Alter>(
    tx: &mut Transaction<'_, S>,
    serial: u64,
) -> Result<(), SaveFault>
    ensures same_reference { tx.new.conn.ghost_name ≡ tx.old.conn.ghost_name }
    ensures writes { HasWritten S.Store (removes_nonce serial) (Removes nonce_layout serial) tx.old.conn.now tx.new.conn.now result }
    ensures fits { Fits serial → IfErr result IsNotTooLarge }
{
    let column = number_column(serial)?;
    execute_or_fault(tx, nonces::DELETE, &[ValueRef::Int(column)])
}
