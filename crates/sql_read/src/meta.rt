//! The row of the desk.
ghost use Rattle.std.specs.Prelude.{◌≡◌, [], ◌∷◌, IfErr, IfOk};
ghost use Rattle.desk_model.specs.declared.rows.Meta.{Meta as MetaRow};
ghost use Rattle.sql_read.specs.{Looking.LooksUp, Spelled.FitsMeta, Spelled.meta_in};

use crate::fault::ReadFault;
use crate::rows::{Query, Selected, find_rows};
use crate::values::{numbers, text};
use desk_model::Meta;
use sql_schema::meta;
use sqlite::{Alter, Connection, Error, Row};
use std::alloc::Global;
use store_columns::MetaColumns;

impl Selected for MetaColumns {
    ghost spelled = { meta_in };

    ghost Fits = { FitsMeta };

    fn of(row: &Row) -> Result<MetaColumns, Error> {
        let [
            id,
            format,
            nonce_life,
            order_life,
            authz_life,
            clock,
            nonces,
            accounts,
            orders,
            authzs,
            challs,
        ] = numbers(row, [0, 1, 3, 4, 5, 6, 7, 8, 9, 10, 11])?;
        let base = text(row, 2)?;
        Ok(MetaColumns {
            id,
            format,
            base,
            nonce_life,
            order_life,
            authz_life,
            clock,
            nonces,
            accounts,
            orders,
            authzs,
            challs,
        })
    }
}

// The last row; of a desk it is the only one.
fn last_row(mut rows: Vec<Meta>) -> Result<Meta, ReadFault>
    ensures row { (row : MetaRow) → rows.items ≡ row ∷ [] → IfOk result (λ found. found ≡ row) }
    ensures none { IfErr result (λ _. rows.items ≡ []) }
{
    rows.pop().ok_or(ReadFault::NotARow)
}

/// The row of the desk.
///
/// # Errors
///
/// The engine's, and `NotARow` where no row of a desk is there; nothing is changed. Of a desk's tables it fails for memory or the
/// disk alone.
pub fn meta_row<S: Alter>(alloc: Global, conn: &mut Connection<S>) -> Result<Meta, ReadFault>
    ensures { LooksUp S.Store conn.old conn.new (λ T meta. meta ≡ T.meta) result }
{
    let rows = find_rows::<S, MetaColumns>(alloc, conn, Query::all(meta::SELECT))?;
    last_row(rows)
}
