//! The rows of all tables.
ghost use Rattle.std.specs.Prelude.{IfOk, map, option_map, refl};
ghost use Rattle.desk_model.specs.Kept.{EachOf};
ghost use Rattle.store_columns.specs.{Columns.rows_columns, Limits.AreStored, Limits.IfRecorded, Reading.IsRead};

use crate::columns::{FlatRows, StoredRows};
use crate::facts::{Columns, read_table};
use desk_model::Sequence;
use std::alloc::{AllocError, Global};

// A pair is read part by part, the first part first.
impl<A: Columns, B: Columns> Columns for (A, B) {
    type Row = (A::Row, B::Row);

    ghost write = { λ rows. (A.write rows.0, B.write rows.1) };

    ghost IsStored = { λ rows. A.IsStored rows.0 × B.IsStored rows.1 };

    fn read(self, alloc: Global) -> Result<Option<(A::Row, B::Row)>, AllocError> {
        let (first, second) = self;
        let Some(first) = first.read(alloc)? else {
            return Ok(None);
        };
        let Some(second) = second.read(alloc)? else {
            return Ok(None);
        };
        Ok(Some((first, second)))
    }

    ghost alike_itself = { λ row. refl };
}

// What may be missing is read where it is there.
impl<C: Columns> Columns for Option<C> {
    type Row = Option<C::Row>;

    ghost write = { option_map C.write };

    ghost IsStored = { IfRecorded C.IsStored };

    fn read(self, alloc: Global) -> Result<Option<Option<C::Row>>, AllocError> {
        let Some(columns) = self else {
            return Ok(Some(None));
        };
        match columns.read(alloc)? {
            Some(row) => Ok(Some(Some(row))),
            None => Ok(None),
        }
    }

    ghost alike_itself = { λ row. refl };
}

impl<C: Columns> Columns for Sequence<C> {
    type Row = Sequence<C::Row>;

    ghost write = { map C.write };

    ghost IsStored = { EachOf C.IsStored };

    fn read(self, alloc: Global) -> Result<Option<Sequence<C::Row>>, AllocError> {
        read_table(alloc, self)
    }

    ghost alike_itself = { λ row. refl };
}

/// The rows with these columns, table by table, or `None` where no rows in their limits have them.
///
/// # Errors
///
/// Where there is no memory for the rows.
pub fn read_rows(alloc: Global, stored: StoredRows) -> Result<Option<FlatRows>, AllocError>
    ensures { IfOk result (λ rows. IsRead rows_columns AreStored stored rows) }
{
    let tables = (
        (
            (stored.metas, stored.nonces),
            (stored.accounts, stored.orders),
        ),
        (
            (stored.authzs, stored.challs),
            (stored.order_authzs, stored.chall_keys),
        ),
    );
    let Some(
        (((metas, nonces), (accounts, orders)), ((authorizations, challenges), (listed, keys))),
    ) = tables.read(alloc)?
    else {
        return Ok(None);
    };
    Ok(Some(FlatRows {
        metas,
        nonces,
        accounts,
        orders,
        authorizations,
        listed,
        challenges,
        keys,
    }))
}
