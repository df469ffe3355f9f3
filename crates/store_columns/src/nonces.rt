//! Rows of the table `nonce`.
ghost use Rattle.std.specs.Prelude.{refl};
ghost use Rattle.store_columns.specs.{Columns.nonce_columns, Limits.IsStoredNonce, Reading.IsRead};

use crate::columns::NonceColumns;
use crate::facts::{Columns, read_moment, read_number, read_sixteen};
use desk_model::Nonce;
use std::alloc::{AllocError, Global};

// The nonce with these columns, or `None` where none in its limits has them.
fn read_nonce(columns: &NonceColumns) -> Option<Nonce>
    ensures { IsRead nonce_columns IsStoredNonce columns.now result }
{
    let serial = read_number(columns.serial)?;
    let random = read_sixteen(columns.random.as_slice())?;
    let issued = read_moment(columns.issued)?;
    Some(Nonce {
        serial,
        random,
        issued,
    })
}

impl Columns for NonceColumns {
    type Row = Nonce;

    ghost write = { nonce_columns };

    ghost IsStored = { IsStoredNonce };

    fn read(self, _alloc: Global) -> Result<Option<Nonce>, AllocError> {
        Ok(read_nonce(&self))
    }

    ghost alike_itself = { λ row. refl };
}
