//! The row of the table `meta`.
ghost use Rattle.std.specs.Prelude.{◌≡◌, ◌≢◌, ◌↔◌, pos, IfOk, IsTrue, MatchOption, refl};
ghost use Rattle.desk_model.specs.declared.rows.Meta.{Meta as MetaRow};
ghost use Rattle.store_columns.specs.Columns.{known_format, meta_columns};
ghost use Rattle.store_columns.specs.{Limits.IsStoredMeta, Reading.IsRead};
ghost use Rattle.store_columns.specs.MetaParts.{AreCounters, IsPolicy};

use crate::columns::{FORMAT, MetaColumns};
use crate::facts::{Columns, read_counter, read_moment, read_natural};
use desk_model::{Clock, Counters, Meta, Policy};
use std::alloc::{AllocError, Global};

// The row with these columns, or `None` where none in its limits has them.
fn read_meta(alloc: Global, columns: &MetaColumns) -> Result<Option<Meta>, AllocError>
    ensures { IfOk result (λ row. IsRead meta_columns IsStoredMeta columns.now row) }
{
    if !is_of_format(columns) {
        return Ok(None);
    }
    let Some(counters) = read_counters(columns) else {
        return Ok(None);
    };
    let Some(policy) = read_policy(alloc, columns)? else {
        return Ok(None);
    };
    Ok(Some(Meta { policy, counters }))
}

// Whether the row is the first, of this format.
fn is_of_format(columns: &MetaColumns) -> bool
    ensures { IsTrue result ↔ (columns.now.id ≡ pos 1) × (columns.now.format ≡ known_format) }
{
    columns.id == 1 && columns.format == FORMAT
}

// The clock and the last numbers given, or `None` where no row has these columns.
fn read_counters(columns: &MetaColumns) -> Option<Counters>
    ensures { MatchOption result
        ((row : MetaRow) → IsStoredMeta row → columns.now ≢ meta_columns row)
        (λ counters. AreCounters columns.now counters) }
{
    Some(Counters {
        clock: Clock::new(read_moment(columns.clock)?)?,
        nonces: read_counter(columns.nonces)?,
        accounts: read_counter(columns.accounts)?,
        orders: read_counter(columns.orders)?,
        authorizations: read_counter(columns.authzs)?,
        challenges: read_counter(columns.challs)?,
    })
}

// The policy, or `None` where no row has these columns.
fn read_policy(alloc: Global, columns: &MetaColumns) -> Result<Option<Policy>, AllocError>
    ensures { IfOk result (λ read. MatchOption read
        ((row : MetaRow) → IsStoredMeta row → columns.now ≢ meta_columns row)
        (λ policy. IsPolicy columns.now policy)) }
{
    let Some(nonce_life) = read_natural(columns.nonce_life) else {
        return Ok(None);
    };
    let Some(order_life) = read_natural(columns.order_life) else {
        return Ok(None);
    };
    let Some(authz_life) = read_natural(columns.authz_life) else {
        return Ok(None);
    };
    Policy::new(
        alloc,
        columns.base.as_str(),
        nonce_life,
        order_life,
        authz_life,
    )
}

impl Columns for MetaColumns {
    type Row = Meta;

    ghost write = { meta_columns };

    ghost IsStored = { IsStoredMeta };

    fn read(self, alloc: Global) -> Result<Option<Meta>, AllocError> {
        read_meta(alloc, &self)
    }

    ghost alike_itself = { λ row. refl };
}
