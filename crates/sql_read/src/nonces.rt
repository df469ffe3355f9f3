//! Nonces, read from the rows of an answer and looked up.
ghost use Rattle.std.specs.Prelude.{◌≡◌};
ghost use Rattle.model_parts.specs.LookUps.{nonces_where};
ghost use Rattle.sql_read.specs.Earliest.{TellsEarliest, issues};
ghost use Rattle.sql_read.specs.{Looking.LooksUp, Queries.asked, Queries.nonce_query};
ghost use Rattle.sql_read.specs.Spelled.{FitsNonce, nonce_in};

use crate::fault::ReadFault;
use crate::rows::{Query, Selected, earliest, find_rows};
use crate::values::{bytes, numbers};
use desk_model::Nonce;
use model_parts::NoncesWhere;
use sql_schema::nonces;
use sqlite::{Alter, Connection, Error, Row};
use std::alloc::Global;
use store_columns::NonceColumns;

impl Selected for NonceColumns {
    ghost spelled = { nonce_in };

    ghost Fits = { FitsNonce };

    fn of(row: &Row) -> Result<NonceColumns, Error> {
        let [serial, issued] = numbers(row, [0, 2])?;
        let random = bytes(row, 1)?;
        Ok(NonceColumns {
            serial,
            random,
            issued,
        })
    }
}

// The query, with its text and its parameters.
fn query_of<'a>(which: NoncesWhere) -> Query<'a>
    ensures { asked result ≡ nonce_query which }
{
    match which {
        NoncesWhere::Any => Query::all(nonces::SELECT),
        NoncesWhere::Serial(serial) => Query::number(nonces::SELECT_NUMBERED, serial),
        NoncesWhere::IssuedBefore(moment) => Query::number(nonces::SELECT_BEFORE, moment),
    }
}

/// The nonces of a query, by serial.
///
/// # Errors
///
/// As of each reading (`lib.rt`).
pub fn find_nonces<S: Alter>(
    alloc: Global,
    conn: &mut Connection<S>,
    which: NoncesWhere,
) -> Result<Vec<Nonce>, ReadFault>
    ensures { LooksUp S.Store conn.old conn.new (λ T rows. rows.items ≡ nonces_where T which) result }
{
    find_rows::<S, NonceColumns>(alloc, conn, query_of(which))
}

/// The earliest moment, in seconds since 1970, at which a nonce was issued that is there, or `None` where there is none.
///
/// # Errors
///
/// As of each reading (`lib.rt`).
pub fn earliest_issue<S: Alter>(conn: &mut Connection<S>) -> Result<Option<u64>, ReadFault>
    ensures { TellsEarliest S.Store conn.old conn.new issues result }
{
    earliest(conn, Query::all(nonces::SELECT_EARLIEST))
}
