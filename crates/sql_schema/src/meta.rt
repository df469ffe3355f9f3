//! The statements on `meta`, which has one row: the policy, the clock and the counters.
use crate::columns::meta;
use crate::texts::{Writing, select, upsert};

/// What puts and renews the row; the first is put, too.
pub const WRITING: Writing = (
    meta!(upsert),
    meta!(upsert),
    "UPDATE meta SET clock = ?2, nonces = ?3, accounts = ?4, orders = ?5, authzs = ?6, challs = ?7 WHERE id = ?1",
);

/// Shows the row.
pub const SELECT: &str = meta!(select; "");

/// Shows the format alone.
pub const SELECT_FORMAT: &str = "SELECT format FROM meta";
