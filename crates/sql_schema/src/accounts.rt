//! The statements on `account`, which has a row an account.
use crate::columns::account;
use crate::texts::{Writing, insert, select, upsert, writing};

/// What inserts, puts and renews an account.
pub const WRITING: Writing = account!(
    writing;
    "UPDATE account SET jwk = ?2, contacts = ?3, ended = ?4, end_kind = ?5, status = ?6 WHERE num = ?1"
);

/// Shows all accounts.
pub const SELECT: &str = account!(select; "");

/// Shows the accounts of a number.
pub const SELECT_NUMBERED: &str = account!(select; " WHERE num = ?1");

/// Shows the accounts of a key text.
pub const SELECT_WITH_KEY: &str = account!(select; " WHERE jwk = ?1");

/// Shows the first account above a number.
pub const SELECT_ABOVE: &str = account!(select; " WHERE num > ?1"; " LIMIT 1");
