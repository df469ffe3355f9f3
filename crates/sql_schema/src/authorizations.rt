//! The statements on `authz`, which has a row an authorization; its challenges stand in `chall`.
use crate::columns::authz;
use crate::texts::{Writing, insert, select, upsert, writing};

/// What inserts, puts and renews an authorization.
pub const WRITING: Writing =
    authz!(writing; "UPDATE authz SET ended = ?2, end_kind = ?3, status = ?4 WHERE num = ?1");

/// Shows all authorizations.
pub const SELECT: &str = authz!(select; "");

/// Shows the authorizations of a number.
pub const SELECT_NUMBERED: &str = authz!(select; " WHERE num = ?1");

/// Shows the authorizations of an account.
pub const SELECT_OF: &str = authz!(select; " WHERE account = ?1");

/// Shows the authorizations of an account for a base name.
pub const SELECT_NAMED: &str = authz!(select; " WHERE account = ?1 AND name = ?2");

/// Shows the authorizations of a status that expire before a moment.
pub const SELECT_PAST: &str = authz!(select; " WHERE status = ?1 AND expires < ?2");

/// Shows the first authorization above a number.
pub const SELECT_ABOVE: &str = authz!(select; " WHERE num > ?1"; " LIMIT 1");

/// Shows when the first authorization of a status ends.
pub const SELECT_EARLIEST: &str =
    "SELECT expires FROM authz WHERE status = ?1 ORDER BY expires LIMIT 1";
