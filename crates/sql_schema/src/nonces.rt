//! The statements on `nonce`, which has a row an open nonce.
use crate::columns::nonce;
use crate::texts::{Writing, insert, select, upsert, writing};

/// What inserts and puts a nonce; no call moves a part of one.
pub const WRITING: Writing = nonce!(writing; nonce!(upsert));

/// Removes a nonce.
pub const DELETE: &str = "DELETE FROM nonce WHERE serial = ?1";

/// Shows all nonces.
pub const SELECT: &str = nonce!(select; "");

/// Shows the nonces of a serial.
pub const SELECT_NUMBERED: &str = nonce!(select; " WHERE serial = ?1");

/// Shows the nonces that were issued before a moment.
pub const SELECT_BEFORE: &str = nonce!(select; " WHERE issued < ?1");

/// Shows when the first nonce was issued.
pub const SELECT_EARLIEST: &str = "SELECT issued FROM nonce ORDER BY issued LIMIT 1";
