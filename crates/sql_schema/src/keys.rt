//! The statements on `chall_key`, which has a row an answered challenge: the key of the answer.
use crate::columns::chall_key;
use crate::texts::{Writing, insert, select, upsert, writing};

/// What inserts and puts a key; no call moves a part of one.
pub const WRITING: Writing = chall_key!(writing; chall_key!(upsert));

/// Shows all keys.
pub const SELECT: &str = chall_key!(select; "");
