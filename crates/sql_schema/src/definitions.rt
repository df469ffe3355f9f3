//! The statements that make the tables and indexes of format 2, in their order.
use crate::columns::{account, authz, chall, chall_key, meta, nonce, ord};
use crate::texts::create;

/// First those of format 1, tables before those that refer to them; what format 2 adds is made last, as it is where there is format 1.
pub const DEFINITIONS: [&str; 16] = [
    meta!(create),
    nonce!(create),
    account!(create),
    ord!(create),
    authz!(create),
    "CREATE TABLE ord_authz (ord INTEGER NOT NULL REFERENCES ord (num), place INTEGER NOT NULL, authz INTEGER NOT NULL REFERENCES authz (num), PRIMARY KEY (ord, place)) STRICT",
    chall!(create),
    // by the moment at which a nonce was issued
    "CREATE INDEX nonce_issued ON nonce (issued)",
    // the orders of an account, and those of a status that are past their end
    "CREATE INDEX ord_account ON ord (account)",
    "CREATE INDEX ord_status_expires ON ord (status, expires)",
    // the authorizations of an account, by name, and those of a status that are past their end
    "CREATE INDEX authz_account_name ON authz (account, name)",
    "CREATE INDEX authz_status_expires ON authz (status, expires)",
    // the orders that list an authorization
    "CREATE INDEX ord_authz_authz ON ord_authz (authz)",
    // the challenges of an authorization, and those of a status
    "CREATE INDEX chall_authz ON chall (authz)",
    "CREATE INDEX chall_status ON chall (status)",
    chall_key!(create),
];
