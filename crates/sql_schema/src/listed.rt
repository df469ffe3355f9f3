//! The statements on `ord_authz`, which has a row an authorization that an order lists, by its place.
use crate::texts::Writing;

// Shows the rows that a test leaves, by order and place.
macro_rules! select {
    ($test:literal) => {
        concat!("SELECT ord, place, authz FROM ord_authz", $test, " ORDER BY ord, place")
    };
}

/// What inserts and puts what an order lists at a place; no call moves a part of it.
pub const WRITING: Writing = (INSERT, UPSERT, UPSERT);

// Inserts what an order lists at a place.
const INSERT: &str = "INSERT INTO ord_authz (ord, place, authz) VALUES (?1, ?2, ?3)";

// Puts what an order lists at a place.
const UPSERT: &str =
    "INSERT INTO ord_authz (ord, place, authz) VALUES (?1, ?2, ?3) ON CONFLICT (ord, place) DO UPDATE SET authz = excluded.authz";

/// Shows what all orders list.
pub const SELECT: &str = select!("");

/// Shows what an order lists.
pub const SELECT_OF: &str = select!(" WHERE ord = ?1");

/// Shows what the orders of a status list, each place beside its authorization.
pub const SELECT_JOINED: &str = concat!(
    "SELECT ord_authz.ord, ord_authz.place, ord_authz.authz, ",
    "authz.num, authz.account, authz.name, authz.wildcard, authz.made, authz.expires, authz.ended, authz.end_kind, authz.status ",
    "FROM ord JOIN ord_authz ON ord_authz.ord = ord.num JOIN authz ON authz.num = ord_authz.authz ",
    "WHERE ord.status = ?1 ORDER BY ord_authz.ord, ord_authz.place"
);
