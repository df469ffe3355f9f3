//! The statements on `ord`, which has a row an order; what it lists stands in `ord_authz`.
use crate::columns::ord;
use crate::texts::{Writing, insert, select, upsert, writing};

/// What inserts, puts and renews an order.
pub const WRITING: Writing = ord!(
    writing;
    "UPDATE ord SET finalized = ?2, csr = ?3, certified = ?4, cert = ?5, failed = ?6, problem = ?7, status = ?8 WHERE num = ?1"
);

/// Shows all orders.
pub const SELECT: &str = ord!(select; "");

/// Shows the orders of a number.
pub const SELECT_NUMBERED: &str = ord!(select; " WHERE num = ?1");

/// Shows the summaries of the orders of an account: what they were made with, and their statuses.
pub const SELECT_SUMMARIES_OF: &str =
    "SELECT num, account, made, expires, status FROM ord WHERE account = ?1 ORDER BY num";

/// Shows the orders of a status that expire before a moment.
pub const SELECT_PAST: &str = ord!(select; " WHERE status = ?1 AND expires < ?2");

/// Shows the orders of a status.
pub const SELECT_WITH_STATUS: &str = ord!(select; " WHERE status = ?1");

/// Shows the order of each place that lists an authorization, by order and place.
pub const SELECT_LISTING: &str = concat!(
    "SELECT ord.num, ord.account, ord.made, ord.expires, ord.finalized, ord.csr, ord.certified, ord.cert, ord.failed, ord.problem, ord.status ",
    "FROM ord_authz JOIN ord ON ord.num = ord_authz.ord WHERE ord_authz.authz = ?1 ORDER BY ord_authz.ord, ord_authz.place"
);

/// Shows the first order above a number.
pub const SELECT_ABOVE: &str = ord!(select; " WHERE num > ?1"; " LIMIT 1");

/// Shows when the first order of a status ends.
pub const SELECT_EARLIEST: &str =
    "SELECT expires FROM ord WHERE status = ?1 ORDER BY expires LIMIT 1";
