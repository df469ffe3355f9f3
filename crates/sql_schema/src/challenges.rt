//! The statements on `chall`, which has a row a challenge.
use crate::columns::chall;
use crate::texts::{Writing, insert, select, upsert, writing};

/// What inserts, puts and renews a challenge.
pub const WRITING: Writing = chall!(
    writing;
    "UPDATE chall SET answered = ?2, reported = ?3, outcome = ?4, status = ?5 WHERE num = ?1"
);

/// Shows all challenges.
pub const SELECT: &str = chall!(select; "");

/// Shows the challenges of a status, each beside its authorization, and beside the key of its answer, where it has one.
pub const SELECT_JOINED: &str = concat!(
    "SELECT chall.num, chall.authz, chall.kind, chall.token, chall.answered, chall.reported, chall.outcome, chall.status, ",
    "authz.num, authz.account, authz.name, authz.wildcard, authz.made, authz.expires, authz.ended, authz.end_kind, authz.status, ",
    "chall_key.chall, chall_key.thumb FROM chall JOIN authz ON authz.num = chall.authz ",
    "LEFT JOIN chall_key ON chall_key.chall = chall.num WHERE chall.status = ?1 ORDER BY chall.num"
);

/// Shows the challenges of the authorization that has the challenge of a number, each beside it, and beside the key of its answer.
pub const SELECT_BESIDE: &str = concat!(
    "SELECT chall.num, chall.authz, chall.kind, chall.token, chall.answered, chall.reported, chall.outcome, chall.status, ",
    "authz.num, authz.account, authz.name, authz.wildcard, authz.made, authz.expires, authz.ended, authz.end_kind, authz.status, ",
    "chall_key.chall, chall_key.thumb FROM chall AS asked JOIN authz ON authz.num = asked.authz JOIN chall ON chall.authz = authz.num ",
    "LEFT JOIN chall_key ON chall_key.chall = chall.num WHERE asked.num = ?1 ORDER BY chall.num"
);

/// Shows the challenges of an authorization, each beside the key of its answer, where it has one.
pub const SELECT_OF: &str = concat!(
    "SELECT chall.num, chall.authz, chall.kind, chall.token, chall.answered, chall.reported, chall.outcome, chall.status, ",
    "chall_key.chall, chall_key.thumb FROM chall ",
    "LEFT JOIN chall_key ON chall_key.chall = chall.num WHERE chall.authz = ?1 ORDER BY chall.num"
);

/// Shows the first challenge above a number, beside the key of its answer, where it has one.
pub const SELECT_ABOVE: &str = concat!(
    "SELECT chall.num, chall.authz, chall.kind, chall.token, chall.answered, chall.reported, chall.outcome, chall.status, ",
    "chall_key.chall, chall_key.thumb FROM chall ",
    "LEFT JOIN chall_key ON chall_key.chall = chall.num WHERE chall.num > ?1 ORDER BY chall.num LIMIT 1"
);
