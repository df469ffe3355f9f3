//! The columns of the tables of a file, format 2: INTEGER is `i64`, TEXT is `Text`, BLOB is a `Sequence<u8>`, and `None` is NULL;
//! and the rows of a desk as these tables have them.
ghost use Rattle.std.specs.Prelude.{◌≡◌};
ghost use Rattle.store_columns.specs.Flat.{with_answer};

use desk_model::{
    AccountRow, Answer, AuthorizationRow, ChallengeRow, ChallengeStatus, Kind, Listed, Meta, Nonce,
    OrderRow, Report, Sequence, Text,
};

/// The format of the tables.
pub const FORMAT: i64 = 2;

/// The format before it, which has no table `chall_key`.
pub const FIRST_FORMAT: i64 = 1;

/// A row of the table `meta`, of which there is one. Counters are the last numbers given.
#[derive(Drop)]
pub struct MetaColumns {
    /// 1.
    pub id: i64,
    /// The format of the tables, `FORMAT`.
    pub format: i64,
    /// What each URL begins with.
    pub base: Text,
    /// How long a nonce is open, in seconds.
    pub nonce_life: i64,
    /// How long an order lives, in seconds.
    pub order_life: i64,
    /// How long an authorization lives, in seconds.
    pub authz_life: i64,
    /// The latest recorded moment, in seconds since 1970.
    pub clock: i64,
    /// The counter of nonces.
    pub nonces: i64,
    /// The counter of accounts.
    pub accounts: i64,
    /// The counter of orders.
    pub orders: i64,
    /// The counter of authorizations.
    pub authzs: i64,
    /// The counter of challenges.
    pub challs: i64,
}

/// A row of the table `nonce`.
#[derive(Drop)]
pub struct NonceColumns {
    /// The key.
    pub serial: i64,
    /// 16 bytes.
    pub random: Sequence<u8>,
    /// When it was issued, in seconds since 1970.
    pub issued: i64,
}

/// A row of the table `account`.
#[derive(Drop)]
pub struct AccountColumns {
    /// The key.
    pub num: i64,
    /// The canonical text of its key (RFC 7638, 3).
    pub jwk: Text,
    /// Its contacts, as a compact JSON list.
    pub contacts: Text,
    /// When it was opened, in seconds since 1970.
    pub opened: i64,
    /// When it ended, in seconds since 1970.
    pub ended: Option<i64>,
    /// How it ended.
    pub end_kind: Option<Text>,
    /// Its status (RFC 8555, 7.1.6).
    pub status: Text,
}

/// A row of the table `ord`.
#[derive(Drop)]
pub struct OrderColumns {
    /// The key.
    pub num: i64,
    /// The number of its account.
    pub account: i64,
    /// When it was made, in seconds since 1970.
    pub made: i64,
    /// The last moment of its life, in seconds since 1970.
    pub expires: i64,
    /// When it was finalized, in seconds since 1970.
    pub finalized: Option<i64>,
    /// The CSR, in DER.
    pub csr: Option<Sequence<u8>>,
    /// When its certificate was handed in, in seconds since 1970.
    pub certified: Option<i64>,
    /// The certificate, as it was handed in.
    pub cert: Option<Sequence<u8>>,
    /// When it failed, in seconds since 1970.
    pub failed: Option<i64>,
    /// Why it failed, as a compact JSON object of `detail` and `type`.
    pub problem: Option<Text>,
    /// Its status (RFC 8555, 7.1.6).
    pub status: Text,
}

/// What the list of an account's orders reads of a row of the table `ord`.
#[derive(Drop)]
pub struct OrderSummaryColumns {
    /// The key.
    pub num: i64,
    /// The number of its account.
    pub account: i64,
    /// When it was made, in seconds since 1970.
    pub made: i64,
    /// The last moment of its life, in seconds since 1970.
    pub expires: i64,
    /// Its status (RFC 8555, 7.1.6).
    pub status: Text,
}

/// A row of the table `authz`.
#[derive(Drop)]
pub struct AuthzColumns {
    /// The key.
    pub num: i64,
    /// The number of its account.
    pub account: i64,
    /// The name without a wildcard.
    pub name: Text,
    /// 1 for a wildcard, else 0.
    pub wildcard: i64,
    /// When it was made, in seconds since 1970.
    pub made: i64,
    /// The last moment of its life, in seconds since 1970.
    pub expires: i64,
    /// When it ended, in seconds since 1970.
    pub ended: Option<i64>,
    /// How it ended.
    pub end_kind: Option<Text>,
    /// Its status (RFC 8555, 7.1.6).
    pub status: Text,
}

/// A row of the table `ord_authz`, whose key is the first two columns.
#[derive(Clone, Copy)]
pub struct OrderAuthzColumns {
    /// The number of the order.
    pub ord: i64,
    /// From 1, in the order of its names.
    pub place: i64,
    /// The number of the authorization.
    pub authz: i64,
}

/// A row of the table `chall`.
#[derive(Drop)]
pub struct ChallColumns {
    /// The key.
    pub num: i64,
    /// The number of its authorization.
    pub authz: i64,
    /// Its type (RFC 8555, 8.3 and 8.4).
    pub kind: Text,
    /// 16 bytes.
    pub token: Sequence<u8>,
    /// When the client answered it, in seconds since 1970.
    pub answered: Option<i64>,
    /// When the validator reported on it, in seconds since 1970.
    pub reported: Option<i64>,
    /// What the report was.
    pub outcome: Option<Text>,
    /// Its status (RFC 8555, 7.1.6).
    pub status: Text,
}

/// A row of the table `chall_key`, one for each answered challenge.
#[derive(Drop)]
pub struct ChallKeyColumns {
    /// The key, the number of the challenge.
    pub chall: i64,
    /// The thumbprint of the key that its account had at the answer (RFC 7638, 3), 32 bytes.
    pub thumb: Sequence<u8>,
}

/// The rows of the eight tables, in any order.
#[derive(Drop)]
pub struct StoredRows {
    pub metas: Sequence<MetaColumns>,
    pub nonces: Sequence<NonceColumns>,
    pub accounts: Sequence<AccountColumns>,
    pub orders: Sequence<OrderColumns>,
    pub authzs: Sequence<AuthzColumns>,
    pub order_authzs: Sequence<OrderAuthzColumns>,
    pub challs: Sequence<ChallColumns>,
    pub chall_keys: Sequence<ChallKeyColumns>,
}

// ---- the rows of a desk, table by table

/// A row that belongs to another, and the number of that other row.
#[derive(Drop)]
pub struct Owned<T> {
    /// The number of the order or authorization that it belongs to.
    pub owner: u64,
    /// The row without that number.
    pub row: T,
}

/// A challenge as its table has it: when it was answered, and not under which key.
#[derive(Clone, Copy)]
pub struct BareChallenge {
    /// The key of the table, from 1, over all authorizations.
    pub number: u64,
    /// What the validator has to look at.
    pub kind: Kind,
    /// Random bytes.
    pub token: [u8; 16],
    /// When its client said that it may be tried.
    pub answered: Option<u64>,
    /// What the validator found, and when.
    pub reported: Option<Report>,
    /// The stored status.
    pub status: ChallengeStatus,
}

impl BareChallenge {
    /// The challenge with this answer.
    pub fn with_answer(&self, answered: Option<Answer>) -> ChallengeRow
        ensures { result ≡ with_answer self.now answered }
    {
        let token = self.token;
        ChallengeRow {
            number: self.number,
            kind: self.kind,
            token,
            answered,
            reported: self.reported,
            status: self.status,
        }
    }
}

/// The key under which a challenge was answered.
#[derive(Clone, Copy)]
pub struct AnswerKey {
    /// The number of the challenge.
    pub challenge: u64,
    /// The thumbprint of the key that its account had then (RFC 7638, 3).
    pub thumb: [u8; 32],
}

/// A challenge beside its authorization, which has no challenges here.
#[derive(Drop)]
pub struct JoinedChallenge {
    /// The authorization, without its challenges.
    pub authorization: AuthorizationRow,
    /// One of its challenges.
    pub challenge: ChallengeRow,
}

/// The rows of each table, in any order.
#[derive(Drop)]
pub struct FlatRows {
    /// The desk's own row; that there is one is not asked here.
    pub metas: Sequence<Meta>,
    /// The nonces that are neither spent nor removed by a sweep.
    pub nonces: Sequence<Nonce>,
    /// The accounts, whole.
    pub accounts: Sequence<AccountRow>,
    /// The orders, which list nothing here.
    pub orders: Sequence<OrderRow>,
    /// The authorizations, which have no challenges here.
    pub authorizations: Sequence<AuthorizationRow>,
    /// The authorizations that orders list.
    pub listed: Sequence<Owned<Listed>>,
    /// The challenges of authorizations, without the keys of their answers.
    pub challenges: Sequence<Owned<BareChallenge>>,
    /// The keys of answers.
    pub keys: Sequence<AnswerKey>,
}
