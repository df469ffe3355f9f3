//! The rows of a desk's tables, and changes of them.
ghost use Rattle.std.specs.Prelude.{◌≡◌, ◌<◌, ◌≤◌, MatchOption, max};
ghost use Rattle.desk_model.specs.Document.{answer_thumb};
ghost use Rattle.desk_model.specs.Limits.{last_moment};

use crate::call::OrderProblem;
use crate::dns_name::DnsName;
use crate::jwk::Jwk;
use crate::limits::LAST_MOMENT;
use crate::objects::{AccountEnd, Answer, AuthorizationEnd, Nonce, Report};
use crate::policy::Policy;
use crate::sequence::{Sequence, Text};
use crate::status::{AccountStatus, AuthzStatus, ChallengeStatus, Kind, OrderStatus};
use std::alloc::AllocError;
use std::marker::Model;

/// What calls move of a desk's own row: its clock, and the last number given of each kind.
#[derive(Clone, Copy)]
pub struct Counters {
    /// The latest recorded moment.
    pub clock: Clock,
    /// How many nonces were issued, which is the last serial, 2^62 at most.
    pub nonces: u64,
    /// How many accounts were opened, 2^62 at most.
    pub accounts: u64,
    /// How many orders were made, 2^62 at most.
    pub orders: u64,
    /// How many authorizations were made, 2^62 at most.
    pub authorizations: u64,
    /// How many challenges were made, 2^62 at most.
    pub challenges: u64,
}

/// The one row of a desk's own.
#[derive(Drop)]
pub struct Meta {
    /// What the operator fixed when the desk was made; no call changes it.
    pub policy: Policy,
    /// As the last call that recorded something left them.
    pub counters: Counters,
}

impl Clone for Meta {
    ghost is_clone = { λ row copy. copy ≡ row };

    fn clone(&self) -> Result<Meta, AllocError> {
        Ok(Meta {
            policy: self.policy.clone()?,
            counters: self.counters,
        })
    }
}

/// An account as it stands (RFC 8555, 7.1.2).
#[derive(Drop)]
pub struct AccountRow {
    /// The key of the table, from 1.
    pub number: u64,
    /// What its requests are known by now; no other row has it.
    pub key: Jwk,
    /// Its URLs, as received when it was opened or last changed.
    pub contacts: Sequence<Text>,
    /// When, in seconds since 1970-01-01T00:00:00Z.
    pub opened: u64,
    /// When and how it ended, `None` as long as it has not.
    pub ended: Option<AccountEnd>,
    /// The stored status: valid, or how it ended.
    pub status: AccountStatus,
}

impl Clone for AccountRow {
    ghost is_clone = { λ row copy. copy ≡ row };

    fn clone(&self) -> Result<AccountRow, AllocError> {
        Ok(AccountRow {
            number: self.number,
            key: self.key.clone()?,
            contacts: self.contacts.clone()?,
            opened: self.opened,
            ended: self.ended,
            status: self.status,
        })
    }
}

/// A challenge as it stands, within its authorization (RFC 8555, 7.1.5, 8).
#[derive(Clone, Copy)]
pub struct ChallengeRow {
    /// The key of the table, from 1, over all authorizations.
    pub number: u64,
    /// What the validator has to look at.
    pub kind: Kind,
    /// Random bytes, which its document shows in base64url (RFC 8555, 8.1).
    pub token: [u8; 16],
    /// When its client said that it may be tried, and under which key; the file keeps the key's thumbprint in a table of its own.
    pub answered: Option<Answer>,
    /// What the validator found, and when.
    pub reported: Option<Report>,
    /// The stored status, which no passing of time moves.
    pub status: ChallengeStatus,
}

impl ChallengeRow {
    /// The thumbprint of the key under which it was answered, empty where it was not (RFC 8555, 8.1).
    pub fn answer_thumb(&self) -> &[u8]
        ensures { result.now ≡ answer_thumb self.now.answered }
    {
        match &self.answered {
            Some(answer) => &answer.thumb,
            None => &[],
        }
    }
}

/// An authorization with its challenges.
#[derive(Drop)]
pub struct AuthorizationRow {
    /// The key of the table, from 1.
    pub number: u64,
    /// The number of its account, whose row the file refers to.
    pub account: u64,
    /// The base name and the mark of a wildcard, a column each.
    pub name: DnsName,
    /// When its order was made, in seconds since 1970-01-01T00:00:00Z.
    pub made: u64,
    /// The last moment at which it may be pending or valid, in seconds since 1970-01-01T00:00:00Z.
    pub expires: u64,
    /// The first end that counts, `None` as long as there is none.
    pub ended: Option<AuthorizationEnd>,
    /// Its challenges by number, in a table of their own in the file.
    pub challenges: Sequence<ChallengeRow>,
    /// The stored status, as of the clock of `Counters`: the sweep moves it later.
    pub status: AuthzStatus,
}

impl Clone for AuthorizationRow {
    ghost is_clone = { λ row copy. copy ≡ row };

    fn clone(&self) -> Result<AuthorizationRow, AllocError> {
        Ok(AuthorizationRow {
            number: self.number,
            account: self.account,
            name: self.name.clone()?,
            made: self.made,
            expires: self.expires,
            ended: self.ended,
            challenges: self.challenges.clone()?,
            status: self.status,
        })
    }
}

/// The place of an authorization in its order, from 1, and its number.
#[derive(Clone, Copy)]
pub struct Listed {
    /// 1 for the first name of the order; no two of an order are equal.
    pub place: u64,
    /// The number of the authorization that stands there.
    pub authorization: u64,
}

/// When bytes were handed in, and the bytes: a CSR or a certificate.
#[derive(Drop)]
pub struct DatedBytes {
    /// When it was recorded, in seconds since 1970-01-01T00:00:00Z.
    pub date: u64,
    /// The bytes as received, which nobody reads here.
    pub bytes: Sequence<u8>,
}

/// When the signing office failed an order, and why.
#[derive(Drop)]
pub struct DatedProblem {
    /// When it was recorded, in seconds since 1970-01-01T00:00:00Z.
    pub date: u64,
    /// What its order shows as `error` (RFC 8555, 7.1.3).
    pub problem: OrderProblem,
}

impl Clone for DatedBytes {
    ghost is_clone = { λ row copy. copy ≡ row };

    fn clone(&self) -> Result<DatedBytes, AllocError> {
        Ok(DatedBytes {
            date: self.date,
            bytes: self.bytes.clone()?,
        })
    }
}

impl Clone for DatedProblem {
    ghost is_clone = { λ row copy. copy ≡ row };

    fn clone(&self) -> Result<DatedProblem, AllocError> {
        Ok(DatedProblem {
            date: self.date,
            problem: self.problem.clone()?,
        })
    }
}

/// An order with the authorizations that it lists.
#[derive(Drop)]
pub struct OrderRow {
    /// The key of the table, from 1.
    pub number: u64,
    /// The number of its account, whose row the file refers to.
    pub account: u64,
    /// When, in seconds since 1970-01-01T00:00:00Z.
    pub made: u64,
    /// The last moment at which it may go on, in seconds since 1970-01-01T00:00:00Z.
    pub expires: u64,
    /// Its authorizations by place, in a table of their own in the file.
    pub listed: Sequence<Listed>,
    /// The CSR, 1 to 8192 bytes (RFC 8555, 7.4).
    pub finalized: Option<DatedBytes>,
    /// The certificate, 1 to 65536 bytes (RFC 8555, 7.4.2).
    pub certified: Option<DatedBytes>,
    /// Why the signing office gave it up.
    pub failed: Option<DatedProblem>,
    /// The stored status, as of the clock of `Counters`: the sweep moves it later.
    pub status: OrderStatus,
}

impl Clone for OrderRow {
    ghost is_clone = { λ row copy. copy ≡ row };

    fn clone(&self) -> Result<OrderRow, AllocError> {
        Ok(OrderRow {
            number: self.number,
            account: self.account,
            made: self.made,
            expires: self.expires,
            listed: self.listed.clone()?,
            finalized: self.finalized.clone()?,
            certified: self.certified.clone()?,
            failed: self.failed.clone()?,
            status: self.status,
        })
    }
}

/// A row put in the place of the one with its number, or the row of a nonce removed.
#[derive(Drop)]
pub enum Change {
    /// The desk's own row, once a call: its counters are those after all entries, its policy stays.
    PutMeta(Meta),
    /// A nonce that was just issued.
    PutNonce(Nonce),
    /// The nonce of this serial is spent or past its life.
    RemoveNonce(u64),
    /// An account that was opened or changed.
    PutAccount(AccountRow),
    /// An authorization with its challenges, which have the numbers of those in the row that it replaces.
    PutAuthorization(AuthorizationRow),
    /// An order with what it lists, which has the places of the row that it replaces.
    PutOrder(OrderRow),
}

/// A row whose stored status is not the one that its columns give.
#[derive(Clone, Copy)]
pub enum StatusFault {
    /// In the table of accounts.
    Account {
        /// The number of the row.
        number: u64,
        /// The status that it has.
        stored: AccountStatus,
        /// The status that its other columns give at the moment of the check.
        derived: AccountStatus,
    },
    /// In the table of orders.
    Order {
        /// The number of the row.
        number: u64,
        /// The status that it has.
        stored: OrderStatus,
        /// The status that its other columns give at the moment of the check.
        derived: OrderStatus,
    },
    /// In the table of authorizations.
    Authz {
        /// The number of the row.
        number: u64,
        /// The status that it has.
        stored: AuthzStatus,
        /// The status that its other columns give at the moment of the check.
        derived: AuthzStatus,
    },
    /// In the table of challenges, by its number over all authorizations.
    Chall {
        /// The number of the row.
        number: u64,
        /// The status that it has.
        stored: ChallengeStatus,
        /// The status that its other columns give at the moment of the check.
        derived: ChallengeStatus,
    },
}

// ---- the clock: the latest moment at which something was recorded

/// A moment in seconds since 1970, not past the last one; contracts see the number.
#[derive(Clone, Copy)]
pub struct Clock {
    moment: u64,
}

impl Model for Clock {
    ghost use Rattle.std.specs.Prelude.{ℕ, ◌≤◌};
    ghost use Rattle.desk_model.specs.Limits.{last_moment};

    ghost Value = { ℕ };

    ghost view = { λ c. c.moment };

    ghost invariant = { λ c. c.moment ≤ last_moment };

    ghost inverse = { λ moment. record { moment = moment } };
}

impl Clock {
    /// The clock at a moment, or `None` where that is past the last one.
    pub fn new(moment: u64) -> Option<Clock>
        ensures { MatchOption result (last_moment < moment) (λ clock. (clock ≡ moment) × (moment ≤ last_moment)) }
    {
        if moment > LAST_MOMENT {
            return None;
        }
        Some(Clock { moment })
    }

    /// The clock at a moment that is not past the last one.
    pub fn at(moment: u64) -> Clock
        requires { moment ≤ last_moment }
        ensures { result ≡ moment }
    {
        Clock { moment }
    }

    /// The moment, in seconds since 1970.
    pub fn moment(self) -> u64
        ensures same { result ≡ self }
        ensures in_time { result ≤ last_moment }
    {
        self.moment
    }

    /// The moment, in seconds since 1970, of a call that is made at `at`: never before the last call's.
    pub fn moment_of(self, at: u64) -> u64
        ensures later { result ≡ max at self }
        ensures in_time { at ≤ last_moment → result ≤ last_moment }
    {
        at.max(self.moment)
    }
}
