//! The dated facts of a desk, and what moves rows that are there.
ghost use Rattle.std.specs.Prelude.{◌≡◌};
ghost use Rattle.desk_model.specs.Authorization.{is_good, kind_of};
ghost use Rattle.desk_model.specs.Document.{outcome_detail, outcome_status};
ghost use Rattle.desk_model.specs.Facts.{ending_text, outcome_text};
ghost use Rattle.desk_model.specs.{Legal.wanted_name, Lookup.IsValueOf};

use crate::call::OrderProblem;
use crate::dns_name::DnsName;
use crate::jwk::Jwk;
use crate::policy::Policy;
use crate::sequence::{Sequence, Text};
use crate::status::EndKind;

/// How an account ends, and how a client or the operator ends an authorization.
#[derive(Clone, Copy)]
pub enum Ending {
    /// By the client, who owns it (RFC 8555, 7.3.6, 7.5.2).
    Deactivated,
    /// By the operator (RFC 8555, 7.1.6).
    Revoked,
}

impl Ending {
    /// The end of an account as the columns of a file keep it.
    pub fn as_str(self) -> &'static str
        ensures { result.now ≡ ending_text self }
    {
        match self {
            Ending::Deactivated => "deactivated",
            Ending::Revoked => "revoked",
        }
    }

    /// The end of an account that a text in columns spells (RFC 8555, 7.1.6), or `None` where it spells none.
    pub fn from_text(text: &str) -> Option<Ending>
        ensures { IsValueOf ending_text text.now result }
    {
        match text {
            "deactivated" => Some(Ending::Deactivated),
            "revoked" => Some(Ending::Revoked),
            _ => None,
        }
    }

    /// How it ends an authorization, its own or each of an account that ends.
    pub fn kind(self) -> EndKind
        ensures { result ≡ kind_of self }
    {
        match self {
            Ending::Deactivated => EndKind::Deactivated,
            Ending::Revoked => EndKind::Revoked,
        }
    }
}

/// What a validation showed.
#[derive(Clone, Copy, PartialEq, Eq)]
pub enum Outcome {
    /// What was found is what was expected; the authorization may become valid.
    Good,
    /// Something else was found (RFC 8555, 6.7, `incorrectResponse`).
    IncorrectResponse,
    /// The server of the name was not reached (RFC 8555, 6.7, `connection`).
    Connection,
    /// The name was not looked up (RFC 8555, 6.7, `dns`).
    Dns,
}

impl Outcome {
    /// The outcome of a report as the columns of a file keep it.
    pub fn as_str(self) -> &'static str
        ensures { result.now ≡ outcome_text self }
    {
        match self {
            Outcome::Good => "good",
            Outcome::IncorrectResponse => "incorrectResponse",
            Outcome::Connection => "connection",
            Outcome::Dns => "dns",
        }
    }

    /// The outcome of a report that a text in columns spells (RFC 8555, 6.7), or `None` where it spells none.
    pub fn from_text(text: &str) -> Option<Outcome>
        ensures { IsValueOf outcome_text text.now result }
    {
        match text {
            "good" => Some(Outcome::Good),
            "incorrectResponse" => Some(Outcome::IncorrectResponse),
            "connection" => Some(Outcome::Connection),
            "dns" => Some(Outcome::Dns),
            _ => None,
        }
    }

    /// The text for people of the error that its challenge shows; empty for a good one, which shows none.
    pub fn detail(self) -> &'static str
        ensures { result.now ≡ outcome_detail self }
    {
        match self {
            Outcome::Good => "",
            Outcome::IncorrectResponse => "the response did not match",
            Outcome::Connection => "the validator could not connect",
            Outcome::Dns => "the validator found no records",
        }
    }

    /// The HTTP status of that error (RFC 8555, 6.7, 8).
    pub fn status(self) -> u16
        ensures { result ≡ outcome_status self }
    {
        match self {
            Outcome::Good => 200,
            Outcome::IncorrectResponse => 403,
            Outcome::Connection => 400,
            Outcome::Dns => 400,
        }
    }

    /// Whether it makes the challenge valid (RFC 8555, 7.1.6).
    pub fn is_good(self) -> bool
        ensures { result ≡ is_good self }
    {
        matches!(self, Outcome::Good)
    }
}

/// A name of an order, and the authorization that it gets (RFC 8555, 7.4).
#[derive(Drop)]
pub enum Wanted {
    /// An authorization is made for the name.
    New {
        /// The name as its canonical text has it.
        name: DnsName,
        /// 16 random bytes for each challenge, in the order of their making (RFC 8555, 8).
        tokens: Sequence<[u8; 16]>,
    },
    /// An authorization of the account that is there and valid is used again; no challenge is made.
    Reused {
        /// The name, which is the authorization's.
        name: DnsName,
        /// The number of the authorization.
        authorization: u64,
    },
}

impl Wanted {
    /// The name, whichever authorization it gets.
    pub fn name(&self) -> &DnsName
        ensures { result.now ≡ wanted_name self.now }
    {
        match self {
            Wanted::New { name, tokens: _ } => name,
            Wanted::Reused {
                name,
                authorization: _,
            } => name,
        }
    }
}

/// A fact. Accounts, orders, authorizations, challenges and nonces are named by their numbers.
#[derive(Drop)]
pub enum Entry {
    /// The desk was made, under this policy: the first entry, and no later one.
    Made(Policy),
    /// A nonce was issued, of these random bytes and the next serial (RFC 8555, 6.5).
    Issued([u8; 16]),
    /// The nonce of this serial was used by a signed request, and is not accepted again.
    Spent(u64),
    /// An account was opened, with this key and these contacts (RFC 8555, 7.3).
    Opened(Jwk, Sequence<Text>),
    /// The account got these contacts in the place of those that it had (RFC 8555, 7.3.2).
    ContactsChanged(u64, Sequence<Text>),
    /// The account got this key in the place of the one that it had, which is free then (RFC 8555, 7.3.5).
    KeyChanged(u64, Jwk),
    /// The account ended, and each authorization of it that was pending or valid with it.
    AccountEnded(u64, Ending),
    /// An order of the account was made, for one to fifty different names (RFC 8555, 7.4).
    Ordered(u64, Sequence<Wanted>),
    /// The client said that the challenge may be tried (RFC 8555, 7.5.1).
    Answered(u64),
    /// The validator tried the challenge, once and for all (RFC 8555, 8).
    Reported(u64, Outcome),
    /// The authorization was ended by its client or the operator.
    AuthorizationEnded(u64, Ending),
    /// The order got its CSR, 1 to 8192 bytes, which nobody read here (RFC 8555, 7.4).
    Finalized(u64, Sequence<u8>),
    /// The signing office made the certificate of the order, 1 to 65536 bytes (RFC 8555, 7.4.2).
    Certified(u64, Sequence<u8>),
    /// The signing office gave the order up, for this reason (RFC 8555, 7.1.3, `error`).
    Failed(u64, OrderProblem),
}

/// An entry with the moment at which it was recorded, in seconds since 1970.
#[derive(Drop)]
pub struct Dated {
    /// The moment that its call acted at: dates never fall in a history.
    pub date: u64,
    /// What was recorded.
    pub entry: Entry,
}

// ---- moves

/// What a request does to rows that are there: each is recorded as the entry of the same name.
#[derive(Drop)]
pub enum Move {
    /// The account gets these contacts in the place of those that it has (RFC 8555, 7.3.2).
    ContactsChanged(u64, Sequence<Text>),
    /// The account gets this key in the place of the one that it has (RFC 8555, 7.3.5).
    KeyChanged(u64, Jwk),
    /// The account ends, and each authorization of it that is pending or valid with it (RFC 8555, 7.3.6).
    AccountEnded(u64, Ending),
    /// The client says that the challenge may be tried (RFC 8555, 7.5.1).
    Answered(u64),
    /// The validator tried the challenge, once and for all (RFC 8555, 8).
    Reported(u64, Outcome),
    /// The authorization is ended by its client or the operator (RFC 8555, 7.5.2).
    AuthorizationEnded(u64, Ending),
    /// The order gets its CSR (RFC 8555, 7.4).
    Finalized(u64, Sequence<u8>),
    /// The order gets its certificate (RFC 8555, 7.4.2).
    Certified(u64, Sequence<u8>),
    /// The signing office gives the order up, for this reason (RFC 8555, 7.1.3, `error`).
    Failed(u64, OrderProblem),
}
