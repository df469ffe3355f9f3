//! What becomes of a request.

use crate::entry::{Move, Wanted};
use crate::jwk::Jwk;
use crate::refusal::Refusal;
use crate::reply::Subproblem;
use crate::sequence::{Sequence, Text};

/// Refused by the first test that fails, else what is recorded besides nonces; what the reply shows follows from it.
#[derive(Drop)]
pub enum Verdict {
    /// Nothing is recorded but nonces, one spent and one issued, where the request has one.
    Refused {
        /// Of the first test that failed.
        refusal: Refusal,
        /// One for each identifier that is refused, else none (RFC 8555, 6.7.1).
        subproblems: Sequence<Subproblem>,
    },
    /// Refused since this account has the key that is asked for, with its Location (RFC 8555, 7.3.5).
    KeyTaken(u64),
    /// The request reads, or says what is recorded already: nothing is recorded but nonces, and this is shown.
    Answers(Shows),
    /// An account is opened, with this key and these contacts, and shown with status 201 and its Location.
    Opens(Jwk, Sequence<Text>),
    /// An order of the account is made, for one to fifty different names, and shown with status 201 and its Location.
    Orders(u64, Sequence<Wanted>),
    /// Rows that are there move, and the one that is named is shown as it stands then.
    Moves(Move),
}

/// What the reply to a request shows that records nothing.
#[derive(Clone, Copy)]
pub enum Shows {
    /// The directory, or a list.
    List(Listing),
    /// An account, with status 200 and no Location.
    Account(u64),
    /// The account that a key has already, with its Location.
    KnownAccount(u64),
    /// An order, with status 200 and no Location.
    Order(u64),
    /// The certificate of an order.
    Certificate(u64),
    /// An authorization with its challenges (RFC 8555, 7.5).
    Authorization(u64),
    /// A challenge, shown to the validator.
    Challenge(u64),
    /// A challenge, shown to its client with a link to its authorization.
    ClientChallenge(u64),
    /// The key of an account.
    Key(u64),
}

/// What is shown of no single object.
#[derive(Clone, Copy)]
pub enum Listing {
    /// The URLs to begin with (RFC 8555, 7.1.1).
    Directory,
    /// The orders of an account (RFC 8555, 7.1.2.1).
    Orders(u64),
    /// What waits for the validator, with what it has to find.
    ChallengeWork,
    /// What waits for the signing office, with names and CSR.
    OrderWork,
}
