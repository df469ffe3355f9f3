//! What the payloads of signed requests say.

use crate::jwk::Jwk;
use crate::sequence::{Sequence, Text};

/// A newAccount payload (RFC 8555, 7.3).
#[derive(Drop)]
pub struct NewAccount {
    /// The member `contact` as received, empty where it is left out.
    pub contacts: Sequence<Text>,
    /// Whether only an account that the key has already is asked for (RFC 8555, 7.3.1).
    pub only_existing: bool,
}

/// What a request to an account asks (RFC 8555, 7.3.2, 7.3.6).
#[derive(Drop)]
pub enum AccountChange {
    /// Nothing but its document: the payload is empty.
    Read,
    /// Its end: `status` is `deactivated`, and the other members do not count (RFC 8555, 7.3.6).
    Deactivate,
    /// Its contacts are replaced, if others are given.
    Update(Option<Sequence<Text>>),
}

/// A keyChange payload, as the front hands it in once it checked both signatures (RFC 8555, 7.3.5).
#[derive(Drop)]
pub struct KeyChange {
    /// The URL of the account, as received.
    pub account: Text,
    /// The key that it is to get, `None` where it is of no kind that the desk accepts.
    pub new_key: Option<Jwk>,
    /// The key that it has, `None` where it is of no kind that the desk accepts.
    pub old_key: Option<Jwk>,
}

/// What a request to an authorization asks (RFC 8555, 7.5, 7.5.2).
#[derive(Clone, Copy)]
pub enum AuthorizationChange {
    /// Nothing but its document: the payload is empty.
    Read,
    /// Its end: `status` is `deactivated` (RFC 8555, 7.5.2).
    Deactivate,
}

/// What a request to a challenge asks (RFC 8555, 7.5.1).
#[derive(Clone, Copy)]
pub enum ChallengeChange {
    /// Nothing but its document: the payload is empty.
    Read,
    /// That it be tried: the payload is an object (RFC 8555, 7.5.1).
    Answer,
}

/// The type of the identifiers that are names (RFC 8555, 9.7.7).
pub const DNS: &str = "dns";

/// An identifier as an order gives it (RFC 8555, 7.4).
#[derive(Drop)]
pub struct Identifier {
    /// The member `type`, of which `DNS` alone is accepted.
    pub kind: Text,
    /// The name as received, before IDNA.
    pub value: Text,
}
