//! What a history makes, as it was made.

use crate::dns_name::DnsName;
use crate::entry::{Ending, Outcome};
use crate::jwk::Jwk;
use crate::sequence::{Sequence, Text};
use crate::status::{EndKind, Kind};

/// A nonce: its serial, its random bytes and when it was issued (RFC 8555, 6.5).
#[derive(Clone, Copy)]
pub struct Nonce {
    /// Its place among all nonces of the desk, from 1.
    pub serial: u64,
    /// Random bytes, which its text spells behind the serial.
    pub random: [u8; 16],
    /// When, in seconds since 1970-01-01T00:00:00Z; its life counts from here.
    pub issued: u64,
}

/// An account as it was opened (RFC 8555, 7.1.2).
#[derive(Drop)]
pub struct Account {
    /// Its place among all accounts of the desk, from 1, which its URL ends in.
    pub number: u64,
    /// The key that it was opened with; it may get another (RFC 8555, 7.3.5).
    pub key: Jwk,
    /// The URLs that it was opened with, as received.
    pub contacts: Sequence<Text>,
    /// When, in seconds since 1970-01-01T00:00:00Z.
    pub opened: u64,
}

/// An order as it was made (RFC 8555, 7.1.3).
#[derive(Drop)]
pub struct Order {
    /// Its place among all orders of the desk, from 1, which its URL ends in.
    pub number: u64,
    /// The number of the account that may read it.
    pub account: u64,
    /// When, in seconds since 1970-01-01T00:00:00Z.
    pub made: u64,
    /// The last moment at which it may go on, in seconds since 1970-01-01T00:00:00Z: `made` plus the life of orders.
    pub expires: u64,
    /// The numbers of its authorizations, one for each name that it asks for, in the order of these; an authorization may be
    /// listed by several orders.
    pub authorizations: Sequence<u64>,
}

/// An authorization as it was made, with its challenges (RFC 8555, 7.1.4).
#[derive(Drop)]
pub struct Authorization {
    /// Its place among all authorizations of the desk, from 1, which its URL ends in.
    pub number: u64,
    /// The number of the account that ordered it.
    pub account: u64,
    /// What it lets its account order a certificate for.
    pub name: DnsName,
    /// When its order was made, in seconds since 1970-01-01T00:00:00Z.
    pub made: u64,
    /// The last moment at which it may be pending or valid, in seconds since 1970-01-01T00:00:00Z.
    pub expires: u64,
    /// dns-01 alone for a wildcard name; else http-01, then dns-01.
    pub challenges: Sequence<Challenge>,
}

/// A challenge as it was made (RFC 8555, 7.1.5).
#[derive(Drop)]
pub struct Challenge {
    /// Its place among all challenges of the desk, from 1, which its URL ends in.
    pub number: u64,
    /// What the validator has to look at.
    pub kind: Kind,
    /// Random bytes, which its document shows in base64url (RFC 8555, 8.1).
    pub token: [u8; 16],
}

/// When a challenge was answered, and under which key.
#[derive(Clone, Copy)]
pub struct Answer {
    /// When it was recorded, in seconds since 1970-01-01T00:00:00Z.
    pub date: u64,
    /// The thumbprint of the key that the account had then (RFC 7638, 3), which the validator has to find (RFC 8555, 8.1).
    pub thumb: [u8; 32],
}

/// When a challenge was reported, and what the report showed.
#[derive(Clone, Copy)]
pub struct Report {
    /// When it was recorded, in seconds since 1970-01-01T00:00:00Z.
    pub date: u64,
    /// What it showed; a good one alone makes the challenge valid.
    pub outcome: Outcome,
}

/// When and how an account ended.
#[derive(Clone, Copy)]
pub struct AccountEnd {
    /// When it was recorded, in seconds since 1970-01-01T00:00:00Z.
    pub date: u64,
    /// Who ended it, which is its status from then on.
    pub ending: Ending,
}

/// When and how an authorization ended.
#[derive(Clone, Copy)]
pub struct AuthorizationEnd {
    /// When it was recorded, in seconds since 1970-01-01T00:00:00Z, and not past `expires`: a later end does not count.
    pub date: u64,
    /// Its status from then on.
    pub kind: EndKind,
}
