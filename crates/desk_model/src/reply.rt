//! What the desk answers.

use crate::refusal::Refusal;
use crate::sequence::{Document, Sequence, Text};

/// A reply: an HTTP status, the fields that some replies carry, and a body.
#[derive(Drop)]
pub struct Reply {
    /// The HTTP status (RFC 9110, 15).
    pub status: u16,
    /// The URL of the object that was made or found.
    pub location: Option<Text>,
    /// The URL of a challenge's authorization (RFC 8555, 7.5.1).
    pub up: Option<Text>,
    /// The fresh nonce (RFC 8555, 6.5).
    pub nonce: Option<Text>,
    /// What stands behind the fields.
    pub body: Body,
}

/// The body of a reply, whose media type follows from its kind.
#[derive(Drop)]
pub enum Body {
    /// No byte.
    Empty,
    /// The document of an object or a list (application/json).
    Json(Document),
    /// Why the request was refused (application/problem+json, RFC 7807).
    Problem(Problem),
    /// The bytes that the signing office handed in (application/pem-certificate-chain, RFC 8555, 7.4.2).
    Certificate(Sequence<u8>),
}

/// A refusal (RFC 8555, 6.7), with what its text needs of the request.
#[derive(Drop)]
pub struct Problem {
    /// What the status, the error type and the text are those of.
    pub refusal: Refusal,
    /// The identifiers that were refused, where the refusal is of these; else none (RFC 8555, 6.7.1).
    pub subproblems: Sequence<Subproblem>,
    /// The methods that the path serves, where the refusal is of the method.
    pub allow: Allow,
    /// Whether the reply has the link to the directory.
    pub index: bool,
}

/// The refusal of one identifier, with its type and value as received (RFC 8555, 6.7.1).
#[derive(Drop)]
pub struct Subproblem {
    /// Why this identifier was refused, as if it stood alone.
    pub refusal: Refusal,
    /// Its member `type`.
    pub kind: Text,
    /// Its member `value`, before IDNA.
    pub value: Text,
}

/// The methods that a path serves, which the field Allow lists (RFC 9110, 10.2.1).
#[derive(Clone, Copy)]
pub enum Allow {
    /// No such field: the refusal is not of the method.
    No,
    /// GET alone, for what is read without a signature.
    Get,
    /// GET and HEAD, for a fresh nonce (RFC 8555, 7.2).
    GetHead,
    /// POST alone, for signed requests and for what the offices hand in.
    Post,
}
