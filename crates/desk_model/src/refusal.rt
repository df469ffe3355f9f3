//! The refusals of requests: their numbers, HTTP statuses, error types and texts (RFC 8555, 6.7).
ghost use Rattle.std.specs.Prelude.{◌≡◌};
ghost use Rattle.desk_model.specs.Refusals.{refusal_of};

/// Why a request is refused.
#[derive(Clone, Copy, Debug)]
pub enum Refusal {
    /// The request is malformed.
    Malformed,
    /// There is nothing at the path.
    NotFound,
    /// The path does not serve the method.
    MethodNotAllowed,
    /// The nonce is not open (RFC 8555, 6.5).
    BadNonce,
    /// The key is of no kind that the desk accepts.
    BadPublicKey,
    /// No account has the key.
    AccountDoesNotExist,
    /// The account is not valid (RFC 8555, 7.3.6).
    Unauthorized,
    /// The scheme of a contact is not `mailto`.
    UnsupportedContact,
    /// A contact is not accepted.
    InvalidContact,
    /// An identifier is not of the type `dns`.
    UnsupportedIdentifier,
    /// A name is not accepted.
    RejectedIdentifier,
    /// The order is not ready (RFC 8555, 7.4).
    OrderNotReady,
    /// The CSR is not accepted.
    BadCsr,
    /// What an office or the operator says does not fit the records.
    Conflict,
    /// The desk could not act.
    ServerInternal,
    /// The request is too large.
    TooLarge,
    /// An account has the key that another is to get (RFC 8555, 7.3.5).
    KeyInUse,
}

impl Refusal {
    /// The number of the refusal, 1 to 17.
    pub fn number(self) -> u8
        ensures { result ≡ (refusal_of self).number }
    {
        match self {
            Refusal::Malformed => 1,
            Refusal::NotFound => 2,
            Refusal::MethodNotAllowed => 3,
            Refusal::BadNonce => 4,
            Refusal::BadPublicKey => 5,
            Refusal::AccountDoesNotExist => 6,
            Refusal::Unauthorized => 7,
            Refusal::UnsupportedContact => 8,
            Refusal::InvalidContact => 9,
            Refusal::UnsupportedIdentifier => 10,
            Refusal::RejectedIdentifier => 11,
            Refusal::OrderNotReady => 12,
            Refusal::BadCsr => 13,
            Refusal::Conflict => 14,
            Refusal::ServerInternal => 15,
            Refusal::TooLarge => 16,
            Refusal::KeyInUse => 17,
        }
    }

    /// The HTTP status.
    pub fn status(self) -> u16
        ensures { result ≡ (refusal_of self).status }
    {
        match self {
            Refusal::Malformed => 400,
            Refusal::NotFound => 404,
            Refusal::MethodNotAllowed => 405,
            Refusal::BadNonce => 400,
            Refusal::BadPublicKey => 400,
            Refusal::AccountDoesNotExist => 400,
            Refusal::Unauthorized => 401,
            Refusal::UnsupportedContact => 400,
            Refusal::InvalidContact => 400,
            Refusal::UnsupportedIdentifier => 400,
            Refusal::RejectedIdentifier => 400,
            Refusal::OrderNotReady => 403,
            Refusal::BadCsr => 400,
            Refusal::Conflict => 409,
            Refusal::ServerInternal => 500,
            Refusal::TooLarge => 413,
            Refusal::KeyInUse => 409,
        }
    }

    /// The error type, without its prefix.
    pub fn error_type(self) -> &'static str
        ensures { result.now ≡ (refusal_of self).error_type }
    {
        match self {
            Refusal::Malformed => "malformed",
            Refusal::NotFound => "malformed",
            Refusal::MethodNotAllowed => "malformed",
            Refusal::BadNonce => "badNonce",
            Refusal::BadPublicKey => "badPublicKey",
            Refusal::AccountDoesNotExist => "accountDoesNotExist",
            Refusal::Unauthorized => "unauthorized",
            Refusal::UnsupportedContact => "unsupportedContact",
            Refusal::InvalidContact => "invalidContact",
            Refusal::UnsupportedIdentifier => "unsupportedIdentifier",
            Refusal::RejectedIdentifier => "rejectedIdentifier",
            Refusal::OrderNotReady => "orderNotReady",
            Refusal::BadCsr => "badCSR",
            Refusal::Conflict => "malformed",
            Refusal::ServerInternal => "serverInternal",
            Refusal::TooLarge => "malformed",
            Refusal::KeyInUse => "malformed",
        }
    }

    /// The text for people.
    pub fn detail(self) -> &'static str
        ensures { result.now ≡ (refusal_of self).detail }
    {
        match self {
            Refusal::Malformed => "the request is not well formed",
            Refusal::NotFound => "there is nothing here",
            Refusal::MethodNotAllowed => "this method is not served here",
            Refusal::BadNonce => "the nonce is not open",
            Refusal::BadPublicKey => "the key is not accepted",
            Refusal::AccountDoesNotExist => "no account has this key",
            Refusal::Unauthorized => "the account is not valid",
            Refusal::UnsupportedContact => "the contact scheme is not supported",
            Refusal::InvalidContact => "the contact is not accepted",
            Refusal::UnsupportedIdentifier => "the identifier type is not supported",
            Refusal::RejectedIdentifier => "the name is not accepted",
            Refusal::OrderNotReady => "the order is not ready",
            Refusal::BadCsr => "the CSR is not accepted",
            Refusal::Conflict => "the report does not fit the records",
            Refusal::ServerInternal => "the desk could not act",
            Refusal::TooLarge => "the request is too large",
            Refusal::KeyInUse => "the key has an account",
        }
    }
}
