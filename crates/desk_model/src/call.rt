//! What is asked of the desk.
ghost use Rattle.std.specs.Prelude.{◌≡◌, bytes_eq};
ghost use Rattle.desk_model.specs.{Document.problem_status, Limits.longest_detail, Refusals.refusal_of, Rules.same_problem, Texts.IsTextProblem};
ghost use Rattle.desk_model.specs.Legal.{has_length, is_problem, is_problem_kind};
ghost use Rattle.desk_model.specs.Run.{IsFormedCall, IsFormedSigned};

use crate::jwk::Jwk;
use crate::limits::LONGEST_DETAIL;
use crate::refusal::Refusal;
use crate::sequence::{Sequence, Text, is_same_text};

/// One call: when it was made, the random bytes that it may take, and what it asks.
#[derive(Drop)]
pub struct Call {
    /// Seconds since 1970-01-01T00:00:00Z.
    pub at: u64,
    /// Taken in pieces of 16 bytes: one for a nonce, then one for each challenge that is made.
    pub random: Sequence<u8>,
    /// What the caller wants to know or to have recorded.
    pub ask: Ask,
}

/// What a call asks: the first kind is given a nonce, the second spends one and is given another, the third does neither.
#[derive(Drop)]
pub enum Ask {
    /// A fresh nonce, by GET or HEAD (RFC 8555, 7.2).
    NewNonce { head: bool },
    /// A request of a client, whose signature was checked (RFC 8555, 6.2).
    Signed(Signed),
    /// The directory, or what an office asks.
    Office(OfficeAsk),
}

/// The directory, and what the validator, the signing office and the operator ask; objects are named by their numbers.
#[derive(Drop)]
pub enum OfficeAsk {
    /// The directory (RFC 8555, 7.1.1).
    Directory,
    /// What the validator found for a challenge (RFC 8555, 8).
    Report { challenge: u64, finding: Finding },
    /// The certificate of an order, as the signing office made it.
    Certify { order: u64, bytes: Sequence<u8> },
    /// Why the signing office makes no certificate of an order.
    FailOrder { order: u64, problem: OrderProblem },
    /// The operator takes back an authorization.
    RevokeAuthz(u64),
    /// The operator ends an account (RFC 8555, 7.1.6).
    RevokeAccount(u64),
    /// The challenges that wait for the validator.
    ChallengeWork,
    /// The orders that wait for the signing office.
    OrderWork,
    /// The key of an account.
    KeyOf(u64),
}

/// A signed request, as the front hands it in.
#[derive(Drop)]
pub struct Signed {
    /// Where it was sent, as its path tells.
    pub target: Target,
    /// The key that the signature was checked under, which stands for the account, too (RFC 8555, 6.2).
    pub key: Result<Jwk, BadKey>,
    /// The text of the nonce as received, `None` where the request has none (RFC 8555, 6.5.2).
    pub nonce: Option<Text>,
    /// The JSON text of the payload, empty for POST-as-GET (RFC 8555, 6.3).
    pub payload: Text,
}

/// The request's key is of no kind that the desk accepts.
#[derive(Clone, Copy)]
pub struct BadKey;

/// The resource that a signed request is sent to (RFC 8555, 7.1).
#[derive(Clone, Copy)]
pub enum Target {
    /// Where accounts are opened or looked up by their key (RFC 8555, 7.3).
    NewAccount,
    /// Where an account gets another key (RFC 8555, 7.3.5).
    KeyChange,
    /// Where orders are made (RFC 8555, 7.4).
    NewOrder,
    /// The account of this number, read, changed or deactivated (RFC 8555, 7.3.2, 7.3.6).
    Account(u64),
    /// The list of orders of the account of this number (RFC 8555, 7.1.2.1).
    Orders(u64),
    /// The order of this number, read (RFC 8555, 7.1.3).
    Order(u64),
    /// The order of this number, which takes a CSR (RFC 8555, 7.4).
    Finalize(u64),
    /// The certificate of the order of this number (RFC 8555, 7.4.2).
    Cert(u64),
    /// The authorization of this number, read or deactivated (RFC 8555, 7.5, 7.5.2).
    Authz(u64),
    /// The challenge of this number, read or answered (RFC 8555, 7.5.1).
    Chall(u64),
}

/// What the validator saw: the body of the HTTP resource, the TXT records, or neither.
#[derive(Drop)]
pub enum Finding {
    /// The bytes at the well-known path of the name, for http-01 (RFC 8555, 8.3).
    Body(Sequence<u8>),
    /// The texts at `_acme-challenge` of the name, one a record, for dns-01 (RFC 8555, 8.4).
    Records(Sequence<Text>),
    /// No answer that could be compared.
    Error(FetchError),
}

/// Why the validator saw nothing (RFC 8555, 6.7: connection, dns).
#[derive(Clone, Copy)]
pub enum FetchError {
    /// The server of the name could not be reached (RFC 8555, 6.7, `connection`).
    Connection,
    /// The name could not be looked up (RFC 8555, 6.7, `dns`).
    Dns,
}

/// Why an order failed: an error type without its prefix, and a text for people (RFC 8555, 6.7).
#[derive(Drop, Clone)]
pub struct OrderProblem {
    /// The error type; only `badCSR` and `serverInternal` are recorded.
    pub kind: Text,
    /// The text that the order then shows its client; 1 to 256 bytes are recorded.
    pub detail: Text,
}

impl OrderProblem {
    /// Whether the signing office may hand in a problem of this error type.
    pub fn is_kind(kind: &str) -> bool
        ensures { result ≡ is_problem_kind kind.now }
    {
        is_type_of(Refusal::BadCsr, kind) || is_type_of(Refusal::ServerInternal, kind)
    }

    /// Whether it may be recorded: of such an error type, and with a detail that is neither empty nor too long.
    pub fn is_allowed(&self) -> bool
        ensures { result ≡ is_problem self.now }
    {
        OrderProblem::is_kind(self.kind.as_str()) && has_detail_length(self.detail.as_str())
    }

    /// Whether it says what another says.
    pub fn is_same(&self, other: &OrderProblem) -> bool
        ensures { result ≡ same_problem self.now other.now }
    {
        is_same_text(self.kind.as_str(), other.kind.as_str())
            && is_same_text(self.detail.as_str(), other.detail.as_str())
    }

    /// The status of its error, as its order shows it (RFC 8555, 7.1.3).
    pub fn status(&self) -> u16
        ensures { result ≡ problem_status self.now.kind }
    {
        status_of_kind(self.kind.as_str())
    }
}

fn has_detail_length(detail: &str) -> bool
    ensures { result ≡ has_length 1 longest_detail detail.now }
{
    1 <= detail.len() && detail.len() <= LONGEST_DETAIL
}

// Whether a text is the error type of a refusal.
fn is_type_of(refusal: Refusal, kind: &str) -> bool
    ensures { result ≡ bytes_eq kind.now (refusal_of refusal).error_type }
{
    is_same_text(kind, refusal.error_type())
}

fn status_of_kind(kind: &str) -> u16
    ensures { result ≡ problem_status kind.now }
{
    if is_type_of(Refusal::ServerInternal, kind) {
        Refusal::ServerInternal.status()
    } else {
        Refusal::BadCsr.status()
    }
}

/// What the types of a call keep, as a fact: an accepted key has its canonical text, and texts are UTF-8. It does nothing, and
/// is for proofs alone: `ParsedCall::read` keeps the fact for all that is done with a call, and only a call that is not read
/// needs it again.
pub fn keep_form(call: &Call)
    ensures { IsFormedCall call.now }
{
    match &call.ask {
        Ask::Signed(request) => keep_request(request),
        Ask::Office(OfficeAsk::FailOrder { problem, .. }) => keep_problem(problem),
        _ => (),
    }
}

// What the types of a request keep.
fn keep_request(request: &Signed)
    ensures { IsFormedSigned request.now }
{
    let _payload = request.payload.as_str();
    if let Ok(key) = &request.key {
        let _text = key.canonical();
    }
}

// What the type of a problem keeps.
fn keep_problem(problem: &OrderProblem)
    ensures { IsTextProblem problem.now }
{
    let _kind = problem.kind.as_str();
    let _detail = problem.detail.as_str();
}
