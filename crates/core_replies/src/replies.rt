//! Replies (RFC 8555, 6.5, 6.7, 7): refusals, nonces, objects and lists, with the URLs that they show.
ghost use Rattle.std.specs.Prelude.{◌≡◌, ◌++◌, string_bytes, IfOk, OnOk, decimal, ◌≤◌, map, Some};
ghost use Rattle.desk_model.specs.{Tokens.nonce_text, declared.reply.Body.TheVariants.Empty, Document.url};
ghost use Rattle.desk_model.specs.Shown.{refusal_reply, nonce_reply, with_nonce, plain, list_reply};
ghost use Rattle.core_replies.specs.Shown.{numbered_url, HasDatedReport, HasMoments};
ghost use Rattle.desk_model.specs.Limits.{last_end};
ghost use Rattle.desk_model.specs.Tables.{Tables};
ghost use Rattle.desk_model.specs.Document.{authorization_url, key_document, listed_rows};
ghost use Rattle.desk_model.specs.Shown.{account_reply, at, authorization_reply, below, certificate_reply, challenge_reply, located_account};
ghost use Rattle.desk_model.specs.Shown.{located_order, ok, order_reply, taken_reply};

use crate::json_text::{listing_document, shown_document};
use desk_book::At;
use desk_model::{
    AccountRow, Allow, AuthorizationRow, Body, ChallengeRow, DatedBytes, DnsName, Document,
    Listing, OrderRow, Policy, Refusal, Reply, Sequence, Subproblem, Text,
};
use itoa::Buffer;
use std::alloc::{AllocError, Global};

/// A refusal; `index` says whether the reply has the link to the directory.
pub fn refusal_reply(refusal: Refusal, subproblems: Sequence<Subproblem>, index: bool) -> Reply
    ensures { result ≡ refusal_reply index refusal subproblems }
{
    json_texts::refusal_reply(refusal, subproblems, Allow::No, index)
}

/// The reply to newNonce (RFC 8555, 7.2).
pub fn nonce_reply(head: bool) -> Reply
    ensures { result ≡ nonce_reply head }
{
    plain(if head { 200 } else { 204 })
}

/// The reply with the fresh nonce of a serial and its random bytes.
///
/// # Errors
///
/// Where there is no memory for the nonce's text.
pub fn with_nonce(
    alloc: Global,
    serial: u64,
    random: [u8; 16],
    reply: Reply,
) -> Result<Reply, AllocError>
    ensures { IfOk result (λ r. r ≡ with_nonce (nonce_text serial random) reply) }
{
    let nonce = keys::nonce_text(alloc, serial, random)?;
    Ok(Reply {
        nonce: Some(Text::new(nonce)),
        ..reply
    })
}

// A reply without a body.
fn plain(status: u16) -> Reply
    ensures { result ≡ plain status Empty }
{
    Reply {
        status,
        location: None,
        up: None,
        nonce: None,
        body: Body::Empty,
    }
}

// ---- URLs (RFC 8555, 7.1): the base and a path, each in a text of its size

// The most digits of a number.
const MOST_DIGITS: usize = 20;

/// The URL with a path.
pub(crate) fn url(alloc: Global, policy: &Policy, path: &str) -> Result<String, AllocError>
    ensures { IfOk result (λ s. string_bytes s ≡ url policy.now path.now) }
{
    url_with_room(alloc, policy, path, 0)
}

// The URL with a path, in a text that has room for so many bytes more without growing.
fn url_with_room(
    alloc: Global,
    policy: &Policy,
    path: &str,
    room: usize,
) -> Result<String, AllocError>
    ensures { IfOk result (λ s. string_bytes s ≡ url policy.now path.now) }
{
    let base = policy.base();
    let len = base.len().saturating_add(path.len()).saturating_add(room);
    let mut url = String::with_capacity(alloc, len)?;
    url.push_str(base)?;
    url.push_str(path)?;
    Ok(url)
}

// Adds the digits of a number to a text.
fn push_number(text: &mut String, number: u64) -> Result<(), AllocError>
    ensures { OnOk result (string_bytes text.new ≡ string_bytes text.old ++ decimal number) }
{
    text.push_str(Buffer::new().format(number))
}

/// The URL of the object of a number, behind the path of its kind.
pub(crate) fn numbered_url(
    alloc: Global,
    policy: &Policy,
    path: &str,
    number: u64,
) -> Result<String, AllocError>
    ensures { IfOk result (λ s. string_bytes s ≡ numbered_url policy.now path.now number) }
{
    let mut url = url_with_room(alloc, policy, path, MOST_DIGITS)?;
    push_number(&mut url, number)?;
    Ok(url)
}

/// The URL of a resource of the object of a number, whose path goes on by `rest`.
pub(crate) fn url_below(
    alloc: Global,
    policy: &Policy,
    path: &str,
    number: u64,
    rest: &str,
) -> Result<String, AllocError>
    ensures { IfOk result (λ s. string_bytes s ≡ numbered_url policy.now path.now number ++ rest.now) }
{
    let room = rest.len().saturating_add(MOST_DIGITS);
    let mut url = url_with_room(alloc, policy, path, room)?;
    push_number(&mut url, number)?;
    url.push_str(rest)?;
    Ok(url)
}

// ---- replies with one object, by its row (RFC 8555, 7)

// A reply with a document.
fn json_reply(document: Document) -> Reply
    ensures { result ≡ ok 200 document }
{
    Reply {
        status: 200,
        location: None,
        up: None,
        nonce: None,
        body: Body::Json(document),
    }
}

// A reply with a status, the URL of its object and a document.
fn located_reply(status: u16, url: String, document: Document) -> Reply
    ensures { result ≡ at (string_bytes url) (ok status document) }
{
    Reply {
        status,
        location: Some(Text::new(url)),
        up: None,
        nonce: None,
        body: Body::Json(document),
    }
}

/// The reply with an account (RFC 8555, 7.1.2).
///
/// # Errors
///
/// Where there is no memory for the document.
pub fn account_reply(alloc: Global, policy: &Policy, row: &AccountRow) -> Result<Reply, AllocError>
    ensures { IfOk result (λ r. (T : Tables) → T.meta.policy ≡ policy.now → r ≡ account_reply 200 T row.now) }
{
    let account = shown_document(alloc, row, policy)?;
    Ok(json_reply(account))
}

/// The reply with an account and its Location (RFC 8555, 7.3).
///
/// # Errors
///
/// Where there is no memory for the document or the URL.
pub fn located_account(
    alloc: Global,
    policy: &Policy,
    status: u16,
    row: &AccountRow,
) -> Result<Reply, AllocError>
    ensures { IfOk result (λ r. (T : Tables) → T.meta.policy ≡ policy.now → r ≡ located_account status T row.now) }
{
    let url = numbered_url(alloc, policy, "/account/", row.number)?;
    let account = shown_document(alloc, row, policy)?;
    Ok(located_reply(status, url, account))
}

/// The refusal of a key that an account has, with the Location of that account (RFC 8555, 7.3.5).
///
/// # Errors
///
/// Where there is no memory for the URL.
pub fn taken_reply(
    alloc: Global,
    policy: &Policy,
    number: u64,
    index: bool,
) -> Result<Reply, AllocError>
    ensures { IfOk result (λ r. (T : Tables) → T.meta.policy ≡ policy.now → r ≡ taken_reply index T number) }
{
    let url = numbered_url(alloc, policy, "/account/", number)?;
    let none = Sequence::new(Vec::new(alloc));
    let mut reply = refusal_reply(Refusal::KeyInUse, none, index);
    reply.location = Some(Text::new(url));
    Ok(reply)
}

/// The reply with an order whose authorizations have these names (RFC 8555, 7.1.3).
///
/// # Errors
///
/// Where there is no memory for the document.
pub fn order_reply(
    alloc: Global,
    policy: &Policy,
    row: &OrderRow,
    names: &[DnsName],
) -> Result<Reply, AllocError>
    ensures { IfOk result (λ r. (T : Tables) → T.meta.policy ≡ policy.now → map (λ a. a.name) (listed_rows T row.now) ≡ names.now
        → row.now.expires ≤ last_end → r ≡ order_reply 200 T row.now) }
{
    let order = shown_document(alloc, row, &(policy, names))?;
    Ok(json_reply(order))
}

/// The reply with an order and its Location (RFC 8555, 7.4).
///
/// # Errors
///
/// Where there is no memory for the document or the URL.
pub fn located_order(
    alloc: Global,
    policy: &Policy,
    status: u16,
    row: &OrderRow,
    names: &[DnsName],
) -> Result<Reply, AllocError>
    ensures { IfOk result (λ r. (T : Tables) → T.meta.policy ≡ policy.now → map (λ a. a.name) (listed_rows T row.now) ≡ names.now
        → row.now.expires ≤ last_end → r ≡ located_order status T row.now) }
{
    let url = numbered_url(alloc, policy, "/order/", row.number)?;
    let order = shown_document(alloc, row, &(policy, names))?;
    Ok(located_reply(status, url, order))
}

/// The reply with a certificate (RFC 8555, 7.4.2).
///
/// # Errors
///
/// Where there is no memory for a copy of the certificate.
pub fn certificate_reply(certificate: &DatedBytes) -> Result<Reply, AllocError>
    ensures { IfOk result (λ r. r ≡ certificate_reply (Some certificate.now)) }
{
    let bytes = certificate.bytes.clone()?;
    Ok(Reply {
        status: 200,
        location: None,
        up: None,
        nonce: None,
        body: Body::Certificate(bytes),
    })
}

/// The reply with an authorization (RFC 8555, 7.1.4).
///
/// # Errors
///
/// Where there is no memory for the document.
pub fn authorization_reply(
    alloc: Global,
    policy: &Policy,
    row: &AuthorizationRow,
) -> Result<Reply, AllocError>
    ensures { IfOk result (λ r. (T : Tables) → T.meta.policy ≡ policy.now → HasMoments row.now → r ≡ authorization_reply T row.now) }
{
    let authorization = shown_document(alloc, row, policy)?;
    Ok(json_reply(authorization))
}

/// The reply with a challenge (RFC 8555, 8).
///
/// # Errors
///
/// Where there is no memory for the document.
pub fn challenge_reply(
    alloc: Global,
    policy: &Policy,
    row: &ChallengeRow,
) -> Result<Reply, AllocError>
    ensures { IfOk result (λ r. (T : Tables) → T.meta.policy ≡ policy.now → HasDatedReport row.now.reported → r ≡ challenge_reply T row.now) }
{
    let challenge = shown_document(alloc, row, policy)?;
    Ok(json_reply(challenge))
}

/// The reply with a challenge to its client, which names the authorization of this number (RFC 8555, 7.5.1).
///
/// # Errors
///
/// Where there is no memory for the document or the URL.
pub fn client_challenge_reply(
    alloc: Global,
    policy: &Policy,
    authorization: u64,
    row: &ChallengeRow,
) -> Result<Reply, AllocError>
    ensures { IfOk result (λ r. (T : Tables) → T.meta.policy ≡ policy.now → HasDatedReport row.now.reported
        → r ≡ below (authorization_url T.meta.policy authorization) (challenge_reply T row.now)) }
{
    let up = numbered_url(alloc, policy, "/authz/", authorization)?;
    let reply = challenge_reply(alloc, policy, row)?;
    Ok(Reply {
        up: Some(Text::new(up)),
        ..reply
    })
}

/// The reply with the key of an account.
///
/// # Errors
///
/// Where there is no memory for the document.
#[tactic(auto, using(crate::proofs::PlainDocuments::key_plain))]
pub fn key_reply(alloc: Global, row: &AccountRow) -> Result<Reply, AllocError>
    ensures { IfOk result (λ r. r ≡ ok 200 (key_document row.now.key)) }
{
    let key = shown_document(alloc, &row.key, &())?;
    Ok(json_reply(key))
}

// ---- replies with lists, and with the directory (RFC 8555, 7.1.1, 7.1.2.1)

/// The reply with the directory or a list of a book at a moment.
///
/// # Errors
///
/// Where there is no memory for the document.
pub fn list_reply(alloc: Global, at: &At, listing: Listing) -> Result<Reply, AllocError>
    ensures { IfOk result (λ r. r ≡ list_reply at.now listing) }
{
    let (book, moment) = at.parts();
    match listing {
        Listing::Directory => {
            let directory = shown_document(alloc, at.policy(), &())?;
            Ok(json_reply(directory))
        }
        Listing::Orders(number) => {
            let by = (book, moment, number);
            let orders = listing_document(alloc, "orders", book.orders(), &by)?;
            Ok(json_reply(orders))
        }
        Listing::ChallengeWork => {
            let work = listing_document(alloc, "challenges", book.authorizations(), &moment)?;
            Ok(json_reply(work))
        }
        Listing::OrderWork => {
            let waiting = listing_document(alloc, "orders", book.orders(), &(book, moment))?;
            Ok(json_reply(waiting))
        }
    }
}
