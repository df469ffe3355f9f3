//! What a reply says of a revocation that a desk which is served was asked for.
ghost use Rattle.std.specs.Prelude.{◌≡◌, IfOk, option_map, string_bytes};
ghost use Rattle.serde_json.specs.View.{view};
ghost use Rattle.app_tasks.specs.Outcomes.{body_of, document_in, has_ending, is_authorization, is_dns_name, is_of, is_revoked_in, is_text};
ghost use Rattle.app_tasks.specs.Outcomes.{orders_path, outcome_in, outcome_of, outcome_within, refusal_in};

use app_words::Revocation;
use desk_model::{Refusal, is_same_text};
use json_texts::{text_of, value_of};
use serde_json::Value;
use std::alloc::{AllocError, Global};
use std::str;

/// The longest reply of a desk to a revocation: ten contacts take 20000 bytes at most.
pub(crate) const LONGEST: usize = 32768;

/// What the bytes of a reply say of a revocation: that it is done, or why it is refused; `None` where they are no reply of a desk
/// to that, or more than one has.
///
/// # Errors
///
/// Where there is no memory for its document.
pub(crate) fn outcome_of(
    alloc: Global,
    target: Revocation,
    reply: &[u8],
) -> Result<Option<Option<Refusal>>, AllocError>
    ensures { IfOk result (λ outcome. outcome ≡ outcome_of target reply.now) }
{
    if reply.len() > LONGEST {
        return Ok(None);
    }
    outcome_within(alloc, target, reply)
}

// The same of bytes that are no more than a reply has.
fn outcome_within(
    alloc: Global,
    target: Revocation,
    reply: &[u8],
) -> Result<Option<Option<Refusal>>, AllocError>
    ensures { IfOk result (λ outcome. outcome ≡ outcome_within target reply.now) }
{
    match document_in(alloc, body_of(reply))? {
        Some(document) => outcome_in(alloc, target, reply, &document),
        None => Ok(None),
    }
}

// What stands behind the first empty line of a reply, if it has one (RFC 9112, 2.1).
fn body_of(reply: &[u8]) -> &[u8]
    ensures { result.now ≡ body_of reply.now }
{
    for at in 0..reply.len() {
        let rest = &reply[at..];
        if rest.starts_with(b"\r\n\r\n") {
            return &rest[4..];
        }
    }
    b""
}

// The JSON that a body is, if it is any.
fn document_in(alloc: Global, body: &[u8]) -> Result<Option<Value>, AllocError>
    ensures { IfOk result (λ document. option_map view document ≡ document_in body.now) }
{
    match str::from_utf8(body) {
        Ok(text) => value_of(alloc, text),
        Err(_) => Ok(None),
    }
}

// What a reply with this document says, by its status (RFC 9112, 4).
fn outcome_in(
    alloc: Global,
    target: Revocation,
    reply: &[u8],
    document: &Value,
) -> Result<Option<Option<Refusal>>, AllocError>
    ensures { IfOk result (λ outcome. outcome ≡ outcome_in target reply.now (view document.now)) }
{
    if reply.starts_with(b"HTTP/1.1 200 ") {
        return Ok(if is_revoked_in(alloc, target, document)? {
            Some(None)
        } else {
            None
        });
    }
    Ok(if reply.starts_with(b"HTTP/1.1 404 ") {
        refusal_in(Refusal::NotFound, document)
    } else if reply.starts_with(b"HTTP/1.1 409 ") {
        refusal_in(Refusal::Conflict, document)
    } else if reply.starts_with(b"HTTP/1.1 500 ") {
        refusal_in(Refusal::ServerInternal, document)
    } else {
        None
    })
}

// That it is refused so, where the document says that.
fn refusal_in(refusal: Refusal, document: &Value) -> Option<Option<Refusal>>
    ensures { result ≡ refusal_in refusal (view document.now) }
{
    if is_text(text_of(document, "detail"), refusal.detail()) {
        Some(Some(refusal))
    } else {
        None
    }
}

// Whether a document is that of the target, revoked.
fn is_revoked_in(alloc: Global, target: Revocation, document: &Value) -> Result<bool, AllocError>
    ensures { IfOk result (λ is_revoked. is_revoked ≡ is_revoked_in target (view document.now)) }
{
    if !is_text(text_of(document, "status"), "revoked") {
        return Ok(false);
    }
    is_of(alloc, target, document)
}

// Whether a document is that of the target, as far as it says: that of an authorization has no number.
fn is_of(alloc: Global, target: Revocation, document: &Value) -> Result<bool, AllocError>
    ensures { IfOk result (λ is. is ≡ is_of target (view document.now)) }
{
    match target {
        Revocation::Account(number) => {
            let path = orders_path(alloc, number)?;
            Ok(has_ending(text_of(document, "orders"), path.as_str()))
        }
        Revocation::Authorization(_) => Ok(is_authorization(document)),
    }
}

// Whether a document has what that of an authorization has (RFC 8555, 7.1.4).
fn is_authorization(document: &Value) -> bool
    ensures { result ≡ is_authorization (view document.now) }
{
    text_of(document, "expires").is_some() && is_dns_name(document.get("identifier"))
}

// Whether an identifier is there, and is a DNS name (RFC 8555, 7.1.4 and 9.7.7).
fn is_dns_name(identifier: Option<&Value>) -> bool
    ensures { result ≡ is_dns_name (option_map (λ v. view v.now) identifier.entry) }
{
    match identifier {
        Some(found) => is_text(text_of(found, "type"), "dns") && text_of(found, "value").is_some(),
        None => false,
    }
}

// How the URL of the orders of an account ends.
fn orders_path(alloc: Global, number: u64) -> Result<String, AllocError>
    ensures { IfOk result (λ path. string_bytes path ≡ orders_path number) }
{
    format!(in alloc; "/account/{number}/orders")
}

// Whether a text is there, and is this one.
fn is_text(found: Option<&str>, text: &str) -> bool
    ensures { result ≡ is_text (option_map (λ s. s.now) found.entry) text.now }
{
    match found {
        Some(found) => is_same_text(found, text),
        None => false,
    }
}

// Whether a text is there, and ends so.
fn has_ending(found: Option<&str>, text: &str) -> bool
    ensures { result ≡ has_ending (option_map (λ s. s.now) found.entry) text.now }
{
    match found {
        Some(found) => found.as_bytes().ends_with(text.as_bytes()),
        None => false,
    }
}
