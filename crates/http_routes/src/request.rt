//! What requests ask, by method, path and body: an envelope of the front, or a word of the office.
ghost use Rattle.std.specs.Prelude.{◌≡◌, ℕ, List, IfOk, MatchOption};
ghost use Rattle.http_routes.specs.Request.{IsAskIn, IsFailAsk, IsOfText, IsOfficeAsk, IsPlace, IsReportAsk, IsSignedAsk, IsUnserved, certify_ask};
ghost use Rattle.http_routes.specs.Request.{IsLookIn, IsReport, refused_reply, unshown};
ghost use Rattle.http_routes.specs.Routes.{IsResourceAt, has_index};
ghost use Rattle.http_routes.specs.Envelopes.{IsKeyRead, IsSignedAskIn, formed_nonce, has_nonce_form, nonce_in};
ghost use Rattle.serde_json.specs.View.{view};
ghost use Rattle.http_routes.specs.Offices.{body_in, error_in, fetch_error, finding, finding_in, records_in};

use crate::looked::{Looked, report};
use crate::routes::{OfficeResource, Resource, Routes, methods_of, resource_at, serves};
use desk_model::{
    Allow, Ask, BadKey, FetchError, Finding, Jwk, OfficeAsk, Refusal, Reply, Sequence, Signed,
    Target, Text, has_base64url_bytes,
};
use json::Scratch;
use json_texts::{JsonValue, object_in, order_problem, text_member, texts_in, value_of};
use keys::{KeyFault, from_base64url, read_jwk};
use serde_json::Value;
use std::alloc::{AllocError, Global};

/// What a request asks, or how one that is no call is refused.
#[derive(Drop)]
pub enum Request {
    /// What a call would ask; its moment and random bytes come from elsewhere.
    Asks(Ask),
    /// What it asks to be shown, which is no call.
    Looks(Looked),
    /// The desk has no part in the reply.
    Refused(RequestRefusal),
}

/// How a request that is no call is refused.
#[derive(Clone, Copy)]
pub struct RequestRefusal {
    /// Why.
    pub refusal: Refusal,
    /// The methods that are served where it was sent.
    pub allow: Allow,
    /// Whether the reply has the link to the directory (RFC 8555, 7.1).
    pub index: bool,
}

impl RequestRefusal {
    /// How a request is refused that asks for what is not shown: as one for a path that leads nowhere.
    pub fn unshown() -> RequestRefusal
        ensures { result ≡ unshown }
    {
        RequestRefusal {
            refusal: Refusal::NotFound,
            allow: Allow::No,
            index: false,
        }
    }

    /// The reply, which has no nonce.
    pub fn reply(self, alloc: Global) -> Reply
        ensures { result ≡ refused_reply self }
    {
        let none = Sequence::new(Vec::new(alloc));
        json_texts::refusal_reply(self.refusal, none, self.allow, self.index)
    }
}

/// Where a request of a method and a path goes.
#[derive(Clone, Copy)]
pub enum Place {
    /// To a resource that serves the method.
    Served(Resource),
    /// Nowhere: the path does not serve the method.
    Unserved(RequestRefusal),
}

/// Where a request of this method and path goes (RFC 8555, 7.1); `index` is whether a reply at the path has the link to the directory.
///
/// # Errors
///
/// Where there is no memory for the routes.
pub fn place_of(
    alloc: Global,
    routes: &mut Routes,
    method: &str,
    path: &str,
    index: bool,
) -> Result<Place, AllocError>
    requires { index ≡ has_index path.now }
    ensures { IfOk result (λ p. IsPlace method.now path.now p) }
{
    let found = resource_at(alloc, routes, path)?;
    match found {
        Some(resource) if serves(methods_of(resource), method) => Ok(Place::Served(resource)),
        _ => Ok(Place::Unserved(unserved_at(found, index))),
    }
}

// How a request of a method that its path does not serve is refused, by what the path leads to.
fn unserved_at(found: Option<Resource>, index: bool) -> RequestRefusal
    ensures { (path : List ℕ) → index ≡ has_index path → MatchOption found ((r : Resource) → ¬ (IsResourceAt path r)) (λ r. IsResourceAt path r)
        → IsUnserved path result }
{
    match found {
        Some(resource) => RequestRefusal {
            refusal: Refusal::MethodNotAllowed,
            allow: methods_of(resource),
            index,
        },
        None => RequestRefusal {
            refusal: Refusal::NotFound,
            allow: Allow::No,
            index,
        },
    }
}

/// What a request asks of a resource that serves its method, by the bytes of its body, or `None` where these are none
/// for it: JSON is UTF-8, a certificate may be any bytes.
///
/// # Errors
///
/// Where there is no memory for it.
pub fn ask_in(
    alloc: Global,
    resource: Resource,
    method: &str,
    body: &[u8],
) -> Result<Option<Ask>, AllocError>
    ensures { IfOk result (λ o. IsAskIn resource method.now body.now o) }
{
    match resource {
        Resource::Directory => Ok(Some(Ask::Office(OfficeAsk::Directory))),
        Resource::NewNonce => Ok(Some(Ask::NewNonce {
            head: method == "HEAD",
        })),
        Resource::Signed(target) => signed_ask(alloc, target, body),
        Resource::Office(resource) => office_ask(alloc, resource, body),
    }
}

/// What a request asks to be shown, by the bytes of its body, or `None` where it asks nothing of the kind: a report is asked for by
/// a JSON object, which is UTF-8.
///
/// # Errors
///
/// Where there is no memory for it.
pub fn look_in(alloc: Global, resource: Resource, body: &[u8]) -> Result<Option<Looked>, AllocError>
    ensures { IfOk result (λ o. IsLookIn resource body.now o) }
{
    match resource {
        Resource::Office(OfficeResource::Page) => Ok(Some(Looked::Page)),
        Resource::Office(OfficeResource::Look) => report_look(alloc, body),
        Resource::Office(OfficeResource::Metrics) => Ok(Some(Looked::Metrics)),
        Resource::Office(OfficeResource::Backup) => Ok(Some(Looked::Backup)),
        _ => Ok(None),
    }
}

// The report that a body asks for, or `None` where it asks for none.
fn report_look(alloc: Global, body: &[u8]) -> Result<Option<Looked>, AllocError>
    ensures { IfOk result (λ o. IsOfText IsReport body.now o) }
{
    let Ok(text) = str::from_utf8(body) else {
        return Ok(None);
    };
    let looked = report(alloc, text)?;
    Ok(looked)
}

// What a signed request asks of its target, or `None` where its body is no envelope (RFC 8555, 6.2).
fn signed_ask(alloc: Global, target: Target, body: &[u8]) -> Result<Option<Ask>, AllocError>
    ensures { IfOk result (λ o. IsOfText (IsSignedAsk target) body.now o) }
{
    let Ok(text) = str::from_utf8(body) else {
        return Ok(None);
    };
    let mut scratch = Scratch::new(alloc);
    match object_in(alloc, text, &mut scratch)? {
        Some(envelope) => signed_ask_in(alloc, target, &envelope),
        None => odd_ask(alloc, target, text),
    }
}

// What a signed request asks by the text of an envelope that holds more than strings and objects of strings, or `None` where it
// is none.
fn odd_ask(alloc: Global, target: Target, text: &str) -> Result<Option<Ask>, AllocError>
    ensures { IfOk result (λ o. IsSignedAsk target text.now o) }
{
    let Some(value) = value_of(alloc, text)? else {
        return Ok(None);
    };
    signed_ask_in(alloc, target, &value)
}

// What the validator, the signing office or the operator asks, or `None` where the body is none for it.
fn office_ask(
    alloc: Global,
    resource: OfficeResource,
    body: &[u8],
) -> Result<Option<Ask>, AllocError>
    ensures { IfOk result (λ o. IsOfficeAsk resource body.now o) }
{
    match resource {
        OfficeResource::Key(account) => Ok(Some(Ask::Office(OfficeAsk::KeyOf(account)))),
        OfficeResource::ChallengeWork => Ok(Some(Ask::Office(OfficeAsk::ChallengeWork))),
        OfficeResource::OrderWork => Ok(Some(Ask::Office(OfficeAsk::OrderWork))),
        OfficeResource::Report(challenge) => report_ask(alloc, challenge, body),
        OfficeResource::Certify(order) => certify_ask(alloc, order, body),
        OfficeResource::FailOrder(order) => fail_ask(alloc, order, body),
        OfficeResource::RevokeAuthz(authz) => Ok(Some(Ask::Office(OfficeAsk::RevokeAuthz(authz)))),
        OfficeResource::RevokeAccount(account) => Ok(Some(Ask::Office(OfficeAsk::RevokeAccount(
            account,
        )))),
        OfficeResource::Page => Ok(None),
        OfficeResource::Look => Ok(None),
        OfficeResource::Metrics => Ok(None),
        OfficeResource::Backup => Ok(None),
    }
}

// What the validator reports of this challenge.
fn report_ask(alloc: Global, challenge: u64, body: &[u8]) -> Result<Option<Ask>, AllocError>
    ensures { IfOk result (λ o. IsOfText (IsReportAsk challenge) body.now o) }
{
    let Ok(text) = str::from_utf8(body) else {
        return Ok(None);
    };
    match finding(alloc, text)? {
        Some(finding) => Ok(Some(Ask::Office(OfficeAsk::Report { challenge, finding }))),
        None => Ok(None),
    }
}

// The certificate of this order: the bytes of the body.
fn certify_ask(alloc: Global, order: u64, body: &[u8]) -> Result<Option<Ask>, AllocError>
    ensures { IfOk result (λ o. o ≡ certify_ask order body.now) }
{
    let mut bytes = Vec::new(alloc);
    bytes.extend_from_slice(body)?;
    let bytes = Sequence::new(bytes);
    Ok(Some(Ask::Office(OfficeAsk::Certify { order, bytes })))
}

// Why this order is given up.
fn fail_ask(alloc: Global, order: u64, body: &[u8]) -> Result<Option<Ask>, AllocError>
    ensures { IfOk result (λ o. IsOfText (IsFailAsk order) body.now o) }
{
    let Ok(text) = str::from_utf8(body) else {
        return Ok(None);
    };
    match order_problem(alloc, text)? {
        Some(problem) => Ok(Some(Ask::Office(OfficeAsk::FailOrder { order, problem }))),
        None => Ok(None),
    }
}

// ---- signed requests, by the envelopes that stand for them (RFC 8555, 6.2)

// What a signed request asks of this target by the value of its envelope, or `None` where the value is none (RFC 8555,
// 6.2).
//
// # Errors
//
// Where there is no memory for it.
fn signed_ask_in<V: JsonValue>(
    alloc: Global,
    target: Target,
    envelope: &V,
) -> Result<Option<Ask>, AllocError>
    ensures { IfOk result (λ o. IsSignedAskIn target (V.meaning envelope.now) o) }
{
    let (Some(jwk), Some(payload)) = (envelope.member("jwk"), text_member(envelope, "payload"))
    else {
        return Ok(None);
    };
    let Some(nonce) = nonce_of(alloc, envelope)? else {
        return Ok(None);
    };
    let (key, payload) = key_and_payload(alloc, jwk, payload)?;
    Ok(Some(Ask::Signed(Signed {
        target,
        key,
        nonce,
        payload,
    })))
}

// The key that a value spells, or that it spells none, and the payload.
fn key_and_payload<V: JsonValue>(
    alloc: Global,
    jwk: &V,
    payload: &str,
) -> Result<(Result<Jwk, BadKey>, Text), AllocError>
    ensures { IfOk result (λ r. IsKeyRead (V.meaning jwk.now) r.0 × (r.1 ≡ payload.now)) }
{
    let payload = Text::new(String::from_str(alloc, payload)?);
    let key = key_of(alloc, jwk)?;
    Ok((key, payload))
}

// The key that a value spells, or that it spells none.
fn key_of<V: JsonValue>(alloc: Global, jwk: &V) -> Result<Result<Jwk, BadKey>, AllocError>
    ensures { IfOk result (λ r. IsKeyRead (V.meaning jwk.now) r) }
{
    match read_jwk(alloc, jwk) {
        Ok(key) => Ok(Ok(key)),
        Err(KeyFault::Bad) => Ok(Err(BadKey)),
        Err(KeyFault::Memory) => Err(AllocError),
    }
}

// The nonce of an envelope, which may lack it.
fn nonce_of<V: JsonValue>(alloc: Global, envelope: &V) -> Result<Option<Option<Text>>, AllocError>
    ensures { IfOk result (λ o. o ≡ nonce_in (V.meaning envelope.now)) }
{
    let Some(value) = envelope.member("nonce") else {
        return Ok(Some(None));
    };
    match value.text() {
        Some(text) => formed_nonce(alloc, text),
        None => Ok(None),
    }
}

// The text, if it has the form of a nonce.
fn formed_nonce(alloc: Global, text: &str) -> Result<Option<Option<Text>>, AllocError>
    ensures { IfOk result (λ o. o ≡ formed_nonce text.now) }
{
    if !has_nonce_form(text) {
        return Ok(None);
    }
    let nonce = Text::new(String::from_str(alloc, text)?);
    Ok(Some(Some(nonce)))
}

// Whether the text has the form of a nonce (RFC 8555, 6.5.2).
fn has_nonce_form(text: &str) -> bool
    ensures { result ≡ has_nonce_form text.now }
{
    !text.is_empty() && !(text.len() % 4 == 1) && has_base64url_bytes(text)
}

// ---- what office requests hand in, by their bodies; the problem of an order is read by `json_texts`

// What the validator found, by the body of its report, or `None` where this is none.
//
// # Errors
//
// Where there is no memory for it.
fn finding(alloc: Global, body: &str) -> Result<Option<Finding>, AllocError>
    ensures { IfOk result (λ o. o ≡ finding body.now) }
{
    let Some(report) = value_of(alloc, body)? else {
        return Ok(None);
    };
    finding_in(alloc, &report)
}

// What the validator found, by the one member that says it.
fn finding_in(alloc: Global, report: &Value) -> Result<Option<Finding>, AllocError>
    ensures { IfOk result (λ o. o ≡ finding_in (view report.now)) }
{
    match (
        report.get("body"),
        report.get("records"),
        report.get("error"),
    ) {
        (Some(body), None, None) => body_in(alloc, body),
        (None, Some(records), None) => records_in(alloc, records),
        (None, None, Some(error)) => Ok(error_in(error)),
        _ => Ok(None),
    }
}

// The body of the HTTP resource, which a value holds in base64url (RFC 8555, 8.3).
fn body_in(alloc: Global, value: &Value) -> Result<Option<Finding>, AllocError>
    ensures { IfOk result (λ o. o ≡ body_in (view value.now)) }
{
    let Some(text) = value.as_str() else {
        return Ok(None);
    };
    match from_base64url(alloc, text)? {
        Some(bytes) => Ok(Some(Finding::Body(Sequence::new(bytes)))),
        None => Ok(None),
    }
}

// The TXT records that a value lists (RFC 8555, 8.4).
fn records_in(alloc: Global, value: &Value) -> Result<Option<Finding>, AllocError>
    ensures { IfOk result (λ o. o ≡ records_in (view value.now)) }
{
    match texts_in(alloc, value)? {
        Some(records) => Ok(Some(Finding::Records(records))),
        None => Ok(None),
    }
}

// The error that a value names.
fn error_in(value: &Value) -> Option<Finding>
    ensures { result ≡ error_in (view value.now) }
{
    let error = fetch_error(value.as_str()?)?;
    Some(Finding::Error(error))
}

// The error of this name (RFC 8555, 6.7).
fn fetch_error(name: &str) -> Option<FetchError>
    ensures { result ≡ fetch_error name.now }
{
    if name == "connection" {
        return Some(FetchError::Connection);
    }
    if name == "dns" {
        return Some(FetchError::Dns);
    }
    None
}
