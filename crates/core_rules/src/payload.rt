//! The payloads of signed requests: JSON texts in the forms that the routes read.
ghost use Rattle.std.specs.Prelude.{◌≡◌, option_map, IfOk};
ghost use Rattle.serde_json.specs.{View.view, Read.read};
ghost use Rattle.desk_model.specs.Payload.{object_in, texts_in, optional, new_account, account_change, authorization_change};
ghost use Rattle.desk_model.specs.Payload.{challenge_change, finalize};
ghost use Rattle.serde_json.specs.Find.{as_bool};

use desk_model::{AccountChange, AuthorizationChange, ChallengeChange, NewAccount, Sequence, Text};
use identifiers::says_deactivated;
use json_texts::{text_of, texts_in};
use serde_json::Value;
use std::alloc::{AllocError, Global};

/// The payload of a signed request, and the object that it holds, if it holds one.
#[derive(Clone, Copy)]
pub(crate) struct Payload<'a> {
    pub(crate) text: &'a str,
    pub(crate) object: Option<&'a Value>,
}

impl<'a> Payload<'a> {
    /// A payload with the value that was read in its text, which may be another than an object.
    #[tactic(auto, unfolding(desk_model::specs::Payload::object_in))]
    pub(crate) fn new(text: &'a str, value: &'a Option<Value>) -> Payload<'a>
        requires { option_map (λ v. view v) value.now ≡ read text.now }
        ensures text { result.text.now ≡ text.now }
        ensures object { option_map (λ v. view v.now) result.object ≡ object_in result.text.now }
    {
        match value {
            Some(value) if value.is_object() => Payload {
                text,
                object: Some(value),
            },
            _ => Payload { text, object: None },
        }
    }
}

// The texts of a member that may be left out, `None` where it is there in another form.
fn optional_texts(
    alloc: Global,
    member: Option<&Value>,
) -> Result<Option<Option<Sequence<Text>>>, AllocError>
    ensures { IfOk result (λ o. o ≡ optional texts_in (option_map (λ v. view v.now) member.entry)) }
{
    let Some(value) = member else {
        return Ok(Some(None));
    };
    match texts_in(alloc, value)? {
        Some(found) => Ok(Some(Some(found))),
        None => Ok(None),
    }
}

// The truth value of a member that may be left out, `None` where it is there in another form.
fn optional_bool(member: Option<&Value>) -> Option<Option<bool>>
    ensures { result ≡ optional as_bool (option_map (λ v. view v.now) member.entry) }
{
    match member {
        Some(value) => Some(Some(value.as_bool()?)),
        None => Some(None),
    }
}

/// What a newAccount payload asks, `None` where it has another form (RFC 8555, 7.3).
pub(crate) fn new_account(alloc: Global, payload: Payload) -> Result<Option<NewAccount>, AllocError>
    requires { option_map (λ v. view v.now) payload.object ≡ object_in payload.text.now }
    ensures { IfOk result (λ o. o ≡ new_account payload.entry.text.now) }
{
    let Some(value) = payload.object else {
        return Ok(None);
    };
    let Some(only_existing) = optional_bool(value.get("onlyReturnExisting")) else {
        return Ok(None);
    };
    let Some(contacts) = optional_texts(alloc, value.get("contact"))? else {
        return Ok(None);
    };
    let contacts = match contacts {
        Some(contacts) => contacts,
        None => Sequence::new(Vec::new(alloc)),
    };
    Ok(Some(NewAccount {
        contacts,
        only_existing: only_existing.unwrap_or(false),
    }))
}

/// What a request to an account asks, `None` where the payload has another form (RFC 8555, 7.3.2).
pub(crate) fn account_change(
    alloc: Global,
    payload: Payload,
) -> Result<Option<AccountChange>, AllocError>
    requires { option_map (λ v. view v.now) payload.object ≡ object_in payload.text.now }
    ensures { IfOk result (λ o. o ≡ account_change payload.entry.text.now) }
{
    if payload.text.is_empty() {
        return Ok(Some(AccountChange::Read));
    }
    let Some(value) = payload.object else {
        return Ok(None);
    };
    if says_deactivated(value) {
        return Ok(Some(AccountChange::Deactivate));
    }
    match optional_texts(alloc, value.get("contact"))? {
        Some(contacts) => Ok(Some(AccountChange::Update(contacts))),
        None => Ok(None),
    }
}

/// What a request to an authorization asks, `None` where the payload has another form (RFC 8555, 7.5.2).
pub(crate) fn authorization_change(payload: Payload) -> Option<AuthorizationChange>
    requires { option_map (λ v. view v.now) payload.object ≡ object_in payload.text.now }
    ensures { result ≡ authorization_change payload.entry.text.now }
{
    if payload.text.is_empty() {
        return Some(AuthorizationChange::Read);
    }
    if says_deactivated(payload.object?) {
        return Some(AuthorizationChange::Deactivate);
    }
    None
}

/// What a request to a challenge asks, `None` where the payload has another form (RFC 8555, 7.5.1).
pub(crate) fn challenge_change(payload: Payload) -> Option<ChallengeChange>
    requires { option_map (λ v. view v.now) payload.object ≡ object_in payload.text.now }
    ensures { result ≡ challenge_change payload.entry.text.now }
{
    if payload.text.is_empty() {
        return Some(ChallengeChange::Read);
    }
    match payload.object {
        Some(_) => Some(ChallengeChange::Answer),
        None => None,
    }
}

/// The text of the CSR that a finalize payload hands in, `None` where it has another form (RFC 8555, 7.4).
pub(crate) fn finalize<'a>(payload: Payload<'a>) -> Option<&'a str>
    requires { option_map (λ v. view v.now) payload.object ≡ object_in payload.text.now }
    ensures { option_map (λ s. s.now) result ≡ finalize payload.entry.text.now }
{
    text_of(payload.object?, "csr")
}
