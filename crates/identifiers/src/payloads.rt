//! What the payloads of requests ask for: the names of a new order, another key, the end of an object.
ghost use Rattle.std.specs.Prelude.{◌≡◌, option_map, IfOk};
ghost use Rattle.identifiers.specs.AskedOrders.{asked_order, order_names, order_of};
ghost use Rattle.serde_json.specs.{Read.read, View.view, View.items_view};
ghost use Rattle.desk_model.specs.Payload.{each_in, identifier_in, key_change, new_order_in, object_in, says_deactivated};

use crate::names::{Identified, identify};
use desk_model::{DnsName, Identifier, KeyChange, MOST_NAMES, Refusal, Sequence, Subproblem};
use json_texts::{text_of, texts_of};
use keys::key_change_of;
use serde_json::Value;
use std::alloc::{AllocError, Global};

/// What the payload of a newOrder request asks for (RFC 8555, 7.4).
#[derive(Drop)]
pub enum AskedOrder {
    /// Its form is another, or it has no identifiers, or more than fifty.
    Malformed,
    /// Identifiers are refused.
    Faulty {
        /// Why the first of them is.
        refusal: Refusal,
        /// Each of them, in order.
        subproblems: Sequence<Subproblem>,
    },
    /// An order for these names, each once.
    Names(Sequence<DnsName>),
}

impl AskedOrder {
    /// The names that are asked for, `None` where there is no order to be made.
    pub fn names(&self) -> Option<&[DnsName]>
        ensures { option_map (λ v. v.now) result ≡ order_names self.now }
    {
        match self {
            AskedOrder::Names(names) => Some(names.as_slice()),
            _ => None,
        }
    }
}

// What identifiers ask for.
fn order_of(alloc: Global, identifiers: &[Identifier]) -> Result<AskedOrder, AllocError>
    ensures { IfOk result (λ o. o ≡ order_of identifiers.now) }
{
    if identifiers.is_empty() || identifiers.len() > MOST_NAMES {
        return Ok(AskedOrder::Malformed);
    }
    let Identified { names, faulty } = identify(alloc, identifiers)?;
    if let Some(first) = faulty.first() {
        return Ok(AskedOrder::Faulty {
            refusal: first.refusal,
            subproblems: Sequence::new(faulty),
        });
    }
    Ok(AskedOrder::Names(Sequence::new(names)))
}

/// What a payload asks for, by the value that was read in its text.
///
/// # Errors
///
/// Where there is no memory for it.
pub(crate) fn asked_order(
    alloc: Global,
    text: &str,
    value: &Option<Value>,
) -> Result<AskedOrder, AllocError>
    requires { option_map (λ v. view v) value.now ≡ read text.now }
    ensures { IfOk result (λ o. o ≡ asked_order text.now) }
{
    let Some(object) = object_of(text, value) else {
        return Ok(AskedOrder::Malformed);
    };
    match new_order_in(alloc, object)? {
        Some(identifiers) => order_of(alloc, identifiers.as_slice()),
        None => Ok(AskedOrder::Malformed),
    }
}

// ---- payloads: JSON texts

// The object that was read in a text, if it is one.
#[tactic(auto, unfolding(desk_model::specs::Payload::object_in))]
fn object_of<'a>(text: &str, value: &'a Option<Value>) -> Option<&'a Value>
    requires { option_map (λ v. view v) value.now ≡ read text.now }
    ensures { option_map (λ v. view v.now) result ≡ object_in text.now }
{
    match value {
        Some(value) if value.is_object() => Some(value),
        _ => None,
    }
}

/// Whether an object says that what it is sent to is to be deactivated (RFC 8555, 7.3.6 and 7.5.2).
pub fn says_deactivated(value: &Value) -> bool
    ensures { result ≡ says_deactivated (view value.now) }
{
    match text_of(value, "status") {
        Some(text) => text == "deactivated",
        None => false,
    }
}

/// What the payload of a keyChange asks, by the value that was read in its text (RFC 8555, 7.3.5).
///
/// # Errors
///
/// Where there is no memory for it.
pub(crate) fn asked_key_change(
    alloc: Global,
    text: &str,
    value: &Option<Value>,
) -> Result<Option<KeyChange>, AllocError>
    requires { option_map (λ v. view v) value.now ≡ read text.now }
    ensures { IfOk result (λ o. o ≡ key_change text.now) }
{
    match object_of(text, value) {
        Some(object) => key_change_of(alloc, object),
        None => Ok(None),
    }
}

fn identifier_in(alloc: Global, value: &Value) -> Result<Option<Identifier>, AllocError>
    ensures { IfOk result (λ o. o ≡ identifier_in (view value.now)) }
{
    match texts_of(alloc, value, "type", "value")? {
        Some((kind, value)) => Ok(Some(Identifier { kind, value })),
        None => Ok(None),
    }
}

// The identifiers of a list, `None` where one of its items is none.
fn identifiers(alloc: Global, items: &[Value]) -> Result<Option<Vec<Identifier>>, AllocError>
    ensures { IfOk result (λ o. option_map (λ v. v.items) o ≡ each_in identifier_in (items_view items.now)) }
{
    let mut found = Vec::new(alloc);
    for item in items {
        let Some(identifier) = identifier_in(alloc, item)? else {
            return Ok(None);
        };
        found.push(identifier)?;
    }
    Ok(Some(found))
}

// The identifiers that the object of a newOrder payload asks for, `None` where it has another form (RFC 8555, 7.4).
//
// # Errors
//
// Where there is no memory for them.
fn new_order_in(alloc: Global, value: &Value) -> Result<Option<Vec<Identifier>>, AllocError>
    ensures { IfOk result (λ o. option_map (λ v. v.items) o ≡ new_order_in (view value.now)) }
{
    if value.get("notBefore").is_some() || value.get("notAfter").is_some() {
        return Ok(None);
    }
    let Some(listed) = value.get("identifiers") else {
        return Ok(None);
    };
    match listed.as_array() {
        Some(items) => identifiers(alloc, items.as_slice()),
        None => Ok(None),
    }
}
