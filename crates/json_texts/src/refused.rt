//! The JSON documents of refusals and the replies that refuse (RFC 7807; RFC 8555, 6.7), and the problems of orders.
ghost use Rattle.std.specs.Prelude.{◌≡◌, IfOk, OnOk, Some, map, string_bytes};
ghost use Rattle.serde_json.specs.{Data.string, Read.read, Written.compact_text};
ghost use Rattle.serde_json.specs.View.{view, members_view};
ghost use Rattle.desk_model.specs.Json.{list, members};
ghost use Rattle.desk_model.specs.Refusals.{refusal_of, error_type, problem_document, subproblem_document};
ghost use Rattle.json_texts.specs.Refused.{identifier, refusal_members, with_subproblems};
ghost use Rattle.json_texts.specs.RefusalReplies.{refusal_reply};
ghost use Rattle.json_texts.specs.Problems.{order_problem, order_problem_in};

use crate::values::{texts_of, value_of};
use desk_model::{
    Allow, Body, Document, OrderProblem, Problem, Refusal, Reply, Sequence, Subproblem,
};
use serde_json::{Map, Value, json, put};
use std::alloc::{AllocError, Global};

/// The document of a refusal (RFC 7807).
///
/// # Errors
///
/// Where there is no memory for it.
pub fn problem_document(alloc: Global, problem: &Problem) -> Result<Document, AllocError>
    ensures { IfOk result (λ d. d ≡ problem_document problem.now) }
{
    let text = problem_text(alloc, problem)?;
    Ok(Document::of_text(text))
}

/// The text of a refusal's document.
///
/// # Errors
///
/// Where there is no memory for it.
pub fn problem_text(alloc: Global, problem: &Problem) -> Result<String, AllocError>
    ensures text { IfOk result (λ text. string_bytes text ≡ compact_text (problem_document problem.now)) }
    ensures reads { IfOk result (λ text. read (string_bytes text) ≡ Some (problem_document problem.now)) }
{
    problem_value(alloc, problem)?.to_string(alloc)
}

// The JSON value of a refusal.
fn problem_value(alloc: Global, problem: &Problem) -> Result<Value, AllocError>
    ensures { IfOk result (λ v. view v ≡ problem_document problem.now) }
{
    let mut members = refusal_members(alloc, problem.refusal)?;
    let status = Value::from(problem.refusal.status());
    put(&mut members, alloc, "status", status)?;
    insert_subproblems(&mut members, alloc, problem.subproblems.as_slice())?;
    Ok(Value::Object(members))
}

// The members that refusals and refused identifiers share.
fn refusal_members(alloc: Global, refusal: Refusal) -> Result<Map<String, Value>, AllocError>
    ensures { IfOk result (λ m. members_view m.entries ≡ members (refusal_members refusal)) }
{
    let mut members = Map::new(alloc);
    let detail = Value::try_from_str(alloc, refusal.detail())?;
    put(&mut members, alloc, "detail", detail)?;
    let kind = error_type(alloc, refusal)?;
    put(&mut members, alloc, "type", kind)?;
    Ok(members)
}

// Adds the refused identifiers, where there are any (RFC 8555, 6.7.1).
#[tactic(auto, using(crate::proofs::Plain::some_put))]
fn insert_subproblems(
    members: &mut Map<String, Value>,
    alloc: Global,
    subproblems: &[Subproblem],
) -> Result<(), AllocError>
    ensures { OnOk result (members_view members.new.entries ≡ with_subproblems subproblems.now (members_view members.old.entries)) }
{
    if subproblems.is_empty() {
        return Ok(());
    }
    let list = subproblem_list(alloc, subproblems)?;
    put(members, alloc, "subproblems", list)
}

// The list of the documents of refused identifiers.
fn subproblem_list(alloc: Global, subproblems: &[Subproblem]) -> Result<Value, AllocError>
    ensures { IfOk result (λ v. view v ≡ list (map subproblem_document subproblems.now)) }
{
    let mut documents = Vec::new(alloc);
    for subproblem in subproblems {
        documents.push(subproblem_document(alloc, subproblem)?)?;
    }
    Ok(Value::Array(documents))
}

// The document of one refused identifier (RFC 8555, 6.7.1).
fn subproblem_document(alloc: Global, subproblem: &Subproblem) -> Result<Value, AllocError>
    ensures { IfOk result (λ v. view v ≡ subproblem_document subproblem.now) }
{
    let mut members = refusal_members(alloc, subproblem.refusal)?;
    let identifier = identifier(alloc, subproblem.kind.as_str(), subproblem.value.as_str())?;
    put(&mut members, alloc, "identifier", identifier)?;
    Ok(Value::Object(members))
}

// An identifier as it was received.
fn identifier(alloc: Global, kind: &str, value: &str) -> Result<Value, AllocError>
    ensures { IfOk result (λ v. view v ≡ identifier kind.now value.now) }
{
    json!(in alloc; {"type": kind, "value": value})
}

// The error type of a refusal (RFC 8555, 6.7).
fn error_type(alloc: Global, refusal: Refusal) -> Result<Value, AllocError>
    ensures { IfOk result (λ v. view v ≡ string (error_type (refusal_of refusal).error_type)) }
{
    Ok(Value::String(type_text(alloc, refusal.error_type())?))
}

/// The text of the error type of this name (RFC 8555, 6.7).
///
/// # Errors
///
/// Where there is no memory for it.
pub fn type_text(alloc: Global, name: &str) -> Result<String, AllocError>
    ensures { IfOk result (λ text. string_bytes text ≡ error_type name.now) }
{
    format!(in alloc; "urn:ietf:params:acme:error:{name}")
}

// ---- replies that refuse

/// The reply that refuses a request, without a nonce: `subproblems` are the identifiers that were refused
/// (RFC 8555, 6.7.1), `allow` the methods that the resource serves where it was asked by another, and `index` says
/// whether the reply has the link to the directory (RFC 8555, 7.1).
pub fn refusal_reply(
    refusal: Refusal,
    subproblems: Sequence<Subproblem>,
    allow: Allow,
    index: bool,
) -> Reply
    ensures { result ≡ refusal_reply refusal subproblems allow index }
{
    Reply {
        status: refusal.status(),
        location: None,
        up: None,
        nonce: None,
        body: Body::Problem(Problem {
            refusal,
            subproblems,
            allow,
            index,
        }),
    }
}

// ---- problems of orders

/// The problem of an order that a text spells, a JSON object with the strings `type` and `detail`, or `None` where it is
/// no such object.
///
/// # Errors
///
/// Where there is no memory for it.
pub fn order_problem(alloc: Global, text: &str) -> Result<Option<OrderProblem>, AllocError>
    ensures { IfOk result (λ o. o ≡ order_problem text.now) }
{
    match value_of(alloc, text)? {
        Some(problem) => order_problem_in(alloc, &problem),
        None => Ok(None),
    }
}

// The type and the detail of a problem.
fn order_problem_in(alloc: Global, problem: &Value) -> Result<Option<OrderProblem>, AllocError>
    ensures { IfOk result (λ o. o ≡ order_problem_in (view problem.now)) }
{
    match texts_of(alloc, problem, "type", "detail")? {
        Some((kind, detail)) => Ok(Some(OrderProblem { kind, detail })),
        None => Ok(None),
    }
}
