//! The specification's first calls in one run of a desk, with their replies (docs/SPECIFICATION.md, 16).
use crate::asking::{call, request};
use crate::trial::{Trial, new_desk_passes};
use desk::{Desk, DeskFault};
use desk_http::problem_document;
use desk_model::{Ask, Body, Call, Reply, Sequence, Target, Text};
use std::alloc::{AllocError, Global};
use std::process::Abort;
use std::test::Fail;
use store_api::Storage;

// The first nonce of a desk whose random bytes are all zero.
const NONCE: &str = "AAAAAAAAAAEAAAAAAAAAAAAAAAAAAAAA";

const PAYLOAD: &str = r#"{"contact":["mailto:a@b.example"],"termsOfServiceAgreed":true}"#;

// The status, the location, the nonce and the body of each reply: of the first nonce, the first account, and its request sent again.
const FIRST_REPLIES: [&str; 3] = [
    "204 - AAAAAAAAAAEAAAAAAAAAAAAAAAAAAAAA -",
    "201 https://ca.example/account/1 AAAAAAAAAAIAAAAAAAAAAAAAAAAAAAAA \
    {\"contact\":[\"mailto:a@b.example\"],\"orders\":\"https://ca.example/account/1/orders\",\"status\":\"valid\"}",
    "400 - AAAAAAAAAAMAAAAAAAAAAAAAAAAAAAAA \
    {\"detail\":\"the nonce is not open\",\"status\":400,\"type\":\"urn:ietf:params:acme:error:badNonce\"}",
];

// The request for the first account.
fn asks_account(rt: &impl Abort, alloc: Global) -> Result<Call, Fail> {
    let nonce = Text::new(String::from_str(alloc, NONCE)?);
    let payload = String::from_str(alloc, PAYLOAD)?;
    request(rt, alloc, Target::NewAccount, Some(nonce), payload)
}

// The first calls.
fn first_calls(rt: &impl Abort, alloc: Global) -> Result<Vec<Call>, Fail> {
    let mut calls = Vec::new(alloc);
    calls.push(call(alloc, Ask::NewNonce { head: false })?)?;
    calls.push(asks_account(rt, alloc)?)?;
    calls.push(asks_account(rt, alloc)?)?;
    Ok(calls)
}

// A call for a nonce without random bytes, and one with them behind it.
fn short_calls(alloc: Global) -> Result<Vec<Call>, Fail> {
    let mut calls = Vec::new(alloc);
    calls.push(Call {
        at: 0,
        random: Sequence::new(Vec::new(alloc)),
        ask: Ask::NewNonce { head: false },
    })?;
    calls.push(call(alloc, Ask::NewNonce { head: false })?)?;
    Ok(calls)
}

// A text of a reply, or a dash.
fn given(text: &Option<Text>) -> &str {
    match text {
        Some(text) => text.as_str(),
        None => "-",
    }
}

// The text of a body, or a dash.
fn body_text(alloc: Global, body: &Body) -> Result<String, AllocError> {
    match body {
        Body::Json(document) => String::from_str(alloc, document.text()),
        Body::Problem(problem) => {
            let document = problem_document(alloc, problem)?;
            String::from_str(alloc, document.text())
        }
        _ => String::from_str(alloc, "-"),
    }
}

// Whether a reply has these fields.
fn has_fields(alloc: Global, reply: &Reply, wanted: &str) -> Result<bool, AllocError> {
    let status = reply.status;
    let location = given(&reply.location);
    let nonce = given(&reply.nonce);
    let body = body_text(alloc, &reply.body)?;
    let fields = format!(in alloc; "{status} {location} {nonce} {body}")?;
    Ok(fields.as_str() == wanted)
}

// Whether these are the first replies.
fn are_first(alloc: Global, replies: &[Reply]) -> Result<bool, AllocError> {
    for (reply, wanted) in replies.iter().zip(FIRST_REPLIES) {
        if !has_fields(alloc, reply, wanted)? {
            return Ok(false);
        }
    }
    Ok(replies.len() == FIRST_REPLIES.len())
}

// Whether a run of the first calls gives the first replies, and no fault.
fn runs_first<K: Storage + Drop>(
    rt: &impl Abort,
    alloc: Global,
    desk: &mut Desk<K>,
) -> Result<bool, Fail> {
    let calls = first_calls(rt, alloc)?;
    let (replies, fault) = desk.run(alloc, calls.as_slice());
    drop(calls);
    let are_first = are_first(alloc, replies.as_slice());
    drop(replies);
    Ok(are_first? && fault.is_none())
}

// Whether a run ends at a call that lacks random bytes.
fn ends_at_short<K: Storage + Drop>(alloc: Global, desk: &mut Desk<K>) -> Result<bool, Fail> {
    let calls = short_calls(alloc)?;
    let (replies, fault) = desk.run(alloc, calls.as_slice());
    drop(calls);
    Ok(replies.is_empty() && fault == Some(DeskFault::ShortRandom))
}

// The first calls run to their end, and calls without random bytes to the first of these.
#[derive(Drop)]
struct Runs;

impl Trial for Runs {
    fn passes<A: Abort, K: Storage + Drop>(
        &self,
        rt: &A,
        alloc: Global,
        desk: &mut Desk<K>,
    ) -> Result<bool, Fail> {
        let runs_first = runs_first(rt, alloc, desk)?;
        let ends_at_short = ends_at_short(alloc, desk)?;
        Ok(runs_first && ends_at_short)
    }
}

#[test]
fn first_calls_run_to_their_end_and_short_ones_to_the_first_fault(
    rt: HostRuntime,
) -> Result<(), Fail> {
    assert!(rt; new_desk_passes(&rt, rt.alloc(), &Runs)?);
    Ok(())
}
