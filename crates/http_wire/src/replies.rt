//! Replies as bytes: their heads and bodies, written one piece behind the other.
ghost use Rattle.std.specs.Prelude.{◌≡◌, ◌++◌, IfOk, OnOk, codes, decimal};
ghost use Rattle.http_wire.specs.Replies.{first_lines, last_lines, reply_bytes, body_allow, body_bytes, body_fields, has_body, has_index, is_new_nonce};
ghost use Rattle.http_wire.specs.Replies.{allow_field, cache_line, content_fields, crlf, field, field_if, index_line, link, phrase, status_line, up_link};

use desk_model::{Allow, Body, Reply, Text};
use http::{Method, StatusCode};
use json_texts::problem_text;
use std::alloc::{AllocError, Global};

/// The bytes of a reply, whose link to the directory is at this base; for a request by HEAD, its head alone
/// (RFC 9112, 2.1; RFC 9110, 9.3.2).
///
/// # Errors
///
/// Where there is no memory for them.
pub fn reply_text(
    alloc: Global,
    base: &str,
    reply: &Reply,
    head_only: bool,
) -> Result<Vec<u8>, AllocError>
    ensures { IfOk result (λ t. t.items ≡ reply_bytes base.now reply.now head_only) }
{
    let body = body_bytes(alloc, &reply.body)?;
    let mut out = Vec::new(alloc);
    push_head(alloc, &mut out, base, reply, body.len())?;
    if !head_only {
        out.extend_from_slice(&body)?;
    }
    Ok(out)
}

// What stands before the body.
fn push_head(
    alloc: Global,
    out: &mut Vec<u8>,
    base: &str,
    reply: &Reply,
    len: usize,
) -> Result<(), AllocError>
    ensures { OnOk result (out.new.items ≡ out.old.items ++ (first_lines reply.now len ++ last_lines base.now reply.now)) }
{
    push_first(alloc, out, reply, len)?;
    push_last(out, base, reply)
}

// The status line and the fields up to those of the body.
fn push_first(alloc: Global, out: &mut Vec<u8>, reply: &Reply, len: usize) -> Result<(), AllocError>
    ensures { OnOk result (out.new.items ≡ out.old.items ++ first_lines reply.now len) }
{
    push_status(alloc, out, reply.status)?;
    push_field(out, "Connection", "close")?;
    push_body_allow(out, &reply.body)?;
    push_cache(out, is_new_nonce(reply))?;
    push_body_fields(alloc, out, &reply.body, len)
}

// The links, the place and the nonce, and the empty line.
fn push_last(out: &mut Vec<u8>, base: &str, reply: &Reply) -> Result<(), AllocError>
    ensures { OnOk result (out.new.items ≡ out.old.items ++ last_lines base.now reply.now) }
{
    push_index(out, has_index(&reply.body, reply.nonce.is_some()), base)?;
    push_up(out, &reply.up)?;
    push_field_if(out, "Location", &reply.location)?;
    push_field_if(out, "Replay-Nonce", &reply.nonce)?;
    push_end(out)
}

// ---- the bodies

// The bytes of a body.
fn body_bytes(alloc: Global, body: &Body) -> Result<Vec<u8>, AllocError>
    ensures { IfOk result (λ t. t.items ≡ body_bytes body.now) }
{
    match body {
        Body::Empty => Ok(Vec::new(alloc)),
        Body::Json(document) => Vec::from_slice(alloc, document.text().as_bytes()),
        Body::Problem(problem) => Ok(problem_text(alloc, problem)?.into_bytes()),
        Body::Certificate(bytes) => Vec::from_slice(alloc, bytes.as_slice()),
    }
}

// The fields that say how long a body is, and of what kind.
fn push_body_fields(
    alloc: Global,
    out: &mut Vec<u8>,
    body: &Body,
    len: usize,
) -> Result<(), AllocError>
    ensures { OnOk result (out.new.items ≡ out.old.items ++ body_fields body.now len) }
{
    match body {
        Body::Empty => Ok(()),
        Body::Json(_) => push_content(alloc, out, len, "application/json"),
        Body::Problem(_) => push_content(alloc, out, len, "application/problem+json"),
        Body::Certificate(_) => push_content(alloc, out, len, "application/pem-certificate-chain"),
    }
}

// The field with the methods that a path serves, where a refusal has them.
fn push_body_allow(out: &mut Vec<u8>, body: &Body) -> Result<(), AllocError>
    ensures { OnOk result (out.new.items ≡ out.old.items ++ body_allow body.now) }
{
    match body {
        Body::Problem(problem) => push_allow(out, problem.allow),
        _ => Ok(()),
    }
}

// Whether a reply has a body.
fn has_body(body: &Body) -> bool
    ensures { result ≡ has_body body.now }
{
    match body {
        Body::Empty => false,
        _ => true,
    }
}

// Whether a reply gives a nonce that was asked for (RFC 8555, 7.2).
fn is_new_nonce(reply: &Reply) -> bool
    ensures { result ≡ is_new_nonce reply.now }
{
    !has_body(&reply.body) && reply.nonce.is_some()
}

// Whether the link to the directory stands (RFC 8555, 7.1).
fn has_index(body: &Body, nonce: bool) -> bool
    ensures { result ≡ has_index body.now nonce }
{
    match body {
        Body::Problem(problem) => problem.index,
        _ => nonce,
    }
}

// ---- the pieces

// The phrase of a status (RFC 9110, 15).
#[tactic(auto, using(crate::proofs::Phrases::phrase_of_code, crate::proofs::Phrases::phrase_of_none))]
fn phrase_of(status: u16) -> &'static str
    ensures { result.now ≡ phrase status }
{
    match StatusCode::from_u16(status) {
        Ok(status) => status.canonical_reason().unwrap_or(""),
        Err(_) => "",
    }
}

// A text.
fn push_text(out: &mut Vec<u8>, text: &str) -> Result<(), AllocError>
    ensures { OnOk result (out.new.items ≡ out.old.items ++ text.now) }
{
    out.extend_from_slice(text.as_bytes())
}

// A number in decimal.
fn push_number(alloc: Global, out: &mut Vec<u8>, number: usize) -> Result<(), AllocError>
    ensures { OnOk result (out.new.items ≡ out.old.items ++ decimal number) }
{
    let text = format!(in alloc; "{number}")?;
    push_text(out, text.as_str())
}

// A field.
fn push_field(out: &mut Vec<u8>, name: &str, value: &str) -> Result<(), AllocError>
    ensures { OnOk result (out.new.items ≡ out.old.items ++ field name.now value.now) }
{
    push_text(out, name)?;
    push_text(out, ": ")?;
    push_text(out, value)?;
    push_text(out, "\r\n")
}

// A field with a list of two values (RFC 9110, 5.6.1).
fn push_two(out: &mut Vec<u8>, name: &str, first: &str, second: &str) -> Result<(), AllocError>
    ensures { OnOk result (out.new.items ≡ out.old.items ++ field name.now (first.now ++ codes ", " ++ second.now)) }
{
    push_text(out, name)?;
    push_text(out, ": ")?;
    push_text(out, first)?;
    push_text(out, ", ")?;
    push_text(out, second)?;
    push_text(out, "\r\n")
}

// A field, where there is a value.
fn push_field_if(out: &mut Vec<u8>, name: &str, value: &Option<Text>) -> Result<(), AllocError>
    ensures { OnOk result (out.new.items ≡ out.old.items ++ field_if name.now value.now) }
{
    match value {
        None => Ok(()),
        Some(value) => push_field(out, name, value.as_str()),
    }
}

// A link to a path after the base (RFC 8288, 3).
fn push_link(out: &mut Vec<u8>, base: &str, path: &str, kind: &str) -> Result<(), AllocError>
    ensures { OnOk result (out.new.items ≡ out.old.items ++ link (base.now ++ path.now) kind.now) }
{
    push_text(out, "Link: <")?;
    push_text(out, base)?;
    push_text(out, path)?;
    push_text(out, ">;rel=\"")?;
    push_text(out, kind)?;
    push_text(out, "\"\r\n")
}

// The status line (RFC 9112, 4).
fn push_status(alloc: Global, out: &mut Vec<u8>, status: u16) -> Result<(), AllocError>
    ensures { OnOk result (out.new.items ≡ out.old.items ++ status_line status) }
{
    push_text(out, "HTTP/1.1 ")?;
    push_number(alloc, out, usize::from(status))?;
    push_text(out, " ")?;
    push_text(out, phrase_of(status))?;
    push_text(out, "\r\n")
}

// The field with the methods that a path serves (RFC 9110, 10.2.1).
fn push_allow(out: &mut Vec<u8>, allow: Allow) -> Result<(), AllocError>
    ensures { OnOk result (out.new.items ≡ out.old.items ++ allow_field allow) }
{
    match allow {
        Allow::No => Ok(()),
        Allow::Get => push_field(out, "Allow", Method::GET.as_str()),
        Allow::GetHead => push_two(out, "Allow", Method::GET.as_str(), Method::HEAD.as_str()),
        Allow::Post => push_field(out, "Allow", Method::POST.as_str()),
    }
}

// The length and the kind of a body (RFC 9110, 8.3, 8.6).
fn push_content(alloc: Global, out: &mut Vec<u8>, len: usize, kind: &str) -> Result<(), AllocError>
    ensures { OnOk result (out.new.items ≡ out.old.items ++ content_fields len kind.now) }
{
    push_text(out, "Content-Length: ")?;
    push_number(alloc, out, len)?;
    push_text(out, "\r\n")?;
    push_field(out, "Content-Type", kind)
}

// The field that keeps a reply from caches (RFC 8555, 7.2).
fn push_cache(out: &mut Vec<u8>, is_given: bool) -> Result<(), AllocError>
    ensures { OnOk result (out.new.items ≡ out.old.items ++ cache_line is_given) }
{
    if is_given {
        push_field(out, "Cache-Control", "no-store")
    } else {
        Ok(())
    }
}

// The link to the directory (RFC 8555, 7.1).
fn push_index(out: &mut Vec<u8>, is_given: bool, base: &str) -> Result<(), AllocError>
    ensures { OnOk result (out.new.items ≡ out.old.items ++ index_line is_given base.now) }
{
    if is_given {
        push_link(out, base, "/directory", "index")
    } else {
        Ok(())
    }
}

// The link to a challenge's authorization (RFC 8555, 7.5.1).
fn push_up(out: &mut Vec<u8>, up: &Option<Text>) -> Result<(), AllocError>
    ensures { OnOk result (out.new.items ≡ out.old.items ++ up_link up.now) }
{
    match up {
        None => Ok(()),
        Some(target) => push_link(out, target.as_str(), "", "up"),
    }
}

// The empty line behind the fields.
fn push_end(out: &mut Vec<u8>) -> Result<(), AllocError>
    ensures { OnOk result (out.new.items ≡ out.old.items ++ crlf) }
{
    push_text(out, "\r\n")
}
