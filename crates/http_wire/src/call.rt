//! A request, from the bytes of its reader to what it asks.
ghost use Rattle.std.specs.Prelude.{◌≡◌, ◌≤◌, ◌+◌, ◌++◌, ℕ, List, IfOk, IfSome, IsUtf8, length, take, drop, true, false, OnErr, All, map};
ghost use Rattle.httparse.specs.Grammar.{IsToken};
ghost use Rattle.httparse.specs.Spans.{IsRequestWithin, span_bytes, IsHeaderWithin, header_bytes};
ghost use Rattle.http_routes.specs.{Request.refused_request, Routes.has_index};
ghost use Rattle.http_wire.specs.Spelled.{IsRequestWith, form_by};
ghost use Rattle.http_wire.specs.Head.{TakesAtMost, HeadSays, most_fields};
ghost use Rattle.http_wire.specs.ParsedRequest.{Parses, IsPlan, IsRequestAt};
ghost use Rattle.desk_model.specs.Limits.{longest_body, longest_head};
ghost use Rattle.std.specs.Io.KnownBytes.{Consumes};
ghost use Rattle.desk_model.specs.declared.reply.Allow.TheVariants.{No};

use crate::body::{Framing, ReadFailed, answer_to, fill, framing_for, read_body};
use desk_model::{Allow, LONGEST_HEAD, Refusal};
use http_routes::{Place, Request, RequestRefusal, Resource, Routes, has_index, place_of};
use httparse::Status;
use httparse::spans::{EMPTY_HEADER_SPAN, HeaderSpan, RequestSpans, parse_request};
use std::alloc::{AllocError, Global};
use std::io::Read;

/// How the reply to a request is written.
#[derive(Clone, Copy)]
pub struct ReplyForm {
    /// Without its body.
    pub head_only: bool,
    /// With the link to the directory, where it is a refusal.
    pub index: bool,
}

/// What was read of a request.
#[derive(Drop)]
pub struct ParsedRequest {
    /// How its reply is written.
    pub form: ReplyForm,
    /// What it asks, or its refusal; an error where memory for it was refused.
    pub request: Result<Request, AllocError>,
}

/// Reads a request: its head, of 16384 bytes and 64 fields at most, and as much of what follows as the head says
/// (RFC 9112, 2 to 6). That is 131072 bytes at most. Each read takes one byte at least but the last, and one that a signal
/// broke is made again.
///
/// # Errors
///
/// Where the reader fails.
pub fn read_call<R: Read>(alloc: Global, reader: &mut R) -> Result<ParsedRequest, ReadFailed>
    ensures parsed { IfOk result (λ parsed. IfSome (R.remaining reader.old) (λ input. Parses input parsed)) }
    ensures taken { TakesAtMost (R.remaining reader.old) (R.remaining reader.new) (longest_head + longest_body) }
{
    let mut routes = Routes::new();
    read_call_by(alloc, &mut routes, reader)
}

/// Reads a request as `read_call` does, by routes that are lent for one request after the other.
///
/// # Errors
///
/// Where the reader fails.
#[tactic(auto, using(crate::proofs::Parsing::complete_read, crate::proofs::Parsing::malformed_parsed, crate::proofs::Bytes::takes_then, crate::proofs::Bytes::takes_within, crate::proofs::Parsing::too_large_parsed))]
pub fn read_call_by<R: Read>(
    alloc: Global,
    routes: &mut Routes,
    reader: &mut R,
) -> Result<ParsedRequest, ReadFailed>
    ensures parsed { IfOk result (λ parsed. IfSome (R.remaining reader.old) (λ input. Parses input parsed)) }
    ensures taken { TakesAtMost (R.remaining reader.old) (R.remaining reader.new) (longest_head + longest_body) }
{
    let mut buffer = [0u8; LONGEST_HEAD];
    let mut headers = [EMPTY_HEADER_SPAN; MOST_FIELDS];
    let (head, filled) = read_head(reader, &mut buffer, &mut headers)?;
    let bytes = &buffer[..filled];
    match head {
        HeadRead::Malformed => Ok(unread(Refusal::Malformed)),
        HeadRead::TooLarge => Ok(unread(Refusal::TooLarge)),
        HeadRead::Complete(spans) => read_headed(alloc, routes, reader, bytes, &headers, spans),
    }
}

// The request whose head lies at these spans of the bytes that were read.
#[tactic(auto, using(crate::proofs::Fields::headers_within, crate::proofs::Asked::read_same, crate::proofs::Bytes::takes_none, crate::proofs::Fields::token_is_text))]
fn read_headed<R: Read>(
    alloc: Global,
    routes: &mut Routes,
    reader: &mut R,
    bytes: &[u8],
    headers: &[HeaderSpan],
    spans: RequestSpans,
) -> Result<ParsedRequest, ReadFailed>
    requires within { IsRequestWithin bytes.now headers.now spans }
    requires method { IsToken (span_bytes bytes.now spans.method) }
    requires path { IsUtf8 (span_bytes bytes.now spans.path) }
    ensures form { IfOk result (λ parsed. parsed.form ≡ form_by (span_bytes bytes.now spans.method) (span_bytes bytes.now spans.path)) }
    ensures request { IfOk result (λ parsed. IfOk parsed.request
        (λ q. IfSome (R.remaining reader.old) (λ left. IsRequestAt bytes.now headers.now spans left q))) }
    ensures taken { TakesAtMost (R.remaining reader.old) (R.remaining reader.new) longest_body }
{
    let method = text_of(spans.method.of(bytes));
    let path = text_of(spans.path.of(bytes));
    let form = form_by(method, path);
    let fields = first(headers, spans.headers);
    let begun = behind(bytes, spans.len);
    match plan_for(alloc, routes, method, path, form.index, bytes, fields) {
        Ok(plan) => read_as(alloc, reader, plan, method, form, begun),
        Err(error) => Ok(ParsedRequest {
            form,
            request: Err(error),
        }),
    }
}

// The request of this method by a plan for it, with what was begun behind its head, and how its reply is written.
fn read_as<R: Read>(
    alloc: Global,
    reader: &mut R,
    plan: Plan,
    method: &str,
    form: ReplyForm,
    begun: &[u8],
) -> Result<ParsedRequest, ReadFailed>
    ensures form { IfOk result (λ parsed. parsed.form ≡ form) }
    ensures request { (path : List ℕ) → form.index ≡ has_index path → (fields : List (List ℕ × List ℕ)) → IsPlan method.now path fields plan
        → IfOk result (λ parsed. IfOk parsed.request
        (λ q. IfSome (R.remaining reader.old) (λ left. IsRequestWith method.now path fields (begun.now ++ left) q))) }
    ensures taken { (path : List ℕ) (fields : List (List ℕ × List ℕ)) → IsPlan method.now path fields plan
        → TakesAtMost (R.remaining reader.old) (R.remaining reader.new) longest_body }
{
    let request = read_planned(alloc, reader, plan, method, form.index, begun)?;
    Ok(ParsedRequest { form, request })
}

// The text of these bytes.
fn text_of(bytes: &[u8]) -> &str
    requires { IsUtf8 bytes.now }
    ensures { result.now ≡ bytes.now }
{
    match str::from_utf8(bytes) {
        Ok(text) => text,
        Err(_) => unreachable!(),
    }
}

// How the reply to a request of this method and path is written.
fn form_by(method: &str, path: &str) -> ReplyForm
    ensures { result ≡ form_by method.now path.now }
{
    ReplyForm {
        head_only: method == "HEAD",
        index: has_index(path),
    }
}

// The refusal of a request without a head.
fn unread(refusal: Refusal) -> ParsedRequest
    ensures form { result.form ≡ record { head_only = false; index = true } }
    ensures request { result.request ≡ Ok (Request.Refused (refused_request refusal Allow.No true)) }
{
    ParsedRequest {
        form: ReplyForm {
            head_only: false,
            index: true,
        },
        request: Ok(Request::Refused(RequestRefusal {
            refusal,
            allow: Allow::No,
            index: true,
        })),
    }
}

// The first spans.
fn first(headers: &[HeaderSpan], count: usize) -> &[HeaderSpan]
    requires { count ≤ length headers.now }
    ensures { result.now ≡ take count headers.now }
{
    &headers[..count]
}

// What stands behind so many bytes.
fn behind(bytes: &[u8], len: usize) -> &[u8]
    requires { len ≤ length bytes.now }
    ensures { result.now ≡ drop len bytes.now }
{
    &bytes[len..]
}

// The request of this method by a plan for it, with what was begun behind its head; an inner error where memory was refused.
#[tactic(auto, using(crate::proofs::Limits::body_within, crate::proofs::Asked::request_behind, crate::proofs::Bytes::takes_none, crate::proofs::Bytes::takes_within, crate::proofs::Asked::whatever_is_left))]
fn read_planned<R: Read>(
    alloc: Global,
    reader: &mut R,
    plan: Plan,
    method: &str,
    index: bool,
    begun: &[u8],
) -> Result<Result<Request, AllocError>, ReadFailed>
    ensures request { (path : List ℕ) → index ≡ has_index path → (fields : List (List ℕ × List ℕ)) → IsPlan method.now path fields plan
        → IfOk result (λ r. IfOk r
        (λ q. IfSome (R.remaining reader.old) (λ left. IsRequestWith method.now path fields (begun.now ++ left) q))) }
    ensures taken { (path : List ℕ) (fields : List (List ℕ × List ℕ)) → IsPlan method.now path fields plan
        → TakesAtMost (R.remaining reader.old) (R.remaining reader.new) longest_body }
{
    match plan {
        Plan::Refused(why) => Ok(Ok(Request::Refused(why))),
        Plan::Takes(resource, count) => match read_body(alloc, reader, begun, count)? {
            Ok(body) => Ok(answer_to(alloc, resource, method, index, body)),
            Err(error) => Ok(Err(error)),
        },
    }
}

// ---- the head, read into a buffer of fixed size

// The most fields of a head.
const MOST_FIELDS: usize = 64;

/// What the first bytes of a request are.
#[derive(Clone, Copy)]
pub enum HeadRead {
    /// A head, whose parts lie at these spans.
    Complete(RequestSpans),
    /// They begin no head, or one of too many fields; or the input ends before a head does.
    Malformed,
    /// They fill the buffer, and a head goes on behind it.
    TooLarge,
}

// Reads until a head is there, it can be one no more, the input ends, or the buffer is full; tells how far it read.
#[tactic(auto, using(crate::proofs::Bytes::consumes_more))]
fn read_head<R: Read>(
    reader: &mut R,
    buffer: &mut [u8],
    headers: &mut [HeaderSpan],
) -> Result<(HeadRead, usize), ReadFailed>
    requires room { length buffer.old ≡ longest_head }
    requires fields { length headers.old ≡ most_fields }
    ensures within { IfOk result (λ r. r.1 ≤ length buffer.new) }
    ensures says { IfOk result (λ r. HeadSays (take r.1 buffer.new) headers.new (R.remaining reader.new) r.0) }
    ensures bytes { IfOk result (λ r. Consumes (R.remaining reader.old) (R.remaining reader.new) (take r.1 buffer.new)) }
    ensures failed { OnErr result (TakesAtMost (R.remaining reader.old) (R.remaining reader.new) longest_head) }
{
    let mut filled = 0;
    while filled < buffer.len() {
        match parse_request(&buffer[..filled], headers) {
            Ok(Status::Complete(spans)) => return Ok((HeadRead::Complete(spans), filled)),
            Ok(Status::Partial) => {}
            Err(_) => return Ok((HeadRead::Malformed, filled)),
        }
        let count = fill(reader, buffer, filled)?;
        if count == 0 {
            return Ok((HeadRead::Malformed, filled));
        }
        filled += count;
    }
    match parse_request(&buffer[..filled], headers) {
        Ok(Status::Complete(spans)) => Ok((HeadRead::Complete(spans), filled)),
        Ok(Status::Partial) => Ok((HeadRead::TooLarge, filled)),
        Err(_) => Ok((HeadRead::Malformed, filled)),
    }
}

// ---- what a head says before the body behind it is read

/// What is done with a request whose head is read.
#[derive(Clone, Copy)]
pub enum Plan {
    /// It is refused, whatever follows.
    Refused(RequestRefusal),
    /// So many bytes are taken for this resource.
    Takes(Resource, usize),
}

// What is done with the request of this method, path and fields, where `index` is whether a reply at the path has the link to the
// directory.
//
// # Errors
//
// Where there is no memory for it.
fn plan_for(
    alloc: Global,
    routes: &mut Routes,
    method: &str,
    path: &str,
    index: bool,
    buffer: &[u8],
    headers: &[HeaderSpan],
) -> Result<Plan, AllocError>
    requires index { index ≡ has_index path.now }
    requires within { All (IsHeaderWithin (length buffer.now)) headers.now }
    ensures { IfOk result (λ p. IsPlan method.now path.now (map (header_bytes buffer.now) headers.now) p) }
{
    match place_of(alloc, routes, method, path, index)? {
        Place::Unserved(why) => Ok(Plan::Refused(why)),
        Place::Served(resource) => match framing_for(resource, buffer, headers) {
            Framing::Malformed => Ok(refused(Refusal::Malformed, index)),
            Framing::TooLarge => Ok(refused(Refusal::TooLarge, index)),
            Framing::Takes(count) => Ok(Plan::Takes(resource, count)),
        },
    }
}

// The refusal of a request, whatever follows.
fn refused(refusal: Refusal, index: bool) -> Plan
    ensures { result ≡ Plan.Refused (refused_request refusal No index) }
{
    Plan::Refused(RequestRefusal {
        refusal,
        allow: Allow::No,
        index,
    })
}
