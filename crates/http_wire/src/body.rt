//! The body of a request: how long it is, its bytes, and what it asks.
ghost use Rattle.std.specs.Prelude.{◌≡◌, ◌≤◌, ◌++◌, ◌∷◌, [], ◌+◌, ◌-◌, ◌<◌, ℕ, List, Some, IfOk, IfSome, option_map, length, take, None};
ghost use Rattle.std.specs.Prelude.{MatchOption, All, map, OnErr, drop};
ghost use Rattle.http_wire.specs.Head.{TakesAtMost, Adds};
ghost use Rattle.http_wire.specs.ParsedRequest.{IsAnswerTo, IsBody};
ghost use Rattle.httparse.specs.Spans.{IsHeaderWithin, header_bytes};
ghost use Rattle.http_wire.specs.Framing.{FoundIs, framing, framing_by, framing_for, is_posted, length_in, limit_of, same_name, saturated, values_of};
ghost use Rattle.desk_model.specs.Limits.{longest_body};
ghost use Rattle.desk_model.specs.declared.{refusal.Refusal.TheVariants.{Malformed as malformed}, reply.Allow.TheVariants.{No}};
ghost use Rattle.http_routes.specs.Request.{refused_request};
ghost use Rattle.std.specs.Io.KnownBytes.{Consumes, IsAtEnd, Keeps};

use desk_model::{Allow, LONGEST_BODY, LONGEST_CERTIFICATE, Refusal};
use http_routes::{OfficeResource, Request, RequestRefusal, Resource, ask_in, look_in, methods_of};
use httparse::spans::HeaderSpan;
use std::alloc::{AllocError, Global};
use std::error::Error;
use std::fmt;
use std::io::{ErrorKind, Read};

/// The first bytes of what was begun and what the reader has left, or `None` where these are fewer; an inner error
/// where there is no memory for them.
#[tactic(auto, using(crate::proofs::Bodies::begun_whole, crate::proofs::Bodies::read_short, crate::proofs::Bodies::read_whole, crate::proofs::Bytes::takes_added, crate::proofs::Bytes::takes_none, crate::proofs::Bytes::takes_within, crate::proofs::Bodies::written_whole))]
pub(crate) fn read_body<R: Read>(
    alloc: Global,
    reader: &mut R,
    begun: &[u8],
    count: usize,
) -> Result<Result<Option<Vec<u8>>, AllocError>, ReadFailed>
    ensures body { IfOk result (λ r. IfOk r (λ o. IfSome (R.remaining reader.old) (λ left. IsBody (begun.now ++ left) count (option_map (λ v. v.items) o)))) }
    ensures taken { TakesAtMost (R.remaining reader.old) (R.remaining reader.new) count }
{
    if count <= begun.len() {
        return Ok(whole(alloc, &begun[..count]));
    }
    let mut body = match room_for(alloc, begun, count) {
        Ok(body) => body,
        Err(error) => return Ok(Err(error)),
    };
    let filled = fill_from(reader, &mut body, begun.len())?;
    if filled < count {
        return Ok(Ok(None));
    }
    Ok(Ok(Some(body)))
}

// These bytes, copied.
fn whole(alloc: Global, bytes: &[u8]) -> Result<Option<Vec<u8>>, AllocError>
    ensures { IfOk result (λ o. option_map (λ v. v.items) o ≡ Some bytes.now) }
{
    let body = Vec::from_slice(alloc, bytes)?;
    Ok(Some(body))
}

// What was begun, and room for the rest.
fn room_for(alloc: Global, begun: &[u8], count: usize) -> Result<Vec<u8>, AllocError>
    requires { length begun.now ≤ count }
    ensures len { IfOk result (λ v. length v.items ≡ count) }
    ensures begun { IfOk result (λ v. take (length begun.now) v.items ≡ begun.now) }
{
    let mut body = Vec::with_capacity(alloc, count)?;
    body.extend_from_slice(begun)?;
    body.resize(count, 0)?;
    Ok(body)
}

/// What a body that was read asks of a resource, as a call or to be shown, or its refusal; `None` is a body that ends early.
///
/// # Errors
///
/// Where there is no memory for what it asks.
pub(crate) fn answer_to(
    alloc: Global,
    resource: Resource,
    method: &str,
    index: bool,
    body: Option<Vec<u8>>,
) -> Result<Request, AllocError>
    ensures { IfOk result (λ q. IsAnswerTo resource method.now index (option_map (λ v. v.items) body) q) }
{
    match body {
        Some(body) => asked_by(alloc, resource, method, index, body.as_slice()),
        None => Ok(malformed(index)),
    }
}

// What a whole body asks of a resource, or its refusal.
fn asked_by(
    alloc: Global,
    resource: Resource,
    method: &str,
    index: bool,
    body: &[u8],
) -> Result<Request, AllocError>
    ensures { IfOk result (λ q. IsAnswerTo resource method.now index (Some body.now) q) }
{
    if let Some(looked) = look_in(alloc, resource, body)? {
        return Ok(Request::Looks(looked));
    }
    match ask_in(alloc, resource, method, body)? {
        Some(ask) => Ok(Request::Asks(ask)),
        None => Ok(malformed(index)),
    }
}

// The refusal of a body that asks nothing.
fn malformed(index: bool) -> Request
    ensures { result ≡ Request.Refused (refused_request malformed No index) }
{
    Request::Refused(RequestRefusal {
        refusal: Refusal::Malformed,
        allow: Allow::No,
        index,
    })
}

// ---- how long the body behind a head is, by its fields (RFC 9112, 6)

/// What the fields of a head say of the body behind it.
#[derive(Clone, Copy)]
pub enum Framing {
    /// The fields are malformed.
    Malformed,
    /// More bytes follow than the resource takes.
    TooLarge,
    /// So many bytes follow.
    Takes(usize),
}

// The values of the fields of one name: none, the one that there is, or more.
#[derive(Clone, Copy)]
enum Found<'b> {
    Nothing,
    One(&'b [u8]),
    Many,
}

/// What the fields say of a request to this resource; those of a GET or HEAD are not looked at.
pub(crate) fn framing_for(resource: Resource, buffer: &[u8], headers: &[HeaderSpan]) -> Framing
    requires { All (IsHeaderWithin (length buffer.now)) headers.now }
    ensures { result ≡ framing_for resource (map (header_bytes buffer.now) headers.now) }
{
    if !is_posted(methods_of(resource)) {
        return Framing::Takes(0);
    }
    let encodings = find(buffer, headers, b"transfer-encoding");
    let lengths = find(buffer, headers, b"content-length");
    framing_from(encodings, lengths, limit_of(resource))
}

// Whether a resource with these methods takes a body.
fn is_posted(methods: Allow) -> bool
    ensures { result ≡ is_posted methods }
{
    match methods {
        Allow::Post => true,
        _ => false,
    }
}

// The most bytes of a body: 64 KiB of a certificate, else 128 KiB.
fn limit_of(resource: Resource) -> usize
    ensures value { result ≡ limit_of resource }
    ensures longest { result ≤ longest_body }
{
    match resource {
        Resource::Office(OfficeResource::Certify(_)) => LONGEST_CERTIFICATE,
        _ => LONGEST_BODY,
    }
}

// What the values of the two fields say.
fn framing_from(encodings: Found<'_>, lengths: Found<'_>, limit: usize) -> Framing
    requires { limit ≤ longest_body }
    ensures { (es ls : List (List ℕ)) → FoundIs es encodings.entry → FoundIs ls lengths.entry → result ≡ framing es ls limit }
{
    match encodings {
        Found::One(_) => Framing::Malformed,
        Found::Many => Framing::Malformed,
        Found::Nothing => match lengths {
            Found::Nothing => Framing::Takes(0),
            Found::One(text) => framing_by(text, limit),
            Found::Many => Framing::Malformed,
        },
    }
}

// What one length says.
fn framing_by(text: &[u8], limit: usize) -> Framing
    requires { limit ≤ longest_body }
    ensures { result ≡ framing_by (length_in text.now) limit }
{
    match length_in(text) {
        None => Framing::Malformed,
        Some(number) => {
            if number <= limit {
                Framing::Takes(number)
            } else {
                Framing::TooLarge
            }
        }
    }
}

// The number of a text of one digit or more; the greatest usize stands for one past it.
#[tactic(auto, using(crate::proofs::Lengths::length_of_all, crate::proofs::Lengths::length_of_no_text, crate::proofs::Lengths::length_of_none, crate::proofs::Lengths::more_digits, crate::proofs::Lengths::more_value))]
fn length_in(text: &[u8]) -> Option<usize>
    ensures { MatchOption result (length_in text.now ≡ None) (λ n. (m : ℕ) × (length_in text.now ≡ Some m) × (n ≡ saturated m)) }
{
    if text.len() == 0 {
        return None;
    }
    let mut number = 0usize;
    for b in text {
        match char::from(*b).to_digit(10) {
            None => return None,
            Some(digit) => number = number.saturating_mul(10).saturating_add(digit as usize),
        }
    }
    Some(number)
}

// The values of the fields of a name.
fn find<'b>(buffer: &'b [u8], headers: &[HeaderSpan], wanted: &[u8]) -> Found<'b>
    requires { All (IsHeaderWithin (length buffer.now)) headers.now }
    ensures { FoundIs (values_of wanted.now (map (header_bytes buffer.now) headers.now)) result }
{
    let mut found = Found::Nothing;
    for header in headers {
        found = and_field(
            found,
            name_of(buffer, *header),
            value_of(buffer, *header),
            wanted,
        );
    }
    found
}

// The name of a field.
fn name_of<'b>(buffer: &'b [u8], header: HeaderSpan) -> &'b [u8]
    requires { IsHeaderWithin (length buffer.now) header }
    ensures { result.now ≡ (header_bytes buffer.now header).0 }
{
    header.name.of(buffer)
}

// The value of a field.
fn value_of<'b>(buffer: &'b [u8], header: HeaderSpan) -> &'b [u8]
    requires { IsHeaderWithin (length buffer.now) header }
    ensures { result.now ≡ (header_bytes buffer.now header).1 }
{
    header.value.of(buffer)
}

// What was found, and one more field.
#[tactic(auto, using(crate::proofs::Fields::values_snoc))]
fn and_field<'b>(found: Found<'b>, name: &[u8], value: &'b [u8], wanted: &[u8]) -> Found<'b>
    ensures { (fields : List (List ℕ × List ℕ)) → FoundIs (values_of wanted.now fields) found.entry
        → FoundIs (values_of wanted.now (fields ++ (name.now, value.now) ∷ [])) result }
{
    if is_called(name, wanted) {
        and_one(found, value)
    } else {
        found
    }
}

// Whether names of fields are the same, in any case of the letters (RFC 9110, 5.1).
fn is_called(name: &[u8], wanted: &[u8]) -> bool
    ensures { result ≡ same_name name.now wanted.now }
{
    name.eq_ignore_ascii_case(wanted)
}

// What was found, and one more value.
fn and_one<'b>(found: Found<'b>, value: &'b [u8]) -> Found<'b>
    ensures { (vs : List (List ℕ)) → FoundIs vs found.entry → FoundIs (vs ++ value.now ∷ []) result }
{
    match found {
        Found::Nothing => Found::One(value),
        Found::One(_) => Found::Many,
        Found::Many => Found::Many,
    }
}

// ---- bytes from a reader into a buffer

/// The reader failed.
#[derive(Clone, Copy, Debug, Drop)]
pub struct ReadFailed;

impl fmt::Display for ReadFailed {
    fn fmt<W: fmt::Write>(&self, f: &mut fmt::Formatter<W>) -> fmt::Result {
        f.write_str("the reader failed")
    }
}

impl Error for ReadFailed {}

// Reads once, and again where a signal came between. 0 bytes come at the end alone.
#[tactic(auto, using(crate::proofs::Bytes::kept_consumes))]
fn read_some<R: Read>(reader: &mut R, free: &mut [u8]) -> Result<usize, ReadFailed>
    ensures within { IfOk result (λ n. n ≤ length free.new) }
    ensures bytes { IfOk result (λ n. Consumes (R.remaining reader.old) (R.remaining reader.new) (take n free.new)) }
    ensures end { IfOk result (λ n. n ≡ 0 → 0 < length free.old → IsAtEnd (R.remaining reader.new)) }
    ensures kept { OnErr result (Keeps (R.remaining reader.old) (R.remaining reader.new)) }
{
    for _ in 0..u64::MAX {
        match reader.read(free) {
            Ok(n) => return Ok(n),
            Err(error) => {
                if error.kind() != ErrorKind::Interrupted {
                    return Err(ReadFailed);
                }
            }
        }
    }
    Err(ReadFailed)
}

/// Reads once behind what is there.
pub(crate) fn fill<R: Read>(
    reader: &mut R,
    buffer: &mut [u8],
    filled: usize,
) -> Result<usize, ReadFailed>
    requires { filled < length buffer.old }
    ensures within { IfOk result (λ n. filled + n ≤ length buffer.new) }
    ensures front { IfOk result (λ n. take filled buffer.new ≡ take filled buffer.old) }
    ensures bytes { IfOk result (λ n. Consumes (R.remaining reader.old) (R.remaining reader.new) (take n (drop filled buffer.new))) }
    ensures end { IfOk result (λ n. n ≡ 0 → IsAtEnd (R.remaining reader.new)) }
    ensures kept { OnErr result (Keeps (R.remaining reader.old) (R.remaining reader.new)) }
{
    let free = &mut buffer[filled..];
    match read_some(reader, free) {
        Ok(n) => Ok(n),
        Err(fault) => Err(fault),
    }
}

/// Fills the buffer from `start` on, or as far as the input goes, and tells how far.
///
/// # Errors
///
/// Where the reader fails.
pub fn fill_from<R: Read>(
    reader: &mut R,
    buffer: &mut [u8],
    start: usize,
) -> Result<usize, ReadFailed>
    requires { start ≤ length buffer.old }
    ensures within { IfOk result (λ n. n ≤ length buffer.new) }
    ensures read { IfOk result (λ n. Adds (R.remaining reader.old) (R.remaining reader.new) (take start buffer.old) (take n buffer.new)) }
    ensures end { IfOk result (λ n. n < length buffer.new → IsAtEnd (R.remaining reader.new)) }
    ensures failed { OnErr result (TakesAtMost (R.remaining reader.old) (R.remaining reader.new) (length buffer.old - start)) }
{
    let mut filled = start;
    while filled < buffer.len() {
        let count = fill(reader, buffer, filled)?;
        if count == 0 {
            return Ok(filled);
        }
        filled += count;
    }
    Ok(filled)
}
