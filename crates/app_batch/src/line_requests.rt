//! What the lines of a batch ask: their requests, written and read as those of connections are.
ghost use Rattle.std.specs.Prelude.{◌≡◌, ◌++◌, IfOk, OnOk, string_bytes};
ghost use Rattle.http_wire.specs.Spelled.{Spells};
ghost use Rattle.app_batch.specs.LineRequests.{IsRequestOf, are_visible, head_bytes, request_bytes};

use desk_model::{Allow, Refusal};
use http_routes::{Line, Request, RequestRefusal, Routes, is_visible};
use http_wire::read_call_by;
use std::alloc::{AllocError, Global};

/// What a line asks, or the refusal of its request, which is read by the rules for a connection (RFC 9112, 2 to 6).
///
/// # Errors
///
/// Where there is no memory for it.
#[tactic(auto, using(crate::proofs::Asking::asks_by_bytes))]
pub(crate) fn request_of(
    alloc: Global,
    routes: &mut Routes,
    line: &Line,
) -> Result<Request, AllocError>
    ensures { IfOk result (λ r. IsRequestOf line.now r) }
{
    if !are_visible(line) {
        return Ok(Request::Refused(RequestRefusal {
            refusal: Refusal::Malformed,
            allow: Allow::No,
            index: true,
        }));
    }
    spelled_by(alloc, routes, line)
}

// Whether the method and the path are of visible characters.
fn are_visible(line: &Line) -> bool
    ensures { result ≡ are_visible line.now }
{
    is_visible(line.method.as_str()) && is_visible(line.path.as_str())
}

// What the bytes of a line's request ask.
fn spelled_by(alloc: Global, routes: &mut Routes, line: &Line) -> Result<Request, AllocError>
    ensures { IfOk result (λ r. Spells (request_bytes line.now) r) }
{
    let bytes = request_bytes(alloc, line)?;
    match read_call_by(alloc, routes, &mut bytes.as_slice()) {
        Ok(parsed) => parsed.request,
        // Bytes in memory are read without a fault.
        Err(_) => Err(AllocError),
    }
}

// The bytes of a line's request.
fn request_bytes(alloc: Global, line: &Line) -> Result<Vec<u8>, AllocError>
    ensures { IfOk result (λ v. v.items ≡ request_bytes line.now) }
{
    let (method, path, body) = (line.method.as_str(), line.path.as_str(), line.body.as_str());
    let len = method
        .len()
        .saturating_add(path.len())
        .saturating_add(body.len());
    let mut text = String::with_capacity(alloc, len.saturating_add(ROOM))?;
    push_head(&mut text, method, path, body.len())?;
    text.push_str(body)?;
    Ok(text.into_bytes())
}

// The most bytes of a head beside its method and path.
const ROOM: usize = 56;

// Adds the head of a request with a body of so many bytes.
fn push_head(text: &mut String, method: &str, path: &str, len: usize) -> Result<(), AllocError>
    ensures { OnOk result (string_bytes text.new ≡ string_bytes text.old ++ head_bytes method.now path.now len) }
{
    write!(
        text,
        "{method} {path} HTTP/1.1\r\nContent-Length: {len}\r\n\r\n"
    )
}
