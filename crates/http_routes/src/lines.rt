//! The lines of a batch: a call in, a reply out.
ghost use Rattle.std.specs.Prelude.{◌≡◌, ◌++◌, IfOk, MatchResult, string_bytes, codes};
ghost use Rattle.hex.specs.Hex.{encode_lower};
ghost use Rattle.serde_json.specs.View.{view};
ghost use Rattle.http_routes.specs.Lines.{IsLine, IsNoLine, Spells, SpellsNone, whole_member, field, body_text, line_text};

use desk_model::{Body, Reply, Sequence, Text};
use hex::FromHexError;
use json_texts::{problem_text, text_of};
use serde_json::Value;
use std::alloc::{AllocError, Global};
use thiserror::Error;

/// Why a line is not read.
#[derive(Clone, Copy, Debug, Error)]
pub enum LineFault {
    /// The line is no JSON object with the members of a call.
    #[error("not a call")]
    NotACall,
    /// A growth was refused.
    #[error("out of memory")]
    Memory,
}

/// A call as a line spells it: a moment, random bytes, and the parts of a request.
#[derive(Drop)]
pub struct Line {
    /// Seconds since 1970-01-01T00:00:00Z.
    pub at: u64,
    /// What the member `random` spells in hexadecimal.
    pub random: Sequence<u8>,
    /// The method as it stands, which may be one that nothing serves.
    pub method: Text,
    /// The path as it stands, which may lead nowhere.
    pub path: Text,
    /// The body, whose bytes are those of the text.
    pub body: Text,
}

/// The call that a line spells: a JSON object with `at`, `random`, `method`, `path` and `body`.
///
/// # Errors
///
/// `NotACall` where the line is no such object, `Memory` where there is no memory for its members.
#[tactic(auto, using(crate::proofs::Spelled::spells_or_none))]
pub fn read_line(alloc: Global, line: &[u8]) -> Result<Line, LineFault>
    ensures { MatchResult result (λ l. Spells line.now l) (λ fault. SpellsNone line.now fault) }
{
    match Value::from_slice(alloc, line) {
        Ok(value) => line_in(alloc, &value),
        Err(error) => Err(if error.is_memory() {
            LineFault::Memory
        } else {
            LineFault::NotACall
        }),
    }
}

// The call that the value of a line spells.
fn line_in(alloc: Global, value: &Value) -> Result<Line, LineFault>
    ensures { MatchResult result (λ l. IsLine (view value.now) l) (λ fault. IsNoLine (view value.now) fault) }
{
    let (Some(at), Some(digits), Some(method), Some(path), Some(body)) = (
        whole_of(value, "at"),
        text_of(value, "random"),
        text_of(value, "method"),
        text_of(value, "path"),
        text_of(value, "body"),
    ) else {
        return Err(LineFault::NotACall);
    };
    let random = match hex::decode(alloc, digits) {
        Ok(random) => random,
        Err(FromHexError::OutOfMemory) => return Err(LineFault::Memory),
        Err(_) => return Err(LineFault::NotACall),
    };
    match line_of(alloc, at, random, method, path, body) {
        Ok(line) => Ok(line),
        Err(_) => Err(LineFault::Memory),
    }
}

// The call of these members.
fn line_of(
    alloc: Global,
    at: u64,
    random: Vec<u8>,
    method: &str,
    path: &str,
    body: &str,
) -> Result<Line, AllocError>
    ensures { IfOk result (λ l. l ≡ record { at = at; random = random.items; method = method.now; path = path.now; body = body.now }) }
{
    let (method, path, body) = texts_of(alloc, method, path, body)?;
    let random = Sequence::new(random);
    Ok(Line {
        at,
        random,
        method,
        path,
        body,
    })
}

// Copies of three texts.
fn texts_of(
    alloc: Global,
    first: &str,
    second: &str,
    third: &str,
) -> Result<(Text, Text, Text), AllocError>
    ensures { IfOk result (λ t. (t.0 ≡ first.now) × (t.1 ≡ second.now) × (t.2 ≡ third.now)) }
{
    let first = Text::new(String::from_str(alloc, first)?);
    let second = Text::new(String::from_str(alloc, second)?);
    let third = Text::new(String::from_str(alloc, third)?);
    Ok((first, second, third))
}

// The whole number of this member.
fn whole_of(value: &Value, name: &str) -> Option<u64>
    ensures { result ≡ whole_member name.now (view value.now) }
{
    value.get(name).and_then(Value::as_u64)
}

/// The output line of a reply: status, Location, nonce and body, separated by one space. It has room for the end of the line.
///
/// # Errors
///
/// Where there is no memory for it.
pub fn reply_line(alloc: Global, reply: &Reply) -> Result<String, AllocError>
    ensures { IfOk result (λ s. string_bytes s ≡ line_text reply.now) }
{
    match &reply.body {
        Body::Empty => line_behind(alloc, reply, "-"),
        Body::Json(document) => line_behind(alloc, reply, document.text()),
        Body::Problem(problem) => {
            let text = problem_text(alloc, problem)?;
            line_behind(alloc, reply, text.as_str())
        }
        Body::Certificate(bytes) => {
            let text = certificate_text(alloc, bytes.as_slice())?;
            line_behind(alloc, reply, text.as_str())
        }
    }
}

// The most bytes of a status and of a nonce, with the spaces and the end of a line.
const ROOM: usize = 48;

// The line of a reply whose body has this text.
#[tactic(auto, using(crate::proofs::Spelled::spaced, std::proofs::Common::string_bytes))]
fn line_behind(alloc: Global, reply: &Reply, body: &str) -> Result<String, AllocError>
    ensures { IfOk result (λ s. body.now ≡ body_text reply.now.body → string_bytes s ≡ line_text reply.now) }
{
    let status = reply.status;
    let location = field(&reply.location);
    let nonce = field(&reply.nonce);
    let len = location.len().saturating_add(body.len());
    let mut line = String::with_capacity(alloc, len.saturating_add(ROOM))?;
    write!(line, "{status} {location} {nonce} {body}")?;
    Ok(line)
}

// A text, or a hyphen where there is none.
fn field(text: &Option<Text>) -> &str
    ensures { result.now ≡ field text.now }
{
    match text {
        Some(text) => text.as_str(),
        None => "-",
    }
}

// The bytes of a certificate as digits.
fn certificate_text(alloc: Global, bytes: &[u8]) -> Result<String, AllocError>
    ensures { IfOk result (λ s. string_bytes s ≡ codes "hex:" ++ encode_lower bytes.now) }
{
    let digits = hex::encode(alloc, bytes)?;
    format!(in alloc; "hex:{digits}")
}
