//! One request from a reader: read, answered by the desk, and its reply sent to a writer.
ghost use Rattle.std.specs.Prelude.{◌≡◌, ◌+◌, ℕ, List, Option, IfOk, IfErr, IsTrue, MatchResult, Ok, OnOk};
ghost use Rattle.desk_model.specs.Limits.{longest_body, longest_head};
ghost use Rattle.http_wire.specs.{Head.TakesAtMost, Replies.reply_bytes};
ghost use Rattle.desk_http.specs.Serving.{Breaks, IsParsedOf, Serves, index_for, IsAnswer, LacksReply, LacksText, Responds, IsReplyTo, call_of};
ghost use Rattle.desk_http.specs.Serving.{AppendsBeginning, WritesFault, fault_bytes};
ghost use Rattle.std.specs.Io.KnownBytes.{Appends};

use crate::overseeing::{ReplySummary, summary_of};
use desk::{Desk, DeskFault};
use desk_model::{Allow, Ask, Call, Refusal, Reply, Sequence};
use http_routes::{Request, RequestRefusal, Routes};
use http_wire::{ParsedRequest, ReplyForm, read_call_by, reply_text};
use std::alloc::{AllocError, Global};
use std::io::{ErrorKind, Read, Write};
use store_api::Storage;
use thiserror::Error;

/// How a request was served.
#[derive(Clone, Copy, Debug, PartialEq, Eq)]
pub struct Served {
    /// Why it did not have its reply, if so.
    pub cause: Option<Unanswered>,
    /// Whether anything was written.
    pub written: bool,
    /// The summary of its reply, where it had one.
    pub summary: Option<ReplySummary>,
}

/// Serves one request: reads it, has the desk answer its call, and writes the reply, or in its place that the desk could
/// not act (RFC 9112, 2.1).
///
/// The moment is seconds since 1970-01-01T00:00:00Z.
///
/// # Errors
///
/// Where the reader or the writer fails.
pub fn serve_request<R: Read, W: Write, K: Storage + Drop>(
    alloc: Global,
    reader: &mut R,
    writer: &mut W,
    desk: &mut Desk<K>,
    at: u64,
    random: &[u8],
) -> Result<Served, IoFault>
    ensures policy { desk.new.policy ≡ desk.old.policy }
    ensures served { IfOk result (λ s.
        Serves K.Kept.sight K.Storage.causes at random.now desk.new.policy.base
        (R.remaining reader.old) (W.contents writer.old) (W.contents writer.new) desk.old desk.new s) }
    ensures failed { IfErr result (λ e.
        Breaks K.Kept.sight K.Storage.causes at random.now desk.new.policy.base
        (R.remaining reader.old) (W.contents writer.old) (W.contents writer.new) desk.old desk.new e) }
    ensures taken { TakesAtMost (R.remaining reader.old) (R.remaining reader.new) (longest_head + longest_body) }
{
    let mut routes = Routes::new();
    serve_request_by(alloc, &mut routes, reader, writer, desk, at, random)
}

/// Serves one request as `serve_request` does, by routes that are lent for one request after the other.
///
/// # Errors
///
/// Where the reader or the writer fails.
pub fn serve_request_by<R: Read, W: Write, K: Storage + Drop>(
    alloc: Global,
    routes: &mut Routes,
    reader: &mut R,
    writer: &mut W,
    desk: &mut Desk<K>,
    at: u64,
    random: &[u8],
) -> Result<Served, IoFault>
    ensures policy { desk.new.policy ≡ desk.old.policy }
    ensures served { IfOk result (λ s.
        Serves K.Kept.sight K.Storage.causes at random.now desk.new.policy.base
        (R.remaining reader.old) (W.contents writer.old) (W.contents writer.new) desk.old desk.new s) }
    ensures failed { IfErr result (λ e.
        Breaks K.Kept.sight K.Storage.causes at random.now desk.new.policy.base
        (R.remaining reader.old) (W.contents writer.old) (W.contents writer.new) desk.old desk.new e) }
    ensures taken { TakesAtMost (R.remaining reader.old) (R.remaining reader.new) (longest_head + longest_body) }
{
    match read_call_by(alloc, routes, reader) {
        Ok(parsed) => respond(alloc, writer, desk, at, random, parsed),
        Err(_) => Err(IoFault::Read),
    }
}

/// Responds to a request that was read, as `serve_request` does.
///
/// # Errors
///
/// `Write` where the writer fails.
#[tactic(auto, using(crate::proofs::Parsing::answered, crate::proofs::Parsing::fails, crate::proofs::Parsing::form_parsed))]
pub fn respond<W: Write, K: Storage + Drop>(
    alloc: Global,
    writer: &mut W,
    desk: &mut Desk<K>,
    at: u64,
    random: &[u8],
    parsed: ParsedRequest,
) -> Result<Served, IoFault>
    ensures policy { desk.new.policy ≡ desk.old.policy }
    ensures served { (remaining : Option (List ℕ)) → IsParsedOf remaining parsed → IfOk result (λ s.
        Serves K.Kept.sight K.Storage.causes at random.now desk.new.policy.base
        remaining (W.contents writer.old) (W.contents writer.new) desk.old desk.new s) }
    ensures failed { (remaining : Option (List ℕ)) → IsParsedOf remaining parsed → IfErr result (λ e.
        Breaks K.Kept.sight K.Storage.causes at random.now desk.new.policy.base
        remaining (W.contents writer.old) (W.contents writer.new) desk.old desk.new e) }
{
    let form = parsed.form;
    match reply_bytes(alloc, desk, at, random, parsed.request, form.head_only) {
        Ok(reply) => match send(writer, reply.bytes.as_slice()) {
            Ok(()) => Ok(Served {
                cause: None,
                written: true,
                summary: Some(reply.summary),
            }),
            Err(fault) => Err(fault),
        },
        Err(cause) => {
            let index = index_for(cause, form);
            match write_fault(alloc, writer, desk.base(), index, form.head_only) {
                Ok(written) => Ok(Served {
                    cause: Some(cause),
                    written,
                    summary: None,
                }),
                Err(fault) => Err(fault),
            }
        }
    }
}

// Whether what is written in the place of a reply has the link to the directory.
fn index_for(cause: Unanswered, form: ReplyForm) -> bool
    ensures { result ≡ index_for cause form }
{
    match cause {
        Unanswered::Reading => true,
        _ => form.index,
    }
}

// ---- the bytes of a reply: the desk's answer to the call, or the refusal

/// Why a request did not have its reply.
#[derive(Clone, Copy, Debug, PartialEq, Eq, Error)]
pub enum Unanswered {
    /// The desk had a fault.
    #[error("{0}")]
    Desk(DeskFault),
    /// Memory was refused in reading the request; the desk is as it was.
    #[error("out of memory in reading the request")]
    Reading,
    /// Memory was refused in writing the reply; the desk is as its answer left it.
    #[error("out of memory in writing the reply")]
    Text,
}

/// The bytes of a reply, and its summary.
#[derive(Drop)]
pub struct ReplyBytes {
    pub(crate) bytes: Vec<u8>,
    pub(crate) summary: ReplySummary,
}

// The bytes of the reply to a request that was read, and its summary.
//
// # Errors
//
// Where there is no reply, or no memory for its bytes.
fn reply_bytes<K: Storage + Drop>(
    alloc: Global,
    desk: &mut Desk<K>,
    at: u64,
    random: &[u8],
    request: Result<Request, AllocError>,
    head_only: bool,
) -> Result<ReplyBytes, Unanswered>
    ensures policy { desk.new.policy ≡ desk.old.policy }
    ensures reply { MatchResult result
        (λ reply. IsReplyTo K.Kept.sight K.Storage.causes at random.now desk.new.policy.base request head_only
        reply.bytes.items reply.summary desk.old desk.new)
        (λ cause. LacksText K.Kept.sight K.Storage.causes at random.now request cause desk.old desk.new) }
{
    let Ok(request) = request else {
        return Err(Unanswered::Reading);
    };
    let reply = match reply_to(alloc, desk, at, random, request) {
        Ok(reply) => reply,
        Err(cause) => return Err(cause),
    };
    let bytes = reply_text(alloc, desk.base(), &reply, head_only);
    let summary = summary_of(desk.base(), &reply);
    drop(reply);
    match bytes {
        Ok(bytes) => Ok(ReplyBytes { bytes, summary }),
        Err(_) => Err(Unanswered::Text),
    }
}

// The reply to a request, or why there is none.
fn reply_to<K: Storage + Drop>(
    alloc: Global,
    desk: &mut Desk<K>,
    at: u64,
    random: &[u8],
    request: Request,
) -> Result<Reply, Unanswered>
    ensures policy { desk.new.policy ≡ desk.old.policy }
    ensures reply { MatchResult result
        (λ reply. Responds K.Kept.sight K.Storage.causes at random.now desk.old request (Ok reply) desk.new)
        (λ cause. LacksReply K.Kept.sight K.Storage.causes at random.now request cause desk.old desk.new) }
{
    match request {
        Request::Asks(ask) => {
            let Ok(call) = call_of(alloc, at, random, ask) else {
                return Err(Unanswered::Reading);
            };
            let answered = answer(alloc, desk, &call);
            drop(call);
            match answered {
                Ok(reply) => Ok(reply),
                Err(fault) => Err(Unanswered::Desk(fault)),
            }
        }
        Request::Looks(_) => Ok(RequestRefusal::unshown().reply(alloc)),
        Request::Refused(why) => Ok(why.reply(alloc)),
    }
}

// The desk's answer to a call, with all that a desk promises of it in one fact.
fn answer<K: Storage + Drop>(
    alloc: Global,
    desk: &mut Desk<K>,
    call: &Call,
) -> Result<Reply, DeskFault>
    ensures { IsAnswer K.Kept.sight K.Storage.causes call.now desk.old desk.new result }
{
    desk.answer(alloc, call)
}

// The call of a request that asks this.
fn call_of(alloc: Global, at: u64, random: &[u8], ask: Ask) -> Result<Call, AllocError>
    ensures { IfOk result (λ call. call ≡ call_of at random.now ask) }
{
    match Vec::from_slice(alloc, random) {
        Ok(random) => Ok(Call {
            at,
            random: Sequence::new(random),
            ask,
        }),
        Err(refused) => {
            drop(ask);
            Err(refused)
        }
    }
}

// ---- what is sent: a reply, or in its place that the desk could not act

/// The reader or the writer failed.
#[derive(Clone, Copy, Debug, PartialEq, Eq, Error)]
pub enum IoFault {
    /// The reader failed: nothing was written, and the desk is as it was.
    #[error("the reader failed")]
    Read,
    /// The writer failed: some part of the reply may be written, and the desk is as its answer left it.
    #[error("the writer failed")]
    Write,
}

// Writes that the desk could not act, where there is memory for that, and gives whether it was written.
//
// # Errors
//
// Where the writer fails.
fn write_fault<W: Write>(
    alloc: Global,
    writer: &mut W,
    base: &str,
    index: bool,
    head_only: bool,
) -> Result<bool, IoFault>
    ensures written { IfOk result (λ written. WritesFault base.now index head_only (W.contents writer.old) (W.contents writer.new) written) }
    ensures failed { IfErr result (λ e. (e ≡ IoFault.Write)
        × AppendsBeginning (W.contents writer.old) (W.contents writer.new) (fault_bytes base.now index head_only)) }
{
    match inability_text(alloc, base, index, head_only) {
        Ok(text) => match send(writer, text.as_slice()) {
            Ok(()) => Ok(true),
            Err(fault) => Err(fault),
        },
        Err(_) => Ok(false),
    }
}

// The bytes that say that the desk could not act.
fn inability_text(
    alloc: Global,
    base: &str,
    index: bool,
    head_only: bool,
) -> Result<Vec<u8>, AllocError>
    ensures { IfOk result (λ text. text.items ≡ fault_bytes base.now index head_only) }
{
    let why = RequestRefusal {
        refusal: Refusal::ServerInternal,
        allow: Allow::No,
        index,
    };
    let reply = why.reply(alloc);
    let text = reply_text(alloc, base, &reply, head_only);
    drop(reply);
    text
}

/// Writes a text and flushes the writer.
///
/// # Errors
///
/// Where the writer fails: a beginning of the text is written then.
pub(crate) fn send<W: Write>(writer: &mut W, text: &[u8]) -> Result<(), IoFault>
    ensures took { OnOk result (Appends (W.contents writer.old) (W.contents writer.new) text.now) }
    ensures failed { IfErr result (λ e. (e ≡ IoFault.Write) × AppendsBeginning (W.contents writer.old) (W.contents writer.new) text.now) }
{
    if !write_text(writer, text) || writer.flush().is_err() {
        return Err(IoFault::Write);
    }
    Ok(())
}

// Writes a text, as far as the writer takes it, and gives whether that was all of it.
fn write_text<W: Write>(writer: &mut W, text: &[u8]) -> bool
    ensures whole { IsTrue result → Appends (W.contents writer.old) (W.contents writer.new) text.now }
    ensures part { AppendsBeginning (W.contents writer.old) (W.contents writer.new) text.now }
{
    let mut done = 0;
    for _ in 0..u64::MAX {
        let rest = &text[done..];
        if rest.is_empty() {
            return true;
        }
        match writer.write(rest) {
            Ok(0) => return false,
            Ok(count) => done += count,
            Err(error) => {
                if error.kind() != ErrorKind::Interrupted {
                    return false;
                }
            }
        }
    }
    // No text takes so many writes.
    false
}
