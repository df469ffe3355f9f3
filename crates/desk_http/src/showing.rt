//! What a program shows of the store of a desk that is served, in the place of a reply.
ghost use Rattle.std.specs.Prelude.{◌≡◌, ℕ, List, IfErr, IfOk, OnOk, option_map, string_bytes};
ghost use Rattle.std.specs.Io.KnownBytes.{Appends};
ghost use Rattle.desk.specs.Looking.{LooksAt};
ghost use Rattle.http_routes.specs.declared.looked.Looked.{Looked as Asked};
ghost use Rattle.desk_http.specs.Showing.{ShowsBehind, ShowsTo, cut_short, looked_in, shower, shown_head, whole};

use crate::overseeing::ReplySummary;
use crate::serving::{IoFault, Served, Unanswered, send};
use desk::{Desk, DeskFault, Look, LookFault};
use http_routes::{Looked, Request};
use http_wire::ParsedRequest;
use std::alloc::{AllocError, Global};
use std::io::Write;
use store_api::{Storage, StorageFault};

/// What a program shows of the store of a desk that is served, to whoever asks to be shown it.
pub trait Hook<K: Storage>: Look<K, Looked> {
    // The type of what it shows (RFC 9110, 8.3).
    ghost kind: { Asked → List ℕ };

    // The last line, behind all that it shows.
    ghost last: { Asked → List ℕ };

    /// The type of what it shows to whoever asks this (RFC 9110, 8.3).
    fn kind(looked: &Looked) -> &'static str
        ensures { result.now ≡ kind looked.now };

    /// The last line behind all that it shows, which tells that nothing is missing.
    fn last(looked: &Looked) -> &'static str
        ensures { result.now ≡ last looked.now };
}

/// What a request that was read asks to be shown, where it asks for that.
pub(crate) fn looked_in(parsed: &ParsedRequest) -> Option<&Looked>
    ensures { option_map (λ looked. looked.now) result ≡ looked_in parsed.now.request }
{
    match &parsed.request {
        Ok(Request::Looks(looked)) => Some(looked),
        _ => None,
    }
}

/// Shows what is asked for: a head without a length, what the hook shows of the store, and a last line.
///
/// # Errors
///
/// `Write` where the writer fails.
pub(crate) fn show<W: Write, K: Storage + Drop, H: Hook<K>>(
    alloc: Global,
    hook: &H,
    writer: &mut W,
    desk: &mut Desk<K>,
    looked: &Looked,
) -> Result<Served, IoFault>
    ensures policy { desk.new.policy ≡ desk.old.policy }
    ensures shows { ShowsTo K.Kept.sight (shower H.kind H.last (H.shows hook.now)) looked.now
        (W.contents writer.old) (W.contents writer.new) desk.old desk.new result }
{
    match write_head(writer, H::kind(looked)) {
        Ok(()) => show_behind(alloc, hook, writer, desk, looked),
        Err(fault) => Err(fault),
    }
}

// Writes the head, by the type of what stands behind it.
fn write_head<W: Write>(writer: &mut W, kind: &str) -> Result<(), IoFault>
    ensures took { OnOk result (Appends (W.contents writer.old) (W.contents writer.new) (shown_head kind.now)) }
    ensures failed { IfErr result (λ e. e ≡ IoFault.Write) }
{
    match write!(
        writer,
        "HTTP/1.1 200 OK\r\nConnection: close\r\nContent-Type: {kind}\r\n\r\n"
    ) {
        Ok(()) => Ok(()),
        Err(_) => Err(IoFault::Write),
    }
}

/// The head before what is shown, by its type.
///
/// # Errors
///
/// Where there is no memory for it.
pub fn shown_head(alloc: Global, kind: &str) -> Result<String, AllocError>
    ensures { IfOk result (λ head. string_bytes head ≡ shown_head kind.now) }
{
    format!(in alloc; "HTTP/1.1 200 OK\r\nConnection: close\r\nContent-Type: {kind}\r\n\r\n")
}

// Shows what stands behind the head. Where the store fails, what was shown goes to the client without the last line.
fn show_behind<W: Write, K: Storage + Drop, H: Hook<K>>(
    alloc: Global,
    hook: &H,
    writer: &mut W,
    desk: &mut Desk<K>,
    looked: &Looked,
) -> Result<Served, IoFault>
    ensures policy { desk.new.policy ≡ desk.old.policy }
    ensures shows { ShowsBehind K.Kept.sight (shower H.kind H.last (H.shows hook.now)) looked.now
        (W.contents writer.old) (W.contents writer.new) desk.old desk.new result }
{
    match look(alloc, hook, writer, desk, looked) {
        Ok(()) => match send(writer, H::last(looked).as_bytes()) {
            Ok(()) => Ok(whole()),
            Err(fault) => Err(fault),
        },
        Err(LookFault::Output) => Err(IoFault::Write),
        Err(LookFault::Storage(fault)) => {
            let _ = writer.flush();
            Ok(cut_short(fault))
        }
    }
}

// A look at the desk, with all that a desk promises of it in one fact.
fn look<W: Write, K: Storage + Drop, H: Hook<K>>(
    alloc: Global,
    hook: &H,
    writer: &mut W,
    desk: &mut Desk<K>,
    looked: &Looked,
) -> Result<(), LookFault>
    ensures { LooksAt K.Kept.sight (H.shows hook.now looked.now)
        (W.contents writer.old) (W.contents writer.new) desk.old desk.new result }
{
    desk.look(alloc, hook, looked, writer)
}

// The summary of the head.
const SHOWN: ReplySummary = ReplySummary {
    status: 200,
    refusal: None,
    located: None,
};

// All of it was written.
fn whole() -> Served
    ensures { result ≡ whole }
{
    Served {
        cause: None,
        written: true,
        summary: Some(SHOWN),
    }
}

// The store failed before the end of it.
fn cut_short(fault: StorageFault) -> Served
    ensures { result ≡ cut_short fault }
{
    Served {
        cause: Some(Unanswered::Desk(DeskFault::from(fault))),
        written: true,
        summary: Some(SHOWN),
    }
}
