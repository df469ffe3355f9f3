//! Who watches the serving of a desk, and what is noted of each connection, its requests and their replies.
ghost use Rattle.std.specs.Prelude.{◌≡◌, ◌≢◌, ◌++◌, ℕ, IsTrue, List, MatchOption};
ghost use Rattle.desk_http.specs.Logged.{IsLocated, IsPathOf, IsSummaryOf, IsUrlOf, LogEntry, as_log_entry, refusal_number, shown, number_by, number_of_ask, number_of_cause};
ghost use Rattle.desk_http.specs.Logged.{number_of_office, number_of_target, outcome_number, outcome_status, status_by};

use crate::moment_bound::MomentBound;
use crate::serving::{IoFault, Served, Unanswered};
use desk::DeskFault;
use desk_model::{Ask, Body, OfficeAsk, Reply, Target};
use http_routes::number_between;
use std::io::{self, Read};

// ---- the summary of a reply

/// What whoever watches the serving is told of a reply.
#[derive(Clone, Copy, Debug, PartialEq, Eq)]
pub struct ReplySummary {
    /// Its HTTP status.
    pub status: u16,
    /// The number of the refusal, 1 to 17, where it is one.
    pub refusal: Option<u8>,
    /// The number of the account or of the order whose URL it has as its Location.
    pub located: Option<u64>,
}

/// The summary of a reply of a desk with this base.
pub(crate) fn summary_of(base: &str, reply: &Reply) -> ReplySummary
    ensures { IsSummaryOf base.now reply.now result }
{
    ReplySummary {
        status: reply.status,
        refusal: refusal_number(&reply.body),
        located: located(base, reply),
    }
}

// The number of the refusal, where the body is one.
fn refusal_number(body: &Body) -> Option<u8>
    ensures { result ≡ refusal_number body.now }
{
    match body {
        Body::Empty => None,
        Body::Json(_) => None,
        Body::Problem(problem) => Some(problem.refusal.number()),
        Body::Certificate(_) => None,
    }
}

// The number of the account or of the order that a reply locates.
fn located(base: &str, reply: &Reply) -> Option<u64>
    ensures { IsLocated base.now reply.now.location result }
{
    match &reply.location {
        Some(url) => number_of_url(base, url.as_str()),
        None => None,
    }
}

// The number of the account or of the order of a URL.
#[tactic(auto, using(crate::proofs::Locating::located_by, crate::proofs::Locating::not_located))]
fn number_of_url(base: &str, url: &str) -> Option<u64>
    ensures { MatchOption result ((n : ℕ) → ¬ (IsUrlOf base.now url.now n)) (λ n. IsUrlOf base.now url.now n) }
{
    match behind(base, url) {
        Some(path) => number_of_path(path),
        None => None,
    }
}

// What a text has behind this beginning.
fn behind<'t>(beginning: &str, text: &'t str) -> Option<&'t str>
    ensures { MatchOption result ((rest : List ℕ) → text.now ≢ beginning.now ++ rest) (λ rest. text.now ≡ beginning.now ++ rest.now) }
{
    text.strip_prefix(beginning)
}

// The number of the account or of the order of a path.
fn number_of_path(path: &str) -> Option<u64>
    ensures { MatchOption result ((n : ℕ) → ¬ (IsPathOf path.now n)) (λ n. IsPathOf path.now n) }
{
    match number_between(path, "/account/", "") {
        Some(number) => Some(number),
        None => number_between(path, "/order/", ""),
    }
}

// ---- the first line of a request, as it is noted

// How many bytes are kept.
const KEPT: usize = 256;

/// A reader that keeps the beginning of what it reads, in visible characters.
#[derive(Drop)]
pub(crate) struct LineKeeper<R: Read + Drop> {
    reader: R,
    line: [u8; KEPT],
    len: usize,
}

impl<R: Read + Drop> LineKeeper<R> {
    /// The reader, of which nothing is read yet.
    pub(crate) fn new(reader: R) -> LineKeeper<R> {
        LineKeeper {
            reader,
            line: [0; KEPT],
            len: 0,
        }
    }

    /// The first word of the line, or `-` where there is none.
    pub(crate) fn method(&self) -> &str {
        let (method, _) = split(self.line());
        or_dash(method)
    }

    /// The second.
    pub(crate) fn path(&self) -> &str {
        let (_, behind) = split(self.line());
        let (path, _) = split(behind);
        or_dash(path)
    }

    // What is kept.
    fn line(&self) -> &str {
        match self.line.get(..self.len) {
            Some(bytes) => str::from_utf8(bytes).unwrap_or(""),
            None => "",
        }
    }

    // Keeps the first of these bytes, as far as there is room, but for the ends of lines before all others, which the parser passes over.
    fn keep(&mut self, bytes: &[u8]) {
        for byte in bytes {
            if self.len == 0 && matches!(*byte, b'\r' | b'\n') {
                continue;
            }
            match self.line.get_mut(self.len) {
                Some(place) => {
                    *place = shown(*byte);
                    self.len = self.len.saturating_add(1);
                }
                None => return,
            }
        }
    }
}

impl<R: Read + Drop> Read for LineKeeper<R> {
    fn read(&mut self, buf: &mut [u8]) -> io::Result<usize> {
        let count = self.reader.read(buf)?;
        if let Some(bytes) = buf.get(..count) {
            self.keep(bytes);
        }
        Ok(count)
    }
}

// A text up to its first space, and what is behind that.
fn split(text: &str) -> (&str, &str) {
    match text.split_once(' ') {
        Some(parts) => parts,
        None => (text, ""),
    }
}

// A word, or what stands in its place where it is empty.
fn or_dash(word: &str) -> &str {
    if word.is_empty() { "-" } else { word }
}

// A byte as an entry has it: a visible character of ASCII but `"` and `\`, a space for one and for the end of a line, else `?`.
fn shown(byte: u8) -> u8
    ensures { result ≡ shown byte }
{
    match byte {
        b' ' | b'\r' | b'\n' => b' ',
        b'"' | b'\\' => b'?',
        33..=126 => byte,
        _ => b'?',
    }
}

// ---- who watches, and what is noted of each connection

// The status of a reply that says that the desk could not act (RFC 9110, 15.6.1).
const INABILITY: u16 = 500;

/// What is noted of a connection that was served.
#[derive(Clone, Copy)]
pub struct Entry<'e> {
    /// The machine's moment when it came, in seconds since 1970-01-01T00:00:00Z; its call acted then, or was refused by fault 24.
    pub at: u64,
    /// The first word of the request, as far as it was read.
    pub method: &'e str,
    /// The second.
    pub path: &'e str,
    /// The HTTP status of what was sent, or `None` where nothing was.
    pub status: Option<u16>,
    /// The number of the refusal, 1 to 17, or of the fault, 20 to 26, where there was one.
    pub number: Option<u8>,
    /// The number of the object that was asked about or made, where there is one.
    pub object: Option<u64>,
    /// How long it took from the request that was read to the reply that was sent, or `None` where the clock failed.
    pub micros: Option<u64>,
}

/// Who watches the serving of a desk.
pub trait Overseer {
    // That it took this entry: what it was before, and what it is then.
    ghost takes: { Self → LogEntry → Self → Type 0 };

    /// Whether the desk is where it was opened.
    fn is_in_place(&self) -> bool;

    /// Takes an entry, and gives whether it is kept.
    fn log_entry(&mut self, entry: Entry<'_>) -> bool
        ensures kept { IsTrue result → takes self.old (as_log_entry entry.entry) self.new };
}

/// What goes along with the serving of a desk.
#[derive(Drop)]
pub struct Watch<O> {
    /// Who watches it.
    pub overseer: O,
    /// Which of the machine's moments its calls act at.
    pub bound: MomentBound,
}

/// The HTTP status of what was sent, where the connection did not fail.
pub(crate) fn outcome_status(served: Result<Served, IoFault>) -> Option<u16>
    ensures { result ≡ outcome_status served }
{
    match served {
        Ok(served) => status_by(served.summary, served.written),
        Err(_) => None,
    }
}

/// The number of the refusal or of the fault, where there was one.
pub(crate) fn outcome_number(served: Result<Served, IoFault>) -> Option<u8>
    ensures { result ≡ outcome_number served }
{
    match served {
        Ok(served) => number_by(served.cause, served.summary),
        Err(_) => None,
    }
}

// The status of the reply, or of what was written in its place.
fn status_by(summary: Option<ReplySummary>, written: bool) -> Option<u16>
    ensures { result ≡ status_by summary written }
{
    match summary {
        Some(summary) => Some(summary.status),
        None if written => Some(INABILITY),
        None => None,
    }
}

// The number of what took the reply's place, or of its refusal.
fn number_by(cause: Option<Unanswered>, summary: Option<ReplySummary>) -> Option<u8>
    ensures { result ≡ number_by cause summary }
{
    match cause {
        Some(cause) => Some(number_of_cause(cause)),
        None => match summary {
            Some(summary) => summary.refusal,
            None => None,
        },
    }
}

// The number of a fault, which is that of memory where the call or its reply found none.
fn number_of_cause(cause: Unanswered) -> u8
    ensures { result ≡ number_of_cause cause }
{
    match cause {
        Unanswered::Desk(fault) => fault.number(),
        Unanswered::Reading => DeskFault::Memory.number(),
        Unanswered::Text => DeskFault::Memory.number(),
    }
}

/// The number of the object that is asked about, where there is one.
pub(crate) fn number_of_ask(ask: &Ask) -> Option<u64>
    ensures { result ≡ number_of_ask ask.now }
{
    match ask {
        Ask::NewNonce { .. } => None,
        Ask::Signed(request) => number_of_target(request.target),
        Ask::Office(asked) => number_of_office(asked),
    }
}

// The number of the object that an office asks about.
fn number_of_office(asked: &OfficeAsk) -> Option<u64>
    ensures { result ≡ number_of_office asked.now }
{
    match asked {
        OfficeAsk::Directory => None,
        OfficeAsk::Report { challenge, .. } => Some(*challenge),
        OfficeAsk::Certify { order, .. } => Some(*order),
        OfficeAsk::FailOrder { order, .. } => Some(*order),
        OfficeAsk::RevokeAuthz(authz) => Some(*authz),
        OfficeAsk::RevokeAccount(account) => Some(*account),
        OfficeAsk::ChallengeWork => None,
        OfficeAsk::OrderWork => None,
        OfficeAsk::KeyOf(account) => Some(*account),
    }
}

// The number of the object that a signed request is sent to.
fn number_of_target(target: Target) -> Option<u64>
    ensures { result ≡ number_of_target target }
{
    match target {
        Target::NewAccount => None,
        Target::KeyChange => None,
        Target::NewOrder => None,
        Target::Account(number) => Some(number),
        Target::Orders(number) => Some(number),
        Target::Order(number) => Some(number),
        Target::Finalize(number) => Some(number),
        Target::Cert(number) => Some(number),
        Target::Authz(number) => Some(number),
        Target::Chall(number) => Some(number),
    }
}
