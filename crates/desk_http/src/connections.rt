//! Clients, one after the other.
ghost use Rattle.std.specs.Prelude.{◌≡◌, ℕ, List, None, Option, false, IfErr, IfOk, unwrap_or};
ghost use Rattle.desk_http.specs.declared.serve_fault.ServeFault.TheVariants as fault;
ghost use Rattle.desk_http.specs.InTurn.{Ends, IsOfMachine, ServesConnections, ServesClient, ServesNext, ServesRead, ended_by, fault_after, random_for};
ghost use Rattle.desk_http.specs.MomentBounds.{admits, followed, moment_for};
ghost use Rattle.desk_http.specs.Logged.{IsLogEntryOf, as_log_entry, first_of, object_asked, object_of};
ghost use Rattle.desk_http.specs.Serving.{IsParsedOf};
ghost use Rattle.desk_http.specs.Showing.{shower};
ghost use Rattle.desk.specs.SeenDesks.{IsSeenOn};

use crate::clients::{PATIENCE, Patient, end, gathering};
use crate::connection::Connection;
use crate::listener::Listener;
use crate::moment_bound::MomentBound;
use crate::overseeing::{
    Entry, LineKeeper, Overseer, Watch, number_of_ask, outcome_number, outcome_status,
};
use crate::serve_fault::ServeFault;
use crate::serving::{IoFault, Served, Unanswered, respond};
use crate::showing::{Hook, looked_in, show};
use crate::{ParsedRequest, Request, Routes, read_call_by};
use desk::{Desk, DeskFault};
use desk_model::{Ask, MOST_NAMES, Target};
use rand::TryRng;
use rand::rngs::SysRng;
use std::alloc::Global;
use std::io::{Read, Write};
use std::random::RandomSource;
use std::time::{Clock, Instant, SystemTime, UNIX_EPOCH};
use store_api::Storage;

// The random bytes of a nonce.
const NONCE_RANDOM: usize = 16;

// Those of a call with the most names: a nonce's, and two tokens' for each name.
const MOST_RANDOM: usize = NONCE_RANDOM * (1 + 2 * MOST_NAMES);

/// Serves so many connections, or 2^64 - 1 without a count, one request of each (RFC 9112, 9.6). A connection that fails is
/// told on `errors`, with its cause where that is asked for, and the next is taken. The overseer is asked before each call, and
/// gets an entry of each connection that was served. A call whose moment is out of the watch's bound is refused by fault 24. What is
/// asked to be shown is no call: the hook shows it.
///
/// # Errors
///
/// `Accept`, `Clock` or `Random` where the machine failed; `Replaced` where the desk is not in its place, `Output` where an entry
/// is not kept; `Desk` where the desk is closed, and only there.
#[tactic(auto, using(crate::proofs::Turns::fewer_served, crate::proofs::Seeing::seen_last, crate::proofs::Seeing::seen_many, crate::proofs::Turns::serves_last, crate::proofs::Turns::serves_more))]
pub fn serve_connections<
    M: Clock + RandomSource,
    K: Storage + Drop,
    H: Hook<K>,
    O: Overseer,
    E: Write,
>(
    alloc: Global,
    machine: &M,
    listener: &mut Listener,
    hook: &H,
    desk: &mut Desk<K>,
    count: Option<u64>,
    watch: &mut Watch<O>,
    errors: &mut E,
    is_verbose: bool,
) -> Result<(), ServeFault>
    ensures policy { desk.new.policy ≡ desk.old.policy }
    ensures served { ServesConnections K.Kept.sight K.Storage.causes (shower H.kind H.last (H.shows hook.now)) O.takes
        (unwrap_or count 18446744073709551615) desk.old watch.old desk.new watch.new result }
    ensures seen { IsSeenOn K.Kept.sight desk.old desk.new }
    ensures ends { desk.old.is_closed ≡ false → Ends result desk.new }
{
    let most = count.unwrap_or(u64::MAX);
    let mut routes = Routes::new();
    for served in 0..most {
        let Ok(connection) = listener.accept() else {
            return Err(ServeFault::Accept);
        };
        match serve_connection(
            alloc,
            machine,
            &mut routes,
            &connection,
            hook,
            desk,
            watch,
            errors,
            is_verbose,
        ) {
            Ok(()) => {}
            Err(fault) => return Err(fault),
        }
    }
    Ok(())
}

// Serves the client at the other end of a connection, and tells on `errors` where its connection failed.
fn serve_connection<M: Clock + RandomSource, K: Storage + Drop, H: Hook<K>, O: Overseer, E: Write>(
    alloc: Global,
    machine: &M,
    routes: &mut Routes,
    connection: &Connection,
    hook: &H,
    desk: &mut Desk<K>,
    watch: &mut Watch<O>,
    errors: &mut E,
    is_verbose: bool,
) -> Result<(), ServeFault>
    ensures policy { desk.new.policy ≡ desk.old.policy }
    ensures served { ServesNext K.Kept.sight K.Storage.causes (shower H.kind H.last (H.shows hook.now)) O.takes
        desk.old watch.old desk.new watch.new result }
    ensures ends { desk.old.is_closed ≡ false → Ends result desk.new }
{
    let at = moment(machine)?;
    let mut reader = LineKeeper::new(Patient::new(connection, machine, PATIENCE));
    let mut writer = gathering(alloc, connection, machine);
    let (served, call) = serve_client(
        alloc,
        machine,
        routes,
        watch,
        hook,
        at,
        &mut reader,
        &mut writer,
        desk,
    )?;
    // Behind a write that failed none follows: what is left in the buffer is not sent.
    let _ = writer.into_parts();
    let is_kept = watch
        .overseer
        .log_entry(entry_of(machine, &reader, call, served));
    match served {
        Ok(_) => end(connection, machine),
        Err(_) => tell_broken(errors, served, is_verbose),
    }
    let closed_by = closing_fault(desk, served);
    ended_by(closed_by, is_kept)
}

// Tells that a connection failed which was served so, and its cause, if it is to be verbose.
fn tell_broken<E: Write>(errors: &mut E, served: Result<Served, IoFault>, is_verbose: bool) {
    let _ = writeln!(errors, "desk: connection");
    if let (true, Err(fault)) = (is_verbose, served) {
        let _ = writeln!(errors, "desk: {}", cause_of(fault));
    }
}

// What a connection failed by.
fn cause_of(fault: IoFault) -> &'static str {
    match fault {
        IoFault::Read => "the client broke off, or did not send its request within 10 seconds",
        IoFault::Write => "the client broke off, or did not take its reply within 10 seconds",
    }
}

// How the serving of a connection ends, by the fault that closed the desk and whether its entry is kept.
fn ended_by(closed_by: Option<DeskFault>, is_kept: bool) -> Result<(), ServeFault>
    ensures { result ≡ ended_by closed_by is_kept }
{
    match closed_by {
        Some(fault) => Err(ServeFault::Desk(fault)),
        None if is_kept => Ok(()),
        None => Err(ServeFault::Output),
    }
}

// What is noted of a call that was read.
#[derive(Clone, Copy)]
struct CallSummary {
    // The machine's moment when it came.
    at: u64,
    // The number of the object that it asks about, where there is one.
    object: Option<u64>,
    // When it was read, where the clock did not fail and it was.
    read: Option<Instant>,
}

// What is noted of a connection that was served, behind its reply.
fn entry_of<'e, M: Clock, R: Read + Drop>(
    machine: &M,
    reader: &'e LineKeeper<R>,
    call: CallSummary,
    served: Result<Served, IoFault>,
) -> Entry<'e>
    ensures { IsLogEntryOf call.at call.object served (as_log_entry result) }
{
    Entry {
        at: call.at,
        method: reader.method(),
        path: reader.path(),
        status: outcome_status(served),
        number: outcome_number(served),
        object: object_of(call, served),
        micros: micros_since(machine, call.read),
    }
}

// The number of the object that was made, or of the one that was asked about.
fn object_of(call: CallSummary, served: Result<Served, IoFault>) -> Option<u64>
    ensures { result ≡ object_of call.object served }
{
    match served {
        Ok(served) => match served.summary {
            Some(summary) => first_of(summary.located, call.object),
            None => call.object,
        },
        Err(_) => call.object,
    }
}

// The first number, where there is one, else the other.
fn first_of(number: Option<u64>, other: Option<u64>) -> Option<u64>
    ensures { result ≡ first_of number other }
{
    match number {
        Some(number) => Some(number),
        None => other,
    }
}

// How many microseconds have gone by since then.
fn micros_since<M: Clock>(machine: &M, begun: Option<Instant>) -> Option<u64> {
    let Ok(now) = Instant::now(machine) else {
        return None;
    };
    let took = now.saturating_duration_since(begun?);
    let micros = took.subsec_micros() as u64;
    Some(
        took.as_secs()
            .saturating_mul(1_000_000)
            .saturating_add(micros),
    )
}

// Serves a client that came at a moment of the machine: it reads one request, and writes the reply or shows what is asked for, if the
// desk is in its place.
fn serve_client<
    M: Clock + RandomSource,
    O: Overseer,
    R: Read,
    W: Write,
    K: Storage + Drop,
    H: Hook<K>,
>(
    alloc: Global,
    machine: &M,
    routes: &mut Routes,
    watch: &mut Watch<O>,
    hook: &H,
    at: u64,
    reader: &mut R,
    writer: &mut W,
    desk: &mut Desk<K>,
) -> Result<(Result<Served, IoFault>, CallSummary), ServeFault>
    ensures policy { desk.new.policy ≡ desk.old.policy }
    ensures served { IfOk result (λ r. ServesClient K.Kept.sight K.Storage.causes (shower H.kind H.last (H.shows hook.now)) watch.old.bound at
        (R.remaining reader.old) (W.contents writer.old) (W.contents writer.new) desk.old desk.new r.1.object r.0 watch.new.bound) }
    ensures at { IfOk result (λ r. r.1.at ≡ at) }
    ensures overseer { watch.new.overseer ≡ watch.old.overseer }
    ensures failed { IfErr result (λ e. IsOfMachine e × (desk.new ≡ desk.old)) }
{
    match read_call_by(alloc, routes, reader) {
        Ok(parsed) => serve_in_place(alloc, machine, watch, hook, writer, desk, at, parsed),
        Err(_) => Ok((Err(IoFault::Read), nothing_read(at))),
    }
}

// Responds to a request that was read and came at a moment of the machine, or shows what it asks for, if the desk is in its place.
fn serve_in_place<M: Clock + RandomSource, O: Overseer, W: Write, K: Storage + Drop, H: Hook<K>>(
    alloc: Global,
    machine: &M,
    watch: &mut Watch<O>,
    hook: &H,
    writer: &mut W,
    desk: &mut Desk<K>,
    at: u64,
    parsed: ParsedRequest,
) -> Result<(Result<Served, IoFault>, CallSummary), ServeFault>
    ensures policy { desk.new.policy ≡ desk.old.policy }
    ensures served { (remaining : Option (List ℕ)) → IsParsedOf remaining parsed
        → IfOk result (λ r. ServesClient K.Kept.sight K.Storage.causes (shower H.kind H.last (H.shows hook.now)) watch.old.bound at
        remaining (W.contents writer.old) (W.contents writer.new) desk.old desk.new r.1.object r.0 watch.new.bound) }
    ensures at { IfOk result (λ r. r.1.at ≡ at) }
    ensures overseer { watch.new.overseer ≡ watch.old.overseer }
    ensures failed { IfErr result (λ e. IsOfMachine e × (desk.new ≡ desk.old)) }
{
    if !watch.overseer.is_in_place() {
        return Err(ServeFault::Replaced);
    }
    let call = call_summary(machine, at, &parsed);
    match looked_in(&parsed) {
        Some(looked) => Ok((show(alloc, hook, writer, desk, looked), call)),
        None => match respond_at(alloc, machine, &mut watch.bound, writer, desk, at, parsed) {
            Ok(served) => Ok((served, call)),
            Err(fault) => Err(fault),
        },
    }
}

// Responds to a request that was read and came at a moment of the machine, at the moment that the bound gives.
fn respond_at<M: RandomSource, W: Write, K: Storage + Drop>(
    alloc: Global,
    machine: &M,
    bound: &mut MomentBound,
    writer: &mut W,
    desk: &mut Desk<K>,
    at: u64,
    parsed: ParsedRequest,
) -> Result<Result<Served, IoFault>, ServeFault>
    ensures policy { desk.new.policy ≡ desk.old.policy }
    ensures served { (remaining : Option (List ℕ)) → IsParsedOf remaining parsed → IfOk result (ServesRead K.Kept.sight K.Storage.causes
        (moment_for bound.old at) parsed remaining (W.contents writer.old) (W.contents writer.new) desk.old desk.new) }
    ensures followed { bound.new ≡ followed bound.old at }
    ensures refused { admits bound.old.latest bound.old.step at ≡ false → desk.new ≡ desk.old }
    ensures failed { IfErr result (λ e. (e ≡ fault.Random) × (desk.new ≡ desk.old)) }
{
    let acting = bound.moment_for(at);
    match respond_with_random(alloc, machine, writer, desk, acting, parsed) {
        Ok(served) => Ok(served),
        Err(fault) => Err(fault),
    }
}

// What is noted where no call was read.
fn nothing_read(at: u64) -> CallSummary
    ensures at { result.at ≡ at }
    ensures object { result.object ≡ None }
{
    CallSummary {
        at,
        object: None,
        read: None,
    }
}

// What is noted of a call that was just read.
fn call_summary<M: Clock>(machine: &M, at: u64, parsed: &ParsedRequest) -> CallSummary
    ensures at { result.at ≡ at }
    ensures object { result.object ≡ object_asked parsed.now.request }
{
    CallSummary {
        at,
        object: object_asked(parsed),
        read: match Instant::now(machine) {
            Ok(now) => Some(now),
            Err(_) => None,
        },
    }
}

// The number of the object that a request asks about.
fn object_asked(parsed: &ParsedRequest) -> Option<u64>
    ensures { result ≡ object_asked parsed.now.request }
{
    match &parsed.request {
        Ok(Request::Asks(ask)) => number_of_ask(ask),
        _ => None,
    }
}

// Responds to a request that was read, with as many random bytes as its call may take.
fn respond_with_random<M: RandomSource, W: Write, K: Storage + Drop>(
    alloc: Global,
    machine: &M,
    writer: &mut W,
    desk: &mut Desk<K>,
    at: u64,
    parsed: ParsedRequest,
) -> Result<Result<Served, IoFault>, ServeFault>
    ensures policy { desk.new.policy ≡ desk.old.policy }
    ensures served { (remaining : Option (List ℕ)) → IsParsedOf remaining parsed → IfOk result (ServesRead K.Kept.sight K.Storage.causes
        at parsed remaining (W.contents writer.old) (W.contents writer.new) desk.old desk.new) }
    ensures failed { IfErr result (λ e. (e ≡ fault.Random) × (desk.new ≡ desk.old)) }
{
    let mut random = [0u8; MOST_RANDOM];
    let random = &mut random[..random_for(&parsed)];
    draw(machine, random)?;
    Ok(respond(alloc, writer, desk, at, random, parsed))
}

// How many random bytes the call of a request may take: a nonce's, and for a new order as many tokens as one may need.
fn random_for(parsed: &ParsedRequest) -> usize
    ensures { result ≡ random_for parsed.now.request }
{
    match &parsed.request {
        Ok(Request::Asks(Ask::NewNonce { .. })) => NONCE_RANDOM,
        Ok(Request::Asks(Ask::Signed(request))) => match request.target {
            Target::NewOrder => MOST_RANDOM,
            _ => NONCE_RANDOM,
        },
        _ => 0,
    }
}

// The fault that closed the desk in serving a request, if it is closed. Where the connection failed that fault is not
// known, and it is that the desk is to be opened again.
fn closing_fault<K: Storage + Drop>(
    desk: &Desk<K>,
    served: Result<Served, IoFault>,
) -> Option<DeskFault>
    ensures { result ≡ fault_after served desk.now.is_closed }
{
    match served {
        Ok(served) => match served.cause {
            Some(Unanswered::Desk(fault)) if fault.closes() => Some(fault),
            _ => None,
        },
        Err(_) if desk.is_closed() => Some(DeskFault::Reopen),
        Err(_) => None,
    }
}

/// The machine's moment, in whole seconds since 1970-01-01T00:00:00Z.
///
/// # Errors
///
/// `Clock` where the clock failed, or stands before 1970.
pub fn moment<C: Clock>(clock: &C) -> Result<u64, ServeFault>
    ensures failed { IfErr result (λ e. e ≡ fault.Clock) }
{
    let Ok(now) = SystemTime::now(clock) else {
        return Err(ServeFault::Clock);
    };
    match now.duration_since(UNIX_EPOCH) {
        Ok(since) => Ok(since.as_secs()),
        Err(_) => Err(ServeFault::Clock),
    }
}

// Fills the bytes from the machine's random source.
fn draw<S: RandomSource>(source: &S, bytes: &mut [u8]) -> Result<(), ServeFault>
    ensures failed { IfErr result (λ e. e ≡ fault.Random) }
{
    match SysRng::new(source).try_fill_bytes(bytes) {
        Ok(()) => Ok(()),
        Err(_) => Err(ServeFault::Random),
    }
}
