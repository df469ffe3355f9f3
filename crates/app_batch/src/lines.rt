//! Batches: a call a line in, a reply a line out.
ghost use Rattle.std.specs.Prelude.{◌≡◌, ◌≢◌, ◌≤◌, ◌++◌, [], ◌∷◌, false, true, IfErr, IfOk, IfSome, IsErr, MatchResult, Ok, OnOk};
ghost use Rattle.std.specs.Io.BufRead.{DropsThrough, first_piece, strip_last};
ghost use Rattle.std.specs.Io.KnownBytes.{Appends, IsAtEnd};
ghost use Rattle.app_batch.specs.InTurn.{AnswersFirst, AnswersLine, AnswersLines, StopsBehind};
ghost use Rattle.app_batch.specs.LineRequests.{call_of};
ghost use Rattle.desk.specs.{Meets.ActsOnce, SeenDesks.IsSeenOn};
ghost use Rattle.app_batch.specs.Said.{Answered, RepliesTo, DeclinesTo};

use crate::fault::{AnswerFault, BatchFault};
use crate::line_requests::request_of;
use desk::{Desk, DeskFault};
use desk_model::{Ask, Call, Reply};
use http_routes::{Line, LineFault, Request, RequestRefusal, Routes, read_line, reply_line};
use std::alloc::Global;
use std::io::{self, BufRead, BufReader, ErrorKind, Read, Write};
use store_api::Storage;

/// The output line for the call that a line spells, or for the refusal of its request.
///
/// # Errors
///
/// `NotACall` where the line spells none, `Desk` where the desk declines the call, `Memory` where there is no
/// memory beside the desk's own.
pub fn batch_line<K: Storage + Drop>(
    alloc: Global,
    desk: &mut Desk<K>,
    line: &[u8],
) -> Result<Vec<u8>, AnswerFault>
    ensures { Answered K.Kept.sight (λ text. text.items) desk.old line.now result desk.new }
{
    let mut routes = Routes::new();
    batch_line_by(alloc, &mut routes, desk, line)
}

// The output line, by routes that are lent for one line after the other.
fn batch_line_by<K: Storage + Drop>(
    alloc: Global,
    routes: &mut Routes,
    desk: &mut Desk<K>,
    line: &[u8],
) -> Result<Vec<u8>, AnswerFault>
    ensures { Answered K.Kept.sight (λ text. text.items) desk.old line.now result desk.new }
{
    let line = match read_line(alloc, line) {
        Ok(line) => line,
        Err(LineFault::NotACall) => return Err(AnswerFault::NotACall),
        Err(LineFault::Memory) => return Err(AnswerFault::Memory),
    };
    let request = match request_of(alloc, routes, &line) {
        Ok(request) => request,
        Err(_) => return Err(AnswerFault::Memory),
    };
    let reply = match reply_to(alloc, desk, line, request) {
        Ok(reply) => reply,
        Err(fault) => return Err(AnswerFault::Desk(fault)),
    };
    let text = reply_line(alloc, &reply);
    drop(reply);
    match text {
        Ok(text) => Ok(text.into_bytes()),
        Err(_) => Err(AnswerFault::Memory),
    }
}

// The reply to what a line asks.
fn reply_to<K: Storage + Drop>(
    alloc: Global,
    desk: &mut Desk<K>,
    line: Line,
    request: Request,
) -> Result<Reply, DeskFault>
    ensures { MatchResult result
        (λ reply. RepliesTo K.Kept.sight desk.old line request reply desk.new)
        (λ fault. DeclinesTo K.Kept.sight desk.old line request fault desk.new) }
{
    match request {
        Request::Asks(ask) => {
            let call = call_of(line, ask);
            let answered = desk.answer(alloc, &call);
            drop(call);
            answered
        }
        Request::Looks(_) => Ok(RequestRefusal::unshown().reply(alloc)),
        Request::Refused(why) => Ok(why.reply(alloc)),
    }
}

// The call of a line that asks this.
fn call_of(line: Line, ask: Ask) -> Call
    ensures { result ≡ call_of line ask }
{
    Call {
        at: line.at,
        random: line.random,
        ask,
    }
}

/// Answers the lines of a reader on a writer, each before the next is read, and gives the exit status: 0 where all are
/// answered, or 1 after a line on `errors` that says why the rest is not.
pub fn batch<K: Storage + Drop, R: Read + Drop, W: Write, E: Write>(
    alloc: Global,
    reader: R,
    writer: &mut W,
    errors: &mut E,
    desk: &mut Desk<K>,
) -> u8
    ensures status { result ≤ 1 }
    ensures answered { result ≡ 0
        → AnswersFirst K.Kept.sight (R.remaining reader) (W.contents writer.old) [] (W.contents writer.new) desk.old desk.new }
    ensures stopped { result ≡ 1
        → StopsBehind K.Kept.sight (R.remaining reader) (W.contents writer.old) (W.contents writer.new) desk.old desk.new }
    ensures seen { IsSeenOn K.Kept.sight desk.old desk.new }
    ensures policy { desk.new.policy ≡ desk.old.policy }
{
    match answer_lines(alloc, reader, writer, desk) {
        Ok(()) => 0,
        Err(fault) => {
            let _ = writeln!(errors, "desk: {fault}");
            1
        }
    }
}

// Answers the lines of a reader, up to the first that is not answered.
#[tactic(auto, using(crate::proofs::Turning::answered_all, crate::proofs::Turning::answered_more, crate::proofs::Turning::answered_none, crate::proofs::Turning::read_next, crate::proofs::Turning::remaining_anew, desk::proofs::SeeingDesks::same_policy, desk::proofs::SeeingDesks::seen_once_more, desk::proofs::SeeingDesks::seen_untouched, crate::proofs::Turning::stops_behind, crate::proofs::Turning::told_stop))]
fn answer_lines<K: Storage + Drop, R: Read + Drop, W: Write>(
    alloc: Global,
    reader: R,
    writer: &mut W,
    desk: &mut Desk<K>,
) -> Result<(), BatchFault>
    ensures answered { AnswersLines K.Kept.sight (R.remaining reader) (W.contents writer.old) (W.contents writer.new) desk.old desk.new result }
    ensures seen { IsSeenOn K.Kept.sight desk.old desk.new }
    ensures policy { desk.new.policy ≡ desk.old.policy }
{
    let Ok(mut reader) = BufReader::new(alloc, reader) else {
        return Err(BatchFault::Desk(DeskFault::Memory));
    };
    let mut line = Vec::new(alloc);
    let mut routes = Routes::new();
    for number in 1..u64::MAX {
        if !next_line(&mut reader, &mut line)? {
            return Ok(());
        }
        answer_line(alloc, &mut routes, desk, number, line.as_slice(), writer)?;
    }
    // No reader gives so many lines.
    Err(BatchFault::Input)
}

// Reads the next line, without its end, and tells whether there was one.
fn next_line<R: BufRead>(reader: &mut R, line: &mut Vec<u8>) -> Result<bool, BatchFault>
    ensures none { result ≡ Ok false → IsAtEnd (R.Read.remaining reader.old) }
    ensures line { result ≡ Ok true → IfSome (R.Read.remaining reader.old) (λ xs. (xs ≢ []) × (line.new.items ≡ first_piece 10 xs)) }
    ensures rest { result ≡ Ok true → DropsThrough (R.Read.remaining reader.old) (R.Read.remaining reader.new) 10 }
{
    line.clear();
    match reader.read_until(b'\n', line) {
        Ok(0) => Ok(false),
        Ok(_) => {
            strip_end(line);
            Ok(true)
        }
        Err(error) => Err(if error.kind() == ErrorKind::OutOfMemory {
            BatchFault::Desk(DeskFault::Memory)
        } else {
            BatchFault::Input
        }),
    }
}

// Takes its end from a line, where it has one.
fn strip_end(line: &mut Vec<u8>)
    ensures { line.new.items ≡ strip_last 10 line.old.items }
{
    if line.last() == Some(&b'\n') {
        line.pop();
    }
}

// Answers the line of this number, from 1.
#[tactic(auto, using(crate::proofs::Acting::line_acts, crate::proofs::Turning::line_answered))]
fn answer_line<K: Storage + Drop, W: Write>(
    alloc: Global,
    routes: &mut Routes,
    desk: &mut Desk<K>,
    number: u64,
    line: &[u8],
    writer: &mut W,
) -> Result<(), BatchFault>
    ensures answered { AnswersLine K.Kept.sight line.now (W.contents writer.old) (W.contents writer.new) desk.old desk.new result }
    ensures acts { ActsOnce K.Kept.sight desk.old desk.new }
{
    let answered = batch_line_by(alloc, routes, desk, line);
    write_answer(number, answered, writer)
}

// Writes what is said to the line of this number, from 1, or tells why nothing is.
fn write_answer<W: Write>(
    number: u64,
    answered: Result<Vec<u8>, AnswerFault>,
    writer: &mut W,
) -> Result<(), BatchFault>
    ensures written { IfOk answered (λ text. OnOk result (Appends (W.contents writer.old) (W.contents writer.new) (text.items ++ 10 ∷ []))) }
    ensures silent { IfErr answered (λ why. IsErr result × (W.contents writer.new ≡ W.contents writer.old)) }
{
    match answered {
        Ok(text) => write_line(writer, text),
        Err(AnswerFault::NotACall) => Err(BatchFault::NotACall(number)),
        Err(AnswerFault::Desk(fault)) => Err(BatchFault::Desk(fault)),
        Err(AnswerFault::Memory) => Err(BatchFault::Desk(DeskFault::Memory)),
    }
}

// Writes a line with its end, in one piece.
fn write_line<W: Write>(writer: &mut W, line: Vec<u8>) -> Result<(), BatchFault>
    ensures { OnOk result (Appends (W.contents writer.old) (W.contents writer.new) (line.items ++ 10 ∷ [])) }
{
    let mut line = line;
    if line.push(b'\n').is_err() {
        return Err(BatchFault::Desk(DeskFault::Memory));
    }
    match write_whole(writer, line.as_slice()) {
        Ok(()) => Ok(()),
        Err(_) => Err(BatchFault::Output),
    }
}

// Writes a line that has its end, and hands it on.
fn write_whole<W: Write>(writer: &mut W, line: &[u8]) -> io::Result<()>
    ensures { OnOk result (Appends (W.contents writer.old) (W.contents writer.new) line.now) }
{
    writer.write_all(line)?;
    writer.flush()
}
