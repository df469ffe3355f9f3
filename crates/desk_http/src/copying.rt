//! What a desk that is served shows, asked for, and copied as it comes.
ghost use Rattle.std.specs.Prelude.{◌≡◌, ◌≢◌, ◌↔◌, ◌≤◌, ◌<◌, ◌+◌, ◌-◌, ◌++◌, ℕ, List, [], IfOk, IsTrue, MatchOption, OnErr, OnOk, drop, length, take};
ghost use Rattle.std.specs.Io.KnownBytes.{Appends, Consumes};
ghost use Rattle.desk_http.specs.Copied.{CopiesAll, CopiesLong, WritesAll, WritesSome};

use crate::asking::{PATIENCE, Unheard};
use crate::clients::Patient;
use crate::connection::Connection;
use crate::serving::send;
use http_wire::{ReadFailed, fill_from};
use std::io::{self, Read, Write};
use std::time::{Clock, Duration};

// How much of a reply is taken at once. What is written behind a short text begins so far behind it.
const PIECE: usize = 32768;

/// What is asked of a desk that is served, and what stands around what it then shows.
#[derive(Clone, Copy)]
pub struct Inquiry<'a> {
    /// The request.
    pub request: &'a [u8],
    /// The head of the reply.
    pub head: &'a [u8],
    /// The last line, behind all that is shown.
    pub last: &'a [u8],
}

/// Why what a desk shows was not copied to its end.
#[derive(Clone, Copy, Debug)]
pub enum Uncopied {
    /// The desk was not asked, or did not show all of it.
    Unheard(Unheard),
    /// The writer failed.
    Output,
}

// The reply ended before its last line, or its reader failed.
const CUT: Uncopied = Uncopied::Unheard(Unheard::Cut);

// A connection whose reads have a minute each: the desk may have other clients before, and may look long for what it shows.
#[derive(Drop)]
struct Steady<'a>(&'a Connection);

impl<'a> Read for Steady<'a> {
    fn read(&mut self, buf: &mut [u8]) -> io::Result<usize> {
        self.0.read_within(Duration::from_secs(PATIENCE), buf)
    }
}

/// Asks the desk that is served at the other end of a connection to show something, copies what it shows to a writer as it comes, and
/// tells whether that is just this text.
///
/// # Errors
///
/// `Unheard` by `Unsent` where the desk took no request, by `Unshown` where its reply does not begin as one that shows this, and by `Cut`
/// where the reply has no last line, or no more of it came for a minute; `Output` where the writer failed.
pub fn copy_by<M: Clock, W: Write>(
    machine: &M,
    connection: &Connection,
    inquiry: Inquiry<'_>,
    text: &[u8],
    out: &mut W,
) -> Result<bool, Uncopied>
    requires room { length text.now + length inquiry.last.now < 32768 }
    ensures all { IfOk result (WritesAll text.now (W.contents out.old) (W.contents out.new)) }
    ensures part { OnErr result (WritesSome (W.contents out.old) (W.contents out.new)) }
{
    let mut writer = Patient::new(connection, machine, PATIENCE);
    if send(&mut writer, inquiry.request).is_err() {
        return Err(Uncopied::Unheard(Unheard::Unsent));
    }
    copy_shown(
        &mut Steady(connection),
        inquiry.head,
        inquiry.last,
        text,
        out,
    )
}

/// Reads a reply with this head and this last line up to its end, copies what stands between them to a writer as it comes, and tells
/// whether that is just this text.
///
/// # Errors
///
/// `Unheard` by `Unshown` where the reply does not begin with the head, and by `Cut` where it does not end with the last line, or the
/// reader failed; `Output` where the writer failed.
pub fn copy_shown<R: Read, W: Write>(
    reader: &mut R,
    head: &[u8],
    last: &[u8],
    text: &[u8],
    out: &mut W,
) -> Result<bool, Uncopied>
    requires room { length text.now + length last.now < 32768 }
    ensures all { IfOk result
        (CopiesAll head.now last.now text.now (R.remaining reader.old) (R.remaining reader.new) (W.contents out.old) (W.contents out.new)) }
    ensures part { OnErr result (WritesSome (W.contents out.old) (W.contents out.new)) }
{
    let mut piece = [0u8; PIECE];
    match begins_with(reader, head, &mut piece) {
        Ok(true) => copy_behind(reader, last, text, out, &mut piece),
        Ok(false) => Err(Uncopied::Unheard(Unheard::Unshown)),
        Err(_) => Err(CUT),
    }
}

// Reads as many bytes as a text has, where there is room for them, and tells whether they are it.
fn begins_with<R: Read>(reader: &mut R, text: &[u8], room: &mut [u8]) -> Result<bool, ReadFailed>
    ensures len { length room.new ≡ length room.old }
    ensures read { IfOk result (λ is_text. IsTrue is_text → Consumes (R.remaining reader.old) (R.remaining reader.new) text.now) }
{
    if room.len() < text.len() {
        return Ok(false);
    }
    let begun = &mut room[..text.len()];
    let filled = fill_from(reader, begun, 0)?;
    Ok(begun[..filled] == text[..])
}

// Copies what stands behind the head, up to the last line, and tells whether it is just this text.
#[tactic(auto, using(crate::proofs::Pieces::all_long, std::proofs::lemmas::List::take_all))]
fn copy_behind<R: Read, W: Write>(
    reader: &mut R,
    last: &[u8],
    text: &[u8],
    out: &mut W,
    piece: &mut [u8],
) -> Result<bool, Uncopied>
    requires room { length text.now + length last.now < length piece.old }
    ensures all { IfOk result
        (CopiesAll [] last.now text.now (R.remaining reader.old) (R.remaining reader.new) (W.contents out.old) (W.contents out.new)) }
    ensures part { OnErr result (WritesSome (W.contents out.old) (W.contents out.new)) }
{
    let Ok(filled) = fill_from(reader, piece, 0) else {
        return Err(CUT);
    };
    if filled < piece.len() {
        return copy_short(&piece[..filled], last, text, out);
    }
    copy_long(reader, last, out, piece)?;
    Ok(false)
}

// Copies what is all that stands behind the head, up to the last line, and tells whether it is just this text.
fn copy_short<W: Write>(
    whole: &[u8],
    last: &[u8],
    text: &[u8],
    out: &mut W,
) -> Result<bool, Uncopied>
    ensures all { IfOk result (λ is_text. (shown : List ℕ) × (whole.now ≡ shown ++ last.now)
        × Appends (W.contents out.old) (W.contents out.new) shown × (IsTrue is_text ↔ shown ≡ text.now)) }
    ensures part { OnErr result (WritesSome (W.contents out.old) (W.contents out.new)) }
{
    let shown = copy_end(whole, last, out)?;
    Ok(shown == text)
}

// Copies what stands behind a piece that is full, and that piece, up to the last line.
fn copy_long<R: Read, W: Write>(
    reader: &mut R,
    last: &[u8],
    out: &mut W,
    piece: &mut [u8],
) -> Result<(), Uncopied>
    requires room { length last.now ≤ length piece.old }
    ensures all { OnOk result
        (CopiesLong piece.old last.now (R.remaining reader.old) (R.remaining reader.new) (W.contents out.old) (W.contents out.new)) }
    ensures part { OnErr result (WritesSome (W.contents out.old) (W.contents out.new)) }
{
    for _ in 0..u64::MAX {
        copy_piece(piece, last.len(), out)?;
        let Ok(filled) = fill_from(reader, piece, last.len()) else {
            return Err(CUT);
        };
        if filled < piece.len() {
            copy_end(&piece[..filled], last, out)?;
            return Ok(());
        }
    }
    // No reply takes so many pieces.
    Err(CUT)
}

// Copies a full piece, but for as many bytes as the last line has, which then stand at its front.
fn copy_piece<W: Write>(piece: &mut [u8], held: usize, out: &mut W) -> Result<(), Uncopied>
    requires room { held ≤ length piece.old }
    ensures len { length piece.new ≡ length piece.old }
    ensures all { OnOk result (Appends (W.contents out.old) (W.contents out.new) (take (length piece.old - held) piece.old)) }
    ensures held { OnOk result (take held piece.new ≡ drop (length piece.old - held) piece.old) }
    ensures part { OnErr result (WritesSome (W.contents out.old) (W.contents out.new)) }
{
    let shown = piece.len() - held;
    if send(out, &piece[..shown]).is_err() {
        return Err(Uncopied::Output);
    }
    piece.copy_within(shown.., 0);
    Ok(())
}

// Copies the end of what stands behind the head, up to the last line, and gives what that is.
fn copy_end<'a, W: Write>(end: &'a [u8], last: &[u8], out: &mut W) -> Result<&'a [u8], Uncopied>
    ensures end { IfOk result (λ shown. end.now ≡ shown.now ++ last.now) }
    ensures all { IfOk result (λ shown. Appends (W.contents out.old) (W.contents out.new) shown.now) }
    ensures part { OnErr result (WritesSome (W.contents out.old) (W.contents out.new)) }
{
    let Some(shown) = before_last(end, last) else {
        return Err(CUT);
    };
    match send(out, shown) {
        Ok(()) => Ok(shown),
        Err(_) => Err(Uncopied::Output),
    }
}

// What stands before the last line.
fn before_last<'a>(end: &'a [u8], last: &[u8]) -> Option<&'a [u8]>
    ensures { MatchOption result ((shown : List ℕ) → end.now ≢ shown ++ last.now) (λ shown. end.now ≡ shown.now ++ last.now) }
{
    if end.len() < last.len() {
        return None;
    }
    let (shown, rest) = end.split_at(end.len() - last.len());
    if rest == last { Some(shown) } else { None }
}
