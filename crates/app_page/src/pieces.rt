//! What a cell of the page lists: names, contacts, challenges.
ghost use Rattle.std.specs.Prelude.{OnOk, ℕ, List};
ghost use Rattle.std.specs.{Io.KnownBytes.Appends, List.flat_map};
ghost use Rattle.app_page.specs.Page.{challenge_html, code_html, contacts_html, name_html};

use crate::html::write_escaped;
use desk_model::{AccountRow, ChallengeRow, DnsName, Text};
use std::alloc::Global;
use std::io::{self, Write};

/// What a cell lists.
pub(crate) trait Piece {
    // Its HTML.
    ghost html: { Self → List ℕ };

    /// Writes it.
    fn write_piece<W: Write>(&self, alloc: Global, out: &mut W) -> io::Result<()>
        ensures { OnOk result (Appends (W.contents out.old) (W.contents out.new) (html self.now)) };
}

impl Piece for DnsName {
    ghost html = { name_html };

    fn write_piece<W: Write>(&self, alloc: Global, out: &mut W) -> io::Result<()> {
        write_name(alloc, out, self)
    }
}

impl Piece for Text {
    ghost html = { code_html };

    fn write_piece<W: Write>(&self, alloc: Global, out: &mut W) -> io::Result<()> {
        write_code(alloc, out, self.as_str())
    }
}

impl Piece for AccountRow {
    ghost html = { contacts_html };

    fn write_piece<W: Write>(&self, alloc: Global, out: &mut W) -> io::Result<()> {
        write_pieces(alloc, out, self.contacts.as_slice())
    }
}

impl Piece for ChallengeRow {
    ghost html = { challenge_html };

    fn write_piece<W: Write>(&self, _alloc: Global, out: &mut W) -> io::Result<()> {
        write_challenge(out, self)
    }
}

// Writes a name.
fn write_name<W: Write>(alloc: Global, out: &mut W, name: &DnsName) -> io::Result<()>
    ensures { OnOk result (Appends (W.contents out.old) (W.contents out.new) (name_html name.now)) }
{
    let name = name.shown(alloc)?;
    write_code(alloc, out, name.as_str())
}

// Writes a text that a client gave.
fn write_code<W: Write>(alloc: Global, out: &mut W, text: &str) -> io::Result<()>
    ensures { OnOk result (Appends (W.contents out.old) (W.contents out.new) (code_html text.now)) }
{
    out.write_all(b"<code>")?;
    write_escaped(alloc, out, text)?;
    out.write_all(b"</code> ")
}

// Writes the number of a challenge, its type and its stored status.
fn write_challenge<W: Write>(out: &mut W, row: &ChallengeRow) -> io::Result<()>
    ensures { OnOk result (Appends (W.contents out.old) (W.contents out.new) (challenge_html row.now)) }
{
    let ChallengeRow { number, .. } = row;
    let kind = row.kind.as_str();
    let status = row.status.as_str();
    write!(out, "<span>{number} {kind} {status}</span> ")
}

/// Writes what a cell lists, one after the other.
#[tactic(auto, using(crate::proofs::Writing::writes_each, crate::proofs::Writing::writes_next, crate::proofs::Writing::writes_nothing))]
pub(crate) fn write_pieces<P: Piece, W: Write>(
    alloc: Global,
    out: &mut W,
    pieces: &[P],
) -> io::Result<()>
    ensures { OnOk result (Appends (W.contents out.old) (W.contents out.new) (flat_map P.html pieces.now)) }
{
    for piece in pieces {
        piece.write_piece(alloc, out)?;
    }
    Ok(())
}
