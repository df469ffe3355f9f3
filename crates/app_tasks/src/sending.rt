//! The file of a desk that is served and its log, as they stand between two calls, for whoever backs the desk up.
ghost use Rattle.std.specs.Prelude.{◌<◌, ◌≤◌, IfOk, OnOk, length};
ghost use Rattle.std.specs.Io.KnownBytes.{Appends, IsAtEnd};
ghost use Rattle.app_tasks.specs.Sending.{Moves, MovesAll, SendsBackup, SendsBoth, sizes_line};

use crate::beside::beside;
use crate::showing::UNSEEN;
use desk::LookFault;
use http_wire::fill_from;
use std::fs;
use std::io::{self, Read, Write};

// How many bytes are read at once.
const PIECE: usize = 65536;

// How many bytes a file and its log have.
#[derive(Clone, Copy)]
struct Sizes {
    file: u64,
    log: u64,
}

/// Writes a backup of the desk at a path, which is served: how many bytes its file and its log have, and then the bytes of both. The
/// engine's locks lie on open files of their own, so that closing those that are opened here gives none of them back.
///
/// # Errors
///
/// `Storage` with `Memory` where a file could not be read, or not as many bytes as it had; `Output` where the writer failed.
pub(crate) fn send_backup<W: Write>(
    rt: &HostRuntime,
    path: &str,
    out: &mut W,
) -> Result<(), LookFault>
    ensures { OnOk result (SendsBackup (W.contents out.old) (W.contents out.new)) }
{
    let Ok((mut file, mut log)) = open_both(rt, path) else {
        return Err(UNSEEN);
    };
    match sizes_of(&file, &log) {
        Ok(sizes) => send_both(&mut file, &mut log, sizes, out),
        Err(_) => Err(UNSEEN),
    }
}

// The file of a desk and its log, to be read.
fn open_both(rt: &HostRuntime, path: &str) -> io::Result<(fs::File, fs::File)> {
    let log_path = beside(rt, path, "-wal")?;
    let file = fs::open(rt, path)?;
    let log = fs::open(rt, log_path.as_str())?;
    Ok((file, log))
}

// How many bytes they have.
fn sizes_of(file: &fs::File, log: &fs::File) -> io::Result<Sizes> {
    Ok(Sizes {
        file: file.metadata()?.len(),
        log: log.metadata()?.len(),
    })
}

// Sends a file and its log, which have so many bytes.
fn send_both<F: Read, L: Read, W: Write>(
    file: &mut F,
    log: &mut L,
    sizes: Sizes,
    out: &mut W,
) -> Result<(), LookFault>
    ensures { OnOk result (SendsBoth (F.remaining file.old) (F.remaining file.new) (L.remaining log.old) (L.remaining log.new)
        (W.contents out.old) (W.contents out.new)) }
{
    send_sizes(sizes, out)?;
    send_whole(file, sizes.file, out)?;
    send_whole(log, sizes.log, out)
}

// Sends the line of their sizes.
fn send_sizes<W: Write>(sizes: Sizes, out: &mut W) -> Result<(), LookFault>
    ensures { OnOk result (Appends (W.contents out.old) (W.contents out.new) (sizes_line sizes.file sizes.log)) }
{
    let Sizes { file, log } = sizes;
    match writeln!(out, "{file} {log}") {
        Ok(()) => Ok(()),
        Err(_) => Err(LookFault::Output),
    }
}

// Sends the bytes of a reader, which are so many.
fn send_whole<R: Read, W: Write>(reader: &mut R, length: u64, out: &mut W) -> Result<(), LookFault>
    ensures { OnOk result (MovesAll (R.remaining reader.old) (R.remaining reader.new) (W.contents out.old) (W.contents out.new) length) }
{
    let mut piece = [0u8; PIECE];
    let mut left = length;
    while left >= PIECE as u64 {
        if send_piece(reader, &mut piece, out)? < PIECE {
            return Err(UNSEEN);
        }
        left -= PIECE as u64;
    }
    if send_piece(reader, &mut piece, out)? as u64 == left {
        Ok(())
    } else {
        Err(UNSEEN)
    }
}

// Sends as many bytes of a reader as there is room for in a piece, or as it has, and tells how many.
fn send_piece<R: Read, W: Write>(
    reader: &mut R,
    piece: &mut [u8],
    out: &mut W,
) -> Result<usize, LookFault>
    ensures moves { IfOk result (λ count. Moves (R.remaining reader.old) (R.remaining reader.new) (W.contents out.old) (W.contents out.new) count 0) }
    ensures within { IfOk result (λ count. count ≤ length piece.new) }
    ensures end { IfOk result (λ count. count < length piece.new → IsAtEnd (R.remaining reader.new)) }
{
    let Ok(count) = fill_from(reader, piece, 0) else {
        return Err(UNSEEN);
    };
    match out.write_all(&piece[..count]) {
        Ok(()) => Ok(count),
        Err(_) => Err(LookFault::Output),
    }
}
