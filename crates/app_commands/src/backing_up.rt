//! A desk that is checked, and copied.
ghost use Rattle.std.specs.Prelude.{◌≡◌, ◌≢◌, Ok, IfErr};
ghost use Rattle.sqlite.specs.WalFiles.{image_at};
ghost use Rattle.app_commands.specs.Statuses.{EndsBackUp, EndsBackUpServed, IsOfCopyPath, IsToldCopied};

use app_files::{Left, run_over_file};
use app_reports::Form;
use app_tasks::{CheckStatuses, CopyFault, Copying, Fault, Received, is_beside_file, is_taken};
use app_words::Place;
use desk_http::moment;
use sqlite::{FileFrom, Start};
use sqlite_disk::Disk;
use std::io::Write;

/// Checks the desk in a file, closes that, and copies it into a new one, while no other program has it.
pub(crate) fn back_up<S: Start, W: Write, E: Write>(
    rt: &HostRuntime,
    file: &str,
    to: &str,
    start: S,
    out: &mut W,
    errors: &mut E,
) -> (Result<u8, Fault>, Left<FileFrom<S>>)
    ensures { EndsBackUp ⟦<FileFrom<S> as Disk>⟧ (image_at S.Start) (W.contents out.old) (W.contents out.new) result.0 result.1 }
{
    if let Err(fault) = may_be_made(rt, to) {
        return (Err(Fault::Copy(fault)), Left::Untouched);
    }
    let task = CheckStatuses {
        alloc: rt.alloc(),
        form: Form::Text,
        now: moment(rt).ok(),
        errors,
    };
    let (checked, left) = run_over_file(rt, file, start, task, out);
    let copying = Copying::New { from: file, to };
    (copied(rt, checked, copying, out), left)
}

/// Has the desk that is served at a place give its files, checks and closes the desk in them, and keeps that in a new file.
pub(crate) fn back_up_served<S: Start, W: Write, E: Write>(
    rt: &HostRuntime,
    place: Place<'_>,
    to: &str,
    start: S,
    out: &mut W,
    errors: &mut E,
) -> (Result<u8, Fault>, Left<FileFrom<S>>)
    ensures { EndsBackUpServed ⟦<FileFrom<S> as Disk>⟧ (image_at S.Start) (W.contents out.old) (W.contents out.new) result.0 result.1 }
{
    let received = match receive(rt, place, to) {
        Ok(received) => received,
        Err(fault) => return (Err(fault), Left::Untouched),
    };
    let task = CheckStatuses {
        alloc: rt.alloc(),
        form: Form::Text,
        now: moment(rt).ok(),
        errors,
    };
    let (checked, left) = run_over_file(rt, received.path(), start, task, out);
    if !matches!(checked, Ok(0)) {
        received.give_up(rt, !left.is_unreached());
    }
    let copying = Copying::Received {
        part: received.path(),
        to,
    };
    (copied(rt, checked, copying, out), left)
}

// What the desk that is served at a place gives, for a copy that may get a path.
fn receive(rt: &HostRuntime, place: Place<'_>, to: &str) -> Result<Received, Fault> {
    if let Err(fault) = may_be_made(rt, to) {
        return Err(Fault::Copy(fault));
    }
    Received::of(rt, place, to)
}

// Whether a copy may get a path: nothing stands there, and it is not the name of what stands beside another file.
fn may_be_made(rt: &HostRuntime, to: &str) -> Result<(), CopyFault>
    ensures { IfErr result IsOfCopyPath }
{
    if is_taken(rt, to) {
        return Err(CopyFault::Taken);
    }
    if is_beside_file(rt, to) {
        return Err(CopyFault::Beside);
    }
    Ok(())
}

/// Copies the file of a desk that is closed and has no wrong status, says so, and gives the exit status. It takes the result of the
/// check as it is, since its callers give what is left of the files beside it.
pub(crate) fn copied<W: Write>(
    rt: &HostRuntime,
    checked: Result<u8, Fault>,
    copying: Copying<'_>,
    out: &mut W,
) -> Result<u8, Fault>
    ensures told { IsToldCopied checked result }
    ensures silent { checked ≢ Ok 0 → W.contents out.new ≡ W.contents out.old }
{
    match checked {
        Ok(0) => copy(rt, copying, out),
        checked => checked,
    }
}

// Copies a file, and says so; gives the exit status.
fn copy<W: Write>(rt: &HostRuntime, copying: Copying<'_>, out: &mut W) -> Result<u8, Fault>
    ensures { IsToldCopied (Ok 0) result }
{
    match copying.make(rt) {
        Ok(()) => match writeln!(out, "{}", copying.done()) {
            Ok(()) => Ok(0),
            Err(_) => Err(Fault::Output),
        },
        Err(fault) => Err(Fault::Copy(fault)),
    }
}
