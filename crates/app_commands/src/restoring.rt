//! A copy that is checked, and put into the place of a desk.
ghost use Rattle.std.specs.Prelude.{IfErr};
ghost use Rattle.sqlite.specs.WalFiles.{image_at};
ghost use Rattle.app_commands.specs.Statuses.{EndsRestore, IsOfPlace};

use crate::backing_up::copied;
use app_files::{HeldFile, Left, Wary, desk_fault, hold, run_over_file};
use app_reports::Form;
use app_tasks::{CheckStatuses, CopyFault, Copying, Fault, are_same};
use desk_http::moment;
use sqlite::{FileFrom, Start};
use sqlite_disk::Disk;
use std::io::Write;

/// Checks the desk in a copy, closes that, and puts it into the place of a file, while no other program has one of the two.
pub(crate) fn restore<S: Start, W: Write, E: Write>(
    rt: &HostRuntime,
    copy: &str,
    file: &str,
    start: S,
    out: &mut W,
    errors: &mut E,
) -> (Result<u8, Fault>, Left<FileFrom<S>>)
    ensures { EndsRestore ⟦<FileFrom<S> as Disk>⟧ (image_at S.Start) (W.contents out.old) (W.contents out.new) result.0 result.1 }
{
    let held = match hold_place(rt, copy, file) {
        Ok(held) => held,
        Err(fault) => return (Err(fault), Left::Untouched),
    };
    let task = CheckStatuses {
        alloc: rt.alloc(),
        form: Form::Text,
        now: moment(rt).ok(),
        errors,
    };
    let (checked, left) = run_over_file(rt, copy, start, task, out);
    let copying = Copying::Replacing {
        from: copy,
        to: file,
    };
    let how = copied(rt, checked, copying, out);
    held.give_up(rt, file);
    (how, left)
}

// Holds the file whose place a copy is to take, which is another.
fn hold_place(rt: &HostRuntime, copy: &str, file: &str) -> Result<HeldFile<FileFrom<Wary>>, Fault>
    ensures { IfErr result IsOfPlace }
{
    if are_same(rt, copy, file) {
        return Err(Fault::Copy(CopyFault::Same));
    }
    match hold(rt, file, Wary) {
        Ok(held) => Ok(held),
        Err((fault, left)) => Err(Fault::Place(desk_fault(fault), left.is_unreached())),
    }
}
