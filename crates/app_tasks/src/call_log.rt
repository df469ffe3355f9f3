//! The lines of the log of calls.
ghost use Rattle.std.specs.Prelude.{◌≡◌, IfOk, OnOk, string_bytes};
ghost use Rattle.std.specs.Io.KnownBytes.{Appends};
ghost use Rattle.app_tasks.specs.CallLog.{entry_line, number_text, request_text};
ghost use Rattle.desk_http.specs.Logged.{as_log_entry};

use app_words::LogForm;
use desk_http::Entry;
use moments::capped_moment_text;
use std::alloc::{AllocError, Global};
use std::io::{self, Write};

/// Writes the line of a connection that was served: the machine's moment at which it was accepted, method, path, status,
/// number of the refusal or of the fault, number of the object, and microseconds.
///
/// # Errors
///
/// Where the writer failed, or there is no memory for the line.
pub(crate) fn write_entry<W: Write>(
    alloc: Global,
    out: &mut W,
    form: LogForm,
    entry: Entry<'_>,
) -> io::Result<()>
    ensures { OnOk result (Appends (W.contents out.old) (W.contents out.new) (entry_line form (as_log_entry entry.entry))) }
{
    let request = request_text(alloc, form, entry)?;
    let status = number_text(alloc, form, widened(entry.status))?;
    let number = number_text(alloc, form, widened_byte(entry.number))?;
    let object = number_text(alloc, form, entry.object)?;
    let micros = number_text(alloc, form, entry.micros)?;
    let (request, status, number) = (request.as_str(), status.as_str(), number.as_str());
    let (object, micros) = (object.as_str(), micros.as_str());
    match form {
        LogForm::Text => writeln!(out, "{request} {status} {number} {object} {micros}"),
        LogForm::Json => writeln!(
            out,
            "{{{request},\"status\":{status},\"number\":{number},\"object\":{object},\"microseconds\":{micros}}}"
        ),
    }
}

// What tells of the request: the machine's moment at which its connection was accepted, its method and its path.
fn request_text(alloc: Global, form: LogForm, entry: Entry<'_>) -> Result<String, AllocError>
    ensures { IfOk result (λ text. string_bytes text ≡ request_text form (as_log_entry entry.entry)) }
{
    let moment = capped_moment_text(alloc, entry.at)?;
    let (moment, method, path) = (moment.as_str(), entry.method, entry.path);
    match form {
        LogForm::Text => format!(in alloc; "{moment} {method} {path}"),
        LogForm::Json => format!(in alloc;
            "\"moment\":\"{moment}\",\"method\":\"{method}\",\"path\":\"{path}\""
        ),
    }
}

// The text of a number, or of none.
fn number_text(alloc: Global, form: LogForm, number: Option<u64>) -> Result<String, AllocError>
    ensures { IfOk result (λ text. string_bytes text ≡ number_text form number) }
{
    match number {
        Some(number) => format!(in alloc; "{number}"),
        None => match form {
            LogForm::Text => String::from_str(alloc, "-"),
            LogForm::Json => String::from_str(alloc, "null"),
        },
    }
}

// The same number, of 64 bits.
fn widened(number: Option<u16>) -> Option<u64>
    ensures { result ≡ number }
{
    match number {
        Some(number) => Some(number as u64),
        None => None,
    }
}

// The same number, of 64 bits.
fn widened_byte(number: Option<u8>) -> Option<u64>
    ensures { result ≡ number }
{
    match number {
        Some(number) => Some(number as u64),
        None => None,
    }
}
