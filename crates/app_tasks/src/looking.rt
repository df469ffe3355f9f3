//! What a desk that is served is asked to report.
ghost use Rattle.std.specs.Prelude.{◌≡◌, ◌≤◌, ◌<◌, ℕ, List, IfErr, IfOk, OnOk, Some, length, option_map, string_bytes};
ghost use Rattle.serde_json.specs.{Data.depth, Read.read, View.members_view, View.view};
ghost use Rattle.serde_json.specs.Read.{max_depth};
ghost use Rattle.app_tasks.specs.Filters.{IsUnasked};
ghost use Rattle.app_tasks.specs.Looking.{IsRight, LooksAreRead, LooksServed, LooksShown, Requests, Wants, asked_form, document_of, form_word, given, look_request};
ghost use Rattle.app_tasks.specs.Looking.{nothing_of, page_request, rows_document, shown_status, with_number, with_text};

use crate::asking::connected;
use crate::fault::{Fault, refuse};
use crate::filters::{Unasked, authorization_filter, order_filter};
use crate::reports::FOUND;
use crate::showing::{kind_of, last_of};
use app_words::{AuthorizationListing, OrderListing, Place, Report};
use desk::DeskFault;
use desk_http::{Inquiry, Looked, ReportForm, Uncopied, copy_by, shown_head};
use serde_json::{Map, Value, put};
use std::alloc::{AllocError, Global};
use std::io::Write;

// There was no memory for what is asked.
const NO_MEMORY: Fault = Fault::Desk(DeskFault::Memory);

/// Has the desk that is served at a place report on itself, and gives the exit status, as over a file. Where it does not show all of it,
/// what it showed is written.
///
/// # Errors
///
/// `Connection` where the desk could not be asked, or did not show all of it; `Output` where standard output failed, `Desk` where a
/// growth was refused.
pub fn look_served<W: Write, E: Write>(
    rt: &HostRuntime,
    place: Place<'_>,
    report: Report<'_>,
    out: &mut W,
    errors: &mut E,
) -> Result<u8, Fault>
    ensures { LooksServed report.entry (W.contents out.old) (W.contents out.new) result }
{
    match wanted(rt.alloc(), report) {
        Ok(looked) => look(rt, place, report, &looked, out),
        Err(Unasked::Wrong(wrong)) => Ok(refuse(errors, wrong)),
        Err(Unasked::Memory) => Err(NO_MEMORY),
    }
}

// Asks for a report, and writes what is shown.
fn look<W: Write>(
    rt: &HostRuntime,
    place: Place<'_>,
    report: Report<'_>,
    looked: &Looked,
    out: &mut W,
) -> Result<u8, Fault>
    requires wants { Wants report looked.now }
    ensures { LooksShown report.entry (W.contents out.old) (W.contents out.new) result }
{
    let Ok(request) = request_of(rt.alloc(), report) else {
        return Err(NO_MEMORY);
    };
    let Ok(head) = shown_head(rt.alloc(), kind_of(looked)) else {
        return Err(NO_MEMORY);
    };
    let inquiry = Inquiry {
        request: request.as_bytes(),
        head: head.as_bytes(),
        last: last_of(looked).as_bytes(),
    };
    ask_and_show(rt, place, report, inquiry, out)
}

// Asks so at a place, and writes what is shown.
fn ask_and_show<W: Write>(
    rt: &HostRuntime,
    place: Place<'_>,
    report: Report<'_>,
    inquiry: Inquiry<'_>,
    out: &mut W,
) -> Result<u8, Fault>
    requires room { length inquiry.last.now < 100 }
    ensures { LooksShown report.entry (W.contents out.old) (W.contents out.new) result }
{
    let connection = match connected(rt, place) {
        Ok(connection) => connection,
        Err(unheard) => return Err(Fault::Connection(unheard)),
    };
    let nothing = nothing_of(report).as_bytes();
    match copy_by(rt, &connection, inquiry, nothing, out) {
        Ok(is_nothing) => Ok(shown_status(report, is_nothing)),
        Err(Uncopied::Unheard(unheard)) => Err(Fault::Connection(unheard)),
        Err(Uncopied::Output) => Err(Fault::Output),
    }
}

// The list of wrong statuses that has none.
fn nothing_of(report: Report<'_>) -> &'static str
    ensures { result.now ≡ nothing_of report.entry }
{
    match report {
        Report::Check { json: false } => "no fault\n",
        _ => "",
    }
}

// The exit status where a report was shown, by whether it is that list.
fn shown_status(report: Report<'_>, is_nothing: bool) -> u8
    ensures { result ≡ shown_status report.entry is_nothing }
{
    match report {
        Report::Check { .. } if !is_nothing => FOUND,
        _ => 0,
    }
}

// ---- what is asked for

// What the words of a report ask for.
fn wanted(alloc: Global, report: Report<'_>) -> Result<Looked, Unasked>
    ensures wanted { IfOk result (Wants report.entry) }
    ensures unasked { IfErr result (IsUnasked (IsRight report.entry)) }
{
    match report {
        Report::About => Ok(Looked::About),
        Report::Page => Ok(Looked::Page),
        Report::Orders(listing) => wanted_orders(alloc, listing),
        Report::Accounts { json } => Ok(Looked::Accounts {
            form: asked_form(json),
        }),
        Report::Authorizations(listing) => wanted_authorizations(alloc, listing),
        Report::Check { json } => Ok(Looked::Check {
            form: asked_form(json),
        }),
    }
}

// The orders that the words ask for.
fn wanted_orders(alloc: Global, listing: OrderListing<'_>) -> Result<Looked, Unasked>
    ensures wanted { IfOk result (Wants (Report.Orders listing.entry)) }
    ensures unasked { IfErr result (IsUnasked (IsRight (Report.Orders listing.entry))) }
{
    match order_filter(alloc, listing) {
        Ok(filter) => Ok(Looked::Orders {
            account: filter.account,
            status: filter.status,
            name: filter.name,
            form: asked_form(listing.json),
        }),
        Err(why) => Err(why),
    }
}

// The authorizations that they ask for.
fn wanted_authorizations(
    alloc: Global,
    listing: AuthorizationListing<'_>,
) -> Result<Looked, Unasked>
    ensures wanted { IfOk result (Wants (Report.Authorizations listing.entry)) }
    ensures unasked { IfErr result (IsUnasked (IsRight (Report.Authorizations listing.entry))) }
{
    match authorization_filter(alloc, listing) {
        Ok(filter) => Ok(Looked::Authorizations {
            account: filter.account,
            name: filter.name,
            form: asked_form(listing.json),
        }),
        Err(why) => Err(why),
    }
}

// The form that they ask for.
fn asked_form(json: bool) -> ReportForm
    ensures { result ≡ asked_form json }
{
    if json {
        ReportForm::Json
    } else {
        ReportForm::Text
    }
}

// ---- the request

/// What a report is asked for by is read, by the desk that is asked, as what the words of the report ask for, where the account whose
/// rows they ask for has a number that an account may have.
pub fn looks_are_read()
    ensures { LooksAreRead }
{}

// The request for a report (RFC 9112, 3).
fn request_of(alloc: Global, report: Report<'_>) -> Result<String, AllocError>
    ensures { IfOk result (λ request. Requests report.entry (string_bytes request)) }
{
    match document_of(alloc, report)? {
        Some(document) => look_request(alloc, &document),
        None => page_request(alloc),
    }
}

// That for the page.
fn page_request(alloc: Global) -> Result<String, AllocError>
    ensures { IfOk result (λ request. string_bytes request ≡ page_request) }
{
    String::from_str(
        alloc,
        "GET /office/page HTTP/1.1\r\nHost: 127.0.0.1\r\n\r\n",
    )
}

// That for what a document asks for.
fn look_request(alloc: Global, document: &Value) -> Result<String, AllocError>
    requires shallow { depth (view document.now) ≤ max_depth }
    ensures { IfOk result (λ request. (body : List ℕ) × (string_bytes request ≡ look_request body) × (read body ≡ Some (view document.now))) }
{
    let body = document.to_string(alloc)?;
    let length = body.len();
    format!(in alloc;
        "POST /office/look HTTP/1.1\r\nHost: 127.0.0.1\r\nContent-Length: {length}\r\n\r\n{body}"
    )
}

// The document that asks for a report, but for the page.
fn document_of(alloc: Global, report: Report<'_>) -> Result<Option<Value>, AllocError>
    ensures { IfOk result (λ document. option_map view document ≡ document_of report.entry) }
{
    Ok(match report {
        Report::Page => None,
        Report::About => Some(rows_document(alloc, "about", None, None, None, None)?),
        Report::Orders(listing) => Some(rows_document(
            alloc,
            "orders",
            Some(form_word(listing.json)),
            listing.account,
            listing.status,
            listing.name,
        )?),
        Report::Accounts { json } => Some(rows_document(
            alloc,
            "accounts",
            Some(form_word(json)),
            None,
            None,
            None,
        )?),
        Report::Authorizations(listing) => Some(rows_document(
            alloc,
            "authorizations",
            Some(form_word(listing.json)),
            listing.account,
            None,
            listing.name,
        )?),
        Report::Check { json } => Some(rows_document(
            alloc,
            "check",
            Some(form_word(json)),
            None,
            None,
            None,
        )?),
    })
}

// The word of a form.
fn form_word(json: bool) -> &'static str
    ensures { result.now ≡ form_word json }
{
    if json { "json" } else { "text" }
}

// The document that asks for a report of this name, in a form, of an account's rows, of those of a status and of those for a name.
fn rows_document(
    alloc: Global,
    report: &str,
    form: Option<&str>,
    account: Option<u64>,
    status: Option<&str>,
    name: Option<&str>,
) -> Result<Value, AllocError>
    ensures { IfOk result (λ document. view document
        ≡ rows_document report.now (given form.entry) account (given status.entry) (given name.entry)) }
{
    let mut members = Map::new(alloc);
    put_text(&mut members, alloc, "report", Some(report))?;
    put_text(&mut members, alloc, "form", form)?;
    put_number(&mut members, alloc, "account", account)?;
    put_text(&mut members, alloc, "status", status)?;
    put_text(&mut members, alloc, "name", name)?;
    Ok(Value::Object(members))
}

// Puts a text among members, if there is one.
fn put_text(
    members: &mut Map<String, Value>,
    alloc: Global,
    member: &str,
    text: Option<&str>,
) -> Result<(), AllocError>
    ensures { OnOk result (members_view members.new.entries ≡ with_text member.now (given text.entry) (members_view members.old.entries)) }
{
    match text {
        Some(text) => put(members, alloc, member, Value::try_from_str(alloc, text)?),
        None => Ok(()),
    }
}

// Puts a number among members, if there is one.
fn put_number(
    members: &mut Map<String, Value>,
    alloc: Global,
    member: &str,
    number: Option<u64>,
) -> Result<(), AllocError>
    ensures { OnOk result (members_view members.new.entries ≡ with_number member.now number (members_view members.old.entries)) }
{
    match number {
        Some(number) => put(members, alloc, member, Value::from(number)),
        None => Ok(()),
    }
}
