//! What a request asks to be shown of a desk: its page, its metrics, its backup, or the report that a JSON object names.
ghost use Rattle.std.specs.Prelude.{◌≡◌, codes, IfOk, Some, option_map, string_bytes};
ghost use Rattle.std.specs.{BTreeMap.keys, List.list_all};
ghost use Rattle.serde_json.specs.{Find.get, View.view};
ghost use Rattle.http_routes.specs.Looked.{account_in, authorizations_in, form_in, form_named, form_of, has_only, if_there, kind_in, kind_named};
ghost use Rattle.http_routes.specs.Looked.{name_in, object_number, orders_in, report, report_in, report_of, status_in, status_named, takes};

use desk_model::{DnsName, LAST_NUMBER, OrderStatus};
use identifiers::{NameFault, read_name};
use json_texts::{text_of, value_of};
use serde_json::{Map, Value};
use std::alloc::{AllocError, Global};

/// What a request asks to be shown of a desk, which is no call.
#[derive(Drop)]
pub enum Looked {
    /// The page of the desk.
    Page,
    /// The orders of an account, of a status (RFC 8555, 7.1.6) and for a name; of every one where `None` stands for it.
    Orders {
        account: Option<u64>,
        status: Option<OrderStatus>,
        name: Option<DnsName>,
        form: ReportForm,
    },
    /// The accounts.
    Accounts {
        form: ReportForm,
    },
    /// The authorizations of an account and for a name; of every one where `None` stands for it.
    Authorizations {
        account: Option<u64>,
        name: Option<DnsName>,
        form: ReportForm,
    },
    /// The stored statuses that are wrong.
    Check {
        form: ReportForm,
    },
    /// What the desk was made with, its clock, and its objects by status.
    About,
    /// The numbers by which it is watched.
    Metrics,
    /// A copy of its file and of the file's log.
    Backup,
}

/// How a report is written.
#[derive(Clone, Copy)]
pub enum ReportForm {
    /// As lines for people.
    Text,
    /// As one JSON document a line.
    Json,
}

// Which report is asked for.
#[derive(Clone, Copy)]
enum Kind {
    Orders,
    Accounts,
    Authorizations,
    Check,
    About,
}

/// The report that the text of a JSON object asks for, or `None` where it asks for none. The member `report` names it; the others say
/// how it is written and which rows it lists, and a member that the report does not take makes it none.
///
/// # Errors
///
/// Where there is no memory for it.
pub(crate) fn report(alloc: Global, text: &str) -> Result<Option<Looked>, AllocError>
    ensures { IfOk result (λ o. o ≡ report text.now) }
{
    let Some(value) = value_of(alloc, text)? else {
        return Ok(None);
    };
    report_in(alloc, &value)
}

// The report that a value asks for.
fn report_in(alloc: Global, value: &Value) -> Result<Option<Looked>, AllocError>
    ensures { IfOk result (λ o. o ≡ report_in (view value.now)) }
{
    let Some(kind) = kind_in(value) else {
        return Ok(None);
    };
    if !has_only_members_of(kind, value) {
        return Ok(None);
    }
    match form_of(value) {
        Some(form) => report_of(alloc, kind, form, value),
        None => Ok(None),
    }
}

// The report of this kind and form, of the rows that a value asks for.
fn report_of(
    alloc: Global,
    kind: Kind,
    form: ReportForm,
    value: &Value,
) -> Result<Option<Looked>, AllocError>
    ensures { IfOk result (λ o. o ≡ report_of kind form (view value.now)) }
{
    match kind {
        Kind::Orders => orders_in(alloc, form, value),
        Kind::Accounts => Ok(Some(Looked::Accounts { form })),
        Kind::Authorizations => authorizations_in(alloc, form, value),
        Kind::Check => Ok(Some(Looked::Check { form })),
        Kind::About => Ok(Some(Looked::About)),
    }
}

// The orders that a value asks for.
fn orders_in(alloc: Global, form: ReportForm, value: &Value) -> Result<Option<Looked>, AllocError>
    ensures { IfOk result (λ o. o ≡ orders_in form (view value.now)) }
{
    let (Some(account), Some(status)) = (account_of(value), status_of(value)) else {
        return Ok(None);
    };
    match name_of(alloc, value)? {
        Some(name) => Ok(Some(Looked::Orders {
            account,
            status,
            name,
            form,
        })),
        None => Ok(None),
    }
}

// The authorizations that a value asks for.
fn authorizations_in(
    alloc: Global,
    form: ReportForm,
    value: &Value,
) -> Result<Option<Looked>, AllocError>
    ensures { IfOk result (λ o. o ≡ authorizations_in form (view value.now)) }
{
    let Some(account) = account_of(value) else {
        return Ok(None);
    };
    match name_of(alloc, value)? {
        Some(name) => Ok(Some(Looked::Authorizations {
            account,
            name,
            form,
        })),
        None => Ok(None),
    }
}

// ---- which report

// The kind of the report that a value names.
fn kind_in(value: &Value) -> Option<Kind>
    ensures { result ≡ kind_in (view value.now) }
{
    kind_named(text_of(value, "report")?)
}

// The kind of report of this name.
fn kind_named(name: &str) -> Option<Kind>
    ensures { result ≡ kind_named name.now }
{
    if name == "orders" {
        return Some(Kind::Orders);
    }
    if name == "accounts" {
        return Some(Kind::Accounts);
    }
    if name == "authorizations" {
        return Some(Kind::Authorizations);
    }
    if name == "check" {
        return Some(Kind::Check);
    }
    if name == "about" {
        return Some(Kind::About);
    }
    None
}

// Whether a value is an object, all of whose members a report of this kind takes.
#[tactic(auto, using(crate::proofs::Naming::names_pass))]
fn has_only_members_of(kind: Kind, value: &Value) -> bool
    ensures { result ≡ has_only (takes kind) (view value.now) }
{
    match value.as_object() {
        Some(members) => are_taken(kind, members),
        None => false,
    }
}

// Whether a report of this kind takes each of these members.
fn are_taken(kind: Kind, members: &Map<String, Value>) -> bool
    ensures { result ≡ list_all (λ name. takes kind (string_bytes name)) (keys members.now) }
{
    members.keys().all(|name| takes(kind, name.as_str()))
}

// Whether a report of this kind takes a member of this name.
fn takes(kind: Kind, name: &str) -> bool
    ensures { result ≡ takes kind name.now }
{
    match kind {
        Kind::Orders => {
            name == "report"
                || name == "form"
                || name == "account"
                || name == "status"
                || name == "name"
        }
        Kind::Accounts => name == "report" || name == "form",
        Kind::Authorizations => {
            name == "report" || name == "form" || name == "account" || name == "name"
        }
        Kind::Check => name == "report" || name == "form",
        Kind::About => name == "report",
    }
}

// ---- the members that may be missing

// The form that a value asks for: lines for people where it names none.
fn form_of(value: &Value) -> Option<ReportForm>
    ensures { result ≡ form_of (get (codes "form") (view value.now)) }
{
    match value.get("form") {
        Some(form) => form_in(form),
        None => Some(ReportForm::Text),
    }
}

// The form that a value names.
fn form_in(value: &Value) -> Option<ReportForm>
    ensures { result ≡ form_in (view value.now) }
{
    form_named(value.as_str()?)
}

// The form of this name.
fn form_named(name: &str) -> Option<ReportForm>
    ensures { result ≡ form_named name.now }
{
    if name == "text" {
        return Some(ReportForm::Text);
    }
    if name == "json" {
        return Some(ReportForm::Json);
    }
    None
}

// The account whose rows a value asks for, if it asks for those of one.
fn account_of(value: &Value) -> Option<Option<u64>>
    ensures { result ≡ if_there account_in (get (codes "account") (view value.now)) }
{
    match value.get("account") {
        Some(account) => Some(Some(account_in(account)?)),
        None => Some(None),
    }
}

// The number of an account that a value is.
fn account_in(value: &Value) -> Option<u64>
    ensures { result ≡ account_in (view value.now) }
{
    object_number(value.as_u64()?)
}

// A number, where an object may have it.
fn object_number(number: u64) -> Option<u64>
    ensures { result ≡ object_number number }
{
    if number >= 1 && number <= LAST_NUMBER {
        Some(number)
    } else {
        None
    }
}

// The status of the orders that a value asks for, if it asks for those of one.
fn status_of(value: &Value) -> Option<Option<OrderStatus>>
    ensures { result ≡ if_there status_in (get (codes "status") (view value.now)) }
{
    match value.get("status") {
        Some(status) => Some(Some(status_in(status)?)),
        None => Some(None),
    }
}

// The status of orders that a value names.
fn status_in(value: &Value) -> Option<OrderStatus>
    ensures { result ≡ status_in (view value.now) }
{
    status_named(value.as_str()?)
}

// The status of orders of this text (RFC 8555, 7.1.6).
#[tactic(auto, using(crate::proofs::Naming::status_found))]
fn status_named(text: &str) -> Option<OrderStatus>
    ensures { result ≡ status_named text.now }
{
    OrderStatus::from_text(text)
}

// The name whose rows a value asks for, if it asks for those of one.
fn name_of(alloc: Global, value: &Value) -> Result<Option<Option<DnsName>>, AllocError>
    ensures { IfOk result (λ o. o ≡ if_there name_in (get (codes "name") (view value.now))) }
{
    match value.get("name") {
        Some(name) => name_in(alloc, name),
        None => Ok(Some(None)),
    }
}

// The name that a value stands for, which is asked for (RFC 8555, 7.1.3).
fn name_in(alloc: Global, value: &Value) -> Result<Option<Option<DnsName>>, AllocError>
    ensures { IfOk result (λ o. o ≡ option_map Some (name_in (view value.now))) }
{
    let Some(text) = value.as_str() else {
        return Ok(None);
    };
    match read_name(alloc, text) {
        Ok(name) => Ok(Some(Some(name))),
        Err(NameFault::Refused) => Ok(None),
        Err(NameFault::Memory) => Err(AllocError),
    }
}
