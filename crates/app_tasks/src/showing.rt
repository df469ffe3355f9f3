//! What a desk that is served shows of itself: what the words write over its file.
ghost use Rattle.std.specs.Prelude.{◌≡◌, IfOk};
ghost use Rattle.app_page.specs.Page.{page_html};
ghost use Rattle.app_reports.specs.{Listed.authorizations_roster, Listed.orders_roster, Listed.roster, Printed.faults_text};
ghost use Rattle.app_tasks.specs.Showing.{ShowsAbout, ShowsMetrics, ShowsOf, ShowsRows, ShowsText, authorizations_by, kind_of, kind_of_form, last_of, look_ended};
ghost use Rattle.app_tasks.specs.Showing.{look_fault, orders_by, report_form};
ghost use Rattle.desk.specs.Looking.{Looks};
ghost use Rattle.desk_model.specs.Derived.{status_faults};

use crate::beside::known_beside;
use crate::metrics::tell_metrics;
use crate::sending::send_backup;
use crate::snapshot::Reading;
use crate::totals::Counted;
use app_page::write_page;
use app_reports::{
    AllAccounts, AuthorizationFilter, Form, OrderFilter, ReportFault, RowList, list_faults,
    list_rows, tell_about,
};
use desk::{Look, LookFault};
use desk_http::{Hook, Looked, ReportForm};
use desk_model::{DnsName, OrderStatus};
use std::alloc::{AllocError, Global};
use std::fs;
use std::io::Write;
use store_api::{RowsAbove, Storage, StorageFault};

/// What a desk that is served shows of itself.
#[derive(Clone, Copy)]
pub(crate) struct Reports<'a> {
    /// The machine.
    pub rt: &'a HostRuntime,
    /// The path of the desk's file.
    pub path: &'a str,
    /// What is counted of it.
    pub counted: &'a Counted,
}

impl<'a, K: Storage + RowsAbove> Look<K, Looked> for Reports<'a> {
    ghost shows = { λ reports. ShowsOf K.Kept.sight };

    fn look<W: Write>(
        &self,
        alloc: Global,
        asked: &Looked,
        store: &mut K,
        out: &mut W,
    ) -> Result<(), LookFault> {
        match asked {
            Looked::Page => show_page(alloc, store, out),
            Looked::Orders {
                account,
                status,
                name,
                form,
            } => show_orders(alloc, store, out, *account, *status, name, *form),
            Looked::Accounts { form } => show_rows(alloc, store, out, &AllAccounts, *form),
            Looked::Authorizations {
                account,
                name,
                form,
            } => show_authorizations(alloc, store, out, *account, name, *form),
            Looked::Check { form } => show_faults(alloc, store, out, *form),
            Looked::About => show_about(alloc, self.rt, self.path, store, out),
            Looked::Metrics => { show_metrics(alloc, self.rt, self.path, self.counted, store, out) }
            Looked::Backup => send_backup(self.rt, self.path, out),
        }
    }
}

impl<'a, K: Storage + RowsAbove> Hook<K> for Reports<'a> {
    ghost kind = { kind_of };

    ghost last = { last_of };

    fn kind(looked: &Looked) -> &'static str
        ensures { result.now ≡ kind_of looked.now }
    {
        kind_of(looked)
    }

    fn last(looked: &Looked) -> &'static str
        ensures { result.now ≡ last_of looked.now }
    {
        last_of(looked)
    }
}

/// The type of what is shown to whoever asks this (RFC 9110, 8.3).
pub(crate) fn kind_of(looked: &Looked) -> &'static str
    ensures { result.now ≡ kind_of looked.now }
{
    match looked {
        Looked::Page => "text/html; charset=utf-8",
        Looked::Orders { form, .. } => kind_of_form(*form),
        Looked::Accounts { form } => kind_of_form(*form),
        Looked::Authorizations { form, .. } => kind_of_form(*form),
        Looked::Check { form } => kind_of_form(*form),
        Looked::About => "text/plain; charset=utf-8",
        Looked::Metrics => "application/openmetrics-text; version=1.0.0; charset=utf-8",
        Looked::Backup => "application/octet-stream",
    }
}

// The type of a report.
fn kind_of_form(form: ReportForm) -> &'static str
    ensures { result.now ≡ kind_of_form form }
{
    match form {
        ReportForm::Text => "text/plain; charset=utf-8",
        ReportForm::Json => "application/jsonl",
    }
}

/// The last line behind the whole of what is shown to whoever asks this.
pub(crate) fn last_of(looked: &Looked) -> &'static str
    ensures { result.now ≡ last_of looked.now }
{
    match looked {
        Looked::Page => "<!-- end -->\n",
        Looked::Metrics => "# EOF\n",
        _ => "end\n",
    }
}

// ---- each of them

// Shows the page.
fn show_page<K: RowsAbove, W: Write>(
    alloc: Global,
    store: &mut K,
    out: &mut W,
) -> Result<(), LookFault>
    ensures shows { ShowsText K.sight page_html (W.contents out.old) (W.contents out.new) store.old store.new result }
    ensures looks { Looks K.sight store.old store.new result }
{
    let page = write_page(alloc, store, out);
    ended(page)
}

// Shows the rows of a list.
fn show_rows<L: RowList, K: RowsAbove, W: Write>(
    alloc: Global,
    store: &mut K,
    out: &mut W,
    list: &L,
    form: ReportForm,
) -> Result<(), LookFault>
    ensures shows { ShowsRows K.sight (roster L.Item.rows (L.keeps list.now) L.line L.noun (report_form form))
        (W.contents out.old) (W.contents out.new) store.old store.new result }
    ensures looks { Looks K.sight store.old store.new result }
{
    let listed = list_rows(alloc, store, out, report_form(form), list);
    ended(listed)
}

// Shows the orders of an account, of a status and for a name.
fn show_orders<K: RowsAbove, W: Write>(
    alloc: Global,
    store: &mut K,
    out: &mut W,
    account: Option<u64>,
    status: Option<OrderStatus>,
    name: &Option<DnsName>,
    form: ReportForm,
) -> Result<(), LookFault>
    ensures shows { ShowsRows K.sight (orders_roster (orders_by account status name.now) (report_form form))
        (W.contents out.old) (W.contents out.new) store.old store.new result }
    ensures looks { Looks K.sight store.old store.new result }
{
    let Ok(name) = copy_of(name) else {
        return Err(UNSEEN);
    };
    let filter = OrderFilter {
        account,
        status,
        name,
    };
    show_rows(alloc, store, out, &filter, form)
}

// Shows the authorizations of an account and for a name.
fn show_authorizations<K: RowsAbove, W: Write>(
    alloc: Global,
    store: &mut K,
    out: &mut W,
    account: Option<u64>,
    name: &Option<DnsName>,
    form: ReportForm,
) -> Result<(), LookFault>
    ensures shows { ShowsRows K.sight (authorizations_roster (authorizations_by account name.now) (report_form form))
        (W.contents out.old) (W.contents out.new) store.old store.new result }
    ensures looks { Looks K.sight store.old store.new result }
{
    let Ok(name) = copy_of(name) else {
        return Err(UNSEEN);
    };
    let filter = AuthorizationFilter { account, name };
    show_rows(alloc, store, out, &filter, form)
}

// Shows the stored statuses that are wrong.
fn show_faults<K: RowsAbove, W: Write>(
    alloc: Global,
    store: &mut K,
    out: &mut W,
    form: ReportForm,
) -> Result<(), LookFault>
    ensures shows { ShowsText K.sight (λ T. faults_text (report_form form) (status_faults T))
        (W.contents out.old) (W.contents out.new) store.old store.new result }
    ensures looks { Looks K.sight store.old store.new result }
{
    let checked = list_faults(alloc, store, out, report_form(form));
    ended(checked)
}

// Shows what is told about the desk, whose file is at this path.
fn show_about<K: RowsAbove, W: Write>(
    alloc: Global,
    rt: &HostRuntime,
    path: &str,
    store: &mut K,
    out: &mut W,
) -> Result<(), LookFault>
    ensures shows { ShowsAbout K.sight (W.contents out.old) (W.contents out.new) store.old store.new result }
    ensures looks { Looks K.sight store.old store.new result }
{
    let Ok(beside) = known_beside(rt, path) else {
        return Err(UNSEEN);
    };
    let about = tell_about(alloc, store, out, beside);
    ended(about)
}

// Shows the numbers by which the desk is watched, whose file is at this path.
fn show_metrics<K: RowsAbove, W: Write>(
    alloc: Global,
    rt: &HostRuntime,
    path: &str,
    counted: &Counted,
    store: &mut K,
    out: &mut W,
) -> Result<(), LookFault>
    ensures shows { ShowsMetrics K.sight (W.contents out.old) (W.contents out.new) store.old store.new result }
    ensures looks { Looks K.sight store.old store.new result }
{
    let (Ok(beside), Ok(file)) = (known_beside(rt, path), fs::metadata(rt, path)) else {
        return Err(UNSEEN);
    };
    let reading = Reading {
        served: counted.read(),
        beside,
        file: file.len(),
    };
    let told = tell_metrics(alloc, store, out, &reading);
    ended(told)
}

/// What is beside the store was not to be had, which says nothing of the store: as where there is no memory, the desk stays open.
pub(crate) const UNSEEN: LookFault = LookFault::Storage(StorageFault::Memory);

// A copy of a name, where there is one.
fn copy_of(name: &Option<DnsName>) -> Result<Option<DnsName>, AllocError>
    ensures { IfOk result (λ copy. copy ≡ name.now) }
{
    match name {
        Some(name) => Ok(Some(name.clone()?)),
        None => Ok(None),
    }
}

// The form of a report.
fn report_form(form: ReportForm) -> Form
    ensures { result ≡ report_form form }
{
    match form {
        ReportForm::Text => Form::Text,
        ReportForm::Json => Form::Json,
    }
}

// How a look ends whose report ends so.
fn ended<R: Drop>(report: Result<R, ReportFault>) -> Result<(), LookFault>
    ensures { result ≡ look_ended report }
{
    match report {
        Ok(_) => Ok(()),
        Err(fault) => Err(look_fault(fault)),
    }
}

// The fault of a look whose report has this one.
fn look_fault(fault: ReportFault) -> LookFault
    ensures { result ≡ look_fault fault }
{
    match fault {
        ReportFault::Storage(fault) => LookFault::Storage(fault),
        ReportFault::Output => LookFault::Output,
    }
}
