//! Reports on the rows of a store.
ghost use Rattle.std.specs.Prelude.{◌≡◌};
ghost use Rattle.app_reports.specs.Listed.{roster};
ghost use Rattle.app_tasks.specs.Deeds.{ChecksStatuses, ListsRows, TellsAbout, TellsPage, form_of, how_checked, how_listed};

use crate::ahead::tell_ahead;
use crate::fault::Fault;
use crate::tasks::Task;
use app_page::write_page;
use app_reports::{
    Beside, Checked, Form, ReportFault, RowList, list_faults, list_rows, seconds_ahead, tell_about,
};
use std::alloc::Global;
use std::io::Write;
use store_api::{RowsAbove, Storage};

/// The exit status where a stored status is wrong.
pub(crate) const FOUND: u8 = 3;

/// The form that the words ask for.
pub fn form(json: bool) -> Form
    ensures { result ≡ form_of json }
{
    if json { Form::Json } else { Form::Text }
}

/// Lists the rows of a table.
#[derive(Drop)]
pub struct ListRows<L: RowList> {
    /// What allocates.
    pub alloc: Global,
    /// As text or as JSON.
    pub form: Form,
    /// Which rows.
    pub list: L,
}

impl<L: RowList> Task for ListRows<L> {
    type Fault = Fault;

    ghost does = { λ task. ListsRows (roster L.Item.rows (L.keeps task.list) L.line L.noun task.form) };

    fn run<K: Storage + RowsAbove + Drop, W: Write>(
        &mut self,
        store: K,
        out: &mut W,
    ) -> (K, Result<u8, Fault>) {
        let mut store = store;
        let listed = list_rows(self.alloc, &mut store, out, self.form, &self.list);
        (store, report_status(listed))
    }
}

/// Tells about a desk.
#[derive(Drop)]
pub struct TellAbout {
    /// What allocates.
    pub alloc: Global,
    /// What is known beside the rows.
    pub beside: Beside,
}

impl Task for TellAbout {
    type Fault = Fault;

    ghost does = { λ task. TellsAbout task.beside };

    fn run<K: Storage + RowsAbove + Drop, W: Write>(
        &mut self,
        store: K,
        out: &mut W,
    ) -> (K, Result<u8, Fault>) {
        let mut store = store;
        let about = tell_about(self.alloc, &mut store, out, self.beside);
        (store, report_status(about))
    }
}

/// Shows a desk as a page.
#[derive(Drop)]
pub struct ShowPage {
    /// What allocates.
    pub alloc: Global,
}

impl Task for ShowPage {
    type Fault = Fault;

    ghost does = { λ task. TellsPage };

    fn run<K: Storage + RowsAbove + Drop, W: Write>(
        &mut self,
        store: K,
        out: &mut W,
    ) -> (K, Result<u8, Fault>) {
        let mut store = store;
        let page = write_page(self.alloc, &mut store, out);
        (store, report_status(page))
    }
}

/// Lists the stored statuses that are wrong, and tells where the desk's clock is ahead of the machine's.
#[derive(Drop)]
pub struct CheckStatuses<'a, E: Write> {
    /// What allocates.
    pub alloc: Global,
    /// As text or as JSON.
    pub form: Form,
    /// The machine's moment, in seconds since 1970-01-01T00:00:00Z, or `None` where its clock tells none.
    pub now: Option<u64>,
    /// Where it says that the desk's clock is ahead.
    pub errors: &'a mut E,
}

impl<'a, E: Write> Task for CheckStatuses<'a, E> {
    type Fault = Fault;

    ghost does = { λ task. ChecksStatuses task.form };

    fn run<K: Storage + RowsAbove + Drop, W: Write>(
        &mut self,
        store: K,
        out: &mut W,
    ) -> (K, Result<u8, Fault>) {
        let mut store = store;
        let checked = list_faults(self.alloc, &mut store, out, self.form);
        tell_checked(self.errors, checked, self.now);
        (store, check_status(checked))
    }
}

// How a report ends that finds nothing.
fn report_status(listed: Result<(), ReportFault>) -> Result<u8, Fault>
    ensures { result ≡ how_listed listed }
{
    listed?;
    Ok(0)
}

// How a list of wrong statuses ends, by whether there is one.
fn check_status(checked: Result<Checked, ReportFault>) -> Result<u8, Fault>
    ensures { result ≡ how_checked checked }
{
    Ok(if checked?.found { FOUND } else { 0 })
}

// Says by how much the desk's clock is ahead of the machine's, if it is.
fn tell_checked<E: Write>(errors: &mut E, checked: Result<Checked, ReportFault>, now: Option<u64>) {
    if let Ok(checked) = checked {
        tell_ahead(errors, seconds_ahead(checked.clock, now));
    }
}
