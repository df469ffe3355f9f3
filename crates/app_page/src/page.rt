//! The page of a desk, as one document of HTML.
ghost use Rattle.std.specs.Prelude.{◌≡◌, IfOk, OnOk};
ghost use Rattle.std.specs.Io.KnownBytes.{Appends};
ghost use Rattle.desk_model.specs.Moment.{moment_text};
ghost use Rattle.moments.specs.Capped.{capped};
ghost use Rattle.store_api.specs.Sight.{ForTables};
ghost use Rattle.app_page.specs.Page.{ending_html, head_html, last_html, page_html, soon_after, tables_html, waiting_html};
ghost use Rattle.app_reports.specs.Reported.{Reports};

use crate::html::{write_escaped, write_text};
use crate::rows::{EndingAuthorizations, EndingOrders, Unreported};
use crate::tables::write_table;
use crate::texts::{
    CLOCK, COUNTED, COUNTS, END, ENDING_AUTHORIZATIONS, ENDING_ORDERS, HEAD, LAST_ORDERS,
    PROCESSING, UNREPORTED,
};
use app_reports::{ReportFault, write_statuses};
use desk_model::{Clock, Counters, Meta};
use model_parts::OrdersWhere;
use moments::capped_moment_text;
use std::alloc::Global;
use std::io::{self, Write};
use store_api::RowsAbove;

// How many of the last orders are shown.
const LAST: u64 = 20;

// Within how many seconds of the desk's clock what ends soon ends.
const SOON: u64 = 86400;

/// Writes the page of a desk: its base and its clock, how many of its objects have each stored status, what waits for the
/// validator and for the signing office, what ends soon, and the last orders. It keeps one object's rows at most, an order with
/// what it lists and its account.
///
/// # Errors
///
/// `Storage` where a growth was refused or the rows could not be read, `Output` where the writer failed.
pub fn write_page<K: RowsAbove, W: Write>(
    alloc: Global,
    source: &mut K,
    out: &mut W,
) -> Result<(), ReportFault>
    ensures reads { Reports K.sight source.old source.new result }
    ensures printed { ForTables K.sight source.old source.new (λ T. OnOk result (Appends (W.contents out.old) (W.contents out.new) (page_html T))) }
{
    let counters = write_meta(alloc, source, out)?;
    write_statuses(alloc, source, out)?;
    write_text(out, COUNTED)?;
    write_tables(alloc, source, out, counters)
}

// Writes the beginning of the page, and gives the counters of the desk.
fn write_meta<K: RowsAbove, W: Write>(
    alloc: Global,
    source: &mut K,
    out: &mut W,
) -> Result<Counters, ReportFault>
    ensures reads { Reports K.sight source.old source.new result }
    ensures counters { ForTables K.sight source.old source.new (λ T. IfOk result (λ counters. counters ≡ T.meta.counters)) }
    ensures printed { ForTables K.sight source.old source.new (λ T. OnOk result (Appends (W.contents out.old) (W.contents out.new) (head_html T.meta))) }
{
    let meta = source.meta_row(alloc)?;
    write_head(alloc, out, &meta)?;
    Ok(meta.counters)
}

// Writes the beginning of the page, with the base of the desk and its clock.
fn write_head<W: Write>(alloc: Global, out: &mut W, meta: &Meta) -> io::Result<()>
    ensures { OnOk result (Appends (W.contents out.old) (W.contents out.new) (head_html meta.now)) }
{
    write_text(out, HEAD)?;
    write_escaped(alloc, out, meta.policy.base())?;
    write_text(out, CLOCK)?;
    write_moment(alloc, out, meta.counters.clock.moment())?;
    write_text(out, COUNTS)
}

// Writes a moment.
fn write_moment<W: Write>(alloc: Global, out: &mut W, moment: u64) -> io::Result<()>
    ensures { OnOk result (Appends (W.contents out.old) (W.contents out.new) (moment_text (capped moment))) }
{
    let text = capped_moment_text(alloc, moment)?;
    out.write_all(text.as_bytes())
}

// Writes the tables, and the end of the page.
fn write_tables<K: RowsAbove, W: Write>(
    alloc: Global,
    source: &mut K,
    out: &mut W,
    counters: Counters,
) -> Result<(), ReportFault>
    ensures reads { Reports K.sight source.old source.new result }
    ensures printed { ForTables K.sight source.old source.new (λ T. OnOk result (Appends (W.contents out.old) (W.contents out.new) (tables_html counters T))) }
{
    write_waiting(alloc, source, out)?;
    write_ending(alloc, source, out, soon_after(counters.clock))?;
    write_last(alloc, source, out, counters.orders)?;
    write_text(out, END)?;
    Ok(())
}

// Writes the tables of what waits for the offices.
fn write_waiting<K: RowsAbove, W: Write>(
    alloc: Global,
    source: &mut K,
    out: &mut W,
) -> Result<(), ReportFault>
    ensures reads { Reports K.sight source.old source.new result }
    ensures printed { ForTables K.sight source.old source.new (λ T. OnOk result (Appends (W.contents out.old) (W.contents out.new) (waiting_html T))) }
{
    write_table(alloc, source, out, UNREPORTED, &Unreported, 0)?;
    write_table(alloc, source, out, PROCESSING, &OrdersWhere::Processing, 0)
}

// The moment a day after the desk's clock.
fn soon_after(clock: Clock) -> u64
    ensures { result ≡ soon_after clock }
{
    clock.moment().saturating_add(SOON)
}

// Writes the tables of what ends before a moment.
fn write_ending<K: RowsAbove, W: Write>(
    alloc: Global,
    source: &mut K,
    out: &mut W,
    moment: u64,
) -> Result<(), ReportFault>
    ensures reads { Reports K.sight source.old source.new result }
    ensures printed { ForTables K.sight source.old source.new (λ T. OnOk result (Appends (W.contents out.old) (W.contents out.new) (ending_html moment T))) }
{
    write_table(alloc, source, out, ENDING_ORDERS, &EndingOrders(moment), 0)?;
    let ending = EndingAuthorizations(moment);
    write_table(alloc, source, out, ENDING_AUTHORIZATIONS, &ending, 0)
}

// Writes the table of the last orders, by the last number that was given.
fn write_last<K: RowsAbove, W: Write>(
    alloc: Global,
    source: &mut K,
    out: &mut W,
    last: u64,
) -> Result<(), ReportFault>
    ensures reads { Reports K.sight source.old source.new result }
    ensures printed { ForTables K.sight source.old source.new (λ T. OnOk result (Appends (W.contents out.old) (W.contents out.new) (last_html last T))) }
{
    let above = last.saturating_sub(LAST);
    write_table(alloc, source, out, LAST_ORDERS, &OrdersWhere::Any, above)
}
