//! A table of the page: the first of the rows that are asked for, and how many these are.
ghost use Rattle.std.specs.Prelude.{IfOk, OnOk};
ghost use Rattle.std.specs.{Io.KnownBytes.Appends, List.filter};
ghost use Rattle.model_parts.specs.Above.{above as rows_above};
ghost use Rattle.store_api.specs.Sight.{ForTables};
ghost use Rattle.app_page.specs.Page.{IsShown, ShowsFirst, count_html, if_room, table_html};
ghost use Rattle.app_reports.specs.Reported.{Reports};

use crate::html::write_text;
use crate::rows::PageRow;
use app_reports::ReportFault;
use desk_book::Row;
use model_parts::Query;
use std::alloc::Global;
use std::io::{self, Write};
use store_api::{LookUps, RowsAbove};
use store_passes::row_after;

// How many rows a table shows at most.
const MOST: u64 = 50;

/// Writes a table of those rows above a number that are asked for, by number: what stands before it, the first rows, and how many
/// there are in all. It keeps one row at most, an order with what it lists and its account.
///
/// # Errors
///
/// `Storage` where a growth was refused or the rows could not be read, `Output` where the writer failed.
pub(crate) fn write_table<R: PageRow, Q: Query<R>, K: RowsAbove, W: Write>(
    alloc: Global,
    source: &mut K,
    out: &mut W,
    head: &str,
    which: &Q,
    above: u64,
) -> Result<(), ReportFault>
    ensures reads { Reports K.sight source.old source.new result }
    ensures printed { ForTables K.sight source.old source.new (λ T. OnOk result (Appends (W.contents out.old) (W.contents out.new)
        (table_html head.now (R.html T) (filter (Q.wanted which.now) (rows_above R.number above (R.rows T)))))) }
{
    write_text(out, head)?;
    let count = write_rows(alloc, source, out, which, above)?;
    write_count(out, count)?;
    Ok(())
}

// Writes the first rows above a number that are asked for, and gives how many there are in all.
#[tactic(auto, using(app_reports::proofs::Reporting::report_failed, crate::proofs::Showing::shows_none, crate::proofs::Showing::shows_turn, store_api::proofs::Readings::unchanged_then))]
fn write_rows<R: PageRow, Q: Query<R>, K: RowsAbove, W: Write>(
    alloc: Global,
    source: &mut K,
    out: &mut W,
    which: &Q,
    above: u64,
) -> Result<u64, ReportFault>
    ensures reads { Reports K.sight source.old source.new result }
    ensures printed { ForTables K.sight source.old source.new (λ T. IfOk result (ShowsFirst (R.html T) (W.contents out.old) (W.contents out.new)
        (filter (Q.wanted which.now) (rows_above R.number above (R.rows T))))) }
{
    let mut above = above;
    let mut count: u64 = 0;
    while let Some(row) = row_after::<R, K>(alloc, source, above)? {
        above = row.number();
        count = write_if_wanted(alloc, source, out, which, &row, count)?;
    }
    Ok(count)
}

// Writes a row that is asked for, where there is room, and gives the count of those, so far and with it.
fn write_if_wanted<R: PageRow, Q: Query<R>, K: LookUps, W: Write>(
    alloc: Global,
    source: &mut K,
    out: &mut W,
    which: &Q,
    row: &R,
    count: u64,
) -> Result<u64, ReportFault>
    ensures reads { Reports K.sight source.old source.new result }
    ensures turns { ForTables K.sight source.old source.new (λ T. IfOk result
        (IsShown (Q.wanted which.now row.now) (R.html T row.now) (W.contents out.old) (W.contents out.new) count)) }
{
    if !which.wants(row) {
        return Ok(count);
    }
    write_within(alloc, source, out, row, count)?;
    Ok(count.saturating_add(1))
}

// Writes a row behind so many others, where there is room.
fn write_within<R: PageRow, K: LookUps, W: Write>(
    alloc: Global,
    source: &mut K,
    out: &mut W,
    row: &R,
    count: u64,
) -> Result<(), ReportFault>
    ensures reads { Reports K.sight source.old source.new result }
    ensures written { ForTables K.sight source.old source.new (λ T. OnOk result
        (Appends (W.contents out.old) (W.contents out.new) (if_room count (R.html T row.now)))) }
{
    if count >= MOST {
        return Ok(());
    }
    row.write_html(alloc, source, out)
}

// Writes the end of a table, with how many rows there are in all.
fn write_count<W: Write>(out: &mut W, count: u64) -> io::Result<()>
    ensures { OnOk result (Appends (W.contents out.old) (W.contents out.new) (count_html count)) }
{
    writeln!(out, "</tbody></table>\n<p>In all: {count}</p>")
}
