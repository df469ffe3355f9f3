//! The rows of the page's tables, and which these are.
ghost use Rattle.std.specs.Prelude.{◌≡◌, OnOk, ℕ, List};
ghost use Rattle.std.specs.{Io.KnownBytes.Appends, List.list_any};
ghost use Rattle.store_api.specs.Sight.{ForTables};
ghost use Rattle.app_page.specs.Page.{authorization_html, begin_html, cells_html, order_html, order_row_html, waits_for_report};
ghost use Rattle.app_reports.specs.Reported.{Reports};
ghost use Rattle.desk_model.specs.{Tables.Tables, Effect.is_overdue, Legal.is_processing_challenge, Touched.is_past_order};

use crate::pieces::{Piece, write_pieces};
use app_reports::ReportFault;
use desk_model::{AccountRow, AuthorizationRow, AuthzStatus, ChallengeRow, DnsName, OrderRow};
use model_parts::{AccountsWhere, Query};
use moments::capped_moment_text;
use std::alloc::Global;
use std::io::{self, Write};
use store_api::LookUps;
use store_passes::{PassedRow, listed_names};

/// A row that the page shows.
pub(crate) trait PageRow: PassedRow + Drop {
    // Its HTML, among these tables.
    ghost html: { Tables → Self → List ℕ };

    /// Writes it.
    fn write_html<K: LookUps, W: Write>(
        &self,
        alloc: Global,
        source: &mut K,
        out: &mut W,
    ) -> Result<(), ReportFault>
        ensures reads { Reports K.sight source.old source.new result }
        ensures written { ForTables K.sight source.old source.new (λ T. OnOk result (Appends (W.contents out.old) (W.contents out.new) (html T self.now))) };
}

// An order, with the names that it asks for and the contacts of its account.
impl PageRow for OrderRow {
    ghost html = { order_html };

    fn write_html<K: LookUps, W: Write>(
        &self,
        alloc: Global,
        source: &mut K,
        out: &mut W,
    ) -> Result<(), ReportFault> {
        let names = listed_names(alloc, source, self.listed.as_slice())?;
        let accounts = source.find_accounts(alloc, AccountsWhere::Number(self.account))?;
        write_order_row(alloc, out, self, &names, &accounts)?;
        Ok(())
    }
}

impl PageRow for AuthorizationRow {
    ghost html = { λ T. authorization_html };

    fn write_html<K: LookUps, W: Write>(
        &self,
        alloc: Global,
        _source: &mut K,
        out: &mut W,
    ) -> Result<(), ReportFault> {
        write_authorization(alloc, out, self)?;
        Ok(())
    }
}

// Writes an order with these names, whose account is this one.
fn write_order_row<W: Write>(
    alloc: Global,
    out: &mut W,
    row: &OrderRow,
    names: &[DnsName],
    accounts: &[AccountRow],
) -> io::Result<()>
    ensures { OnOk result (Appends (W.contents out.old) (W.contents out.new) (order_row_html row.now names.now accounts.now)) }
{
    let status = row.status.as_str();
    write_cells(alloc, out, row.number, row.account, status, row.expires)?;
    write_pieces(alloc, out, names)?;
    out.write_all(b"</td><td>")?;
    write_pieces(alloc, out, accounts)?;
    out.write_all(b"</td></tr>")
}

// Writes an authorization, with its name and its challenges.
fn write_authorization<W: Write>(
    alloc: Global,
    out: &mut W,
    row: &AuthorizationRow,
) -> io::Result<()>
    ensures { OnOk result (Appends (W.contents out.old) (W.contents out.new) (authorization_html row.now)) }
{
    let status = row.status.as_str();
    write_cells(alloc, out, row.number, row.account, status, row.expires)?;
    row.name.write_piece(alloc, out)?;
    out.write_all(b"</td><td>")?;
    write_pieces(alloc, out, row.challenges.as_slice())?;
    out.write_all(b"</td></tr>")
}

// Writes the first cells of a row: its number, its account's, its stored status, the moment at which it ends.
fn write_cells<W: Write>(
    alloc: Global,
    out: &mut W,
    number: u64,
    account: u64,
    status: &str,
    expires: u64,
) -> io::Result<()>
    ensures { OnOk result (Appends (W.contents out.old) (W.contents out.new) (cells_html number account status.now expires)) }
{
    let expires = capped_moment_text(alloc, expires)?;
    let expires = expires.as_str();
    write_begin(out, number, account, status)?;
    write!(out, "{status}</td><td>{expires}</td><td>")
}

// Writes the beginning of a row, up to its stored status.
fn write_begin<W: Write>(out: &mut W, number: u64, account: u64, status: &str) -> io::Result<()>
    ensures { OnOk result (Appends (W.contents out.old) (W.contents out.new) (begin_html number account status.now)) }
{
    write!(
        out,
        "\n<tr><td>{number}</td><td>{account}</td><td class=\"{status}\">"
    )
}

// ---- which rows these are

/// Authorizations that wait for the validator: pending, with a challenge that is processing.
#[derive(Clone, Copy)]
pub(crate) struct Unreported;

impl Query<AuthorizationRow> for Unreported {
    ghost wanted = { λ which. waits_for_report };

    fn wants(&self, row: &AuthorizationRow) -> bool {
        row.status == AuthzStatus::Pending && has_processing(row.challenges.as_slice())
    }
}

// Whether a challenge is processing.
fn has_processing(challenges: &[ChallengeRow]) -> bool
    ensures { result ≡ list_any (λ c. is_processing_challenge c.status) challenges.now }
{
    challenges.iter().any(|row| row.status.is_processing())
}

/// Orders that are not final, and end before a moment.
#[derive(Clone, Copy)]
pub(crate) struct EndingOrders(pub(crate) u64);

impl Query<OrderRow> for EndingOrders {
    ghost wanted = { λ which. is_past_order which.0 };

    fn wants(&self, order: &OrderRow) -> bool {
        order.status.is_live() && order.expires < self.0
    }
}

/// Authorizations that are not final, and end before a moment.
#[derive(Clone, Copy)]
pub(crate) struct EndingAuthorizations(pub(crate) u64);

impl Query<AuthorizationRow> for EndingAuthorizations {
    ghost wanted = { λ which. is_overdue which.0 };

    fn wants(&self, authorization: &AuthorizationRow) -> bool {
        authorization.status.is_live() && authorization.expires < self.0
    }
}
