//! The lists of accounts, orders and authorizations: which rows they have, and a line each.
ghost use Rattle.std.specs.Prelude.{◌≡◌, ◌↔◌, ⊤, IfOk, OnOk, ℕ, List, IsTrue, string_bytes, codes};
ghost use Rattle.std.specs.Io.KnownBytes.{Appends};
ghost use Rattle.store_api.specs.Sight.{ForTables, Reads};
ghost use Rattle.app_reports.specs.Listed.{Prints, PrintsAll, Turns, roster, KeepsOrder, KeepsAuthorization};
ghost use Rattle.app_reports.specs.Printed.{count_line, account_document, account_line, account_text, order_line, authorization_line};
ghost use Rattle.app_reports.specs.{Reported.Reports, declared.form.Form.Form as ReportForm};
ghost use Rattle.desk_model.specs.{Tables.Tables, Keys.thumbprint, Tokens.base64url};

use crate::asked::{AuthorizationFilter, OrderFilter, allows_account, allows_listed, allows_name};
use crate::fault::ReportFault;
use crate::form::Form;
use crate::visible::visible_text;
use base64::engine::general_purpose::URL_SAFE_NO_PAD;
use desk_book::Row;
use desk_model::{AccountRow, AuthorizationRow, Jwk, OrderRow};
use json_texts::written_list;
use keys::thumbprint;
use moments::capped_moment_text;
use std::alloc::{AllocError, Global};
use std::io::{self, Write};
use store_api::{LookUps, RowsAbove, StorageFault};
use store_passes::{PassedRow, row_after};

/// Which rows of a table are listed, and the line of each.
pub trait RowList {
    /// The rows of the table.
    type Item: PassedRow + Drop;

    // Which of the rows of these tables it keeps.
    ghost keeps: { Self → Tables → Self.Item → Type 0 };

    // The line of one.
    ghost line: { ReportForm → Self.Item → List ℕ };

    // What they are, in the last line of a text.
    ghost noun: { List ℕ };

    /// Whether a row is listed.
    ///
    /// # Errors
    ///
    /// As a look-up of the source.
    fn keeps<K: LookUps>(
        &self,
        alloc: Global,
        source: &mut K,
        row: &Self::Item,
    ) -> Result<bool, StorageFault>
        ensures reads { Reads K.sight source.old source.new result }
        ensures kept { ForTables K.sight source.old source.new (λ T. IfOk result (λ kept. IsTrue kept ↔ keeps self.now T row.now)) };

    /// Writes the line of a row.
    ///
    /// # Errors
    ///
    /// As the writer, or where a growth was refused.
    fn write_line<W: Write>(
        alloc: Global,
        out: &mut W,
        form: Form,
        row: &Self::Item,
    ) -> io::Result<()>
        ensures { OnOk result (Appends (W.contents out.old) (W.contents out.new) (line form row.now)) };

    /// What its rows are, in the last line of a text.
    fn noun() -> &'static str
        ensures { result.now ≡ noun };
}

// Writes the line of a row that is listed, and gives the count of those, so far and with it.
fn write_if_kept<L: RowList, K: LookUps, W: Write>(
    alloc: Global,
    source: &mut K,
    out: &mut W,
    form: Form,
    list: &L,
    row: &L::Item,
    count: u64,
) -> Result<u64, ReportFault>
    ensures reads { Reports K.sight source.old source.new result }
    ensures turns { ForTables K.sight source.old source.new (λ T. IfOk result
        (Turns (L.keeps list.now T) (L.line form) (W.contents out.old) (W.contents out.new) row.now count)) }
{
    if !list.keeps(alloc, source, row)? {
        return Ok(count);
    }
    L::write_line(alloc, out, form, row)?;
    Ok(count.saturating_add(1))
}

// Writes the line of each row that is listed, and gives how many these are.
#[tactic(auto, using(store_passes::proofs::Rows::all_above, store_passes::proofs::Alls::books_in_order, crate::proofs::Listing::lists_none, crate::proofs::Listing::lists_turn, crate::proofs::Reporting::report_failed, store_api::proofs::Readings::unchanged_then))]
fn write_kept<L: RowList, K: RowsAbove, W: Write>(
    alloc: Global,
    source: &mut K,
    out: &mut W,
    form: Form,
    list: &L,
) -> Result<u64, ReportFault>
    ensures reads { Reports K.sight source.old source.new result }
    ensures printed { ForTables K.sight source.old source.new (λ T. IfOk result
        (Prints (L.keeps list.now T) (L.line form) (W.contents out.old) (W.contents out.new) (L.Item.rows T))) }
{
    let mut above: u64 = 0;
    let mut count: u64 = 0;
    while let Some(row) = row_after::<L::Item, K>(alloc, source, above)? {
        above = row.number();
        count = write_if_kept(alloc, source, out, form, list, &row, count)?;
    }
    Ok(count)
}

/// Writes a line for each row of a table that a list keeps, by number; as text last how many these are. It keeps one row at
/// most, an order with what it lists.
///
/// # Errors
///
/// `Storage` where a growth was refused or the rows could not be read, `Output` where the writer failed.
pub fn list_rows<L: RowList, K: RowsAbove, W: Write>(
    alloc: Global,
    source: &mut K,
    out: &mut W,
    form: Form,
    list: &L,
) -> Result<(), ReportFault>
    ensures reads { Reports K.sight source.old source.new result }
    ensures printed { ForTables K.sight source.old source.new (λ T. OnOk result
        (PrintsAll (roster L.Item.rows (L.keeps list.now) L.line L.noun form) (W.contents out.old) (W.contents out.new) T)) }
{
    let count = write_kept(alloc, source, out, form, list)?;
    write_count(out, form, L::noun(), count)?;
    Ok(())
}

// Writes how many rows there are, as text.
fn write_count<W: Write>(out: &mut W, form: Form, noun: &str, count: u64) -> io::Result<()>
    ensures { OnOk result (Appends (W.contents out.old) (W.contents out.new) (count_line form noun.now count)) }
{
    match form {
        Form::Text => writeln!(out, "{noun} {count}"),
        Form::Json => Ok(()),
    }
}

// ---- accounts

/// All accounts, listed.
#[derive(Clone, Copy)]
pub struct AllAccounts;

impl RowList for AllAccounts {
    type Item = AccountRow;

    ghost keeps = { λ all T row. ⊤ };

    ghost line = { account_line };

    ghost noun = { codes "accounts" };

    fn keeps<K: LookUps>(
        &self,
        _alloc: Global,
        _source: &mut K,
        _row: &AccountRow,
    ) -> Result<bool, StorageFault> {
        Ok(true)
    }

    // As text: its number, right in ten places, its stored status, left in eleven, the thumbprint of its key, and its contacts as
    // JSON in visible ASCII, as their texts are a client's.
    fn write_line<W: Write>(
        alloc: Global,
        out: &mut W,
        form: Form,
        row: &AccountRow,
    ) -> io::Result<()> {
        let thumb = thumbprint_text(alloc, &row.key)?;
        let contacts = written_list(alloc, row.contacts.as_slice())?;
        let contacts = visible_text(alloc, contacts.as_str())?;
        let line = AccountLine {
            number: row.number,
            status: row.status.as_str(),
            thumb: thumb.as_str(),
            contacts: &contacts,
        };
        match form {
            Form::Text => write_account(out, line),
            Form::Json => write_account_document(out, line),
        }
    }

    fn noun() -> &'static str {
        "accounts"
    }
}

// What the line of an account has: its texts, and the bytes of the list of its contacts.
struct AccountLine<'a> {
    number: u64,
    status: &'static str,
    thumb: &'a str,
    contacts: &'a [u8],
}

// The line of an account, as text.
fn write_account<W: Write>(out: &mut W, line: AccountLine<'_>) -> io::Result<()>
    ensures { OnOk result (Appends (W.contents out.old) (W.contents out.new)
        (account_text line.entry.number line.entry.status.now line.entry.thumb.now line.entry.contacts.now)) }
{
    let AccountLine {
        number,
        status,
        thumb,
        contacts,
    } = line;
    write!(out, "{number:>10} {status:<11} {thumb} ")?;
    out.write_all(contacts)?;
    writeln!(out)
}

// The line of an account, as JSON.
fn write_account_document<W: Write>(out: &mut W, line: AccountLine<'_>) -> io::Result<()>
    ensures { OnOk result (Appends (W.contents out.old) (W.contents out.new)
        (account_document line.entry.number line.entry.status.now line.entry.thumb.now line.entry.contacts.now)) }
{
    let AccountLine {
        number,
        status,
        thumb,
        contacts,
    } = line;
    write!(
        out,
        "{{\"number\":{number},\"status\":\"{status}\",\"contact\":"
    )?;
    out.write_all(contacts)?;
    writeln!(out, ",\"thumbprint\":\"{thumb}\"}}")
}

// The thumbprint of a key in base64url (RFC 7638, 3).
fn thumbprint_text(alloc: Global, key: &Jwk) -> Result<String, AllocError>
    ensures { IfOk result (λ text. string_bytes text ≡ base64url (thumbprint key.now)) }
{
    url_safe(alloc, &thumbprint(key))
}

// The text of bytes in base64, in the URL-safe alphabet without padding (RFC 4648, 5).
#[tactic(auto, unfolding(desk_model::specs::Tokens::base64url))]
fn url_safe(alloc: Global, bytes: &[u8]) -> Result<String, AllocError>
    ensures { IfOk result (λ text. string_bytes text ≡ base64url bytes.now) }
{
    URL_SAFE_NO_PAD.encode(alloc, bytes)
}

// ---- orders

impl RowList for OrderFilter {
    type Item = OrderRow;

    ghost keeps = { KeepsOrder };

    ghost line = { order_line };

    ghost noun = { codes "orders" };

    fn keeps<K: LookUps>(
        &self,
        alloc: Global,
        source: &mut K,
        row: &OrderRow,
    ) -> Result<bool, StorageFault> {
        if !self.allows(row) {
            return Ok(false);
        }
        allows_listed(alloc, source, &self.name, row.listed.as_slice())
    }

    // With the moment at which it expires. As text: its number and its account's, right in ten places, its stored status, left in
    // ten, and the moment. No member of the document needs an escape.
    fn write_line<W: Write>(
        alloc: Global,
        out: &mut W,
        form: Form,
        row: &OrderRow,
    ) -> io::Result<()> {
        let OrderRow {
            number,
            account,
            ..
        } = row;
        let status = row.status.as_str();
        let expires = capped_moment_text(alloc, row.expires)?;
        let expires = expires.as_str();
        match form {
            Form::Text => writeln!(out, "{number:>10} {account:>10} {status:<10} {expires}"),
            Form::Json => writeln!(
                out,
                "{{\"number\":{number},\"account\":{account},\"status\":\"{status}\",\"expires\":\"{expires}\"}}"
            ),
        }
    }

    fn noun() -> &'static str {
        "orders"
    }
}

// ---- authorizations

impl RowList for AuthorizationFilter {
    type Item = AuthorizationRow;

    ghost keeps = { λ filter T. KeepsAuthorization filter };

    ghost line = { authorization_line };

    ghost noun = { codes "authorizations" };

    fn keeps<K: LookUps>(
        &self,
        _alloc: Global,
        _source: &mut K,
        row: &AuthorizationRow,
    ) -> Result<bool, StorageFault> {
        Ok(allows_account(self.account, row.account) && allows_name(&self.name, &row.name))
    }

    // With the moment at which it expires. As text: its number and its account's, right in ten places, its stored status, left in
    // eleven, the moment, and the name. No member of the document needs an escape.
    fn write_line<W: Write>(
        alloc: Global,
        out: &mut W,
        form: Form,
        row: &AuthorizationRow,
    ) -> io::Result<()> {
        let AuthorizationRow {
            number,
            account,
            ..
        } = row;
        let status = row.status.as_str();
        let name = row.name.shown(alloc)?;
        let name = name.as_str();
        let expires = capped_moment_text(alloc, row.expires)?;
        let expires = expires.as_str();
        match form {
            Form::Text => writeln!(
                out,
                "{number:>10} {account:>10} {status:<11} {expires} {name}"
            ),
            Form::Json => writeln!(
                out,
                "{{\"number\":{number},\"account\":{account},\"name\":\"{name}\",\"status\":\"{status}\",\"expires\":\"{expires}\"}}"
            ),
        }
    }

    fn noun() -> &'static str {
        "authorizations"
    }
}
