//! The documents of orders (RFC 8555, 7.1.3).
ghost use Rattle.std.specs.Prelude.{ℕ, ◌≡◌, ◌++◌, ◌∷◌, [], map, codes, is_some, IfOk, OnOk};
ghost use Rattle.serde_json.specs.Data.{string};
ghost use Rattle.desk_model.specs.{Json.when, Derived.numbers_of, Names.shown_name};
ghost use Rattle.desk_model.specs.Effect.{swept, swept_order};
ghost use Rattle.desk_model.specs.Document.{order_error, identifier, certificate_url, authorization_url, rows_of, listed_rows, is_listed};
ghost use Rattle.core_replies.specs.Shown.{capped_order, listed_order, order_members};
ghost use Rattle.core_replies.specs.Texts.{HasMembers};

use crate::json_text::{
    JsonText, ListItem, ShowsObject, write_error, write_identifier, write_list,
};
use crate::replies::{numbered_url, url_below};
use desk_book::{Book, Table, order_status};
use desk_model::{AuthorizationRow, DatedProblem, DnsName, Listed, OrderRow, OrderStatus, Policy};
use moments::capped_moment_text;
use std::alloc::{AllocError, Global};

// The URL of a listed authorization.
impl ListItem<Policy> for Listed {
    ghost values = { λ t l. string (authorization_url t l.authorization) ∷ [] };

    fn write_shown(&self, text: &mut JsonText, by: &Policy) -> Result<(), AllocError> {
        let url = numbered_url(text.alloc(), by, "/authz/", self.authorization)?;
        text.string(&url)
    }
}

// The identifier of a name.
impl ListItem<()> for DnsName {
    ghost values = { λ u n. identifier (shown_name n) ∷ [] };

    fn write_shown(&self, text: &mut JsonText, _by: &()) -> Result<(), AllocError> {
        let name = self.shown(text.alloc())?;
        write_identifier(text, name.as_str())
    }
}

// Writes the URL of the certificate, where there is one.
fn write_certificate(text: &mut JsonText, policy: &Policy, row: &OrderRow) -> Result<(), AllocError>
    ensures { OnOk result (HasMembers text.old text.new
        (when (is_some row.now.certified) (codes "certificate", string (certificate_url policy.now row.now.number)))) }
{
    let Some(_certified) = &row.certified else {
        return Ok(());
    };
    let url = numbered_url(text.alloc(), policy, "/cert/", row.number)?;
    text.member("certificate", &url)
}

// Writes why the order failed, where the signing office failed it.
fn write_problem(text: &mut JsonText, failed: &Option<DatedProblem>) -> Result<(), AllocError>
    ensures { OnOk result (HasMembers text.old text.new (order_error failed.now)) }
{
    let Some(failed) = failed else {
        return Ok(());
    };
    let problem = &failed.problem;
    let detail = problem.detail.as_str();
    write_error(text, problem.kind.as_str(), detail, problem.status())
}

// An order (RFC 8555, 7.1.3), told the names of the authorizations that it lists, in their places.
impl<'a> ShowsObject<(&'a Policy, &'a [DnsName])> for OrderRow {
    ghost members = { λ by o. order_members by.0.now by.1.now (capped_order o) };

    fn write_members(
        &self,
        text: &mut JsonText,
        by: &(&'a Policy, &'a [DnsName]),
    ) -> Result<(), AllocError> {
        let (policy, names) = *by;
        let alloc = text.alloc();
        write_list(text, "authorizations", self.listed.as_slice(), policy)?;
        write_certificate(text, policy, self)?;
        write_problem(text, &self.failed)?;
        text.member("expires", &capped_moment_text(alloc, self.expires)?)?;
        let finalize = url_below(alloc, policy, "/order/", self.number, "/finalize")?;
        text.member("finalize", &finalize)?;
        write_list(text, "identifiers", names, &())?;
        text.member("status", self.status.as_str())
    }
}

// Adds the names of the authorizations that these places list.
fn push_names(
    names: &mut Vec<DnsName>,
    rows: &Table<AuthorizationRow>,
    listed: &[Listed],
) -> Result<(), AllocError>
    ensures { OnOk result (names.new.items ≡ names.old.items ++ map (λ a. a.name) (rows_of rows.now (numbers_of listed.now))) }
{
    for place in listed {
        if let Some(row) = rows.get(place.authorization) {
            names.push(row.name.clone()?)?;
        }
    }
    Ok(())
}

/// The names of the authorizations that an order lists, in their places; the passing of time moves none of them.
///
/// # Errors
///
/// Where there is no memory for copies of the names.
pub fn order_names(alloc: Global, book: &Book, row: &OrderRow) -> Result<Vec<DnsName>, AllocError>
    ensures stored { IfOk result (λ v. v.items ≡ map (λ a. a.name) (listed_rows book.now row.now)) }
    ensures swept { IfOk result (λ v. (moment : ℕ) → v.items ≡ map (λ a. a.name) (listed_rows (swept moment book.now) row.now)) }
{
    let mut names = Vec::new(alloc);
    push_names(&mut names, book.authorizations(), row.listed.as_slice())?;
    Ok(names)
}

// Whether an order of a book is an account's and not invalid at a moment.
fn is_listed_at(book: &Book, moment: u64, account: u64, row: &OrderRow) -> bool
    ensures { result ≡ is_listed account (swept_order moment book.now.authorizations row.now) }
{
    row.account == account && !matches!(order_status(book, moment, row), OrderStatus::Invalid)
}

// The URL of an order of an account that is not invalid at a moment.
impl<'a> ListItem<(&'a Book, u64, u64)> for OrderRow {
    ghost values = { λ by o. listed_order by.0.now by.1 by.2 o };

    fn write_shown(
        &self,
        text: &mut JsonText,
        by: &(&'a Book, u64, u64),
    ) -> Result<(), AllocError> {
        let (book, moment, account) = *by;
        if !is_listed_at(book, moment, account, self) {
            return Ok(());
        }
        let policy = &book.meta().policy;
        let url = numbered_url(text.alloc(), policy, "/order/", self.number)?;
        text.string(&url)
    }
}
