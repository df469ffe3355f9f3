//! What is asked of the rows that are listed.
ghost use Rattle.std.specs.Prelude.{◌≡◌, ◌↔◌, IsTrue, IfOk, map};
ghost use Rattle.std.specs.List.{list_any};
ghost use Rattle.desk_model.specs.{Derived.numbers_of, Document.rows_of, Name.same_name};
ghost use Rattle.store_api.specs.Sight.{ForTables, Reads};
ghost use Rattle.app_reports.specs.Filter.{Allows, AsksFor, IsNamed};

use desk_model::{DnsName, Listed, OrderRow, OrderStatus};
use std::alloc::Global;
use store_api::{LookUps, StorageFault};
use store_passes::listed_names;

/// Which orders are listed.
#[derive(Drop)]
pub struct OrderFilter {
    /// The account whose orders they are, or `None` for all accounts.
    pub account: Option<u64>,
    /// The status that they have (RFC 8555, 7.1.6), or `None` for every status.
    pub status: Option<OrderStatus>,
    /// The name that they ask for (RFC 8555, 7.1.3), or `None` for every name.
    pub name: Option<DnsName>,
}

impl OrderFilter {
    /// Whether an order has the account and the status that are asked for.
    pub(crate) fn allows(&self, row: &OrderRow) -> bool
        ensures { IsTrue result ↔ (Allows self.now.account row.now.account × Allows self.now.status row.now.status) }
    {
        allows_account(self.account, row.account) && allows_status(self.status, row.status)
    }
}

/// Which authorizations are listed.
#[derive(Drop)]
pub struct AuthorizationFilter {
    /// The account whose authorizations they are, or `None` for all accounts.
    pub account: Option<u64>,
    /// Their name, or `None` for every name.
    pub name: Option<DnsName>,
}

/// Whether an account is the one that is asked for, if one is.
pub(crate) fn allows_account(asked: Option<u64>, account: u64) -> bool
    ensures { IsTrue result ↔ Allows asked account }
{
    match asked {
        Some(asked) => asked == account,
        None => true,
    }
}

/// Whether a name is the one that is asked for, if one is.
pub(crate) fn allows_name(asked: &Option<DnsName>, name: &DnsName) -> bool
    ensures { IsTrue result ↔ IsNamed asked.now name.now }
{
    match asked {
        Some(asked) => name.is_same(asked),
        None => true,
    }
}

/// Whether an order that lists these authorizations asks for the name that is asked for, if one is.
pub(crate) fn allows_listed<K: LookUps>(
    alloc: Global,
    source: &mut K,
    asked: &Option<DnsName>,
    listed: &[Listed],
) -> Result<bool, StorageFault>
    ensures reads { Reads K.sight source.old source.new result }
    ensures kept { ForTables K.sight source.old source.new (λ T. IfOk result (λ kept.
        IsTrue kept ↔ AsksFor asked.now (map (λ a. a.name) (rows_of T.authorizations (numbers_of listed.now))))) }
{
    match asked {
        Some(asked) => Ok(has_name(&listed_names(alloc, source, listed)?, asked)),
        None => Ok(true),
    }
}

// Whether a name is among these.
fn has_name(names: &[DnsName], asked: &DnsName) -> bool
    ensures { result ≡ list_any (λ name. same_name name asked.now) names.now }
{
    names.iter().any(|name| name.is_same(asked))
}

// Whether a status is one that is asked for.
fn allows_status(asked: Option<OrderStatus>, status: OrderStatus) -> bool
    ensures { IsTrue result ↔ Allows asked status }
{
    match asked {
        Some(asked) => asked == status,
        None => true,
    }
}
