//! Queries: which rows of a table are looked up.
ghost use Rattle.std.specs.Prelude.{◌≡◌, Bool};
ghost use Rattle.model_parts.specs.LookUps.{wants_account, wants_authorization, wants_nonce, wants_order};

use desk_model::{AccountRow, AuthorizationRow, AuthzStatus, Jwk, Nonce, OrderRow, OrderStatus};

/// Which rows of a table are looked up.
pub trait Query<R> {
    // Whether a row is one of them.
    ghost wanted: { Self → R → Bool };

    /// Whether a row is one of them.
    fn wants(&self, row: &R) -> bool
        ensures { result ≡ wanted self.now row.now };
}

/// Which nonces are looked up.
#[derive(Clone, Copy)]
pub enum NoncesWhere {
    /// All.
    Any,
    /// Those of a serial.
    Serial(u64),
    /// Those that were issued before a moment.
    IssuedBefore(u64),
}

impl Query<Nonce> for NoncesWhere {
    ghost wanted = { wants_nonce };

    fn wants(&self, nonce: &Nonce) -> bool {
        match *self {
            NoncesWhere::Any => true,
            NoncesWhere::Serial(serial) => nonce.serial == serial,
            NoncesWhere::IssuedBefore(moment) => nonce.issued < moment,
        }
    }
}

/// Which accounts are looked up.
#[derive(Clone, Copy)]
pub enum AccountsWhere<'a> {
    /// All.
    Any,
    /// Those of a number.
    Number(u64),
    /// Those of a key.
    Key(&'a Jwk),
}

impl<'a> Query<AccountRow> for AccountsWhere<'a> {
    ghost wanted = { wants_account };

    fn wants(&self, row: &AccountRow) -> bool {
        match *self {
            AccountsWhere::Any => true,
            AccountsWhere::Number(number) => row.number == number,
            AccountsWhere::Key(key) => row.key.canonical() == key.canonical(),
        }
    }
}

/// Which orders are looked up.
#[derive(Clone, Copy)]
pub enum OrdersWhere {
    /// All.
    Any,
    /// Those of a number.
    Number(u64),
    /// Those of a stored status whose end is before a moment.
    Past(OrderStatus, u64),
    /// Those that are stored as waiting for a certificate.
    Processing,
}

impl Query<OrderRow> for OrdersWhere {
    ghost wanted = { wants_order };

    fn wants(&self, row: &OrderRow) -> bool {
        match *self {
            OrdersWhere::Any => true,
            OrdersWhere::Number(number) => row.number == number,
            OrdersWhere::Past(status, moment) => row.status == status && row.expires < moment,
            OrdersWhere::Processing => row.status == OrderStatus::Processing,
        }
    }
}

/// Which authorizations are looked up.
#[derive(Clone, Copy)]
pub enum AuthorizationsWhere<'a> {
    /// All.
    Any,
    /// Those of a number.
    Number(u64),
    /// Those of an account.
    Account(u64),
    /// Those of an account for a base name, with a wildcard or without.
    Named(u64, &'a str),
    /// Those of a stored status whose end is before a moment.
    Past(AuthzStatus, u64),
}

impl<'a> Query<AuthorizationRow> for AuthorizationsWhere<'a> {
    ghost wanted = { wants_authorization };

    fn wants(&self, row: &AuthorizationRow) -> bool {
        match *self {
            AuthorizationsWhere::Any => true,
            AuthorizationsWhere::Number(number) => row.number == number,
            AuthorizationsWhere::Account(account) => row.account == account,
            AuthorizationsWhere::Named(account, base) => {
                row.account == account && row.name.base() == base
            }
            AuthorizationsWhere::Past(status, moment) => {
                row.status == status && row.expires < moment
            }
        }
    }
}
