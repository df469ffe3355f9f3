//! The book of a desk: its rows in memory.
ghost use Rattle.std.specs.Prelude.{◌≡◌, find, bytes_eq, IfOk, OnOk, OnErr, option_copied};
ghost use Rattle.desk_model.specs.{History.first_history, Legal.Legal};
ghost use Rattle.desk_model.specs.Tables.{Tables, picture};
ghost use Rattle.desk_model.specs.Questions.{nonce_on, account_on, account_with_key, order_on, authorization_on, owner_on};
ghost use Rattle.desk_model.specs.Change.{applied_one, applied};
ghost use Rattle.desk_model.specs.Effect.{has_row, key_numbered};

use crate::table::Table;
use desk_model::{
    AccountRow, AuthorizationRow, Change, Clock, Counters, Meta, Nonce, OrderRow, Policy,
};
use std::alloc::{AllocError, Global};
use std::marker::Model;

/// The rows of a desk, which contracts see as its tables.
#[derive(Drop)]
pub struct Book {
    meta: Meta,
    nonces: Table<Nonce>,
    accounts: Table<AccountRow>,
    authorizations: Table<AuthorizationRow>,
    orders: Table<OrderRow>,
}

impl Model for Book {
    ghost use Rattle.desk_model.specs.Tables.{Tables};

    ghost Value = { Tables };

    ghost view = { λ b. record { meta = b.meta; nonces = b.nonces; accounts = b.accounts; authorizations = b.authorizations; orders = b.orders } };
}

impl Book {
    /// The book of a desk that is made at a moment.
    pub fn new(alloc: Global, policy: Policy, at: Clock) -> Book
        ensures legal { Legal (first_history policy at) }
        ensures picture { result ≡ picture (first_history policy at) }
    {
        Book {
            meta: Meta {
                policy,
                counters: Counters {
                    clock: at,
                    nonces: 0,
                    accounts: 0,
                    orders: 0,
                    authorizations: 0,
                    challenges: 0,
                },
            },
            nonces: Table::new(alloc),
            accounts: Table::new(alloc),
            authorizations: Table::new(alloc),
            orders: Table::new(alloc),
        }
    }

    /// The book of these tables, whose rows stand by number as a table's do.
    pub fn of_tables(
        meta: Meta,
        nonces: Table<Nonce>,
        accounts: Table<AccountRow>,
        authorizations: Table<AuthorizationRow>,
        orders: Table<OrderRow>,
    ) -> Book
        ensures { result ≡ record { meta = meta; nonces = nonces; accounts = accounts; authorizations = authorizations; orders = orders } }
    {
        Book {
            meta,
            nonces,
            accounts,
            authorizations,
            orders,
        }
    }

    /// The policy, the clock and the counters.
    pub fn meta(&self) -> &Meta
        ensures { result.now ≡ self.now.meta }
    {
        &self.meta
    }

    /// The nonces, by serial.
    pub fn nonces(&self) -> &Table<Nonce>
        ensures { result.now ≡ self.now.nonces }
    {
        &self.nonces
    }

    /// The accounts, by number.
    pub fn accounts(&self) -> &Table<AccountRow>
        ensures { result.now ≡ self.now.accounts }
    {
        &self.accounts
    }

    /// The authorizations, by number.
    pub fn authorizations(&self) -> &Table<AuthorizationRow>
        ensures { result.now ≡ self.now.authorizations }
    {
        &self.authorizations
    }

    /// The orders, by number.
    pub fn orders(&self) -> &Table<OrderRow>
        ensures { result.now ≡ self.now.orders }
    {
        &self.orders
    }

    /// The nonce of this serial.
    pub fn nonce(&self, serial: u64) -> Option<&Nonce>
        ensures { option_copied result ≡ nonce_on self.now serial }
    {
        self.nonces.get(serial)
    }

    /// The account of this number.
    pub fn account(&self, number: u64) -> Option<&AccountRow>
        ensures { option_copied result ≡ account_on self.now number }
    {
        self.accounts.get(number)
    }

    /// The account with a key, by its canonical text.
    pub fn account_with_key(&self, key: &str) -> Option<&AccountRow>
        ensures { option_copied result ≡ account_with_key self.now key.now }
    {
        row_with_key(&self.accounts, key)
    }

    /// The order of this number.
    pub fn order(&self, number: u64) -> Option<&OrderRow>
        ensures { option_copied result ≡ order_on self.now number }
    {
        self.orders.get(number)
    }

    /// The authorization of this number.
    pub fn authorization(&self, number: u64) -> Option<&AuthorizationRow>
        ensures { option_copied result ≡ authorization_on self.now number }
    {
        self.authorizations.get(number)
    }

    /// The authorization that a challenge is of, by the challenge's number.
    pub fn owner(&self, challenge: u64) -> Option<&AuthorizationRow>
        ensures { option_copied result ≡ owner_on self.now challenge }
    {
        row_with_challenge(&self.authorizations, challenge)
    }

    /// The key of the account of this number, by its canonical text; empty where there is none.
    pub fn account_key(&self, number: u64) -> &str
        ensures { result.now ≡ key_numbered number self.now.accounts }
    {
        match self.account(number) {
            Some(account) => account.key.canonical(),
            None => "",
        }
    }

    /// Does all the changes, in order.
    ///
    /// # Errors
    ///
    /// Where there is no memory for all of them; the book is then as it was.
    pub fn apply(&mut self, changes: Vec<Change>) -> Result<(), AllocError>
        ensures done { OnOk result (self.new ≡ applied changes.items self.old) }
        ensures unchanged { OnErr result (self.new ≡ self.old) }
    {
        if changes.is_empty() {
            return Ok(());
        }
        *self = self.after(changes)?;
        Ok(())
    }

    // The book after the changes.
    fn after(&self, changes: Vec<Change>) -> Result<Book, AllocError>
        ensures { IfOk result (λ book. book ≡ applied changes.items self.now) }
    {
        let mut next = self.clone()?;
        next.apply_all(changes)?;
        Ok(next)
    }

    fn apply_all(&mut self, changes: Vec<Change>) -> Result<(), AllocError>
        ensures { OnOk result (self.new ≡ applied changes.items self.old) }
    {
        for change in changes {
            self.apply_one(change)?;
        }
        Ok(())
    }

    fn apply_one(&mut self, change: Change) -> Result<(), AllocError>
        ensures { OnOk result (self.new ≡ applied_one change self.old) }
    {
        match change {
            Change::PutMeta(meta) => {
                self.meta = meta;
                Ok(())
            }
            Change::PutNonce(row) => self.nonces.put(row),
            Change::RemoveNonce(serial) => {
                self.nonces.remove(serial);
                Ok(())
            }
            Change::PutAccount(row) => self.accounts.put(row),
            Change::PutAuthorization(row) => self.authorizations.put(row),
            Change::PutOrder(row) => self.orders.put(row),
        }
    }
}

fn row_with_key<'a>(accounts: &'a Table<AccountRow>, key: &str) -> Option<&'a AccountRow>
    ensures { option_copied result ≡ find (λ a. bytes_eq a.key key.now) accounts.now }
{
    accounts.iter().find(|row| row.key.canonical() == key)
}

/// Whether a challenge is one of an authorization's.
pub fn has_challenge(row: &AuthorizationRow, challenge: u64) -> bool
    ensures { result ≡ has_row challenge row.now }
{
    row.challenges
        .as_slice()
        .iter()
        .any(|row| row.number == challenge)
}

fn row_with_challenge(
    authorizations: &Table<AuthorizationRow>,
    challenge: u64,
) -> Option<&AuthorizationRow>
    ensures { option_copied result ≡ find (has_row challenge) authorizations.now }
{
    authorizations
        .iter()
        .find(|row| has_challenge(row, challenge))
}

impl Clone for Book {
    ghost is_clone = { λ book copy. copy ≡ book };

    fn clone(&self) -> Result<Book, AllocError> {
        Ok(Book {
            meta: self.meta.clone()?,
            nonces: self.nonces.clone()?,
            accounts: self.accounts.clone()?,
            authorizations: self.authorizations.clone()?,
            orders: self.orders.clone()?,
        })
    }
}
