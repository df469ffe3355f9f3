//! A book at a moment, as rules read it, and the changes that the passing of time makes (RFC 8555, 7.1.6).
ghost use Rattle.std.specs.Prelude.{◌≡◌, ◌+◌, ◌++◌, option_copied, option_map, Some, None, MatchOption, find, nat_le, map, IfOk, OnOk};
ghost use Rattle.desk_model.specs.Effect.{swept, swept_authorization, swept_order, is_overdue, falls, lists_one};
ghost use Rattle.desk_model.specs.Questions.{account_on, account_with_key, authorization_on, challenge_of, order_on, owner_on, serving_on, serves};
ghost use Rattle.std.specs.List.{list_any};
ghost use Rattle.desk_model.specs.Lookup.{holds};
ghost use Rattle.desk_model.specs.Derived.{authorization_numbered, numbers_of};
ghost use Rattle.desk_model.specs.Change.{sweep_changes, nonces_gone, authorizations_expired, orders_fallen};
ghost use Rattle.desk_model.specs.declared.rows.Change.TheVariants.{RemoveNonce, PutAuthorization, PutOrder};

use crate::book::Book;
use crate::derived::is_past;
use crate::table::Table;
use desk_model::{
    AccountRow, AuthorizationRow, AuthzStatus, ChallengeRow, Change, Counters, DnsName, Listed,
    OrderRow, OrderStatus, Policy,
};
use std::alloc::{AllocError, Global};
use std::marker::Model;

/// A book at a moment; contracts see the tables that stand then, rows with the statuses that the passing of time leaves.
#[derive(Drop)]
pub struct At<'a> {
    book: &'a Book,
    moment: u64,
}

impl<'a> Model for At<'a> {
    ghost use Rattle.desk_model.specs.{Effect.swept, Tables.Tables};

    ghost Value = { Tables };

    ghost view = { λ a. swept a.moment a.book.now };
}

impl<'a> At<'a> {
    /// A book at a moment, in seconds since 1970.
    pub fn new(book: &'a Book, moment: u64) -> At<'a>
        ensures { result ≡ swept moment book.now }
    {
        At { book, moment }
    }

    /// The book and the moment.
    pub fn parts(&self) -> (&'a Book, u64)
        ensures { swept result.1 result.0.now ≡ self.now }
    {
        (self.book, self.moment)
    }

    /// The policy.
    pub fn policy(&self) -> &Policy
        ensures { result.now ≡ self.now.meta.policy }
    {
        &self.book.meta().policy
    }

    /// The last number given of each kind; the clock beside them is the book's.
    pub fn counters(&self) -> Counters
        ensures { record result { clock = self.now.meta.counters.clock } ≡ self.now.meta.counters }
    {
        self.book.meta().counters
    }

    /// The account of a number.
    pub fn account(&self, number: u64) -> Option<&AccountRow>
        ensures { option_copied result ≡ account_on self.now number }
    {
        self.book.account(number)
    }

    /// The account with a key, by its canonical text.
    pub fn account_with_key(&self, key: &str) -> Option<&AccountRow>
        ensures { option_copied result ≡ account_with_key self.now key.now }
    {
        self.book.account_with_key(key)
    }

    /// The authorization of a number, with its status at the moment.
    #[tactic(auto, using(crate::proofs::SweptRows::swept_authorization_on))]
    pub fn authorization(&self, number: u64) -> Option<(&AuthorizationRow, AuthzStatus)>
        ensures { option_map (λ p. record p.0.now { status = p.1 }) result ≡ authorization_on self.now number }
    {
        let row = self.book.authorization(number)?;
        Some((row, authorization_status(self.moment, row)))
    }

    /// The authorization that a challenge is of, with its status at the moment.
    #[tactic(auto, using(crate::proofs::SweptRows::swept_owner_on))]
    pub fn owner(&self, challenge: u64) -> Option<(&AuthorizationRow, AuthzStatus)>
        ensures { option_map (λ p. record p.0.now { status = p.1 }) result ≡ owner_on self.now challenge }
    {
        let owner = self.book.owner(challenge)?;
        Some((owner, authorization_status(self.moment, owner)))
    }

    /// The challenge of a number, behind the authorization that it is of and the status of that one at the moment.
    pub fn challenge(&self, number: u64) -> Option<(&AuthorizationRow, AuthzStatus, &ChallengeRow)>
        ensures { MatchOption result (owner_on self.now number ≡ None)
            (λ p. (owner_on self.now number ≡ Some (record p.0.now { status = p.1 })) × (challenge_of number p.0.now ≡ Some p.2.now)) }
    {
        let (row, status) = self.owner(number)?;
        Some((row, status, challenge_of(row, number)?))
    }

    /// The number of the authorization that an order of an account, made at the moment, uses again for a name (RFC 8555, 7.4).
    pub fn serving(&self, account: u64, name: &DnsName) -> Option<u64>
        ensures { result ≡ option_map (λ r. r.number) (serving_on self.now account name.now) }
    {
        let need = Need {
            account,
            name,
            moment: self.moment,
            life: self.book.meta().policy.order_life(),
        };
        let row = serving_row(self.book.authorizations(), &need)?;
        Some(row.number)
    }

    /// The order of a number, with its status at the moment.
    #[tactic(auto, using(crate::proofs::SweptRows::swept_order_on))]
    pub fn order(&self, number: u64) -> Option<(&OrderRow, OrderStatus)>
        ensures { option_map (λ p. record p.0.now { status = p.1 }) result ≡ order_on self.now number }
    {
        let row = self.book.order(number)?;
        Some((row, order_status(self.book, self.moment, row)))
    }
}

// ---- which authorization an order uses again (RFC 8555, 7.4)

// What an order asks of an authorization that it uses again.
#[derive(Clone, Copy)]
struct Need<'a> {
    // The account that orders.
    account: u64,
    // The name that the order asks for.
    name: &'a DnsName,
    // When the order is made, in seconds since 1970.
    moment: u64,
    // The life of orders, in seconds.
    life: u64,
}

// Whether what expires then lives as long as an order that is made at a moment.
fn outlives(moment: u64, life: u64, expires: u64) -> bool
    ensures { result ≡ nat_le (moment + life) expires }
{
    life <= expires && moment <= expires - life
}

// Whether an authorization of this status serves.
fn serves_with(need: &Need, row: &AuthorizationRow, status: AuthzStatus) -> bool
    ensures { result ≡ serves need.now.account need.now.name.now (need.now.moment + need.now.life) (record row.now { status = status }) }
{
    status.is_valid()
        && row.account == need.account
        && row.name.is_same(need.name)
        && outlives(need.moment, need.life, row.expires)
}

// Whether an authorization serves, as it stands at the moment.
#[tactic(auto, using(std::proofs::lemmas::Bool::Decides::nat_tests))]
fn serves(need: &Need, row: &AuthorizationRow) -> bool
    ensures { result ≡ serves need.now.account need.now.name.now (need.now.moment + need.now.life) (swept_authorization need.now.moment row.now) }
{
    serves_with(need, row, authorization_status(need.moment, row))
}

// The first row that serves, as it stands at the moment.
fn serving_row<'a>(rows: &'a Table<AuthorizationRow>, need: &Need) -> Option<&'a AuthorizationRow>
    ensures { option_copied result
        ≡ find (λ r. serves need.now.account need.now.name.now (need.now.moment + need.now.life) (swept_authorization need.now.moment r)) rows.now }
{
    rows.iter().find(|row| serves(need, row))
}

// ---- rows with the statuses that the passing of time leaves

/// The status of an authorization at a moment.
pub fn authorization_status(moment: u64, row: &AuthorizationRow) -> AuthzStatus
    ensures { result ≡ (swept_authorization moment row.now).status }
{
    if is_overdue(moment, row) {
        AuthzStatus::Expired
    } else {
        row.status
    }
}

/// The status of an order of a book at a moment.
pub fn order_status(book: &Book, moment: u64, row: &OrderRow) -> OrderStatus
    ensures { result ≡ (swept_order moment book.now.authorizations row.now).status }
{
    if falls(moment, book.authorizations(), row) {
        OrderStatus::Invalid
    } else {
        row.status
    }
}

/// The challenge of a number among those of an authorization.
pub fn challenge_of(row: &AuthorizationRow, number: u64) -> Option<&ChallengeRow>
    ensures { option_copied result ≡ challenge_of number row.now }
{
    row.challenges
        .as_slice()
        .iter()
        .find(|challenge| challenge.number == number)
}

// ---- what is past its end

// Whether an authorization that can still serve is past its end.
fn is_overdue(moment: u64, row: &AuthorizationRow) -> bool
    ensures { result ≡ is_overdue moment row.now }
{
    row.status.is_live() && is_past(row.expires, moment)
}

fn is_overdue_number(moment: u64, rows: &Table<AuthorizationRow>, number: u64) -> bool
    ensures { result ≡ holds (is_overdue moment) (authorization_numbered number rows.now) }
{
    match rows.get(number) {
        Some(row) => is_overdue(moment, row),
        None => false,
    }
}

fn any_overdue(moment: u64, rows: &Table<AuthorizationRow>, listed: &[Listed]) -> bool
    ensures { result ≡ list_any (λ l. holds (is_overdue moment) (authorization_numbered l.authorization rows.now)) listed.now }
{
    listed
        .iter()
        .any(|one| is_overdue_number(moment, rows, one.authorization))
}

fn lists_overdue(moment: u64, rows: &Table<AuthorizationRow>, row: &OrderRow) -> bool
    ensures { result ≡ lists_one (is_overdue moment) rows.now (numbers_of row.now.listed) }
{
    any_overdue(moment, rows, row.listed.as_slice())
}

// Whether an order turns invalid by the passing of time, its own or that of an authorization that it lists.
fn falls(moment: u64, rows: &Table<AuthorizationRow>, row: &OrderRow) -> bool
    ensures { result ≡ falls moment rows.now row.now }
{
    row.status.is_live() && (is_past(row.expires, moment) || lists_overdue(moment, rows, row))
}

/// The changes of rows that the passing of time makes, up to a moment.
///
/// # Errors
///
/// Where there is no memory for them.
pub fn sweep_changes(alloc: Global, book: &Book, moment: u64) -> Result<Vec<Change>, AllocError>
    ensures { IfOk result (λ v. v.items ≡ sweep_changes moment book.now) }
{
    let mut changes = Vec::new(alloc);
    remove_gone(&mut changes, book, moment)?;
    push_expired(&mut changes, book, moment)?;
    push_fallen(&mut changes, book, moment)?;
    Ok(changes)
}

fn remove_gone(changes: &mut Vec<Change>, book: &Book, moment: u64) -> Result<(), AllocError>
    ensures { OnOk result (changes.new.items ≡ changes.old.items ++ map RemoveNonce (nonces_gone moment book.now)) }
{
    for nonce in book.nonces().iter() {
        if !book.meta().policy.lasts(moment, nonce) {
            changes.push(Change::RemoveNonce(nonce.serial))?;
        }
    }
    Ok(())
}

#[tactic(auto, using(crate::proofs::Sweeping::change_added, std::proofs::lemmas::Bool::Decides::nat_tests))]
fn push_expired(changes: &mut Vec<Change>, book: &Book, moment: u64) -> Result<(), AllocError>
    ensures { OnOk result (changes.new.items ≡ changes.old.items ++ map PutAuthorization (authorizations_expired moment book.now)) }
{
    for row in book.authorizations().iter() {
        if is_overdue(moment, row) {
            let mut expired = row.clone()?;
            expired.status = AuthzStatus::Expired;
            changes.push(Change::PutAuthorization(expired))?;
        }
    }
    Ok(())
}

#[tactic(auto, using(crate::proofs::Sweeping::change_added, std::proofs::lemmas::Bool::Decides::nat_tests))]
fn push_fallen(changes: &mut Vec<Change>, book: &Book, moment: u64) -> Result<(), AllocError>
    ensures { OnOk result (changes.new.items ≡ changes.old.items ++ map PutOrder (orders_fallen moment book.now)) }
{
    for row in book.orders().iter() {
        if falls(moment, book.authorizations(), row) {
            let mut fallen = row.clone()?;
            fallen.status = OrderStatus::Invalid;
            changes.push(Change::PutOrder(fallen))?;
        }
    }
    Ok(())
}
