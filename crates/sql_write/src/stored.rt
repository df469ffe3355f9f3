//! What is known to stand in the tables, where changes are made one after the other: rows of a part that was read before, and
//! what the changes before made of them; and how a row differs from the one that stands there.
ghost use Rattle.std.specs.Prelude.{◌≡◌, ◌<◌, ◌==◌, ◌++◌, ◌∷◌, [], ℕ, List, Option, Some, find, option_copied, option_map};
ghost use Rattle.std.specs.Option.{option_or};
ghost use Rattle.desk_model.specs.{Change.applied, Change.applied_one, Kept.EachOf, Tables.Tables};
ghost use Rattle.desk_model.specs.Questions.{account_on, authorization_on, order_on};
ghost use Rattle.desk_model.specs.declared.rows.Change.{Change};
ghost use Rattle.sql_write.specs.Highest.{IsAbove};
ghost use Rattle.sql_write.specs.Stored.{stored_challenge};
ghost use Rattle.sql_write.specs.Write.{difference, write};
ghost use Rattle.sql_write.specs.Differences.{account_difference, authorization_difference, challenge_difference, is_same_authorization};
ghost use Rattle.sql_write.specs.Differences.{is_same_challenge, is_same_date, is_same_end, is_same_report, keeps_authorization, keeps_challenge};
ghost use Rattle.sql_write.specs.Differences.{keeps_order, keeps_policy, key_difference, meta_difference, order_difference};

use desk_book::Book;
use desk_model::{
    AccountRow, Answer, AuthorizationEnd, AuthorizationRow, ChallengeRow, Change, Meta, OrderRow,
    Report, is_same_bytes, is_same_text,
};
use store_columns::AnswerKey;

/// The highest numbers of rows that changes put.
#[derive(Clone, Copy)]
pub(crate) struct Highest {
    pub accounts: u64,
    pub authorizations: u64,
    pub orders: u64,
}

impl Highest {
    /// Of no changes.
    pub(crate) fn none() -> Highest
        ensures { IsAbove result [] }
    {
        Highest {
            accounts: 0,
            authorizations: 0,
            orders: 0,
        }
    }

    /// Of one change more.
    pub(crate) fn with(self, change: &Change) -> Highest
        ensures { (before : List Change) → IsAbove self before → IsAbove result (before ++ change.now ∷ []) }
    {
        let mut highest = self;
        match change {
            Change::PutAccount(row) => highest.accounts = highest.accounts.max(row.number),
            Change::PutAuthorization(row) => {
                highest.authorizations = highest.authorizations.max(row.number);
            }
            Change::PutOrder(row) => highest.orders = highest.orders.max(row.number),
            _ => {}
        }
        highest
    }
}

/// A row that is found in a part of the tables, and in a change that puts it.
pub(crate) trait Stored {
    // The row of a number in the tables.
    ghost on: { Tables → ℕ → Option Self };

    // The row of this number in the part.
    fn in_part(part: &Book, number: u64) -> Option<&Self>
        ensures { option_copied result ≡ on part.now number };

    // The row that the change puts, if that is the one of this number.
    fn put_by(change: &Change, number: u64) -> Option<&Self>
        ensures { (T : Tables) → on (applied_one change.now T) number ≡ option_or (option_copied result) (on T number) };
}

impl Stored for Meta {
    ghost on = { λ T n. Some T.meta };

    fn in_part(part: &Book, _number: u64) -> Option<&Meta> {
        Some(part.meta())
    }

    fn put_by(change: &Change, _number: u64) -> Option<&Meta> {
        match change {
            Change::PutMeta(row) => Some(row),
            _ => None,
        }
    }
}

impl Stored for AccountRow {
    ghost on = { account_on };

    fn in_part(part: &Book, number: u64) -> Option<&AccountRow> {
        part.account(number)
    }

    fn put_by(change: &Change, number: u64) -> Option<&AccountRow> {
        match change {
            Change::PutAccount(row) => (row.number == number).then_some(row),
            _ => None,
        }
    }
}

impl Stored for OrderRow {
    ghost on = { order_on };

    fn in_part(part: &Book, number: u64) -> Option<&OrderRow> {
        part.order(number)
    }

    fn put_by(change: &Change, number: u64) -> Option<&OrderRow> {
        match change {
            Change::PutOrder(row) => (row.number == number).then_some(row),
            _ => None,
        }
    }
}

impl Stored for AuthorizationRow {
    ghost on = { authorization_on };

    fn in_part(part: &Book, number: u64) -> Option<&AuthorizationRow> {
        part.authorization(number)
    }

    fn put_by(change: &Change, number: u64) -> Option<&AuthorizationRow> {
        match change {
            Change::PutAuthorization(row) => (row.number == number).then_some(row),
            _ => None,
        }
    }
}

/// The row of this number that is known behind these changes: the last that one of them puts, or else that of the part. None of
/// them puts one whose number is above the highest, so that rows in the order of their numbers cost no look through the others.
#[tactic(auto, using(crate::proofs::StoredRows::applied_more, crate::proofs::StoredRows::copied_or, crate::proofs::StoredRows::left_by_all, std::proofs::Common::take_all))]
pub(crate) fn stored_row<'a, R: Stored>(
    part: &'a Book,
    before: &'a [Change],
    highest: u64,
    number: u64,
) -> Option<&'a R>
    requires above { highest < number → EachOf (λ c. (T : Tables) → R.on (applied_one c T) number ≡ R.on T number) before.now }
    ensures { option_copied result ≡ R.on (applied before.now part.now) number }
{
    let mut found = R::in_part(part, number);
    if number > highest {
        return found;
    }
    for change in before {
        found = R::put_by(change, number).or(found);
    }
    found
}

// The challenge of this number.
fn challenge_numbered(rows: &[ChallengeRow], number: u64) -> Option<&ChallengeRow>
    ensures { option_copied result ≡ find (λ c. c.number == number) rows.now }
{
    rows.iter().find(|row| row.number == number)
}

/// The challenge of this number of an authorization that is known.
pub(crate) fn stored_challenge<'a>(
    stored: Option<&'a AuthorizationRow>,
    number: u64,
) -> Option<&'a ChallengeRow>
    ensures { option_copied result ≡ stored_challenge (option_copied stored.entry) number }
{
    challenge_numbered(stored?.challenges.as_slice(), number)
}

// ---- how a row differs from the one that stands

/// How a row is written.
#[derive(Clone, Copy)]
pub(crate) enum Write {
    /// In the place of the one with its key, or else as a new one.
    Upsert,
    /// As a new one: none has its key.
    Insert,
    /// In the place of the one with its key, in the columns that calls move.
    Update,
}

/// How a row differs from the one that stands in its place.
#[derive(Clone, Copy)]
pub(crate) enum Difference {
    /// In no column.
    Same,
    /// In columns that calls move.
    Moved,
    /// In what it was made with.
    Other,
}

impl Difference {
    /// The difference by whether a row keeps what it was made with, and whether all else is the same.
    pub(crate) fn of(is_kept: bool, is_same: bool) -> Difference
        ensures { result ≡ difference is_kept is_same }
    {
        match (is_kept, is_same) {
            (true, true) => Difference::Same,
            (true, false) => Difference::Moved,
            (false, _) => Difference::Other,
        }
    }
}

impl Write {
    /// How a row is written, by how it differs from the one that is known to stand in its place, or else by whether it is new;
    /// not at all where it stands there as it is.
    pub(crate) fn of(stored: Option<Difference>, is_new: bool) -> Option<Write>
        ensures { result ≡ write stored is_new }
    {
        match stored {
            Some(Difference::Same) => None,
            Some(Difference::Moved) => Some(Write::Update),
            Some(Difference::Other) => Some(Write::Upsert),
            None => Some(if is_new { Write::Insert } else { Write::Upsert }),
        }
    }
}

// ---- differences

// Whether a row of `meta` keeps the terms of the desk.
fn keeps_policy(old: &Meta, row: &Meta) -> bool
    ensures { result ≡ keeps_policy old.now row.now }
{
    is_same_text(old.policy.base(), row.policy.base())
        && old.policy.nonce_life() == row.policy.nonce_life()
        && old.policy.order_life() == row.policy.order_life()
        && old.policy.authz_life() == row.policy.authz_life()
}

// Whether an order keeps its account and its dates.
fn keeps_order(old: &OrderRow, row: &OrderRow) -> bool
    ensures { result ≡ keeps_order old.now row.now }
{
    old.account == row.account && old.made == row.made && old.expires == row.expires
}

// Whether an authorization keeps its account, its name and its dates.
fn keeps_authorization(old: &AuthorizationRow, row: &AuthorizationRow) -> bool
    ensures { result ≡ keeps_authorization old.now row.now }
{
    old.account == row.account
        && old.name.is_same(&row.name)
        && old.made == row.made
        && old.expires == row.expires
}

// Whether a challenge keeps its type and its token.
fn keeps_challenge(old: &ChallengeRow, row: &ChallengeRow) -> bool
    ensures { result ≡ keeps_challenge old.now row.now }
{
    is_same_text(old.kind.as_str(), row.kind.as_str()) && is_same_bytes(&old.token, &row.token)
}

// Whether an authorization ended when and as the other did, or not at all.
fn is_same_end(old: Option<AuthorizationEnd>, new: Option<AuthorizationEnd>) -> bool
    ensures { result ≡ is_same_end old new }
{
    match (old, new) {
        (None, None) => true,
        (Some(old), Some(new)) => {
            old.date == new.date && is_same_text(old.kind.as_str(), new.kind.as_str())
        }
        _ => false,
    }
}

// Whether a challenge was answered when the other was, or not at all.
fn is_same_date(old: Option<Answer>, new: Option<Answer>) -> bool
    ensures { result ≡ is_same_date old new }
{
    match (old, new) {
        (None, None) => true,
        (Some(old), Some(new)) => old.date == new.date,
        _ => false,
    }
}

// Whether a challenge was reported when and as the other was, or not at all.
fn is_same_report(old: Option<Report>, new: Option<Report>) -> bool
    ensures { result ≡ is_same_report old new }
{
    match (old, new) {
        (None, None) => true,
        (Some(old), Some(new)) => {
            old.date == new.date && is_same_text(old.outcome.as_str(), new.outcome.as_str())
        }
        _ => false,
    }
}

// Whether what calls move of an authorization is the same.
fn is_same_authorization(old: &AuthorizationRow, row: &AuthorizationRow) -> bool
    ensures { result ≡ is_same_authorization old.now row.now }
{
    is_same_end(old.ended, row.ended) && is_same_text(old.status.as_str(), row.status.as_str())
}

// Whether what calls move of a challenge is the same, but for the key of its answer.
fn is_same_challenge(old: &ChallengeRow, row: &ChallengeRow) -> bool
    ensures { result ≡ is_same_challenge old.now row.now }
{
    is_same_date(old.answered, row.answered)
        && is_same_report(old.reported, row.reported)
        && is_same_text(old.status.as_str(), row.status.as_str())
}

/// The difference of a row of `meta` from the one that is known.
pub(crate) fn meta_difference(stored: Option<&Meta>, row: &Meta) -> Option<Difference>
    ensures { result ≡ option_map (λ old. meta_difference old row.now) (option_copied stored.entry) }
{
    let old = stored?;
    Some(Difference::of(keeps_policy(old, row), false))
}

/// The difference of an account from the one that is known.
pub(crate) fn account_difference(
    stored: Option<&AccountRow>,
    row: &AccountRow,
) -> Option<Difference>
    ensures { result ≡ option_map (λ old. account_difference old row.now) (option_copied stored.entry) }
{
    let old = stored?;
    Some(Difference::of(old.opened == row.opened, false))
}

/// The difference of an order from the one that is known.
pub(crate) fn order_difference(stored: Option<&OrderRow>, row: &OrderRow) -> Option<Difference>
    ensures { result ≡ option_map (λ old. order_difference old row.now) (option_copied stored.entry) }
{
    let old = stored?;
    Some(Difference::of(keeps_order(old, row), false))
}

/// The difference of an authorization from the one that is known, without their challenges.
pub(crate) fn authorization_difference(
    stored: Option<&AuthorizationRow>,
    row: &AuthorizationRow,
) -> Option<Difference>
    ensures { result ≡ option_map (λ old. authorization_difference old row.now) (option_copied stored.entry) }
{
    let old = stored?;
    Some(Difference::of(
        keeps_authorization(old, row),
        is_same_authorization(old, row),
    ))
}

/// The difference of a challenge from the one that is known, without the keys of their answers.
pub(crate) fn challenge_difference(
    stored: Option<&ChallengeRow>,
    row: &ChallengeRow,
) -> Option<Difference>
    ensures { result ≡ option_map (λ old. challenge_difference old row.now) (option_copied stored.entry) }
{
    let old = stored?;
    Some(Difference::of(keeps_challenge(old, row), is_same_challenge(old, row)))
}

/// The difference of the key of an answer from the one that is known.
pub(crate) fn key_difference(stored: Option<AnswerKey>, row: &AnswerKey) -> Option<Difference>
    ensures { result ≡ option_map (λ old. key_difference old row.now) stored }
{
    let old = stored?;
    Some(Difference::of(is_same_bytes(&old.thumb, &row.thumb), true))
}
