//! Signed requests, by their targets (RFC 8555, 6.2, 6.3).
ghost use Rattle.std.specs.Prelude.{◌≡◌, ◌==◌, MatchResult, option_map};
ghost use Rattle.serde_json.specs.View.{view};
ghost use Rattle.desk_model.specs.Payload.{account_change, authorization_change, challenge_change, finalize, new_account, object_in};
ghost use Rattle.desk_model.specs.Questions.{authorization_on, order_on, owner_on};
ghost use Rattle.desk_model.specs.Rules.{account_verdict, authorization_verdict, certificate_verdict, challenge_verdict};
ghost use Rattle.desk_model.specs.Rules.{finalize_verdict, key_change_verdict, nothing, own};
ghost use Rattle.desk_model.specs.Verdict.{check, given};
ghost use Rattle.desk_model.specs.declared.verdict.Verdict.TheVariants.{Answers as answers};
ghost use Rattle.desk_model.specs.declared.verdict.Shows.TheVariants as show;
ghost use Rattle.desk_model.specs.declared.verdict.Listing.TheVariants as list;
ghost use Rattle.core_rules.specs.declared.fault.CoreFault.TheVariants.{Memory};

use crate::accounts::{account_verdict, key_change_verdict};
use crate::challenge_rules::{authorization_verdict, challenge_verdict};
use crate::fault::CoreFault;
use crate::judging::refused;
use crate::order_rules::finalize_verdict;
use crate::payload::{
    Payload, account_change, authorization_change, challenge_change, finalize, new_account,
};
use desk_book::At;
use desk_model::{
    AccountStatus, AuthorizationRow, AuthzStatus, KeyChange, Listing, OrderRow, OrderStatus,
    Refusal, Shows, Signed, Target, Verdict,
};
use std::alloc::Global;

// The order of a number with its status at a moment, where it is the sender's own.
fn own_order<'a>(at: &'a At, sender: u64, number: u64) -> Option<(&'a OrderRow, OrderStatus)>
    ensures { option_map (λ p. record p.0.now { status = p.1 }) result ≡ own (λ o. o.account) sender (order_on at.now number) }
{
    let (row, status) = at.order(number)?;
    (row.account == sender).then_some((row, status))
}

// The authorization of a number with its status at a moment, where it is the sender's own.
fn own_authorization<'a>(
    at: &'a At,
    sender: u64,
    number: u64,
) -> Option<(&'a AuthorizationRow, AuthzStatus)>
    ensures { option_map (λ p. record p.0.now { status = p.1 }) result ≡ own (λ a. a.account) sender (authorization_on at.now number) }
{
    let (row, status) = at.authorization(number)?;
    (row.account == sender).then_some((row, status))
}

/// A newAccount request of an account that is there: of its payload only the form is looked at (RFC 8555, 7.3.1).
#[tactic(auto, unfolding(desk_model::specs::Verdict::given))]
pub(crate) fn new_account_target(
    alloc: Global,
    sender: u64,
    payload: Payload,
) -> Result<Verdict, CoreFault>
    requires { option_map (λ v. view v.now) payload.object ≡ object_in payload.text.now }
    ensures { MatchResult result
        (λ v. v ≡ given (new_account payload.entry.text.now) Refusal.Malformed (λ asked. answers (show.KnownAccount sender))) (λ e. e ≡ Memory) }
{
    match new_account(alloc, payload)? {
        Some(_) => Ok(Verdict::Answers(Shows::KnownAccount(sender))),
        None => Ok(refused(alloc, Refusal::Malformed)),
    }
}

/// A request for another key of an account (RFC 8555, 7.3.5).
#[tactic(auto, unfolding(desk_model::specs::Verdict::given))]
pub(crate) fn key_change_target(
    alloc: Global,
    at: &At,
    sender: u64,
    asked: &Option<KeyChange>,
) -> Result<Verdict, CoreFault>
    ensures { MatchResult result
        (λ v. v ≡ given asked.now Refusal.Malformed (key_change_verdict at.now sender)) (λ e. e ≡ Memory) }
{
    match asked {
        Some(asked) => key_change_verdict(alloc, at, sender, asked),
        None => Ok(refused(alloc, Refusal::Malformed)),
    }
}

/// A request to an account.
#[tactic(auto, unfolding(desk_model::specs::Verdict::check, desk_model::specs::Verdict::given))]
pub(crate) fn account_target(
    alloc: Global,
    sender: u64,
    number: u64,
    payload: Payload,
) -> Result<Verdict, CoreFault>
    requires { option_map (λ v. view v.now) payload.object ≡ object_in payload.text.now }
    ensures { MatchResult result
        (λ v. v ≡ check (number == sender) Refusal.NotFound (given (account_change payload.entry.text.now) Refusal.Malformed (account_verdict sender)))
        (λ e. e ≡ Memory) }
{
    if number != sender {
        return Ok(refused(alloc, Refusal::NotFound));
    }
    match account_change(alloc, payload)? {
        Some(change) => Ok(account_verdict(alloc, sender, change)),
        None => Ok(refused(alloc, Refusal::Malformed)),
    }
}

/// A request for the orders of an account.
#[tactic(auto, unfolding(desk_model::specs::Verdict::check))]
pub(crate) fn orders_target(alloc: Global, sender: u64, number: u64, payload: &str) -> Verdict
    ensures { result ≡ check (number == sender) Refusal.NotFound (check (nothing payload.now) Refusal.Malformed (answers (show.List (list.Orders sender)))) }
{
    if number != sender {
        return refused(alloc, Refusal::NotFound);
    }
    if !payload.is_empty() {
        return refused(alloc, Refusal::Malformed);
    }
    Verdict::Answers(Shows::List(Listing::Orders(sender)))
}

/// A request for an order.
#[tactic(auto, unfolding(desk_model::specs::Verdict::check, desk_model::specs::Verdict::given))]
pub(crate) fn order_target(
    alloc: Global,
    at: &At,
    sender: u64,
    number: u64,
    payload: &str,
) -> Verdict
    ensures { result
        ≡ given (own (λ o. o.account) sender (order_on at.now number)) Refusal.NotFound
        (λ o. check (nothing payload.now) Refusal.Malformed (answers (show.Order number))) }
{
    if own_order(at, sender, number).is_none() {
        return refused(alloc, Refusal::NotFound);
    }
    if !payload.is_empty() {
        return refused(alloc, Refusal::Malformed);
    }
    Verdict::Answers(Shows::Order(number))
}

/// A request to finalize an order.
#[tactic(auto, unfolding(desk_model::specs::Verdict::given))]
pub(crate) fn finalize_target(
    alloc: Global,
    at: &At,
    sender: u64,
    number: u64,
    payload: Payload,
) -> Result<Verdict, CoreFault>
    requires { option_map (λ v. view v.now) payload.object ≡ object_in payload.text.now }
    ensures { MatchResult result
        (λ v. v ≡ given (own (λ o. o.account) sender (order_on at.now number)) Refusal.NotFound
        (λ o. given (finalize payload.entry.text.now) Refusal.Malformed (finalize_verdict number o)))
        (λ e. e ≡ Memory) }
{
    let Some((_row, status)) = own_order(at, sender, number) else {
        return Ok(refused(alloc, Refusal::NotFound));
    };
    match finalize(payload) {
        Some(text) => finalize_verdict(alloc, number, status, text),
        None => Ok(refused(alloc, Refusal::Malformed)),
    }
}

/// A request for the certificate of an order (RFC 8555, 7.4.2).
#[tactic(auto, unfolding(desk_model::specs::Verdict::check, desk_model::specs::Verdict::given))]
pub(crate) fn certificate_target(
    alloc: Global,
    at: &At,
    sender: u64,
    number: u64,
    payload: &str,
) -> Verdict
    ensures { result
        ≡ given (own (λ o. o.account) sender (order_on at.now number)) Refusal.NotFound
        (λ o. check (nothing payload.now) Refusal.Malformed (certificate_verdict number o)) }
{
    let Some((row, _status)) = own_order(at, sender, number) else {
        return refused(alloc, Refusal::NotFound);
    };
    if !payload.is_empty() {
        return refused(alloc, Refusal::Malformed);
    }
    if row.certified.is_none() {
        return refused(alloc, Refusal::NotFound);
    }
    Verdict::Answers(Shows::Certificate(number))
}

/// A request to an authorization.
#[tactic(auto, unfolding(desk_model::specs::Verdict::given))]
pub(crate) fn authorization_target(
    alloc: Global,
    at: &At,
    sender: u64,
    number: u64,
    payload: Payload,
) -> Verdict
    requires { option_map (λ v. view v.now) payload.object ≡ object_in payload.text.now }
    ensures { result ≡ given (own (λ a. a.account) sender (authorization_on at.now number)) Refusal.NotFound
        (λ a. given (authorization_change payload.entry.text.now) Refusal.Malformed (authorization_verdict number a)) }
{
    let Some((row, status)) = own_authorization(at, sender, number) else {
        return refused(alloc, Refusal::NotFound);
    };
    match authorization_change(payload) {
        Some(change) => authorization_verdict(number, row, status, change),
        None => refused(alloc, Refusal::Malformed),
    }
}

/// A request to a challenge.
#[tactic(auto, unfolding(desk_model::specs::Verdict::given))]
pub(crate) fn challenge_target(
    alloc: Global,
    at: &At,
    sender: u64,
    number: u64,
    payload: Payload,
) -> Verdict
    requires { option_map (λ v. view v.now) payload.object ≡ object_in payload.text.now }
    ensures { result ≡ given (own (λ a. a.account) sender (owner_on at.now number)) Refusal.NotFound
        (λ a. given (challenge_change payload.entry.text.now) Refusal.Malformed (challenge_verdict number a)) }
{
    let Some((row, status, challenge)) = at.challenge(number) else {
        return refused(alloc, Refusal::NotFound);
    };
    if row.account != sender {
        return refused(alloc, Refusal::NotFound);
    }
    match challenge_change(payload) {
        Some(change) => challenge_verdict(number, status, challenge, change),
        None => refused(alloc, Refusal::Malformed),
    }
}
