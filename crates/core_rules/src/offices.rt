//! The rules on what the validator, the signing office and the operator ask (RFC 8555, 7.1.6, 7.4, 8).
ghost use Rattle.std.specs.Prelude.{◌≡◌, IfOk, bytes_eq};
ghost use Rattle.desk_model.specs.{Lookup.holds, Verdict.given};
ghost use Rattle.desk_model.specs.Questions.{account_on, authorization_on, order_on};
ghost use Rattle.desk_model.specs.Rules.{certify_verdict, fail_verdict, is_revoked, office_verdict};
ghost use Rattle.desk_model.specs.Rules.{report_verdict, revoke_account, revoke_authorization, same_problem};

use crate::challenge_rules::{outcome_of, outcome_verdict};
use crate::judging::refused;
use desk_book::At;
use desk_model::{
    AccountRow, AuthzStatus, Ending, Finding, LONGEST_CERTIFICATE, Listing, Move, OfficeAsk,
    OrderProblem, OrderRow, Refusal, Sequence, Shows, Verdict, is_same_bytes,
};
use keys::expected_text;
use std::alloc::{AllocError, Global};

// What the validator found for a challenge (RFC 8555, 8).
#[tactic(auto, unfolding(desk_model::specs::Verdict::given))]
fn report_verdict(
    alloc: Global,
    at: &At,
    number: u64,
    finding: &Finding,
) -> Result<Verdict, AllocError>
    ensures { IfOk result (λ v. v ≡ report_verdict at.now number finding.now) }
{
    let Some((_row, status, challenge)) = at.challenge(number) else {
        return Ok(refused(alloc, Refusal::NotFound));
    };
    let thumb = challenge.answer_thumb();
    let wanted = expected_text(alloc, challenge.kind, challenge.token, thumb)?;
    match outcome_of(challenge.kind, wanted.as_str(), finding) {
        Some(outcome) => Ok(outcome_verdict(alloc, number, status, challenge, outcome)),
        None => Ok(refused(alloc, Refusal::Malformed)),
    }
}

// Whether an order has this certificate.
fn has_certificate(row: &OrderRow, bytes: &[u8]) -> bool
    ensures { result ≡ holds (λ k. bytes_eq k.bytes bytes.now) row.now.certified }
{
    match &row.certified {
        Some(certified) => is_same_bytes(certified.bytes.as_slice(), bytes),
        None => false,
    }
}

// The certificate of an order: the same again records nothing, another is refused where the order does not wait for
// one.
#[tactic(auto, unfolding(desk_model::specs::Verdict::check, desk_model::specs::Verdict::choose, desk_model::specs::Verdict::given))]
fn certify(alloc: Global, at: &At, number: u64, bytes: &Sequence<u8>) -> Result<Verdict, AllocError>
    ensures { IfOk result (λ v. v ≡ given (order_on at.now number) Refusal.NotFound (certify_verdict number bytes.now)) }
{
    let Some((row, status)) = at.order(number) else {
        return Ok(refused(alloc, Refusal::NotFound));
    };
    let certificate = bytes.as_slice();
    if certificate.is_empty() {
        return Ok(refused(alloc, Refusal::Malformed));
    }
    if certificate.len() > LONGEST_CERTIFICATE {
        return Ok(refused(alloc, Refusal::TooLarge));
    }
    if has_certificate(row, certificate) {
        return Ok(Verdict::Answers(Shows::Order(number)));
    }
    if !status.is_processing() {
        return Ok(refused(alloc, Refusal::Conflict));
    }
    Ok(Verdict::Moves(Move::Certified(number, bytes.clone()?)))
}

// Whether an order failed for this problem.
fn has_failed_for(row: &OrderRow, problem: &OrderProblem) -> bool
    ensures { result ≡ holds (λ f. same_problem f.problem problem.now) row.now.failed }
{
    match &row.failed {
        Some(failed) => failed.problem.is_same(problem),
        None => false,
    }
}

// Why an order fails: the same again records nothing, another is refused where the order waits for no certificate.
#[tactic(auto, unfolding(desk_model::specs::Verdict::check, desk_model::specs::Verdict::choose, desk_model::specs::Verdict::given))]
fn fail_order(
    alloc: Global,
    at: &At,
    number: u64,
    problem: &OrderProblem,
) -> Result<Verdict, AllocError>
    ensures { IfOk result (λ v. v ≡ given (order_on at.now number) Refusal.NotFound (fail_verdict number problem.now)) }
{
    let Some((row, status)) = at.order(number) else {
        return Ok(refused(alloc, Refusal::NotFound));
    };
    if !problem.is_allowed() {
        return Ok(refused(alloc, Refusal::Malformed));
    }
    if has_failed_for(row, problem) {
        return Ok(Verdict::Answers(Shows::Order(number)));
    }
    if !status.is_processing() {
        return Ok(refused(alloc, Refusal::Conflict));
    }
    Ok(Verdict::Moves(Move::Failed(number, problem.clone()?)))
}

// The operator takes back an authorization; one that is revoked already stays as it is.
#[tactic(auto, unfolding(desk_model::specs::Verdict::check, desk_model::specs::Verdict::choose, desk_model::specs::Verdict::given))]
fn revoke_authorization(alloc: Global, at: &At, number: u64) -> Verdict
    ensures { result ≡ given (authorization_on at.now number) Refusal.NotFound (revoke_authorization number) }
{
    let Some((_row, status)) = at.authorization(number) else {
        return refused(alloc, Refusal::NotFound);
    };
    if matches!(status, AuthzStatus::Revoked) {
        return Verdict::Answers(Shows::Authorization(number));
    }
    if !status.is_live() {
        return refused(alloc, Refusal::Conflict);
    }
    Verdict::Moves(Move::AuthorizationEnded(number, Ending::Revoked))
}

// Whether an account was revoked.
fn is_revoked(row: &AccountRow) -> bool
    ensures { result ≡ holds (λ e. is_revoked e.ending) row.now.ended }
{
    match row.ended {
        Some(end) => matches!(end.ending, Ending::Revoked),
        None => false,
    }
}

// The operator ends an account; one that is revoked already stays as it is (RFC 8555, 7.1.6).
#[tactic(auto, unfolding(desk_model::specs::Verdict::check, desk_model::specs::Verdict::choose, desk_model::specs::Verdict::given))]
fn revoke_account(alloc: Global, at: &At, number: u64) -> Verdict
    ensures { result ≡ given (account_on at.now number) Refusal.NotFound (revoke_account number) }
{
    let Some(row) = at.account(number) else {
        return refused(alloc, Refusal::NotFound);
    };
    if is_revoked(row) {
        return Verdict::Answers(Shows::Account(number));
    }
    if !row.status.is_valid() {
        return refused(alloc, Refusal::Conflict);
    }
    Verdict::Moves(Move::AccountEnded(number, Ending::Revoked))
}

/// The verdict on what carries no nonce, by the tables of a book at a moment.
///
/// # Errors
///
/// Where there is no memory for what is recorded or compared.
#[tactic(auto, unfolding(desk_model::specs::Verdict::given))]
pub fn judge_office(alloc: Global, at: &At, ask: &OfficeAsk) -> Result<Verdict, AllocError>
    ensures { IfOk result (λ v. v ≡ office_verdict at.now ask.now) }
{
    match ask {
        OfficeAsk::Directory => Ok(Verdict::Answers(Shows::List(Listing::Directory))),
        OfficeAsk::Report { challenge, finding } => {
            report_verdict(alloc, at, *challenge, finding)
        }
        OfficeAsk::Certify { order, bytes } => certify(alloc, at, *order, bytes),
        OfficeAsk::FailOrder { order, problem } => fail_order(alloc, at, *order, problem),
        OfficeAsk::RevokeAuthz(number) => Ok(revoke_authorization(alloc, at, *number)),
        OfficeAsk::RevokeAccount(number) => Ok(revoke_account(alloc, at, *number)),
        OfficeAsk::ChallengeWork => Ok(Verdict::Answers(Shows::List(Listing::ChallengeWork))),
        OfficeAsk::OrderWork => Ok(Verdict::Answers(Shows::List(Listing::OrderWork))),
        OfficeAsk::KeyOf(number) => match at.account(*number) {
            Some(_) => Ok(Verdict::Answers(Shows::Key(*number))),
            None => Ok(refused(alloc, Refusal::NotFound)),
        },
    }
}
