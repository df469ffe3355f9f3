//! The rules on challenges and on authorizations (RFC 8555, 7.5, 7.5.1, 8).
ghost use Rattle.std.specs.Prelude.{◌≡◌, Some};
ghost use Rattle.desk_model.specs.{Lookup.holds, Questions.challenge_of};
ghost use Rattle.desk_model.specs.Rules.{challenge_verdict, outcome_of, outcome_verdict, same_outcome, judged, authorization_verdict};

use crate::judging::refused;
use desk_model::{
    AuthorizationChange, AuthorizationRow, AuthzStatus, ChallengeChange, ChallengeRow, Ending,
    FetchError, Finding, Kind, Move, Outcome, Refusal, Shows, Verdict,
};
use keys::{dns_matches, http_matches};
use std::alloc::Global;

/// A request to a challenge: an answer that comes when nothing is pending changes nothing (RFC 8555, 7.5.1).
#[tactic(auto, unfolding(desk_model::specs::Verdict::choose))]
pub(crate) fn challenge_verdict(
    number: u64,
    status: AuthzStatus,
    challenge: &ChallengeRow,
    change: ChallengeChange,
) -> Verdict
    ensures { (a : AuthorizationRow) → a.status ≡ status → challenge_of number a ≡ Some challenge.now → result ≡ challenge_verdict number a change }
{
    match change {
        ChallengeChange::Read => Verdict::Answers(Shows::ClientChallenge(number)),
        ChallengeChange::Answer => {
            if status.is_pending() && challenge.status.is_pending() {
                return Verdict::Moves(Move::Answered(number));
            }
            Verdict::Answers(Shows::ClientChallenge(number))
        }
    }
}

// What a body or records show, that are those to be found or are not.
fn judged(matching: bool) -> Outcome
    ensures { result ≡ judged matching }
{
    if matching {
        Outcome::Good
    } else {
        Outcome::IncorrectResponse
    }
}

/// What a finding shows for a challenge, `None` where it is of another kind (RFC 8555, 8.3, 8.4).
pub(crate) fn outcome_of(kind: Kind, expected: &str, finding: &Finding) -> Option<Outcome>
    ensures { result ≡ outcome_of kind expected.now finding.now }
{
    match (kind, finding) {
        (Kind::Http01, Finding::Body(body)) => {
            Some(judged(http_matches(body.as_slice(), expected)))
        }
        (Kind::Dns01, Finding::Records(records)) => {
            Some(judged(dns_matches(records.as_slice(), expected)))
        }
        (Kind::Dns01, Finding::Body(_)) | (Kind::Http01, Finding::Records(_)) => None,
        (_, Finding::Error(FetchError::Connection)) => Some(Outcome::Connection),
        (_, Finding::Error(FetchError::Dns)) => Some(Outcome::Dns),
    }
}

// Whether a report with this outcome stands on a challenge.
fn has_outcome(challenge: &ChallengeRow, outcome: Outcome) -> bool
    ensures { result ≡ holds (λ r. same_outcome r.outcome outcome) challenge.now.reported }
{
    match challenge.reported {
        Some(report) => report.outcome == outcome,
        None => false,
    }
}

/// A report: the same again records nothing, another is refused where the challenge does not wait for one.
#[tactic(auto, unfolding(desk_model::specs::Verdict::check, desk_model::specs::Verdict::choose))]
pub(crate) fn outcome_verdict(
    alloc: Global,
    number: u64,
    status: AuthzStatus,
    challenge: &ChallengeRow,
    outcome: Outcome,
) -> Verdict
    ensures { result ≡ outcome_verdict number status challenge.now outcome }
{
    if has_outcome(challenge, outcome) {
        return Verdict::Answers(Shows::Challenge(number));
    }
    if status.is_pending() && challenge.status.is_processing() {
        return Verdict::Moves(Move::Reported(number, outcome));
    }
    refused(alloc, Refusal::Conflict)
}

// ---- authorizations

/// A request to an authorization: one that is over already stays as it is (RFC 8555, 7.5.2).
#[tactic(auto, unfolding(desk_model::specs::Verdict::choose))]
pub(crate) fn authorization_verdict(
    number: u64,
    row: &AuthorizationRow,
    status: AuthzStatus,
    change: AuthorizationChange,
) -> Verdict
    ensures { result ≡ authorization_verdict number (record row.now { status = status }) change }
{
    match change {
        AuthorizationChange::Deactivate if status.is_live() => {
            Verdict::Moves(Move::AuthorizationEnded(number, Ending::Deactivated))
        }
        AuthorizationChange::Deactivate | AuthorizationChange::Read => {
            Verdict::Answers(Shows::Authorization(number))
        }
    }
}
