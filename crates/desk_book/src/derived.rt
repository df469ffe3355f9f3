//! The statuses that rows ought to have, by their dated columns (RFC 8555, 7.1.6).
ghost use Rattle.std.specs.Prelude.{◌≡◌, ◌||◌, List, Some, None, is_some, nat_lt};
ghost use Rattle.std.specs.List.{list_all, list_any};
ghost use Rattle.desk_model.specs.Authorization.{is_good, is_over, is_valid, authorization_status_by, challenge_status_by};
ghost use Rattle.desk_model.specs.{Lookup.holds, declared.rows.AuthorizationRow.AuthorizationRow as Row};
ghost use Rattle.desk_model.specs.Derived.{derived_account, derived_authorization, derived_challenge, derived_order, is_proved, numbers_of, stored_statuses};

use desk_model::{
    AccountRow, AccountStatus, AuthorizationRow, AuthzStatus, ChallengeRow, ChallengeStatus,
    Ending, OrderRow, OrderStatus, Report,
};

/// The status of an account: valid until it ends.
pub fn derived_account(row: &AccountRow) -> AccountStatus
    ensures { result ≡ derived_account row.now }
{
    match row.ended {
        None => AccountStatus::Valid,
        Some(end) => match end.ending {
            Ending::Deactivated => AccountStatus::Deactivated,
            Ending::Revoked => AccountStatus::Revoked,
        },
    }
}

/// The status of a challenge: by its report, else by whether it was answered.
pub fn derived_challenge(row: &ChallengeRow) -> ChallengeStatus
    ensures { result ≡ derived_challenge row.now }
{
    match row.reported {
        Some(report) => reported_status(report, row.answered.is_some()),
        None => match row.answered {
            Some(_) => ChallengeStatus::Processing,
            None => ChallengeStatus::Pending,
        },
    }
}

fn reported_status(report: Report, answered: bool) -> ChallengeStatus
    ensures { result ≡ challenge_status_by (Some report) answered }
{
    if report.outcome.is_good() {
        ChallengeStatus::Valid
    } else {
        ChallengeStatus::Invalid
    }
}

// Whether a good report stands on one of the challenges of an authorization.
fn is_proved(row: &AuthorizationRow) -> bool
    ensures { result ≡ is_proved row.now }
{
    row.challenges.as_slice().iter().any(has_good_report)
}

fn has_good_report(row: &ChallengeRow) -> bool
    ensures { result ≡ holds (λ r. is_good r.outcome) row.now.reported }
{
    match row.reported {
        Some(report) => report.outcome.is_good(),
        None => false,
    }
}

/// Whether an end is past at a moment, both in seconds since 1970: at the end itself it is not.
pub fn is_past(expires: u64, moment: u64) -> bool
    ensures { result ≡ nat_lt expires moment }
{
    expires < moment
}

/// The status of an authorization at a moment, in seconds since 1970: by its end, else by its `expires`, else by the
/// reports on its challenges.
pub fn derived_authorization(moment: u64, row: &AuthorizationRow) -> AuthzStatus
    ensures { result ≡ derived_authorization moment row.now }
{
    match row.ended {
        Some(end) => end.kind.status(),
        None => lasting_status(moment, row),
    }
}

fn lasting_status(moment: u64, row: &AuthorizationRow) -> AuthzStatus
    ensures { result ≡ authorization_status_by None (nat_lt row.now.expires moment) (is_proved row.now) }
{
    if is_past(row.expires, moment) {
        return AuthzStatus::Expired;
    }
    if is_proved(row) {
        AuthzStatus::Valid
    } else {
        AuthzStatus::Pending
    }
}

fn any_over(statuses: &[AuthzStatus]) -> bool
    ensures { result ≡ list_any is_over statuses.now }
{
    statuses.iter().any(|status| status.is_over())
}

fn all_valid(statuses: &[AuthzStatus]) -> bool
    ensures { result ≡ list_all is_valid statuses.now }
{
    statuses.iter().all(|status| status.is_valid())
}

// Whether an order can lead to no certificate any more: it failed, is past its `expires`, or lost an authorization.
fn has_fallen(moment: u64, row: &OrderRow, statuses: &[AuthzStatus]) -> bool
    ensures { result ≡ (is_some row.now.failed || (nat_lt row.now.expires moment || list_any is_over statuses.now)) }
{
    row.failed.is_some() || is_past(row.expires, moment) || any_over(statuses)
}

/// The status of an order at a moment, in seconds since 1970, by its columns and the statuses of the authorizations
/// that it lists, in their places.
pub fn derived_order(moment: u64, row: &OrderRow, statuses: &[AuthzStatus]) -> OrderStatus
    ensures { (rows : List Row) → stored_statuses rows (numbers_of row.now.listed) ≡ statuses.now → result ≡ derived_order moment rows row.now }
{
    if row.certified.is_some() {
        return OrderStatus::Valid;
    }
    if has_fallen(moment, row, statuses) {
        return OrderStatus::Invalid;
    }
    if row.finalized.is_some() {
        return OrderStatus::Processing;
    }
    if all_valid(statuses) {
        OrderStatus::Ready
    } else {
        OrderStatus::Pending
    }
}
