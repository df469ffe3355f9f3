//! The status fault of a row: it stores another status than its columns give (RFC 8555, 7.1.6).
ghost use Rattle.std.specs.Prelude.{◌≡◌, ◌==◌, List};
ghost use Rattle.desk_model.specs.Derived.{account_faults, authorization_faults, challenge_faults, numbers_of, order_code};
ghost use Rattle.desk_model.specs.Derived.{order_faults, stored_statuses, unless};
ghost use Rattle.desk_model.specs.declared.rows.AuthorizationRow.{AuthorizationRow as Row};
ghost use Rattle.store_book.specs.RowFaults.{listed_fault};

use desk_book::{derived_account, derived_authorization, derived_challenge, derived_order};
use desk_model::{
    AccountRow, AuthorizationRow, AuthzStatus, ChallengeRow, OrderRow, OrderStatus, StatusFault,
};

// The fault, unless the row is fine.
fn fault_unless(is_fine: bool, fault: StatusFault) -> Option<StatusFault>
    ensures { listed_fault result ≡ unless is_fine fault }
{
    if is_fine { None } else { Some(fault) }
}

/// The fault of an account, if it stores another status than its columns give (RFC 8555, 7.1.6).
pub fn account_fault(row: &AccountRow) -> Option<StatusFault>
    ensures { listed_fault result ≡ account_faults row.now }
{
    let derived = derived_account(row);
    let fault = StatusFault::Account {
        number: row.number,
        stored: row.status,
        derived,
    };
    fault_unless(row.status == derived, fault)
}

// Whether the status of an order is this one.
fn has_status(row: &OrderRow, status: OrderStatus) -> bool
    ensures { result ≡ (order_code row.now.status == order_code status) }
{
    row.status == status
}

/// The fault of an order at a moment, if it stores another status than its columns and the stored statuses of the
/// authorizations that it lists give (RFC 8555, 7.1.6).
pub fn order_fault(moment: u64, row: &OrderRow, statuses: &[AuthzStatus]) -> Option<StatusFault>
    ensures { (rows : List Row) → stored_statuses rows (numbers_of row.now.listed) ≡ statuses.now
        → listed_fault result ≡ order_faults moment rows row.now }
{
    let derived = derived_order(moment, row, statuses);
    let fault = StatusFault::Order {
        number: row.number,
        stored: row.status,
        derived,
    };
    fault_unless(has_status(row, derived), fault)
}

/// The fault of an authorization at a moment, if it stores another status than its columns give (RFC 8555, 7.1.6).
pub fn authorization_fault(moment: u64, row: &AuthorizationRow) -> Option<StatusFault>
    ensures { listed_fault result ≡ authorization_faults moment row.now }
{
    let derived = derived_authorization(moment, row);
    let fault = StatusFault::Authz {
        number: row.number,
        stored: row.status,
        derived,
    };
    fault_unless(row.status == derived, fault)
}

/// The fault of a challenge, if it stores another status than its columns give (RFC 8555, 7.1.6).
pub fn challenge_fault(row: &ChallengeRow) -> Option<StatusFault>
    ensures { listed_fault result ≡ challenge_faults row.now }
{
    let derived = derived_challenge(row);
    let fault = StatusFault::Chall {
        number: row.number,
        stored: row.status,
        derived,
    };
    fault_unless(row.status == derived, fault)
}
