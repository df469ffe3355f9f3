//! The check of statuses: which rows store another status than their columns give (RFC 8555, 7.1.6).
ghost use Rattle.std.specs.Prelude.{◌≡◌, ◌++◌, ◌∷◌, [], List, IfOk, OnOk};
ghost use Rattle.std.specs.List.{flat_map};
ghost use Rattle.desk_model.specs.Derived.{account_faults, authorization_faults, challenge_faults};
ghost use Rattle.desk_model.specs.Derived.{numbers_of, order_faults, sorted_challenges, status_faults, stored_statuses};
ghost use Rattle.desk_model.specs.{Entry.History, Legal.Legal};
ghost use Rattle.desk_model.specs.Tables.{Tables, picture};
ghost use Rattle.desk_model.specs.declared.rows.{ChallengeRow.ChallengeRow as Challenge, StatusFault.StatusFault as Fault};
ghost use Rattle.store_book.specs.FaultNumbers.{challenges_of, fault_number};
ghost use Rattle.store_book.specs.RowFaults.{listed_fault};

use crate::row_faults::{account_fault, authorization_fault, challenge_fault, order_fault};
use desk_book::{Book, Row, Table};
use desk_model::{
    AccountRow, AuthorizationRow, AuthzStatus, ChallengeRow, Listed, OrderRow, StatusFault,
};
use std::alloc::{AllocError, Global};

/// Finds the rows whose stored status is not the one that their columns give (RFC 8555, 7.1.6) at the book's clock:
/// accounts, orders, authorizations, challenges, each by number. There is none in the picture of a legal history.
///
/// # Errors
///
/// Where there is no memory for what is found.
pub fn check(alloc: Global, book: &Book) -> Result<Vec<StatusFault>, AllocError>
    ensures faults { IfOk result (λ v. v.items ≡ status_faults book.now) }
    ensures picture { IfOk result (λ v. (F : History) → Legal F → book.now ≡ picture F → v.items ≡ []) }
{
    let mut faults = Vec::new(alloc);
    push_faults(&mut faults, alloc, book)?;
    Ok(faults)
}

// Puts the faults of accounts, orders, authorizations and challenges, one kind after the other.
#[tactic(auto, using(crate::proofs::Pushed::all_faults))]
fn push_faults(faults: &mut Vec<StatusFault>, alloc: Global, book: &Book) -> Result<(), AllocError>
    ensures { OnOk result (faults.new.items ≡ faults.old.items ++ status_faults book.now) }
{
    check_rows(faults, alloc, book, book.accounts())?;
    check_rows(faults, alloc, book, book.orders())?;
    check_rows(faults, alloc, book, book.authorizations())?;
    push_sorted_challenges(faults, alloc, book.authorizations())?;
    Ok(())
}

// Puts a fault, if there is one.
fn push_fault(faults: &mut Vec<StatusFault>, found: Option<StatusFault>) -> Result<(), AllocError>
    ensures { OnOk result (faults.new.items ≡ faults.old.items ++ listed_fault found) }
{
    if let Some(fault) = found {
        faults.push(fault)?;
    }
    Ok(())
}

// ---- the rows of a table

// A row that stores a status.
trait StoresStatus {
    // The row's faults beside the others of a book.
    ghost faults_of: { Tables → Self → List Fault };

    // Puts the fault of the row, if it stores another status than its columns give.
    fn check_status(
        &self,
        faults: &mut Vec<StatusFault>,
        alloc: Global,
        book: &Book,
    ) -> Result<(), AllocError>
        ensures { OnOk result (faults.new.items ≡ faults.old.items ++ faults_of book.now self.now) };
}

fn check_rows<R: Row + Drop + StoresStatus>(
    faults: &mut Vec<StatusFault>,
    alloc: Global,
    book: &Book,
    rows: &Table<R>,
) -> Result<(), AllocError>
    ensures { OnOk result (faults.new.items ≡ faults.old.items ++ flat_map (R.faults_of book.now) rows.now) }
{
    for row in rows.iter() {
        row.check_status(faults, alloc, book)?;
    }
    Ok(())
}

impl StoresStatus for AccountRow {
    ghost faults_of = { λ _ row. account_faults row };

    fn check_status(
        &self,
        faults: &mut Vec<StatusFault>,
        _alloc: Global,
        _book: &Book,
    ) -> Result<(), AllocError> {
        push_fault(faults, account_fault(self))
    }
}

impl StoresStatus for AuthorizationRow {
    ghost faults_of = { λ B row. authorization_faults B.meta.counters.clock row };

    fn check_status(
        &self,
        faults: &mut Vec<StatusFault>,
        _alloc: Global,
        book: &Book,
    ) -> Result<(), AllocError> {
        let moment = book.meta().counters.clock.moment();
        push_fault(faults, authorization_fault(moment, self))
    }
}

// ---- orders

// Puts the stored status of the authorization of a number, if there is one.
fn push_stored_status(
    statuses: &mut Vec<AuthzStatus>,
    book: &Book,
    number: u64,
) -> Result<(), AllocError>
    ensures { OnOk result (statuses.new.items ≡ statuses.old.items ++ stored_statuses book.now.authorizations (number ∷ [])) }
{
    if let Some(row) = book.authorization(number) {
        statuses.push(row.status)?;
    }
    Ok(())
}

// The stored statuses of the authorizations that an order lists.
fn listed_statuses(
    alloc: Global,
    book: &Book,
    listed: &[Listed],
) -> Result<Vec<AuthzStatus>, AllocError>
    ensures { IfOk result (λ v. v.items ≡ stored_statuses book.now.authorizations (numbers_of listed.now)) }
{
    let mut statuses = Vec::new(alloc);
    for listed in listed {
        push_stored_status(&mut statuses, book, listed.authorization)?;
    }
    Ok(statuses)
}

impl StoresStatus for OrderRow {
    ghost faults_of = { λ B row. order_faults B.meta.counters.clock B.authorizations row };

    fn check_status(
        &self,
        faults: &mut Vec<StatusFault>,
        alloc: Global,
        book: &Book,
    ) -> Result<(), AllocError> {
        let statuses = listed_statuses(alloc, book, self.listed.as_slice())?;
        let found = order_fault(book.meta().counters.clock.moment(), self, &statuses);
        push_fault(faults, found)
    }
}

// ---- challenges

fn push_challenges(faults: &mut Vec<StatusFault>, rows: &[ChallengeRow]) -> Result<(), AllocError>
    ensures { OnOk result (faults.new.items ≡ faults.old.items ++ flat_map challenge_faults rows.now) }
{
    for row in rows {
        push_fault(faults, challenge_fault(row))?;
    }
    Ok(())
}

// Puts the faults of all challenges, by authorization.
fn push_all_challenges(
    faults: &mut Vec<StatusFault>,
    authorizations: &Table<AuthorizationRow>,
) -> Result<(), AllocError>
    ensures { OnOk result (faults.new.items ≡ faults.old.items
        ++ flat_map challenge_faults (challenges_of authorizations.now)) }
{
    for row in authorizations.iter() {
        push_challenges(faults, row.challenges.as_slice())?;
    }
    Ok(())
}

fn fault_number(fault: &StatusFault) -> u64
    ensures { result ≡ fault_number fault.now }
{
    match *fault {
        StatusFault::Account { number, .. } => number,
        StatusFault::Order { number, .. } => number,
        StatusFault::Authz { number, .. } => number,
        StatusFault::Chall { number, .. } => number,
    }
}

// Sorts faults of challenges by number, those of one number in the order in which they stand.
fn sort_faults(faults: &mut Vec<StatusFault>) -> Result<(), AllocError>
    ensures { OnOk result ((rows : List Challenge) → faults.old.items ≡ flat_map challenge_faults rows
        → faults.new.items ≡ flat_map challenge_faults (sorted_challenges rows)) }
{
    faults.sort_by_key(fault_number)
}

// Puts the faults of challenges by number, those of one number in the order of their authorizations.
fn push_sorted_challenges(
    faults: &mut Vec<StatusFault>,
    alloc: Global,
    authorizations: &Table<AuthorizationRow>,
) -> Result<(), AllocError>
    ensures { OnOk result (faults.new.items ≡ faults.old.items
        ++ flat_map challenge_faults (sorted_challenges (challenges_of authorizations.now))) }
{
    let mut challenges = Vec::new(alloc);
    push_all_challenges(&mut challenges, authorizations)?;
    sort_faults(&mut challenges)?;
    faults.append(&mut challenges)
}
