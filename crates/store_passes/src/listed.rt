//! What the authorizations that an order lists have in a column.
ghost use Rattle.std.specs.Prelude.{◌≡◌, ◌==◌, ◌++◌, ◌∷◌, ℕ, List, IfOk, OnOk, map};
ghost use Rattle.std.specs.List.{filter};
ghost use Rattle.desk_model.specs.declared.rows.AuthorizationRow.{AuthorizationRow as Row};
ghost use Rattle.desk_model.specs.Derived.{numbers_of, stored_statuses};
ghost use Rattle.desk_model.specs.Document.{rows_of};
ghost use Rattle.store_api.specs.Sight.{ForTables, Reads};

use desk_model::{AuthorizationRow, AuthzStatus, DnsName, Listed};
use model_parts::AuthorizationsWhere;
use std::alloc::{AllocError, Global};
use store_api::{Found, LookUps, StorageFault};

// A column of an authorization.
trait Column: Drop {
    // What stands in it.
    ghost column: { Row → Self };

    // That, copied.
    fn of(row: &AuthorizationRow) -> Result<Self, AllocError>
        ensures { IfOk result (λ value. value ≡ column row.now) };
}

impl Column for AuthzStatus {
    ghost column = { λ row. row.status };

    fn of(row: &AuthorizationRow) -> Result<AuthzStatus, AllocError> {
        Ok(row.status)
    }
}

impl Column for DnsName {
    ghost column = { λ row. row.name };

    fn of(row: &AuthorizationRow) -> Result<DnsName, AllocError> {
        row.name.clone()
    }
}

// Puts the column of the first row, if there is one.
#[tactic(auto, using(std::proofs::Common::append_assoc, crate::proofs::Firsts::first_listed, crate::proofs::Firsts::none_listed))]
fn push_first<C: Column>(values: &mut Vec<C>, rows: &[AuthorizationRow]) -> Result<(), AllocError>
    ensures { OnOk result ((all : List Row) (number : ℕ) (later : List ℕ) → rows.now ≡ filter (λ a. a.number == number) all →
        values.new.items ++ map C.column (rows_of all later) ≡ values.old.items ++ map C.column (rows_of all (number ∷ later))) }
{
    if let Some(row) = rows.first() {
        values.push(C::of(row)?)?;
    }
    Ok(())
}

// Puts the column of the authorization of a number, if there is one.
fn push_numbered<S: LookUps, C: Column>(
    alloc: Global,
    source: &mut S,
    values: &mut Vec<C>,
    number: u64,
) -> Result<(), StorageFault>
    ensures reads { Reads S.sight source.old source.new result }
    ensures found { ForTables S.sight source.old source.new (λ T. OnOk result ((later : List ℕ) →
        values.new.items ++ map C.column (rows_of T.authorizations later)
        ≡ values.old.items ++ map C.column (rows_of T.authorizations (number ∷ later)))) }
{
    let rows = source.find_authorizations(alloc, AuthorizationsWhere::Number(number))?;
    push_first(values, &rows)?;
    Ok(())
}

// Puts the column of the authorizations in these places, one after the other.
fn add_listed<S: LookUps, C: Column>(
    alloc: Global,
    source: &mut S,
    values: &mut Vec<C>,
    places: &[Listed],
) -> Result<(), StorageFault>
    ensures reads { Reads S.sight source.old source.new result }
    ensures found { ForTables S.sight source.old source.new (λ T. OnOk result (
        values.new.items ≡ values.old.items ++ map C.column (rows_of T.authorizations (numbers_of places.now)))) }
{
    for place in places {
        push_numbered(alloc, source, values, place.authorization)?;
    }
    Ok(())
}

/// The stored statuses of the authorizations that an order lists, read one after the other.
#[tactic(auto, using(crate::proofs::Firsts::statuses_listed))]
pub(crate) fn listed_statuses<S: LookUps>(
    alloc: Global,
    source: &mut S,
    listed: &[Listed],
) -> Found<AuthzStatus>
    ensures reads { Reads S.sight source.old source.new result }
    ensures found { ForTables S.sight source.old source.new (λ T.
        IfOk result (λ v. v.items ≡ stored_statuses T.authorizations (numbers_of listed.now))) }
{
    let mut statuses = Vec::new(alloc);
    add_listed(alloc, source, &mut statuses, listed)?;
    Ok(statuses)
}

/// The names of the authorizations that an order lists, read one after the other: those that it asks for (RFC 8555, 7.1.3).
///
/// # Errors
///
/// As a look-up of the source.
pub fn listed_names<S: LookUps>(alloc: Global, source: &mut S, listed: &[Listed]) -> Found<DnsName>
    ensures reads { Reads S.sight source.old source.new result }
    ensures found { ForTables S.sight source.old source.new (λ T.
        IfOk result (λ names. names.items ≡ map (λ a. a.name) (rows_of T.authorizations (numbers_of listed.now)))) }
{
    let mut names = Vec::new(alloc);
    add_listed(alloc, source, &mut names, listed)?;
    Ok(names)
}
