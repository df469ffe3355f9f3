//! The authorizations of which a challenge waits for the validator, with those alone that wait.
ghost use Rattle.std.specs.Prelude.{◌≡◌, ◌++◌, ◌∷◌, [], filter, map, IfErr, IfOk, OnOk};
ghost use Rattle.model_laws.specs.Ordered.{Ascends, IsOrdered};
ghost use Rattle.model_parts.specs.IsEnough.{has_work};
ghost use Rattle.model_parts.specs.Thinned.{waiting_challenges, with_challenges};
ghost use Rattle.store_api.specs.Finding.{Finds, LacksMemory};
ghost use Rattle.store_api.specs.Needing.{lacking};
ghost use Rattle.store_api.specs.Nesting.{joined, nested};

use crate::fault::StorageFault;
use crate::links::put_lacking;
use crate::look_ups::LookUps;
use desk_book::Table;
use desk_model::{AuthorizationRow, ChallengeRow, Sequence};
use std::alloc::{AllocError, Global};
use store_columns::JoinedChallenge;

// Puts the authorizations beside these challenges into a table, those alone that it lacks.
fn add_owners(
    authorizations: &mut Table<AuthorizationRow>,
    waiting: &[JoinedChallenge],
) -> Result<(), AllocError>
    ensures { OnOk result (authorizations.new ≡ lacking (λ r. r.number) (map (λ w. w.authorization) waiting.now) authorizations.old) }
{
    for found in waiting {
        put_lacking(authorizations, found.authorization.clone()?)?;
    }
    Ok(())
}

// A copy of an authorization with one challenge more.
fn with_one(row: &AuthorizationRow, challenge: ChallengeRow) -> Result<AuthorizationRow, AllocError>
    ensures { IfOk result (λ copy. copy ≡ record row.now { challenges = row.now.challenges ++ challenge ∷ [] }) }
{
    let mut challenges = row.challenges.clone()?.into_vec();
    challenges.push(challenge)?;
    let mut copy = row.clone()?;
    copy.challenges = Sequence::new(challenges);
    Ok(copy)
}

// Puts a challenge under its authorization, if that is in the table.
#[tactic(auto, using(crate::proofs::WaitingRows::none_joined, std::proofs::lemmas::Result::on_ok_weaker, crate::proofs::WaitingRows::put_joined))]
fn nest(
    authorizations: &mut Table<AuthorizationRow>,
    owner: u64,
    challenge: ChallengeRow,
) -> Result<(), AllocError>
    ensures { OnOk result (Ascends (λ r. r.number) 1 authorizations.old
        → authorizations.new ≡ map (joined (owner, challenge)) authorizations.old) }
{
    match authorizations.get(owner) {
        Some(row) => {
            let row = with_one(row, challenge)?;
            authorizations.put(row)
        }
        None => Ok(()),
    }
}

// Puts these challenges under their authorizations, one after the other.
fn nest_each(
    authorizations: &mut Table<AuthorizationRow>,
    waiting: &[JoinedChallenge],
) -> Result<(), AllocError>
    ensures { OnOk result (Ascends (λ r. r.number) 1 authorizations.old
        → authorizations.new ≡ nested (map (λ w. (w.authorization.number, w.challenge)) waiting.now) authorizations.old) }
{
    for found in waiting {
        nest(authorizations, found.authorization.number, found.challenge)?;
    }
    Ok(())
}

// Puts the authorizations beside these challenges into a table, each with those of the challenges that are its own.
fn add_nested(
    authorizations: &mut Table<AuthorizationRow>,
    waiting: &[JoinedChallenge],
) -> Result<(), StorageFault>
    ensures nested { OnOk result (
        Ascends (λ r. r.number) 1 (lacking (λ r. r.number) (map (λ w. w.authorization) waiting.now) authorizations.old)
        → authorizations.new ≡ nested (map (λ w. (w.authorization.number, w.challenge)) waiting.now)
        (lacking (λ r. r.number) (map (λ w. w.authorization) waiting.now) authorizations.old)) }
    ensures lacks { IfErr result LacksMemory }
{
    add_owners(authorizations, waiting)?;
    nest_each(authorizations, waiting)?;
    Ok(())
}

/// Puts the authorizations of which a challenge waits for the validator into an empty table, with the challenges that wait alone.
pub(crate) fn add_working<S: LookUps>(
    alloc: Global,
    source: &mut S,
    authorizations: &mut Table<AuthorizationRow>,
) -> Result<(), StorageFault>
    ensures { Finds S.sight source.old source.new result (λ T. IsOrdered T → authorizations.old ≡ []
        → authorizations.new ≡ map (with_challenges waiting_challenges) (filter has_work T.authorizations)) }
{
    let waiting = source.waiting_challenges(alloc)?;
    add_nested(authorizations, waiting.as_slice())
}
