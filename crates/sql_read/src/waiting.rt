//! Challenges, each with the key of its answer and beside its authorization, found by one join: those that wait for the validator,
//! and those of the authorization of one of them.
ghost use Rattle.std.specs.Prelude.{◌≡◌, [], ◌∷◌, map, IfErr, IfOk};
ghost use Rattle.std.specs.List.{flat_map};
ghost use Rattle.desk_model.specs.Kept.{EachOf};
ghost use Rattle.model_parts.specs.LookUps.{AreWaiting, authorizations_numbered, bare_authorizations, owners_of};
ghost use Rattle.sql_read.specs.Joined.{gathered, joined_row};
ghost use Rattle.sql_read.specs.{LookUpFaults.IsOfMemory, Looking.LooksUp};
ghost use Rattle.sql_read.specs.Spelled.{FitsJoined, joined_in};

use crate::answers::{answer_under, key_columns_or_none};
use crate::authorizations::authz_columns;
use crate::fault::ReadFault;
use crate::rows::{Parted, Query, Selected, find_wholes};
use crate::values::both;
use desk_model::{AuthorizationRow, ChallengeRow, ChallengeStatus, Sequence};
use sql_schema::challenges;
use sqlite::{Alter, Connection, Error, Row};
use std::alloc::{AllocError, Global};
use store_columns::{
    AnswerKey, AuthzColumns, BareChallenge, ChallColumns, ChallKeyColumns, JoinedChallenge, Owned,
};

// The columns of a challenge, those of its authorization, and those of the key of its answer, if it has one.
type JoinedColumns = ((ChallColumns, AuthzColumns), Option<ChallKeyColumns>);

// What they spell.
type Joined = ((Owned<BareChallenge>, AuthorizationRow), Option<AnswerKey>);

impl Selected for JoinedColumns {
    ghost spelled = { joined_in };

    ghost Fits = { FitsJoined };

    fn of(row: &Row) -> Result<JoinedColumns, Error> {
        both(
            both(ChallColumns::of(row), authz_columns(row, 8)),
            key_columns_or_none(row, 17),
        )
    }
}

// A row of the join, which has its part beside it: nothing is looked up.
impl Parted for Joined {
    type Whole = JoinedChallenge;

    ghost bare = { joined_row };

    ghost HasItsPart = { λ _ _. Unit {0} };

    fn complete<S: Alter>(
        self,
        _alloc: Global,
        _conn: &mut Connection<S>,
    ) -> Result<JoinedChallenge, ReadFault> {
        let ((challenge, authorization), key) = self;
        let answered = answer_under(challenge.row.answered, key)?;
        let challenge = challenge.row.with_answer(answered);
        Ok(JoinedChallenge {
            authorization,
            challenge,
        })
    }
}

/// The challenges that are stored as waiting for the validator, each beside its authorization; those of one authorization by number.
///
/// # Errors
///
/// As of each reading (`lib.rt`).
pub fn waiting_challenges<S: Alter>(
    alloc: Global,
    conn: &mut Connection<S>,
) -> Result<Vec<JoinedChallenge>, ReadFault>
    ensures { LooksUp S.Store conn.old conn.new (λ T rows. AreWaiting T (map (λ w. (w.authorization.number, w.challenge)) rows.items)
        × EachOf (λ w. bare_authorizations T w.authorization.number ≡ w.authorization ∷ []) rows.items) result }
{
    let waiting = ChallengeStatus::Processing.as_str();
    let query = Query::text(challenges::SELECT_JOINED, waiting);
    find_wholes::<S, JoinedColumns, _>(alloc, conn, query)
}

// The challenges of these rows.
fn challenges_of(alloc: Global, rows: &[JoinedChallenge]) -> Result<Vec<ChallengeRow>, AllocError>
    ensures { IfOk result (λ all. all.items ≡ map (λ w. w.challenge) rows.now) }
{
    rows.iter().map(|row| row.challenge).collect(alloc)
}

// The authorization with the challenges of these rows.
fn with_all(
    alloc: Global,
    bare: &AuthorizationRow,
    rows: &[JoinedChallenge],
) -> Result<AuthorizationRow, AllocError>
    ensures { IfOk result (λ row. row ≡ record bare.now { challenges = map (λ w. w.challenge) rows.now }) }
{
    let challenges = challenges_of(alloc, rows)?;
    let mut row = bare.clone()?;
    row.challenges = Sequence::new(challenges);
    Ok(row)
}

// The authorization alone.
fn alone(alloc: Global, row: AuthorizationRow) -> Result<Vec<AuthorizationRow>, AllocError>
    ensures { IfOk result (λ rows. rows.items ≡ row ∷ []) }
{
    let mut rows = Vec::new(alloc);
    rows.push(row)?;
    Ok(rows)
}

// The authorization beside these challenges, with all of them; none where there is no challenge.
fn gathered(alloc: Global, rows: &[JoinedChallenge]) -> Result<Vec<AuthorizationRow>, ReadFault>
    ensures rows { IfOk result (λ found. found.items ≡ gathered rows.now) }
    ensures fault { IfErr result IsOfMemory }
{
    match rows {
        [] => Ok(Vec::new(alloc)),
        [first, ..] => {
            let row = with_all(alloc, &first.authorization, rows)?;
            let found = alone(alloc, row)?;
            Ok(found)
        }
    }
}

/// The authorization that has the challenge of a number, with all its challenges.
///
/// # Errors
///
/// As of each reading (`lib.rt`).
pub fn authorizations_with_challenge<S: Alter>(
    alloc: Global,
    conn: &mut Connection<S>,
    number: u64,
) -> Result<Vec<AuthorizationRow>, ReadFault>
    ensures { LooksUp S.Store conn.old conn.new (λ T rows. rows.items ≡ flat_map (authorizations_numbered T) (owners_of T number)) result }
{
    let query = Query::number(challenges::SELECT_BESIDE, number);
    let rows = find_wholes::<S, JoinedColumns, _>(alloc, conn, query)?;
    gathered(alloc, rows.as_slice())
}
