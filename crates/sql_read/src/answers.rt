//! Challenges, each beside the key of its answer, where it has one.
ghost use Rattle.std.specs.Prelude.{◌≡◌, ◌<◌, Ok, option_map, IfErr, IfOk};
ghost use Rattle.store_columns.specs.Flat.{answer_key};
ghost use Rattle.desk_model.specs.declared.rows.ChallengeRow.{ChallengeRow as Challenge};
ghost use Rattle.sql_read.specs.Failures.{IsOfNoDevice, IsOutOfMemory};
ghost use Rattle.sql_read.specs.Joined.{keyed_row};
ghost use Rattle.sql_read.specs.Spelled.{FitsKey, FitsKeyFrom, FitsKeyOrNone, FitsKeyed, key_from, key_in, key_or_none, keyed_in};

use crate::fault::ReadFault;
use crate::rows::{Parted, Selected};
use crate::values::{both, bytes, number_or_none, numbers};
use desk_model::{Answer, ChallengeRow};
use sqlite::{Alter, Connection, Error, Row};
use std::alloc::Global;
use store_columns::{AnswerKey, BareChallenge, ChallColumns, ChallKeyColumns, Owned};

// The columns of a key, in a row from this place on.
fn key_columns(row: &Row, from: usize) -> Result<ChallKeyColumns, Error>
    requires { from < 100 }
    ensures read { IfOk result (λ c. c ≡ key_from from row.now) }
    ensures fails { FitsKeyFrom from row.now → IfErr result IsOutOfMemory }
    ensures kind { IfErr result IsOfNoDevice }
{
    let [chall] = numbers(row, [from])?;
    let thumb = bytes(row, from + 1)?;
    Ok(ChallKeyColumns { chall, thumb })
}

/// The columns of a key, in a row from this place on, or `None` where its number is NULL.
pub(crate) fn key_columns_or_none(row: &Row, from: usize) -> Result<Option<ChallKeyColumns>, Error>
    requires { from < 100 }
    ensures read { IfOk result (λ c. c ≡ key_or_none from row.now) }
    ensures fails { FitsKeyOrNone from row.now → IfErr result IsOutOfMemory }
    ensures kind { IfErr result IsOfNoDevice }
{
    match number_or_none(row, from)? {
        Some(_) => Ok(Some(key_columns(row, from)?)),
        None => Ok(None),
    }
}

impl Selected for ChallKeyColumns {
    ghost spelled = { key_in };

    ghost Fits = { FitsKey };

    fn of(row: &Row) -> Result<ChallKeyColumns, Error> {
        key_columns(row, 0)
    }
}

// ---- challenges beside the keys of their answers

/// The columns of a challenge, and those of the key of its answer, if it has one.
pub(crate) type KeyedColumns = (ChallColumns, Option<ChallKeyColumns>);

// What they spell.
type Keyed = (Owned<BareChallenge>, Option<AnswerKey>);

impl Selected for KeyedColumns {
    ghost spelled = { keyed_in };

    ghost Fits = { FitsKeyed };

    fn of(row: &Row) -> Result<KeyedColumns, Error> {
        both(ChallColumns::of(row), key_columns_or_none(row, 8))
    }
}

/// The answer to a challenge that was answered at this moment, if at any, under the key beside it.
pub(crate) fn answer_under(
    answered: Option<u64>,
    key: Option<AnswerKey>,
) -> Result<Option<Answer>, ReadFault>
    ensures { (c : Challenge) → answered ≡ option_map (λ a. a.date) c.answered → key ≡ answer_key c → result ≡ Ok c.answered }
{
    match answered {
        Some(date) => {
            let thumb = key.ok_or(ReadFault::NotARow)?.thumb;
            Ok(Some(Answer { date, thumb }))
        }
        None => Ok(None),
    }
}

// A challenge under its authorization, which has the key of its answer beside it: nothing is looked up.
impl Parted for Keyed {
    type Whole = Owned<ChallengeRow>;

    ghost bare = { keyed_row };

    ghost HasItsPart = { λ _ _. Unit {0} };

    fn complete<S: Alter>(
        self,
        _alloc: Global,
        _conn: &mut Connection<S>,
    ) -> Result<Owned<ChallengeRow>, ReadFault> {
        let (challenge, key) = self;
        let answered = answer_under(challenge.row.answered, key)?;
        Ok(Owned {
            owner: challenge.owner,
            row: challenge.row.with_answer(answered),
        })
    }
}
