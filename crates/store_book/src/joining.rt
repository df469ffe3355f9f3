//! Challenges, each with the key of its answer.
ghost use Rattle.std.specs.Prelude.{◌≡◌, IfOk};
ghost use Rattle.store_book.specs.Joining.{joined, split_by};

use desk_model::{Answer, ChallengeRow};
use std::alloc::{AllocError, Global};
use store_columns::{AnswerKey, BareChallenge, Owned};

// The answer of a challenge that was answered at this moment, or not, and the keys behind its own.
fn split(answered: Option<u64>, keys: &[AnswerKey]) -> (Option<Answer>, &[AnswerKey])
    ensures { (result.0, result.1.now) ≡ split_by answered keys.now }
{
    let Some(date) = answered else {
        return (None, keys);
    };
    let Some((first, behind)) = keys.split_first() else {
        return (None, keys);
    };
    let thumb = first.thumb;
    (Some(Answer { date, thumb }), behind)
}

/// The challenges, each that was answered with the next of the keys.
///
/// # Errors
///
/// Where there is no memory for them.
pub(crate) fn join(
    alloc: Global,
    challenges: &[Owned<BareChallenge>],
    keys: &[AnswerKey],
) -> Result<Vec<Owned<ChallengeRow>>, AllocError>
    ensures { IfOk result (λ rows. rows.items ≡ joined challenges.now keys.now) }
{
    let mut rest = keys;
    let mut rows = Vec::new(alloc);
    for row in challenges {
        let (answered, behind) = split(row.row.answered, rest);
        rows.push(Owned {
            owner: row.owner,
            row: row.row.with_answer(answered),
        })?;
        rest = behind;
    }
    Ok(rows)
}
