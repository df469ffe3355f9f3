//! Rows of the table `authz`, and of `chall`, which has their challenges.
ghost use Rattle.std.specs.Prelude.{refl};
ghost use Rattle.store_columns.specs.Columns.{authorization_columns, challenge_columns, key_columns};
ghost use Rattle.store_columns.specs.Limits.{IsStoredAuthorization, IsStoredChallenge, IsStoredKey};
ghost use Rattle.store_columns.specs.{Reading.IsRead};

use crate::columns::{
    AnswerKey, AuthzColumns, BareChallenge, ChallColumns, ChallKeyColumns, Owned,
};
use crate::facts::{
    Columns, read_answered, read_authorization_end, read_expiry, read_moment, read_number,
    read_report, read_sixteen, read_thirty_two, read_wildcard,
};
use desk_model::{AuthorizationRow, AuthzStatus, ChallengeStatus, DnsName, Kind, Sequence};
use std::alloc::{AllocError, Global};

// ---- authorizations

// The authorization with these columns and no challenges, or `None` where none in its limits has them.
fn read_authorization(alloc: Global, columns: AuthzColumns) -> Option<AuthorizationRow>
    ensures { IsRead authorization_columns IsStoredAuthorization columns result }
{
    let number = read_number(columns.num)?;
    let account = read_number(columns.account)?;
    let wildcard = read_wildcard(columns.wildcard)?;
    let made = read_moment(columns.made)?;
    let expires = read_expiry(columns.expires)?;
    let ended = read_authorization_end(columns.ended, &columns.end_kind)?;
    let status = AuthzStatus::from_text(columns.status.as_str())?;
    let name = DnsName::new(columns.name, wildcard)?;
    Some(AuthorizationRow {
        number,
        account,
        name,
        made,
        expires,
        ended,
        challenges: Sequence::new(Vec::new(alloc)),
        status,
    })
}

impl Columns for AuthzColumns {
    type Row = AuthorizationRow;

    ghost write = { authorization_columns };

    ghost IsStored = { IsStoredAuthorization };

    fn read(self, alloc: Global) -> Result<Option<AuthorizationRow>, AllocError> {
        Ok(read_authorization(alloc, self))
    }

    ghost alike_itself = { λ row. refl };
}

// ---- challenges

// The challenge with these columns, under its authorization, or `None` where none in its limits has them.
fn read_challenge(columns: &ChallColumns) -> Option<Owned<BareChallenge>>
    ensures { IsRead challenge_columns IsStoredChallenge columns.now result }
{
    Some(Owned {
        owner: read_number(columns.authz)?,
        row: BareChallenge {
            number: read_number(columns.num)?,
            kind: Kind::from_text(columns.kind.as_str())?,
            token: read_sixteen(columns.token.as_slice())?,
            answered: read_answered(columns.answered)?,
            reported: read_report(columns.reported, &columns.outcome)?,
            status: ChallengeStatus::from_text(columns.status.as_str())?,
        },
    })
}

impl Columns for ChallColumns {
    type Row = Owned<BareChallenge>;

    ghost write = { challenge_columns };

    ghost IsStored = { IsStoredChallenge };

    fn read(self, _alloc: Global) -> Result<Option<Owned<BareChallenge>>, AllocError> {
        Ok(read_challenge(&self))
    }

    ghost alike_itself = { λ row. refl };
}

// The key of an answer with these columns, or `None` where none in its limits has them.
fn read_key(columns: &ChallKeyColumns) -> Option<AnswerKey>
    ensures { IsRead key_columns IsStoredKey columns.now result }
{
    let challenge = read_number(columns.chall)?;
    let thumb = read_thirty_two(columns.thumb.as_slice())?;
    Some(AnswerKey { challenge, thumb })
}

impl Columns for ChallKeyColumns {
    type Row = AnswerKey;

    ghost write = { key_columns };

    ghost IsStored = { IsStoredKey };

    fn read(self, _alloc: Global) -> Result<Option<AnswerKey>, AllocError> {
        Ok(read_key(&self))
    }

    ghost alike_itself = { λ row. refl };
}
