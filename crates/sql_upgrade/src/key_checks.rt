//! The keys of answers, found by rows as they come: by those of accounts, of authorizations and of challenges.
ghost use Rattle.std.specs.Prelude.{◌≡◌, ◌++◌, [], OnOk, option_to_list, ⊤};
ghost use Rattle.desk_model.specs.Kept.{EachOf};
ghost use Rattle.sql_upgrade.specs.FoundKeys.{HasKey, account_of, account_rows, found_key, row_key, row_keys, thumb_of, thumb_rows};
ghost use Rattle.std.proofs.Common.{sym};

use desk_book::{Row, Table};
use desk_model::{AccountRow, AuthorizationRow};
use keys::thumbprint;
use std::alloc::{AllocError, Global};
use store_book::RowCheck;
use store_columns::{AccountColumns, AnswerKey, AuthzColumns, BareChallenge, ChallColumns, Owned};

/// The thumbprint of an account's key.
#[derive(Clone, Copy)]
pub(crate) struct AccountThumb {
    number: u64,
    thumb: [u8; 32],
}

impl Row for AccountThumb {
    ghost number = { λ row. row.number };

    ghost clones = { λ row copy same. same };

    fn number(&self) -> u64 {
        self.number
    }
}

/// The account of an authorization.
#[derive(Clone, Copy)]
pub(crate) struct AuthorizationAccount {
    number: u64,
    account: u64,
}

impl Row for AuthorizationAccount {
    ghost number = { λ row. row.number };

    ghost clones = { λ row copy same. same };

    fn number(&self) -> u64 {
        self.number
    }
}

// The thumbprint of this account's key.
fn thumb_of(row: &AccountRow) -> AccountThumb
    ensures { result ≡ thumb_of row.now }
{
    let thumb = thumbprint(&row.key);
    AccountThumb {
        number: row.number,
        thumb,
    }
}

/// Keeps the thumbprint of each account's key.
#[derive(Drop)]
pub(crate) struct ThumbCheck {
    thumbs: Table<AccountThumb>,
}

impl ThumbCheck {
    /// Before the first row.
    pub(crate) fn new(alloc: Global) -> ThumbCheck
        ensures { result.thumbs ≡ [] }
    {
        ThumbCheck {
            thumbs: Table::new(alloc),
        }
    }
}

impl RowCheck<AccountColumns> for ThumbCheck {
    type Kept = Table<AccountThumb>;

    ghost Passed = { λ first now rows. now.thumbs ≡ thumb_rows rows };

    ghost IsWhole = { λ first rows kept. kept ≡ thumb_rows rows };

    ghost AreAll = { λ first rows. ⊤ };

    #[tactic(auto, using(crate::proofs::PassedRows::put_more))]
    fn passes(&mut self, row: &AccountRow) -> Result<bool, AllocError> {
        self.thumbs.put(thumb_of(row))?;
        Ok(true)
    }

    fn finish(self, _alloc: Global) -> Result<Option<Table<AccountThumb>>, AllocError> {
        Ok(Some(self.thumbs))
    }

    ghost passed_alike = { λ first now rows row other same passed. rw same at passed };

    ghost all_alike = { λ first rows rest row other same all. all };
}

// The account of this authorization.
fn account_of(row: &AuthorizationRow) -> AuthorizationAccount
    ensures { result ≡ account_of row.now }
{
    AuthorizationAccount {
        number: row.number,
        account: row.account,
    }
}

/// Keeps the account of each authorization.
#[derive(Drop)]
pub(crate) struct OwnerCheck {
    accounts: Table<AuthorizationAccount>,
}

impl OwnerCheck {
    /// Before the first row.
    pub(crate) fn new(alloc: Global) -> OwnerCheck
        ensures { result.accounts ≡ [] }
    {
        OwnerCheck {
            accounts: Table::new(alloc),
        }
    }
}

impl RowCheck<AuthzColumns> for OwnerCheck {
    type Kept = Table<AuthorizationAccount>;

    ghost Passed = { λ first now rows. now.accounts ≡ account_rows rows };

    ghost IsWhole = { λ first rows kept. kept ≡ account_rows rows };

    ghost AreAll = { λ first rows. ⊤ };

    #[tactic(auto, using(crate::proofs::PassedRows::put_more))]
    fn passes(&mut self, row: &AuthorizationRow) -> Result<bool, AllocError> {
        self.accounts.put(account_of(row))?;
        Ok(true)
    }

    fn finish(self, _alloc: Global) -> Result<Option<Table<AuthorizationAccount>>, AllocError> {
        Ok(Some(self.accounts))
    }

    ghost passed_alike = { λ first now rows row other same passed. rw same at passed };

    ghost all_alike = { λ first rows rest row other same all. all };
}

/// Finds the key of each answer, by the accounts of authorizations and the thumbprints of their keys; no row passes whose account is
/// not found.
#[derive(Drop)]
pub(crate) struct AnswerCheck<'a> {
    accounts: &'a Table<AuthorizationAccount>,
    thumbs: &'a Table<AccountThumb>,
    keys: Vec<AnswerKey>,
}

impl<'a> AnswerCheck<'a> {
    /// Before the first row.
    pub(crate) fn new(
        alloc: Global,
        accounts: &'a Table<AuthorizationAccount>,
        thumbs: &'a Table<AccountThumb>,
    ) -> AnswerCheck<'a>
        ensures accounts { result.accounts.now ≡ accounts.now }
        ensures thumbs { result.thumbs.now ≡ thumbs.now }
        ensures keys { result.keys.items ≡ [] }
    {
        AnswerCheck {
            accounts,
            thumbs,
            keys: Vec::new(alloc),
        }
    }

    // The key of a challenge of this authorization, if its account is found.
    fn found_key(&self, authorization: u64, challenge: u64) -> Option<AnswerKey>
        ensures { result ≡ found_key self.now.accounts.now self.now.thumbs.now authorization challenge }
    {
        let of = self.accounts.get(authorization)?;
        let key = self.thumbs.get(of.account)?;
        Some(AnswerKey {
            challenge,
            thumb: key.thumb,
        })
    }

    // The key of this row's answer, if it was answered and its account is found.
    fn row_key(&self, row: &Owned<BareChallenge>) -> Option<AnswerKey>
        ensures { result ≡ row_key self.now.accounts.now self.now.thumbs.now row.now }
    {
        match row.row.answered {
            Some(_) => self.found_key(row.owner, row.row.number),
            None => None,
        }
    }
}

// Pushes a key, if there is one.
fn push_key(keys: &mut Vec<AnswerKey>, key: Option<AnswerKey>) -> Result<(), AllocError>
    ensures { OnOk result (keys.new.items ≡ keys.old.items ++ option_to_list key) }
{
    let Some(key) = key else {
        return Ok(());
    };
    Ok(keys.push(key)?)
}

impl<'a> RowCheck<ChallColumns> for AnswerCheck<'a> {
    type Kept = Vec<AnswerKey>;

    ghost Passed = { λ first now rows. (now.keys.items ≡ row_keys first.accounts.now first.thumbs.now rows)
        × (now.accounts.now ≡ first.accounts.now) × (now.thumbs.now ≡ first.thumbs.now) };

    ghost IsWhole = { λ first rows kept. kept.items ≡ row_keys first.accounts.now first.thumbs.now rows };

    ghost AreAll = { λ first rows. EachOf (HasKey first.accounts.now first.thumbs.now) rows };

    #[tactic(auto, using(store_book::proofs::Steps::each_at, crate::proofs::KeysThere::key_there, crate::proofs::PassedRows::pick_more))]
    fn passes(&mut self, row: &Owned<BareChallenge>) -> Result<bool, AllocError> {
        let key = self.row_key(row);
        if key.is_none() && row.row.answered.is_some() {
            return Ok(false);
        }
        push_key(&mut self.keys, key)?;
        Ok(true)
    }

    fn finish(self, _alloc: Global) -> Result<Option<Vec<AnswerKey>>, AllocError> {
        Ok(Some(self.keys))
    }

    ghost passed_alike = { λ first now rows row other same passed. rw same at passed };

    ghost all_alike = { λ first rows rest row other same all. rw (sym same) at all };
}
