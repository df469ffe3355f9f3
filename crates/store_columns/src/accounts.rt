//! Rows of the table `account`.
ghost use Rattle.std.specs.Prelude.{◌≡◌, [], ◌∷◌, IfOk, Some, refl};
ghost use Rattle.store_columns.specs.{Columns.account_columns, Limits.IsStoredAccount, Spelling.contacts_text};
ghost use Rattle.store_columns.specs.Reading.{IsRead, Unlimited};
ghost use Rattle.serde_json.specs.{Read.read, View.view};

use crate::columns::AccountColumns;
use crate::facts::{Columns, is_compact, read_account_end, read_moment, read_number};
use desk_model::{AccountRow, AccountStatus, Jwk, Sequence, Text, is_same_text};
use json_texts::{lone_text, texts_in, value_of};
use serde_json::Value;
use std::alloc::{AllocError, Global};

// The account with these columns, of which these contacts were read, or `None` where none in its limits has them.
fn read_account(columns: AccountColumns, contacts: Option<Sequence<Text>>) -> Option<AccountRow>
    requires { IsRead contacts_text Unlimited columns.contacts contacts }
    ensures { IsRead account_columns IsStoredAccount columns result }
{
    let number = read_number(columns.num)?;
    let opened = read_moment(columns.opened)?;
    let ended = read_account_end(columns.ended, &columns.end_kind)?;
    let status = AccountStatus::from_text(columns.status.as_str())?;
    let contacts = contacts?;
    let key = Jwk::from_canonical(columns.jwk.into_string())?;
    Some(AccountRow {
        number,
        key,
        contacts,
        opened,
        ended,
        status,
    })
}

impl Columns for AccountColumns {
    type Row = AccountRow;

    ghost write = { account_columns };

    ghost IsStored = { IsStoredAccount };

    fn read(self, alloc: Global) -> Result<Option<AccountRow>, AllocError> {
        let contacts = read_contacts(alloc, self.contacts.as_str())?;
        Ok(read_account(self, contacts))
    }

    ghost alike_itself = { λ row. refl };
}

// ---- the column `contacts`: a compact JSON list of strings

// The contacts that a column spells.
fn read_contacts(alloc: Global, text: &str) -> Result<Option<Sequence<Text>>, AllocError>
    ensures { IfOk result (λ contacts. IsRead contacts_text Unlimited text.now contacts) }
{
    // No contact, and one that needs no escape, are told without a reader.
    if is_same_text(text, "[]") {
        return Ok(Some(Sequence::new(Vec::new(alloc))));
    }
    match lone_text(text) {
        Some(contact) => lone_contact(alloc, contact),
        None => listed_contacts(alloc, text),
    }
}

// The list of one contact.
fn lone_contact(alloc: Global, contact: &str) -> Result<Option<Sequence<Text>>, AllocError>
    ensures { IfOk result (λ contacts. contacts ≡ Some (contact.now ∷ [])) }
{
    let contact = Text::new(String::from_str(alloc, contact)?);
    let mut contacts = Vec::new(alloc);
    contacts.push(contact)?;
    Ok(Some(Sequence::new(contacts)))
}

// The contacts that a text spells, by its value.
#[tactic(auto, using(crate::proofs::ContactTexts::none_of_no_value))]
fn listed_contacts(alloc: Global, text: &str) -> Result<Option<Sequence<Text>>, AllocError>
    ensures { IfOk result (λ contacts. IsRead contacts_text Unlimited text.now contacts) }
{
    match value_of(alloc, text)? {
        Some(value) => contacts_in(alloc, &value, text),
        None => Ok(None),
    }
}

// The contacts that the text of a value spells.
#[tactic(auto, using(crate::proofs::ContactTexts::none_of_loose_text, crate::proofs::ContactTexts::of_value, crate::proofs::StringLists::texts_are_read))]
fn contacts_in(
    alloc: Global,
    value: &Value,
    text: &str,
) -> Result<Option<Sequence<Text>>, AllocError>
    ensures { IfOk result (λ contacts. read text.now ≡ Some (view value.now) → IsRead contacts_text Unlimited text.now contacts) }
{
    if is_compact(alloc, value, text)? {
        texts_in(alloc, value)
    } else {
        Ok(None)
    }
}
