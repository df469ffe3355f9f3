//! The documents of the directory, of accounts and of keys, and of what waits for the validator and the signing office (RFC 8555, 7.1.1,
//! 7.1.2; RFC 7638, 3).
ghost use Rattle.std.specs.Prelude.{◌∷◌, [], ◌≡◌, ◌==◌, map, IfOk, OnOk, string_bytes};
ghost use Rattle.serde_json.specs.Data.{string};
ghost use Rattle.core_replies.specs.Shown.{account_members, directory_members, answered, listed_name, order_work_at, order_work_members, work_at, work_members};
ghost use Rattle.std.specs.List.{slice_split};
ghost use Rattle.desk_model.specs.Document.{key_members, bytes_of};
ghost use Rattle.core_replies.specs.Texts.{HasMembers};
ghost use Rattle.desk_model.specs.{Derived.authorization_numbered, Tokens.base64url};

use crate::json_text::{JsonText, ListItem, ShowsObject, write_each, write_list, write_object};
use crate::replies::{url, url_below};
use base64::engine::general_purpose::URL_SAFE_NO_PAD;
use desk_book::{Book, authorization_status, order_status};
use desk_model::{
    AccountRow, AuthorizationRow, ChallengeRow, DatedBytes, Jwk, Listed, OrderRow, Policy, Text,
};
use keys::{expected_text, token_text};
use std::alloc::{AllocError, Global};

// The directory (RFC 8555, 7.1.1).
impl ShowsObject<()> for Policy {
    ghost members = { λ u t. directory_members t };

    fn write_members(&self, text: &mut JsonText, _by: &()) -> Result<(), AllocError> {
        let alloc = text.alloc();
        text.member("keyChange", &url(alloc, self, "/key-change")?)?;
        text.member("newAccount", &url(alloc, self, "/new-account")?)?;
        text.member("newNonce", &url(alloc, self, "/new-nonce")?)?;
        text.member("newOrder", &url(alloc, self, "/new-order")?)
    }
}

// A contact of an account.
impl ListItem<()> for Text {
    ghost values = { λ u contact. string contact ∷ [] };

    fn write_shown(&self, text: &mut JsonText, _by: &()) -> Result<(), AllocError> {
        text.string(self.as_str())
    }
}

// An account (RFC 8555, 7.1.2).
impl ShowsObject<Policy> for AccountRow {
    ghost members = { account_members };

    fn write_members(&self, text: &mut JsonText, by: &Policy) -> Result<(), AllocError> {
        write_list(text, "contact", self.contacts.as_slice(), &())?;
        let alloc = text.alloc();
        let orders = url_below(alloc, by, "/account/", self.number, "/orders")?;
        text.member("orders", &orders)?;
        text.member("status", self.status.as_str())
    }
}

// ---- keys

// The parts of a text between its quotation marks.
fn parts_of(alloc: Global, text: &str) -> Result<Vec<&str>, AllocError>
    ensures { IfOk result (λ v. map (λ p. p.now) v.items ≡ slice_split (λ c. c == 34) text.now) }
{
    text.split('"').collect(alloc)
}

// Writes the members of a canonical key text, whose names and values are every second of its parts.
fn write_parts(text: &mut JsonText, parts: &[&str]) -> Result<(), AllocError>
    ensures { OnOk result (HasMembers text.old text.new (key_members (map (λ p. p.now) parts.now))) }
{
    match parts {
        [_, name, _, value, rest @ ..] => {
            text.member(name, value)?;
            write_parts(text, rest)
        }
        _ => Ok(()),
    }
}

// A key: the object that its canonical text spells.
impl ShowsObject<()> for Jwk {
    ghost members = { λ u key. key_members (slice_split (λ c. c == 34) key) };

    fn write_members(&self, text: &mut JsonText, _by: &()) -> Result<(), AllocError> {
        let parts = parts_of(text.alloc(), self.canonical())?;
        write_parts(text, parts.as_slice())
    }
}

// ---- what waits for the validator and for the signing office

// A challenge that waits for the validator, told its authorization: with what has to be found (RFC 8555, 8.3, 8.4).
impl ShowsObject<AuthorizationRow> for ChallengeRow {
    ghost members = { work_members };

    fn write_members(&self, text: &mut JsonText, by: &AuthorizationRow) -> Result<(), AllocError> {
        let alloc = text.alloc();
        text.number_member("challenge", self.number)?;
        let expected = expected_text(alloc, self.kind, self.token, self.answer_thumb())?;
        text.member("expected", &expected)?;
        text.member("name", by.name.base())?;
        text.member("token", &token_text(alloc, self.token)?)?;
        text.member("type", self.kind.as_str())
    }
}

// A challenge of an authorization that was answered and not yet reported.
impl ListItem<AuthorizationRow> for ChallengeRow {
    ghost values = { answered };

    fn write_shown(&self, text: &mut JsonText, by: &AuthorizationRow) -> Result<(), AllocError> {
        if !self.status.is_processing() {
            return Ok(());
        }
        write_object(text, self, by)
    }
}

// What waits for the validator of an authorization, where it is pending at a moment.
impl ListItem<u64> for AuthorizationRow {
    ghost values = { work_at };

    fn write_shown(&self, text: &mut JsonText, by: &u64) -> Result<(), AllocError> {
        if !authorization_status(*by, self).is_pending() {
            return Ok(());
        }
        write_each(text, self.challenges.as_slice(), self)
    }
}

// The name of a listed authorization.
impl ListItem<Book> for Listed {
    ghost values = { λ T l. listed_name (authorization_numbered l.authorization T.authorizations) };

    fn write_shown(&self, text: &mut JsonText, by: &Book) -> Result<(), AllocError> {
        let Some(row) = by.authorizations().get(self.authorization) else {
            return Ok(());
        };
        let name = row.name.shown(text.alloc())?;
        text.string(&name)
    }
}

// The bytes of the CSR in base64url, none where there is none.
#[tactic(auto, unfolding(desk_model::specs::Tokens::base64url))]
fn csr_text(alloc: Global, finalized: &Option<DatedBytes>) -> Result<String, AllocError>
    ensures { IfOk result (λ t. string_bytes t ≡ base64url (bytes_of finalized.now)) }
{
    match finalized {
        Some(finalized) => URL_SAFE_NO_PAD.encode(alloc, finalized.bytes.as_slice()),
        None => {
            let none: &[u8] = &[];
            URL_SAFE_NO_PAD.encode(alloc, none)
        }
    }
}

// An order that waits for the signing office.
impl ShowsObject<Book> for OrderRow {
    ghost members = { order_work_members };

    fn write_members(&self, text: &mut JsonText, by: &Book) -> Result<(), AllocError> {
        let csr = csr_text(text.alloc(), &self.finalized)?;
        text.member("csr", &csr)?;
        write_list(text, "names", self.listed.as_slice(), by)?;
        text.number_member("order", self.number)
    }
}

// An order that waits for the signing office at a moment.
impl<'a> ListItem<(&'a Book, u64)> for OrderRow {
    ghost values = { λ by o. order_work_at by.1 by.0.now o };

    fn write_shown(&self, text: &mut JsonText, by: &(&'a Book, u64)) -> Result<(), AllocError> {
        let (book, moment) = *by;
        if !order_status(book, moment, self).is_processing() {
            return Ok(());
        }
        write_object(text, self, book)
    }
}
