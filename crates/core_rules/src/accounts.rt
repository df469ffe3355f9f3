//! The rules on accounts, their contacts and the change of their keys (RFC 8555, 7.3, 7.3.5).
ghost use Rattle.std.specs.Prelude.{◌≡◌, ◌==◌, ◌||◌, ◌<◌, ℕ, List, option_map, length, position, IfSome, bytes_eq, IfOk, MatchResult};
ghost use Rattle.serde_json.specs.View.{view};
ghost use Rattle.desk_model.specs.{Payload.object_in, Document.account_url, Lookup.holds, Questions.account_with_key};
ghost use Rattle.core_rules.specs.{Needs.IsJudged, declared.fault.CoreFault.TheVariants.Memory};
ghost use Rattle.desk_model.specs.Rules.{account_verdict, open_account, unknown_key_verdict, has_this_key, key_change_verdict, rekey_verdict};
ghost use Rattle.std.specs.List.{list_any};
ghost use Rattle.desk_model.specs.Contact.{parts_fault, contact_fault, contacts_fault};

use crate::fault::CoreFault;
use crate::judging::{has_room, refused};
use crate::payload::{Payload, new_account};
use desk_book::At;
use desk_model::{
    AccountChange, Ending, Jwk, KeyChange, LONGEST_CONTACT, MOST_CONTACTS, Move, NewAccount,
    Policy, Refusal, Shows, Target, Text, Verdict, is_same_text,
};
use std::alloc::{AllocError, Global};

/// A request of a key without an account: only newAccount opens one (RFC 8555, 6.2, 7.3).
#[tactic(auto, unfolding(desk_model::specs::Verdict::given))]
pub(crate) fn unknown_key_verdict(
    alloc: Global,
    at: &At,
    key: &Jwk,
    payload: Payload,
    target: Target,
) -> Result<Verdict, CoreFault>
    requires { option_map (λ v. view v.now) payload.object ≡ object_in payload.text.now }
    ensures { (random : List ℕ) → IsJudged at.now.meta.counters random result (unknown_key_verdict key.now payload.entry.text.now target) }
{
    match target {
        Target::NewAccount => match new_account(alloc, payload)? {
            Some(asked) => open_account(alloc, at, key, asked),
            None => Ok(refused(alloc, Refusal::Malformed)),
        },
        _ => Ok(refused(alloc, Refusal::AccountDoesNotExist)),
    }
}

// An account is opened, or refused.
#[tactic(auto, unfolding(desk_model::specs::Verdict::check, desk_model::specs::Verdict::unless_fault))]
fn open_account(alloc: Global, at: &At, key: &Jwk, asked: NewAccount) -> Result<Verdict, CoreFault>
    ensures { (random : List ℕ) → IsJudged at.now.meta.counters random result (open_account key.now asked) }
{
    if asked.only_existing {
        return Ok(refused(alloc, Refusal::AccountDoesNotExist));
    }
    if let Some(refusal) = contacts_refusal(asked.contacts.as_slice()) {
        return Ok(refused(alloc, refusal));
    }
    has_room(at.counters().accounts)?;
    Ok(Verdict::Opens(key.clone()?, asked.contacts))
}

/// A request to an account by its own holder: new contacts take the place of the old, unless one of them is refused
/// (RFC 8555, 7.3.2, 7.3.6).
#[tactic(auto, unfolding(desk_model::specs::Verdict::unless_fault))]
pub(crate) fn account_verdict(alloc: Global, number: u64, change: AccountChange) -> Verdict
    ensures { result ≡ account_verdict number change }
{
    match change {
        AccountChange::Read | AccountChange::Update(None) => {
            Verdict::Answers(Shows::Account(number))
        }
        AccountChange::Deactivate => {
            Verdict::Moves(Move::AccountEnded(number, Ending::Deactivated))
        }
        AccountChange::Update(Some(contacts)) => match contacts_refusal(contacts.as_slice()) {
            Some(refusal) => refused(alloc, refusal),
            None => Verdict::Moves(Move::ContactsChanged(number, contacts)),
        },
    }
}

// ---- contacts

// The refusal of a list of contacts, where it has one: too many, or the first that is refused.
fn contacts_refusal(contacts: &[Text]) -> Option<Refusal>
    ensures { result ≡ contacts_fault contacts.now }
{
    if contacts.len() > MOST_CONTACTS {
        return Some(Refusal::InvalidContact);
    }
    for contact in contacts {
        if let Some(refusal) = contact_refusal(contact.as_str().as_bytes()) {
            return Some(refusal);
        }
    }
    None
}

fn contact_refusal(contact: &[u8]) -> Option<Refusal>
    ensures { result ≡ contact_fault contact.now }
{
    if contact.len() > LONGEST_CONTACT {
        return Some(Refusal::InvalidContact);
    }
    match colon_of(contact) {
        Some(colon) => parts_refusal(&contact[..colon], &contact[colon + 1..]),
        None => Some(Refusal::InvalidContact),
    }
}

fn colon_of(contact: &[u8]) -> Option<usize>
    ensures place { result ≡ position (λ b. b == 58) contact.now }
    ensures within { IfSome result (λ n. n < length contact.now) }
{
    contact.iter().position(|byte| *byte == b':')
}

fn parts_refusal(scheme: &[u8], address: &[u8]) -> Option<Refusal>
    ensures { result ≡ parts_fault scheme.now address.now }
{
    if !scheme.eq_ignore_ascii_case(b"mailto") {
        return Some(Refusal::UnsupportedContact);
    }
    if address.is_empty() || has_many_or_fields(address) {
        return Some(Refusal::InvalidContact);
    }
    None
}

// Whether an address holds a header field or a second address, which RFC 8555 does not allow.
fn has_many_or_fields(address: &[u8]) -> bool
    ensures { result ≡ list_any (λ b. (b == 63) || (b == 44)) address.now }
{
    address.contains(&b'?') || address.contains(&b',')
}

// ---- the change of a key

// Whether a text is the URL of the account of a number.
fn is_account_url(
    alloc: Global,
    policy: &Policy,
    number: u64,
    text: &str,
) -> Result<bool, AllocError>
    ensures { IfOk result (λ b. b ≡ bytes_eq text.now (account_url policy.now number)) }
{
    let base = policy.base();
    let url = format!(in alloc; "{base}/account/{number}")?;
    Ok(is_same_text(text, url.as_str()))
}

// Whether the account of a number has this key.
fn has_this_key(at: &At, number: u64, key: &Jwk) -> bool
    ensures { result ≡ has_this_key at.now number key.now }
{
    match at.account(number) {
        Some(row) => is_same_text(row.key.canonical(), key.canonical()),
        None => false,
    }
}

// Whether a key is there, and the account of a number has it.
fn has_old_key(at: &At, number: u64, key: &Option<Jwk>) -> bool
    ensures { result ≡ holds (has_this_key at.now number) key.now }
{
    match key {
        Some(key) => has_this_key(at, number, key),
        None => false,
    }
}

// The account gets the key, unless an account has it.
fn rekey_verdict(at: &At, number: u64, key: Jwk) -> Verdict
    ensures { result ≡ rekey_verdict number key (account_with_key at.now key) }
{
    match at.account_with_key(key.canonical()) {
        Some(holder) => Verdict::KeyTaken(holder.number),
        None => Verdict::Moves(Move::KeyChanged(number, key)),
    }
}

/// A request for another key of a valid account: it names the account and the key that it has.
#[tactic(auto, unfolding(desk_model::specs::Verdict::check, desk_model::specs::Verdict::given))]
pub(crate) fn key_change_verdict(
    alloc: Global,
    at: &At,
    number: u64,
    asked: &KeyChange,
) -> Result<Verdict, CoreFault>
    ensures { MatchResult result (λ v. v ≡ key_change_verdict at.now number asked.now) (λ e. e ≡ Memory) }
{
    if !is_account_url(alloc, at.policy(), number, asked.account.as_str())? {
        return Ok(refused(alloc, Refusal::Malformed));
    }
    if !has_old_key(at, number, &asked.old_key) {
        return Ok(refused(alloc, Refusal::Malformed));
    }
    match &asked.new_key {
        Some(key) => Ok(rekey_verdict(at, number, key.clone()?)),
        None => Ok(refused(alloc, Refusal::BadPublicKey)),
    }
}
