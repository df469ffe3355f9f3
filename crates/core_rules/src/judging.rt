//! Verdicts on signed requests (RFC 8555, 6): their nonce, their key and their target; and what bounds them: numbers and random bytes.
ghost use Rattle.std.specs.Prelude.{◌≡◌, [], drop, option_map, IfOk, ◌+◌, ◌*◌, ◌<◌, ◌≤◌, length, take, MatchResult};
ghost use Rattle.serde_json.specs.View.{view};
ghost use Rattle.core_rules.specs.Needs.{IsJudged};
ghost use Rattle.desk_model.specs.{Payload.object_in, Questions.account_with_key, Effect.swept};
ghost use Rattle.desk_model.specs.{declared.verdict.Verdict.TheVariants.Refused as refused};
ghost use Rattle.desk_model.specs.Rules.{key_verdict, signed_verdict, target_verdict, open_nonce, open_nonce_in};
ghost use Rattle.identifiers.specs.ReadOnce.{spelled_nonce};
ghost use Rattle.model_laws.specs.Ordered.{IsOrdered};
ghost use Rattle.desk_model.specs.Limits.{last_number};

use crate::accounts::unknown_key_verdict;
use crate::fault::CoreFault;
use crate::new_orders::order_verdict;
use crate::payload::Payload;
use crate::targets::{
    account_target, authorization_target, certificate_target, challenge_target, finalize_target,
    key_change_target, new_account_target, order_target, orders_target,
};
use desk_book::{At, Book};
use desk_model::{Jwk, LAST_NUMBER, Refusal, Sequence, Subproblem, Target, Verdict};
use identifiers::ParsedSigned;
use std::alloc::{AllocError, Global};

// A request of the holder of a valid account, by its target (RFC 8555, 7.3 to 7.5).
fn target_verdict(
    alloc: Global,
    at: &At,
    random: &[u8],
    sender: u64,
    payload: Payload,
    signed: &ParsedSigned,
) -> Result<Verdict, CoreFault>
    requires object { option_map (λ v. view v.now) payload.object ≡ object_in payload.text.now }
    requires text { payload.text.now ≡ signed.now.payload }
    ensures { IsJudged at.now.meta.counters random.now result
        (target_verdict at.now (drop 16 random.now) sender payload.entry.text.now signed.now.target) }
{
    match signed.request().target {
        Target::NewAccount => new_account_target(alloc, sender, payload),
        Target::KeyChange => key_change_target(alloc, at, sender, signed.key_change()),
        Target::NewOrder => order_verdict(alloc, at, random, sender, signed.order()),
        Target::Account(number) => account_target(alloc, sender, number, payload),
        Target::Orders(number) => Ok(orders_target(alloc, sender, number, payload.text)),
        Target::Order(number) => Ok(order_target(alloc, at, sender, number, payload.text)),
        Target::Finalize(number) => finalize_target(alloc, at, sender, number, payload),
        Target::Cert(number) => Ok(certificate_target(alloc, at, sender, number, payload.text)),
        Target::Authz(number) => Ok(authorization_target(alloc, at, sender, number, payload)),
        Target::Chall(number) => Ok(challenge_target(alloc, at, sender, number, payload)),
    }
}

// A request that is signed with an accepted key, by the account that has it, which has to be valid (RFC 8555, 6.2).
fn key_verdict(
    alloc: Global,
    at: &At,
    random: &[u8],
    key: &Jwk,
    payload: Payload,
    signed: &ParsedSigned,
) -> Result<Verdict, CoreFault>
    requires object { option_map (λ v. view v.now) payload.object ≡ object_in payload.text.now }
    requires text { payload.text.now ≡ signed.now.payload }
    ensures { IsJudged at.now.meta.counters random.now result
        (key_verdict at.now (drop 16 random.now) key.now payload.entry.text.now signed.now.target (account_with_key at.now key.now)) }
{
    let Some(row) = at.account_with_key(key.canonical()) else {
        return unknown_key_verdict(alloc, at, key, payload, signed.request().target);
    };
    if !row.status.is_valid() {
        return Ok(refused(alloc, Refusal::Unauthorized));
    }
    target_verdict(alloc, at, random, row.number, payload, signed)
}

/// The verdict on a signed request that has passed the test of its nonce, by what its payload says and the tables of a book at
/// a moment. The first 16 random bytes are the fresh nonce's.
///
/// # Errors
///
/// `Full` where a number above 2^62 would be needed, `ShortRandom` where the random bytes are too few for the tokens of
/// a new order, `Memory` where a growth was refused.
pub fn judge_signed(
    alloc: Global,
    at: &At,
    random: &[u8],
    signed: &ParsedSigned,
) -> Result<Verdict, CoreFault>
    ensures { IsJudged at.now.meta.counters random.now result (signed_verdict at.now (drop 16 random.now) signed.now) }
{
    let request = signed.request();
    let Ok(key) = &request.key else {
        return Ok(refused(alloc, Refusal::BadPublicKey));
    };
    let payload = Payload::new(request.payload.as_str(), signed.value());
    key_verdict(alloc, at, random, key, payload, signed)
}

// ---- the nonce (RFC 8555, 6.5)

// The serial of a nonce that is spelled so, if it is open: not past its life, and with these random bytes.
fn open_serial(book: &Book, moment: u64, spelled: Option<(u64, [u8; 16])>) -> Option<u64>
    ensures { IsOrdered book.now → result ≡ open_nonce_in (swept moment book.now) (spelled_nonce spelled) }
{
    let (serial, random) = spelled?;
    let nonce = book.nonce(serial)?;
    if book.meta().policy.lasts(moment, nonce) && nonce.random == random {
        Some(serial)
    } else {
        None
    }
}

/// The serial of the open nonce that a request carries.
pub fn open_nonce(book: &Book, moment: u64, signed: &ParsedSigned) -> Option<u64>
    ensures { IsOrdered book.now → result ≡ open_nonce (swept moment book.now) signed.now.nonce }
{
    open_serial(book, moment, signed.nonce())
}

// ---- refusals as verdicts

/// The request is refused, not by its identifiers.
pub(crate) fn refused(alloc: Global, refusal: Refusal) -> Verdict
    ensures { result ≡ refused refusal [] }
{
    Verdict::Refused {
        refusal,
        subproblems: Sequence::new(Vec::new(alloc)),
    }
}

// The same subproblem, for a verdict of its own.
fn copy_of(subproblem: &Subproblem) -> Result<Subproblem, AllocError>
    ensures { IfOk result (λ s. s ≡ subproblem.now) }
{
    Ok(Subproblem {
        refusal: subproblem.refusal,
        kind: subproblem.kind.clone()?,
        value: subproblem.value.clone()?,
    })
}

// The same subproblems.
fn copies_of(alloc: Global, subproblems: &[Subproblem]) -> Result<Vec<Subproblem>, AllocError>
    ensures { IfOk result (λ v. v.items ≡ subproblems.now) }
{
    let mut copies = Vec::new(alloc);
    for subproblem in subproblems {
        copies.push(copy_of(subproblem)?)?;
    }
    Ok(copies)
}

/// The request is refused, by these identifiers.
pub(crate) fn refused_by(
    alloc: Global,
    refusal: Refusal,
    subproblems: &[Subproblem],
) -> Result<Verdict, AllocError>
    ensures { IfOk result (λ v. v ≡ refused refusal subproblems.now) }
{
    Ok(Verdict::Refused {
        refusal,
        subproblems: Sequence::new(copies_of(alloc, subproblems)?),
    })
}

// ---- the bounds: the greatest number, and the random bytes of a call

/// Whether a number may be given after the last one.
///
/// # Errors
///
/// `Full` where the number would be above 2^62.
pub fn has_room(last: u64) -> Result<(), CoreFault>
    ensures { MatchResult result (λ _. last < last_number) (λ e. (e ≡ CoreFault.Full) × (last_number ≤ last)) }
{
    if last < LAST_NUMBER {
        Ok(())
    } else {
        Err(CoreFault::Full)
    }
}

/// Whether this many numbers may be given after the last one.
pub(crate) fn has_room_for(last: u64, count: usize) -> Result<(), CoreFault>
    ensures { MatchResult result (λ _. last + count ≤ last_number) (λ e. (e ≡ CoreFault.Full) × (last_number < last + count)) }
{
    let count = count as u64;
    if last <= LAST_NUMBER && count <= LAST_NUMBER - last {
        Ok(())
    } else {
        Err(CoreFault::Full)
    }
}

/// Whether the random bytes of a call are enough for a nonce and this many tokens.
pub(crate) fn has_tokens(random: &[u8], count: usize) -> Result<(), CoreFault>
    ensures { MatchResult result (λ _. 16 * (1 + count) ≤ length random.now) (λ e. (e ≡ CoreFault.ShortRandom) × (length random.now < 16 * (1 + count))) }
{
    if random.len() / 16 > count {
        Ok(())
    } else {
        Err(CoreFault::ShortRandom)
    }
}

/// The first 16 random bytes of a call.
///
/// # Errors
///
/// `ShortRandom` where there are fewer than 16.
pub fn first_random(random: &[u8]) -> Result<[u8; 16], CoreFault>
    ensures { MatchResult result (λ r. (r ≡ take 16 random.now) × (16 ≤ length random.now)) (λ e. (e ≡ CoreFault.ShortRandom) × (length random.now < 16)) }
{
    let mut bytes = [0u8; 16];
    if random.len() < 16 {
        return Err(CoreFault::ShortRandom);
    }
    bytes.copy_from_slice(&random[..16]);
    Ok(bytes)
}

/// The first 16 bytes of some that are as many at least.
pub(crate) fn first_piece(random: &[u8]) -> [u8; 16]
    requires { 16 ≤ length random.now }
    ensures { result ≡ take 16 random.now }
{
    let mut bytes = [0u8; 16];
    bytes.copy_from_slice(&random[..16]);
    bytes
}

/// The random bytes behind so many pieces of 16.
pub(crate) fn later_random(random: &[u8], pieces: usize) -> &[u8]
    requires { 16 * pieces ≤ length random.now }
    ensures { result.now ≡ drop (16 * pieces) random.now }
{
    &random[16 * pieces..]
}
