//! Which rows a move touches, what it writes into those of accounts, challenges and authorizations, and which then differ.
ghost use Rattle.std.specs.Prelude.{◌≡◌, map, unwrap_or, IfOk, OnOk, bytes_eq};
ghost use Rattle.desk_model.specs.{Entry.entry_of, Lookup.holds, History.earlier, Authorization.in_time, declared.entry.Entry.TheVariants.Reported as reported};
ghost use Rattle.desk_model.specs.Derived.{authorization_numbered, numbers_of};
ghost use Rattle.desk_model.specs.Effect.{names_order, lists_one, touches_authorization, touches_order, noted_challenge, answered_challenge};
ghost use Rattle.desk_model.specs.Effect.{reported_challenge, row_ends};
ghost use Rattle.desk_model.specs.Account.{changing, rekeying, ends as account_ends};
ghost use Rattle.std.specs.Cmp.Lexicographic.{pointwise};
ghost use Rattle.std.specs.List.{list_any, zip};
ghost use Rattle.desk_model.specs.Change.{is_gained, challenge_differs};

use desk_book::{Book, derived_challenge, has_challenge};
use desk_model::{
    AccountEnd, AccountRow, Answer, AuthorizationEnd, AuthorizationRow, ChallengeRow, EndKind,
    Listed, Move, OrderRow, Outcome, Report, Sequence, Text,
};
use keys::text_thumbprint;
use std::alloc::{AllocError, Global};

// ---- which rows a move touches

/// Whether a move touches an authorization.
pub(crate) fn touches_authorization(motion: &Move, row: &AuthorizationRow) -> bool
    ensures { result ≡ touches_authorization (entry_of motion.now) row.now }
{
    match motion {
        Move::Answered(challenge) => has_challenge(row, *challenge),
        Move::Reported(challenge, _) => has_challenge(row, *challenge),
        Move::AuthorizationEnded(number, _) => *number == row.number,
        Move::AccountEnded(number, _) => *number == row.account,
        _ => false,
    }
}

// Whether a move names the order of a number.
fn names_order(motion: &Move, number: u64) -> bool
    ensures { result ≡ names_order (entry_of motion.now) number }
{
    match motion {
        Move::Finalized(order, _) => *order == number,
        Move::Certified(order, _) => *order == number,
        Move::Failed(order, _) => *order == number,
        _ => false,
    }
}

// Whether a move touches the authorization of a number.
fn touches_number(motion: &Move, book: &Book, number: u64) -> bool
    ensures { result ≡ holds (touches_authorization (entry_of motion.now)) (authorization_numbered number book.now.authorizations) }
{
    match book.authorization(number) {
        Some(row) => touches_authorization(motion, row),
        None => false,
    }
}

// Whether a move touches one of the authorizations that an order lists.
#[tactic(auto, using(std::proofs::lemmas::List::at_drop_all, std::proofs::lemmas::Grind::common_steps, crate::proofs::RowMoves::touched_place, crate::proofs::RowMoves::untouched_place))]
fn lists_touched(motion: &Move, book: &Book, listed: &[Listed]) -> bool
    ensures { result ≡ lists_one (touches_authorization (entry_of motion.now)) book.now.authorizations (numbers_of listed.now) }
{
    for place in listed {
        if touches_number(motion, book, place.authorization) {
            return true;
        }
    }
    false
}

/// Whether a move touches an order: it names it, or touches an authorization that it lists.
pub(crate) fn touches_order(motion: &Move, book: &Book, row: &OrderRow) -> bool
    ensures { result ≡ touches_order (entry_of motion.now) book.now.authorizations row.now }
{
    names_order(motion, row.number) || lists_touched(motion, book, row.listed.as_slice())
}

// ---- what it writes into them

// ---- accounts

/// Notes the contacts of a move in the row of an account.
pub(crate) fn note_contacts(row: &mut AccountRow, motion: &Move) -> Result<(), AllocError>
    ensures { OnOk result (row.new ≡ record row.old { contacts = unwrap_or (changing row.old.number (entry_of motion.now)) row.old.contacts }) }
{
    if let Move::ContactsChanged(number, contacts) = motion {
        if *number == row.number {
            row.contacts = contacts.clone()?;
        }
    }
    Ok(())
}

/// Notes the key of a move in the row of an account.
pub(crate) fn note_key(row: &mut AccountRow, motion: &Move) -> Result<(), AllocError>
    ensures { OnOk result (row.new ≡ record row.old { key = unwrap_or (rekeying row.old.number (entry_of motion.now)) row.old.key }) }
{
    if let Move::KeyChanged(number, key) = motion {
        if *number == row.number {
            row.key = key.clone()?;
        }
    }
    Ok(())
}

/// The end of the account of a number by a move.
pub(crate) fn account_end_by(motion: &Move, moment: u64, number: u64) -> Option<AccountEnd>
    ensures { result ≡ account_ends number (entry_of motion.now) moment }
{
    let Move::AccountEnded(account, ending) = motion else {
        return None;
    };
    (*account == number).then_some(AccountEnd {
        date: moment,
        ending: *ending,
    })
}

// ---- challenges

// The row of a challenge that is answered under a key.
fn answered_challenge(moment: u64, key: &str, row: &ChallengeRow) -> ChallengeRow
    ensures { result ≡ answered_challenge moment key.now row.now }
{
    let mut answered = *row;
    answered.answered = row.answered.or(Some(Answer {
        date: moment,
        thumb: text_thumbprint(key),
    }));
    answered.status = derived_challenge(&answered);
    answered
}

fn reported_challenge(outcome: Outcome, moment: u64, row: &ChallengeRow) -> ChallengeRow
    ensures { result ≡ reported_challenge outcome moment row.now }
{
    let mut reported = *row;
    reported.reported = row.reported.or(Some(Report {
        date: moment,
        outcome,
    }));
    reported.status = derived_challenge(&reported);
    reported
}

// The row of a challenge after a move, whose account has a key.
fn noted_challenge(motion: &Move, moment: u64, key: &str, row: &ChallengeRow) -> ChallengeRow
    ensures { result ≡ noted_challenge (entry_of motion.now) moment key.now row.now }
{
    match motion {
        Move::Answered(number) => {
            if *number == row.number {
                return answered_challenge(moment, key, row);
            }
            *row
        }
        Move::Reported(number, outcome) => {
            if *number == row.number {
                return reported_challenge(*outcome, moment, row);
            }
            *row
        }
        _ => *row,
    }
}

/// The rows of challenges after a move, whose account has a key.
#[tactic(auto, using(std::proofs::lemmas::Grind::common_steps))]
pub(crate) fn noted_challenges(
    alloc: Global,
    motion: &Move,
    moment: u64,
    key: &str,
    rows: &[ChallengeRow],
) -> Result<Sequence<ChallengeRow>, AllocError>
    ensures { IfOk result (λ s. s ≡ map (noted_challenge (entry_of motion.now) moment key.now) rows.now) }
{
    let mut noted = Vec::new(alloc);
    for row in rows {
        noted.push(noted_challenge(motion, moment, key, row))?;
    }
    Ok(Sequence::new(noted))
}

// ---- authorizations

// The end of an authorization by a report, which is bad, on one of its challenges.
fn reported_end(
    challenge: u64,
    outcome: Outcome,
    moment: u64,
    row: &AuthorizationRow,
) -> Option<AuthorizationEnd>
    ensures { result ≡ row_ends row.now (reported challenge outcome) moment }
{
    if outcome.is_good() || !has_challenge(row, challenge) {
        return None;
    }
    Some(AuthorizationEnd {
        date: moment,
        kind: EndKind::Invalid,
    })
}

// How a move ends an authorization, if it does.
fn end_by(motion: &Move, moment: u64, row: &AuthorizationRow) -> Option<AuthorizationEnd>
    ensures { result ≡ row_ends row.now (entry_of motion.now) moment }
{
    let (ended, ending) = match motion {
        Move::Reported(challenge, outcome) => {
            return reported_end(*challenge, *outcome, moment, row);
        }
        Move::AuthorizationEnded(number, ending) => (*number == row.number, *ending),
        Move::AccountEnded(account, ending) => (*account == row.account, *ending),
        _ => return None,
    };
    ended.then_some(AuthorizationEnd {
        date: moment,
        kind: ending.kind(),
    })
}

// An end that comes no later than the authorization expires.
fn in_time(expires: u64, end: Option<AuthorizationEnd>) -> Option<AuthorizationEnd>
    ensures { result ≡ in_time expires end }
{
    let end = end?;
    (end.date <= expires).then_some(end)
}

/// The end of an authorization after a move: the first one stays.
pub(crate) fn end_after(
    motion: &Move,
    moment: u64,
    row: &AuthorizationRow,
) -> Option<AuthorizationEnd>
    ensures { result ≡ earlier row.now.ended (in_time row.now.expires (row_ends row.now (entry_of motion.now) moment)) }
{
    row.ended
        .or(in_time(row.expires, end_by(motion, moment, row)))
}

// ---- which then differ

/// Whether there was no fact and now is one.
pub(crate) fn is_gained<F>(before: &Option<F>, after: &Option<F>) -> bool
    ensures { result ≡ is_gained before.now after.now }
{
    before.is_none() && after.is_some()
}

/// Whether texts are the same, one by one.
pub(crate) fn same_texts(before: &[Text], after: &[Text]) -> bool
    ensures { result ≡ pointwise bytes_eq before.now after.now }
{
    before == after
}

// Whether a challenge has an answer or a report that it had not, or another status.
fn challenge_differs(before: &ChallengeRow, after: &ChallengeRow) -> bool
    ensures { result ≡ challenge_differs before.now after.now }
{
    is_gained(&before.answered, &after.answered)
        || is_gained(&before.reported, &after.reported)
        || before.status != after.status
}

/// Whether one of the challenges of an authorization differs.
pub(crate) fn challenges_differ(before: &[ChallengeRow], after: &[ChallengeRow]) -> bool
    ensures { result ≡ list_any (λ p. challenge_differs p.0 p.1) (zip before.now after.now) }
{
    let (Some((old, before)), Some((new, after))) = (before.split_first(), after.split_first())
    else {
        return false;
    };
    challenge_differs(old, new) || challenges_differ(before, after)
}
