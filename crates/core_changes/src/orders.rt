//! The row of an order: as it is made with what it brings, the dates that moves note in it, and what makes it differ.
ghost use Rattle.std.specs.Prelude.{◌≡◌, ◌<◌, ◌≤◌, ◌+◌, ◌^◌, ◌++◌, if◌then◌else◌, None, Some, IfOk, OnOk, map, length};
ghost use Rattle.desk_model.specs.{Change.order_differs, Entry.entry_of, History.earlier, Limits.last_number, Tables.listed_from};
ghost use Rattle.desk_model.specs.Effect.{noted_order, fresh_challenge};
ghost use Rattle.desk_model.specs.Run.{count_new, count_tokens};
ghost use Rattle.core_changes.specs.Made.{made_order, made_row, made_rows};
ghost use Rattle.desk_model.specs.Authorization.{challenges_from, count_challenges, kinds_of, made_for};
ghost use Rattle.desk_model.specs.Order.{listed_by, made_status};

use crate::noted::is_gained;
use desk_book::derived_authorization;
use desk_model::{
    AuthorizationRow, AuthzStatus, ChallengeRow, ChallengeStatus, Counters, DatedBytes,
    DatedProblem, DnsName, Kind, Listed, Move, OrderProblem, OrderRow, OrderStatus, Policy,
    Sequence, Wanted,
};
use std::alloc::{AllocError, Global};

/// The row of the next order; the authorizations that are made with it are numbered from the first.
pub(crate) fn made_order(
    alloc: Global,
    policy: &Policy,
    counters: &Counters,
    account: u64,
    wanted: &[Wanted],
    first: u64,
) -> Result<OrderRow, AllocError>
    requires orders { counters.now.orders < last_number }
    requires numbers { first + count_new wanted.now ≤ last_number + 1 }
    ensures { IfOk result (λ o. o ≡ made_order policy.now counters.now account wanted.now first) }
{
    let moment = counters.clock.moment();
    let mut listed = Vec::new(alloc);
    push_places(&mut listed, wanted, 1, first)?;
    Ok(OrderRow {
        number: counters.orders + 1,
        account,
        made: moment,
        expires: moment + policy.order_life(),
        listed: Sequence::new(listed),
        finalized: None,
        certified: None,
        failed: None,
        status: made_status(wanted),
    })
}

// Notes bytes of a date, where they concern a row that has none.
fn note_bytes(
    noted: &mut Option<DatedBytes>,
    concerned: bool,
    date: u64,
    bytes: &Sequence<u8>,
) -> Result<(), AllocError>
    ensures { OnOk result (noted.new ≡ earlier noted.old (if concerned then Some (record { date = date; bytes = bytes.now }) else None)) }
{
    if concerned && noted.is_none() {
        let bytes = bytes.clone()?;
        *noted = Some(DatedBytes { date, bytes });
    }
    Ok(())
}

// Notes a problem of a date, where it concerns a row that has none.
fn note_problem(
    noted: &mut Option<DatedProblem>,
    concerned: bool,
    date: u64,
    problem: &OrderProblem,
) -> Result<(), AllocError>
    ensures { OnOk result (noted.new ≡ earlier noted.old (if concerned then Some (record { date = date; problem = problem.now }) else None)) }
{
    if concerned && noted.is_none() {
        let problem = problem.clone()?;
        *noted = Some(DatedProblem { date, problem });
    }
    Ok(())
}

/// Notes a move in the dated columns of an order: what came first stays.
pub(crate) fn note_dates(row: &mut OrderRow, motion: &Move, moment: u64) -> Result<(), AllocError>
    ensures { OnOk result (row.new ≡ noted_order (entry_of motion.now) moment row.old) }
{
    let number = row.number;
    match motion {
        Move::Finalized(order, csr) => {
            note_bytes(&mut row.finalized, *order == number, moment, csr)
        }
        Move::Certified(order, certificate) => {
            note_bytes(&mut row.certified, *order == number, moment, certificate)
        }
        Move::Failed(order, problem) => {
            note_problem(&mut row.failed, *order == number, moment, problem)
        }
        _ => Ok(()),
    }
}

/// Whether a move gave an order a date or another status.
pub(crate) fn order_differs(before: &OrderRow, after: &OrderRow) -> bool
    ensures { result ≡ order_differs before.now after.now }
{
    is_gained(&before.finalized, &after.finalized)
        || is_gained(&before.certified, &after.certified)
        || is_gained(&before.failed, &after.failed)
        || before.status != after.status
}

// ---- what a new order brings: authorizations with their challenges (RFC 8555, 7.1.3 to 7.1.5)

/// What the authorizations of one order have in common.
#[derive(Clone, Copy)]
pub(crate) struct Making {
    pub(crate) account: u64,
    pub(crate) date: u64,
    pub(crate) expires: u64,
}

fn new_challenge(number: u64, kind: Kind, token: [u8; 16]) -> ChallengeRow
    ensures { result ≡ fresh_challenge (record { number = number; kind = kind; token = token }) }
{
    ChallengeRow {
        number,
        kind,
        token,
        answered: None,
        reported: None,
        status: ChallengeStatus::Pending,
    }
}

// Puts challenges of these types with these tokens, numbered from here, at the end of a list.
fn push_challenges(
    rows: &mut Vec<ChallengeRow>,
    kinds: &[Kind],
    tokens: &[[u8; 16]],
    number: u64,
) -> Result<(), AllocError>
    requires { number + length kinds.now < 2 ^ 64 }
    ensures { OnOk result (rows.new.items ≡ rows.old.items ++ map fresh_challenge (challenges_from number kinds.now tokens.now)) }
{
    let (Some((kind, kinds)), Some((token, tokens))) = (kinds.split_first(), tokens.split_first())
    else {
        return Ok(());
    };
    rows.push(new_challenge(number, *kind, *token))?;
    push_challenges(rows, kinds, tokens, number + 1)
}

// The challenges of a name with these tokens, numbered from here.
fn new_challenges(
    alloc: Global,
    name: &DnsName,
    tokens: &[[u8; 16]],
    number: u64,
) -> Result<Sequence<ChallengeRow>, AllocError>
    requires { number ≤ last_number + 1 }
    ensures { IfOk result (λ rows. rows ≡ map fresh_challenge (challenges_from number (kinds_of name.now) tokens.now)) }
{
    let mut rows = Vec::new(alloc);
    push_challenges(&mut rows, name.kinds(), tokens, number)?;
    Ok(Sequence::new(rows))
}

// The authorization for a name, with its challenges numbered from here.
fn new_authorization(
    alloc: Global,
    making: Making,
    name: &DnsName,
    tokens: &[[u8; 16]],
    number: u64,
    challenge: u64,
) -> Result<AuthorizationRow, AllocError>
    requires { challenge ≤ last_number + 1 }
    ensures { IfOk result (λ r. r ≡ made_row making.date (record {
      number = number;
      account = making.account;
      name = name.now;
      made = making.date;
      expires = making.expires;
      challenges = challenges_from challenge (kinds_of name.now) tokens.now;
    })) }
{
    let mut row = AuthorizationRow {
        number,
        account: making.account,
        name: name.clone()?,
        made: making.date,
        expires: making.expires,
        ended: None,
        challenges: new_challenges(alloc, name, tokens, challenge)?,
        status: AuthzStatus::Pending,
    };
    row.status = derived_authorization(making.date, &row);
    Ok(row)
}

/// Puts the authorizations that are made for some names, numbered from here, at the end of a list, and gives the number of
/// the challenge that comes next.
pub(crate) fn push_authorizations(
    alloc: Global,
    rows: &mut Vec<AuthorizationRow>,
    making: Making,
    wanted: &[Wanted],
    number: u64,
    challenge: u64,
) -> Result<u64, AllocError>
    requires numbers { number + count_new wanted.now ≤ last_number + 1 }
    requires challenges { challenge + count_tokens wanted.now ≤ last_number + 1 }
    ensures rows { OnOk result (rows.new.items ≡ rows.old.items
        ++ made_rows making.date (made_for making.account making.date making.expires wanted.now number challenge)) }
    ensures next { IfOk result (λ n. n ≡ challenge + count_challenges (made_for making.account making.date making.expires wanted.now number challenge)) }
{
    let Some((first, rest)) = wanted.split_first() else {
        return Ok(challenge);
    };
    let Wanted::New { name, tokens } = first else {
        return push_authorizations(alloc, rows, making, rest, number, challenge);
    };
    let row = new_authorization(alloc, making, name, tokens.as_slice(), number, challenge)?;
    let next = challenge + row.challenges.as_slice().len() as u64;
    rows.push(row)?;
    push_authorizations(alloc, rows, making, rest, number + 1, next)
}

// Puts the places of the authorizations that some names get, from this one on, at the end of a list; those that are made are
// numbered from here.
fn push_places(
    listed: &mut Vec<Listed>,
    wanted: &[Wanted],
    place: u64,
    number: u64,
) -> Result<(), AllocError>
    requires places { place + length wanted.now < 2 ^ 64 }
    requires numbers { number + count_new wanted.now ≤ last_number + 1 }
    ensures { OnOk result (listed.new.items ≡ listed.old.items ++ listed_from place (listed_by wanted.now number)) }
{
    let Some((first, rest)) = wanted.split_first() else {
        return Ok(());
    };
    match first {
        Wanted::New { name: _, tokens: _ } => {
            listed.push(Listed {
                place,
                authorization: number,
            })?;
            push_places(listed, rest, place + 1, number + 1)
        }
        Wanted::Reused {
            name: _,
            authorization,
        } => {
            listed.push(Listed {
                place,
                authorization: *authorization,
            })?;
            push_places(listed, rest, place + 1, number)
        }
    }
}

// The status of a new order: ready where each of its names uses an authorization again.
fn made_status(wanted: &[Wanted]) -> OrderStatus
    ensures { result ≡ made_status wanted.now }
{
    let Some((first, rest)) = wanted.split_first() else {
        return OrderStatus::Ready;
    };
    match first {
        Wanted::New { name: _, tokens: _ } => OrderStatus::Pending,
        Wanted::Reused {
            name: _,
            authorization: _,
        } => made_status(rest),
    }
}
