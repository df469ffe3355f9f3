//! The rules on new orders (RFC 8555, 7.4).
ghost use Rattle.std.specs.Prelude.{◌≡◌, ◌+◌, ◌*◌, ◌<◌, ◌≤◌, ◌⊎◌, length, drop, map, sum_by, IfOk, MatchResult};
ghost use Rattle.core_rules.specs.Needs.{IsJudged};
ghost use Rattle.desk_model.specs.{Authorization.kinds_of, Limits.last_number, declared.verdict.Verdict.TheVariants.Orders as orders};
ghost use Rattle.core_rules.specs.Making.{drawn_for, made_for, served_name, wanted_for};
ghost use Rattle.core_rules.specs.OrderVerdicts.{order_verdict};
ghost use Rattle.desk_model.specs.Rules.{pieces, wanted};

use crate::fault::CoreFault;
use crate::judging::{
    first_piece, has_room, has_room_for, has_tokens, later_random, refused, refused_by,
};
use desk_book::At;
use desk_model::{Counters, DnsName, Refusal, Sequence, Verdict, Wanted};
use identifiers::AskedOrder;
use std::alloc::{AllocError, Global};

// A name of a new order, with the authorization that serves it, if one does.
#[derive(Drop)]
struct ServedName {
    name: DnsName,
    authorization: Option<u64>,
}

// The names of an order of the account, each with the authorization that serves it.
fn served_names(
    alloc: Global,
    at: &At,
    account: u64,
    names: &[DnsName],
) -> Result<Vec<ServedName>, AllocError>
    ensures { IfOk result (λ v. v.items ≡ map (served_name at.now account) names.now) }
{
    let mut served = Vec::new(alloc);
    for name in names {
        let authorization = at.serving(account, name);
        let name = name.clone()?;
        served.push(ServedName {
            name,
            authorization,
        })?;
    }
    Ok(served)
}

// How many authorizations an order makes for a name, and how many challenges they have, each with a token.
fn made_for(served: &ServedName) -> (usize, usize)
    ensures made { result.0 ≡ made_for served.now }
    ensures drawn { result.1 ≡ drawn_for served.now }
{
    match served.authorization {
        Some(_) => (0, 0),
        None => (1, served.name.kinds().len()),
    }
}

// How many authorizations an order makes for some names, and how many tokens it takes for them.
fn count_made(served: &[ServedName]) -> (usize, usize)
    ensures made { result.0 ≡ sum_by made_for served.now }
    ensures drawn { result.1 ≡ sum_by drawn_for served.now }
{
    let mut made = 0;
    let mut drawn = 0;
    for one in served {
        let (authorizations, challenges) = made_for(one);
        made += authorizations;
        drawn += challenges;
    }
    (made, drawn)
}

// The tokens of a name, one for each of its challenges, taken from the front of the random bytes.
fn tokens_of(alloc: Global, name: &DnsName, random: &[u8]) -> Result<Vec<[u8; 16]>, AllocError>
    requires { 16 * length (kinds_of name.now) ≤ length random.now }
    ensures { IfOk result (λ v. v.items ≡ pieces (length (kinds_of name.now)) random.now) }
{
    let mut tokens = Vec::new(alloc);
    for place in 0..name.kinds().len() {
        tokens.push(first_piece(later_random(random, place)))?;
    }
    Ok(tokens)
}

// Each name with the authorization that it gets, the tokens taken in turn.
fn wanted(alloc: Global, served: Vec<ServedName>, random: &[u8]) -> Result<Vec<Wanted>, AllocError>
    requires { 16 * sum_by drawn_for served.items ≤ length random.now }
    ensures { IfOk result (λ v. v.items ≡ wanted_for served.items random.now) }
{
    let mut found = Vec::new(alloc);
    let mut rest = random;
    for one in served {
        let ServedName {
            name,
            authorization,
        } = one;
        if let Some(authorization) = authorization {
            found.push(Wanted::Reused {
                name,
                authorization,
            })?;
            continue;
        }
        let count = name.kinds().len();
        let tokens = Sequence::new(tokens_of(alloc, &name, rest)?);
        rest = later_random(rest, count);
        found.push(Wanted::New { name, tokens })?;
    }
    Ok(found)
}

// Whether an order may be made with this many authorizations and challenges.
fn has_numbers(
    counters: Counters,
    authorizations: usize,
    challenges: usize,
) -> Result<(), CoreFault>
    ensures { MatchResult result
        (λ _. (counters.orders < last_number) × (counters.authorizations + authorizations ≤ last_number) × (counters.challenges + challenges ≤ last_number))
        (λ e. (e ≡ CoreFault.Full) × ((last_number ≤ counters.orders)
        ⊎ ((last_number < counters.authorizations + authorizations) ⊎ (last_number < counters.challenges + challenges)))) }
{
    has_room(counters.orders)?;
    has_room_for(counters.authorizations, authorizations)?;
    has_room_for(counters.challenges, challenges)
}

// An order for these names, each with the authorization that serves, or a new one.
fn order_for(
    alloc: Global,
    at: &At,
    random: &[u8],
    account: u64,
    names: &[DnsName],
) -> Result<Verdict, CoreFault>
    ensures { IsJudged at.now.meta.counters random.now result (orders account (wanted at.now account names.now (drop 16 random.now))) }
{
    let counters = at.counters();
    let served = served_names(alloc, at, account, names)?;
    let (made, drawn) = count_made(&served);
    has_numbers(counters, made, drawn)?;
    has_tokens(random, drawn)?;
    let wanted = wanted(alloc, served, later_random(random, 1))?;
    Ok(Verdict::Orders(account, Sequence::new(wanted)))
}

/// The verdict on what a newOrder request of a valid account asks for: refused by the first faulty identifier, with all of them
/// listed, or an order for its names.
pub(crate) fn order_verdict(
    alloc: Global,
    at: &At,
    random: &[u8],
    account: u64,
    order: &AskedOrder,
) -> Result<Verdict, CoreFault>
    ensures { IsJudged at.now.meta.counters random.now result (order_verdict at.now (drop 16 random.now) account order.now) }
{
    match order {
        AskedOrder::Malformed => Ok(refused(alloc, Refusal::Malformed)),
        AskedOrder::Faulty {
            refusal,
            subproblems,
        } => Ok(refused_by(alloc, *refusal, subproblems.as_slice())?),
        AskedOrder::Names(names) => order_for(alloc, at, random, account, names.as_slice()),
    }
}
