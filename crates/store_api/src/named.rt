//! What an ask names, by numbers and by the names of a new order, and the rows that it names.
ghost use Rattle.std.specs.Prelude.{◌≡◌, ◌∷◌, [], option_to_list, IfOk, Err, IfErr, OnOk, option_map, if◌then◌else◌};
ghost use Rattle.desk_model.specs.Asked.{asks_authorizations, asks_orders, target_authorizations, target_orders};
ghost use Rattle.model_parts.specs.Loaded.{account_numbers, authorization_numbers, challenge_numbers, new_keys, of_key, order_numbers, serials};
ghost use Rattle.model_parts.specs.Loaded.{target_accounts, target_authorization_numbers, target_challenge_numbers, target_order_numbers};
ghost use Rattle.model_parts.specs.Loaded.{authorizations_asked_of, authorizations_for, found_nonces, keys as keys_of};
ghost use Rattle.store_api.specs.Naming.{Names};
ghost use Rattle.std.specs.List.{filter, flat_map};
ghost use Rattle.model_laws.specs.Placing.{puts};
ghost use Rattle.store_api.specs.Finding.{Finds, LacksMemory};
ghost use Rattle.desk_model.specs.Name.{same_name};
ghost use Rattle.identifiers.specs.Parsed.{ask_of};
ghost use Rattle.model_parts.specs.LookUps.{accounts_with_key, authorizations_numbered, owners_of};

use crate::fault::StorageFault;
use crate::links::{LeadsTo, add_each, add_found, add_linked};
use crate::look_ups::{Found, LookUps};
use desk_book::{Row, Table};
use desk_model::{AccountRow, AuthorizationRow, DnsName, Jwk, Nonce, OfficeAsk, Policy, Target};
use identifiers::ParsedAsk;
use model_parts::{AccountsWhere, AuthorizationsWhere, NoncesWhere};
use std::alloc::{AllocError, Global};

/// What an ask names, by number.
#[derive(Clone, Copy)]
pub(crate) struct Named {
    pub(crate) account: Option<u64>,
    pub(crate) order: Option<u64>,
    pub(crate) authorization: Option<u64>,
    pub(crate) challenge: Option<u64>,
    /// Whether the orders of the account are asked for.
    pub(crate) asks_orders: bool,
    /// Whether the account may end, and its authorizations with it.
    pub(crate) asks_authorizations: bool,
}

const NOTHING: Named = Named {
    account: None,
    order: None,
    authorization: None,
    challenge: None,
    asks_orders: false,
    asks_authorizations: false,
};

/// The serial of the nonce that a request carries.
pub(crate) fn serial(ask: &ParsedAsk) -> Option<u64>
    ensures { option_to_list result ≡ serials (ask_of ask.now) }
{
    let ParsedAsk::Signed(request) = ask else {
        return None;
    };
    match request.nonce() {
        Some((serial, _)) => Some(serial),
        None => None,
    }
}

/// The key that a request asks for.
pub(crate) fn new_key<'a>(ask: &'a ParsedAsk) -> Option<&'a Jwk>
    ensures { of_key (option_map (λ k. k.now) result) ≡ new_keys (ask_of ask.now) }
{
    let ParsedAsk::Signed(request) = ask else {
        return None;
    };
    match request.key_change() {
        Some(change) => change.new_key.as_ref(),
        None => None,
    }
}

// What the target of a request names.
fn named_by(target: &Target) -> Named
    ensures { Names (target_accounts target.now) (target_order_numbers target.now) (target_authorization_numbers target.now)
        (target_challenge_numbers target.now) (target_orders target.now) (target_authorizations target.now) result }
{
    match target {
        Target::Account(number) => Named {
            account: Some(*number),
            asks_authorizations: true,
            ..NOTHING
        },
        Target::Orders(number) => Named {
            account: Some(*number),
            asks_orders: true,
            ..NOTHING
        },
        Target::Order(number) | Target::Finalize(number) | Target::Cert(number) => Named {
            order: Some(*number),
            ..NOTHING
        },
        Target::Authz(number) => Named {
            authorization: Some(*number),
            ..NOTHING
        },
        Target::Chall(number) => Named {
            challenge: Some(*number),
            ..NOTHING
        },
        _ => NOTHING,
    }
}

/// What an ask names.
pub(crate) fn named_in(ask: &ParsedAsk) -> Named
    ensures { let a = ask_of ask.now in Names (account_numbers a) (order_numbers a) (authorization_numbers a)
        (challenge_numbers a) (asks_orders a) (asks_authorizations a) result }
{
    match ask {
        ParsedAsk::Signed(request) => named_by(&request.request().target),
        ParsedAsk::Office(OfficeAsk::RevokeAccount(number)) => named_by(&Target::Account(*number)),
        ParsedAsk::Office(OfficeAsk::KeyOf(number)) => Named {
            account: Some(*number),
            ..NOTHING
        },
        ParsedAsk::Office(OfficeAsk::Certify { order, .. }) => named_by(&Target::Order(*order)),
        ParsedAsk::Office(OfficeAsk::FailOrder { order, .. }) => named_by(&Target::Order(*order)),
        ParsedAsk::Office(OfficeAsk::RevokeAuthz(number)) => named_by(&Target::Authz(*number)),
        ParsedAsk::Office(OfficeAsk::Report { challenge, .. }) => {
            named_by(&Target::Chall(*challenge))
        }
        _ => NOTHING,
    }
}

// ---- the authorizations that a new order asks for by their names

// Puts a row into a table, if it has the name.
fn add_one(
    table: &mut Table<AuthorizationRow>,
    row: AuthorizationRow,
    name: &DnsName,
) -> Result<(), AllocError>
    ensures { OnOk result (table.new ≡ puts (λ r. r.number) (filter (λ r. same_name r.name name.now) (row ∷ [])) table.old) }
{
    if row.name.is_same(name) {
        table.put(row)
    } else {
        Ok(())
    }
}

// Puts those of the rows that were found into a table that have the name.
fn add_same(
    table: &mut Table<AuthorizationRow>,
    found: Found<AuthorizationRow>,
    name: &DnsName,
) -> Result<(), StorageFault>
    ensures put { IfOk found (λ rows. OnOk result (table.new ≡ puts (λ r. r.number) (filter (λ r. same_name r.name name.now) rows.items) table.old)) }
    ensures lacks { IfOk found (λ rows. IfErr result LacksMemory) }
    ensures fails { IfErr found (λ fault. result ≡ Err fault) }
{
    for row in found? {
        add_one(table, row, name)?;
    }
    Ok(())
}

// Puts the authorizations of the account of a number for a name into a table.
fn add_for<S: LookUps>(
    alloc: Global,
    source: &mut S,
    authorizations: &mut Table<AuthorizationRow>,
    account: u64,
    name: &DnsName,
) -> Result<(), StorageFault>
    ensures { Finds S.sight source.old source.new result (λ T.
        authorizations.new ≡ puts (λ r. r.number) (authorizations_for T account name.now) authorizations.old) }
{
    add_same(
        authorizations,
        source.find_authorizations(alloc, AuthorizationsWhere::Named(account, name.base())),
        name,
    )
}

// Puts the authorizations of the account of a number for these names into a table.
fn add_named<S: LookUps>(
    alloc: Global,
    source: &mut S,
    authorizations: &mut Table<AuthorizationRow>,
    account: u64,
    names: &[DnsName],
) -> Result<(), StorageFault>
    ensures { Finds S.sight source.old source.new result (λ T.
        authorizations.new ≡ puts (λ r. r.number) (flat_map (authorizations_for T account) names.now) authorizations.old) }
{
    for name in names {
        add_for(alloc, source, authorizations, account, name)?;
    }
    Ok(())
}

// Puts the authorizations of these accounts for these names into a table.
fn add_each_named<S: LookUps>(
    alloc: Global,
    source: &mut S,
    authorizations: &mut Table<AuthorizationRow>,
    names: &[DnsName],
    accounts: &Table<AccountRow>,
) -> Result<(), StorageFault>
    ensures { Finds S.sight source.old source.new result (λ T. authorizations.new ≡ puts (λ r. r.number)
        (flat_map (λ x. flat_map (authorizations_for T x.number) names.now) accounts.now) authorizations.old) }
{
    for account in accounts.iter() {
        add_named(alloc, source, authorizations, account.number, names)?;
    }
    Ok(())
}

/// Puts the authorizations of these accounts that a new order asks for into a table; no names are asked for by another.
pub(crate) fn add_asked_names<S: LookUps>(
    alloc: Global,
    source: &mut S,
    authorizations: &mut Table<AuthorizationRow>,
    names: Option<&[DnsName]>,
    accounts: &Table<AccountRow>,
) -> Result<(), StorageFault>
    ensures { Finds S.sight source.old source.new result (λ T.
        authorizations.new ≡ puts (λ r. r.number) (authorizations_asked_of T (option_map (λ v. v.now) names.entry) accounts.now) authorizations.old) }
{
    match names {
        Some(names) => add_each_named(alloc, source, authorizations, names, accounts),
        None => Ok(()),
    }
}

// ---- the rows that an ask names

/// Puts the nonces that are touched into a table: the one that is carried, and those past their life.
pub(crate) fn add_nonces<S: LookUps>(
    alloc: Global,
    source: &mut S,
    nonces: &mut Table<Nonce>,
    policy: &Policy,
    moment: u64,
    ask: &ParsedAsk,
) -> Result<(), StorageFault>
    ensures { Finds S.sight source.old source.new result (λ T. policy.now ≡ T.meta.policy
        → nonces.new ≡ puts (λ x. x.serial) (found_nonces T moment (ask_of ask.now)) nonces.old) }
{
    add_each(alloc, source, nonces, serial(ask).as_slice())?;
    add_found(
        nonces,
        source.find_nonces(
            alloc,
            NoncesWhere::IssuedBefore(policy.first_lasting(moment)),
        ),
    )
}

/// Puts the account with the request's key into a table.
pub(crate) fn add_keyed<S: LookUps>(
    alloc: Global,
    source: &mut S,
    accounts: &mut Table<AccountRow>,
    ask: &ParsedAsk,
) -> Result<(), StorageFault>
    ensures { Finds S.sight source.old source.new result (λ T.
        accounts.new ≡ puts (λ x. x.number) (flat_map (accounts_with_key T) (keys_of (ask_of ask.now))) accounts.old) }
{
    match ask {
        ParsedAsk::Signed(request) => match &request.request().key {
            Ok(key) => add_found(
                accounts,
                source.find_accounts(alloc, AccountsWhere::Key(key)),
            ),
            Err(_) => Ok(()),
        },
        _ => Ok(()),
    }
}

/// Puts the account that has the key that a request asks for into a table.
pub(crate) fn add_new_keyed<S: LookUps>(
    alloc: Global,
    source: &mut S,
    accounts: &mut Table<AccountRow>,
    ask: &ParsedAsk,
) -> Result<(), StorageFault>
    ensures { Finds S.sight source.old source.new result (λ T.
        accounts.new ≡ puts (λ x. x.number) (flat_map (accounts_with_key T) (new_keys (ask_of ask.now))) accounts.old) }
{
    match new_key(ask) {
        Some(key) => add_found(
            accounts,
            source.find_accounts(alloc, AccountsWhere::Key(key)),
        ),
        None => Ok(()),
    }
}

/// Puts the authorization of a challenge into a table, where one is named.
pub(crate) fn add_owner<S: LookUps>(
    alloc: Global,
    source: &mut S,
    authorizations: &mut Table<AuthorizationRow>,
    challenge: Option<u64>,
) -> Result<(), StorageFault>
    ensures { Finds S.sight source.old source.new result (λ T. authorizations.new ≡ puts (λ r. r.number)
        (flat_map (λ c. flat_map (authorizations_numbered T) (owners_of T c)) (option_to_list challenge)) authorizations.old) }
{
    match challenge {
        Some(number) => add_found(
            authorizations,
            source.authorizations_with_challenge(alloc, number),
        ),
        None => Ok(()),
    }
}

/// Puts the rows to which the rows of a table lead into another, where they are asked for.
pub(crate) fn add_asked<S: LookUps, Q: Row + Drop + LeadsTo<R>, R: Row + Drop>(
    alloc: Global,
    source: &mut S,
    table: &mut Table<R>,
    others: &Table<Q>,
    asked: bool,
) -> Result<(), StorageFault>
    ensures { Finds S.sight source.old source.new result (λ T.
        table.new ≡ puts R.number (if asked then flat_map (Q.rows_of T) others.now else []) table.old) }
{
    if asked {
        add_linked(alloc, source, table, others)
    } else {
        Ok(())
    }
}
