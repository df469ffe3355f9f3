//! What a verdict records, and what it shows.
ghost use Rattle.std.specs.Prelude.{◌≡◌, ◌∷◌, [], ◌<◌, ◌≤◌, ◌+◌, ℕ, List, true, map, IfOk, OnOk, IsSome, IsSomeAnd, Some};
ghost use Rattle.desk_model.specs.Limits.{last_end, last_number};
ghost use Rattle.model_laws.specs.Ordered.{IsOrdered};
ghost use Rattle.desk_model.specs.Decide.{entries_of, verdict_reply};
ghost use Rattle.desk_model.specs.{Document.listed_rows, Entry.entry_of, Legal.wanted_name, Tables.Tables, declared.entry.Entry.Entry as EntryOf};
ghost use Rattle.desk_model.specs.Effect.{effects, swept, has_row};
ghost use Rattle.desk_model.specs.Run.{count_new, count_tokens};
ghost use Rattle.desk_model.specs.Shown.{located_order, made_account, made_order, moved_reply, authorization_reply, certificate_reply, challenge_in};
ghost use Rattle.desk_model.specs.Shown.{client_challenge_in, order_reply, reply_of, shown};
ghost use Rattle.desk_model.specs.declared.entry.Entry.TheVariants.{Opened as opened, Ordered as ordered};
ghost use Rattle.desk_model.specs.declared.verdict.Verdict.TheVariants.{Moves as moves, Orders as orders};
ghost use Rattle.desk_core.specs.{HasTexts.HasTexts, Named.IsNamedAs};
ghost use Rattle.desk_core.specs.There.{NamesRows, IsAmong, IsThere};
ghost use Rattle.core_rules.specs.Needs.{NumbersLeft};
ghost use Rattle.core_changes.specs.Recorded.{GoesOn, IsAt, IsUntouched};
ghost use Rattle.desk_model.specs.Questions.{account_on, authorization_on, challenge_of, order_on, owner_on};
ghost use Rattle.core_changes.specs.Moved.{AreMoved};
ghost use Rattle.core_replies.specs.Shown.{HasMoments};

use core_changes::{MovedRows, Recording};
use core_replies::{
    account_reply, authorization_reply, certificate_reply, challenge_reply, client_challenge_reply,
    key_reply, list_reply, located_account, located_order, order_names, order_reply, refusal_reply,
    taken_reply,
};
use desk_book::{At, Book, challenge_of};
use desk_model::{
    AccountRow, AuthorizationRow, ChallengeRow, DnsName, Jwk, Move, OrderRow, Policy, Reply,
    Sequence, Shows, Text, Verdict, Wanted,
};
use std::alloc::{AllocError, Global};

// Moves rows, and shows what is named.
#[tactic(auto, using(crate::proofs::MovedThere::among_moved, crate::proofs::Acting::where_answered))]
fn act_on_rows(
    alloc: Global,
    book: &Book,
    recording: &mut Recording,
    motion: &Move,
) -> Result<Reply, AllocError>
    requires there { NamesRows (swept recording.old.counters.clock book.now) (moves motion.now) }
    ensures recorded { OnOk result ((m : ℕ) (es : List EntryOf) → IsUntouched m book.now es
        → GoesOn m book.now es (entry_of motion.now ∷ []) recording.old recording.new) }
    ensures reply { IfOk result (λ r. (let T : Tables = effects recording.old.counters.clock (swept recording.old.counters.clock book.now)
        (entry_of motion.now ∷ []) in
        HasTexts T → r ≡ moved_reply T motion.now)) }
{
    let rows = recording.shift(alloc, book, motion)?;
    show_moved(alloc, book, motion, &rows)
}

// Opens an account, and shows it.
fn act_on_account(
    alloc: Global,
    book: &Book,
    recording: &mut Recording,
    key: Jwk,
    contacts: Sequence<Text>,
) -> Result<Reply, AllocError>
    requires { recording.old.counters.accounts < last_number }
    ensures recorded { OnOk result ((m : ℕ) (es : List EntryOf) → GoesOn m book.now es (opened key contacts ∷ []) recording.old recording.new) }
    ensures reply { IfOk result (λ r. (m : ℕ) → IsAt m book.now recording.old.counters → IsOrdered book.now
        → r ≡ made_account (effects m (swept m book.now) (opened key contacts ∷ []))) }
{
    recording.open(key, contacts)?;
    let row = recording.last_account().unwrap();
    located_account(alloc, &book.meta().policy, 201, row)
}

// The name of what is wanted.
fn name_of(wanted: Wanted) -> DnsName
    ensures { result ≡ wanted_name wanted }
{
    match wanted {
        Wanted::New { name, tokens: _ } => name,
        Wanted::Reused {
            name,
            authorization: _,
        } => name,
    }
}

// The names of a new order.
fn names_of(alloc: Global, wanted: Vec<Wanted>) -> Result<Vec<DnsName>, AllocError>
    ensures { IfOk result (λ v. v.items ≡ map wanted_name wanted.items) }
{
    let mut names = Vec::new(alloc);
    for one in wanted {
        names.push(name_of(one))?;
    }
    Ok(names)
}

// The reply with a new order, whose names are those that were wanted.
fn made_order_reply(
    alloc: Global,
    policy: &Policy,
    row: &OrderRow,
    wanted: Vec<Wanted>,
) -> Result<Reply, AllocError>
    ensures { IfOk result (λ r. (T : Tables) → T.meta.policy ≡ policy.now → map (λ a. a.name) (listed_rows T row.now) ≡ map wanted_name wanted.items
        → row.now.expires ≤ last_end → r ≡ located_order 201 T row.now) }
{
    let names = names_of(alloc, wanted)?;
    located_order(alloc, policy, 201, row, &names)
}

// Makes an order, and shows it.
fn act_on_order(
    alloc: Global,
    book: &Book,
    recording: &mut Recording,
    account: u64,
    wanted: Sequence<Wanted>,
) -> Result<Reply, AllocError>
    requires orders { recording.old.counters.orders < last_number }
    requires authorizations { recording.old.counters.authorizations + count_new wanted ≤ last_number }
    requires challenges { recording.old.counters.challenges + count_tokens wanted ≤ last_number }
    requires there { NamesRows (swept recording.old.counters.clock book.now) (orders account wanted) }
    ensures recorded { OnOk result ((m : ℕ) (es : List EntryOf) → IsOrdered book.now → IsUntouched m book.now es
        → GoesOn m book.now es (ordered account wanted ∷ []) recording.old recording.new) }
    ensures reply { IfOk result (λ r. (m : ℕ) → IsAt m book.now recording.old.counters → IsOrdered book.now
        → HasTexts (effects m (swept m book.now) (ordered account wanted ∷ []))
        → r ≡ made_order (effects m (swept m book.now) (ordered account wanted ∷ []))) }
{
    let policy = &book.meta().policy;
    recording.order(alloc, policy, account, wanted.as_slice())?;
    let row = recording.last_order().unwrap();
    made_order_reply(alloc, policy, row, wanted.into_vec())
}

/// What a verdict records, and its reply without a nonce; a refusal has the link to the directory.
pub(crate) fn act(
    alloc: Global,
    book: &Book,
    recording: &mut Recording,
    verdict: Verdict,
) -> Result<Reply, AllocError>
    requires numbers { NumbersLeft recording.old.counters verdict }
    requires there { NamesRows (swept recording.old.counters.clock book.now) verdict }
    ensures recorded { OnOk result ((m : ℕ) (es : List EntryOf) → IsOrdered book.now → IsUntouched m book.now es
        → GoesOn m book.now es (entries_of verdict) recording.old recording.new) }
    ensures reply { IfOk result (λ r. (m : ℕ) → IsAt m book.now recording.old.counters → IsOrdered book.now
        → HasTexts (effects m (swept m book.now) (entries_of verdict))
        → r ≡ verdict_reply true (effects m (swept m book.now) (entries_of verdict)) verdict) }
{
    match verdict {
        Verdict::Refused {
            refusal,
            subproblems,
        } => Ok(refusal_reply(refusal, subproblems, true)),
        Verdict::KeyTaken(account) => taken_reply(alloc, &book.meta().policy, account, true),
        Verdict::Answers(shows) => show(alloc, book, recording.counters.clock.moment(), shows),
        Verdict::Opens(key, contacts) => act_on_account(alloc, book, recording, key, contacts),
        Verdict::Orders(account, wanted) => act_on_order(alloc, book, recording, account, wanted),
        Verdict::Moves(motion) => act_on_rows(alloc, book, recording, &motion),
    }
}

// ---- what is shown, as its rows stand at a moment, or as a move leaves them (RFC 8555, 7)

// ---- rows that are there at a moment

fn account_at<'a>(at: &'a At, number: u64) -> &'a AccountRow
    requires { IsSome (account_on at.now number) }
    ensures { account_on at.now number ≡ Some result.now }
{
    at.account(number).unwrap()
}

fn authorization_at(at: &At, number: u64) -> Result<AuthorizationRow, AllocError>
    requires { IsSome (authorization_on at.now number) }
    ensures { IfOk result (λ a. authorization_on at.now number ≡ Some a) }
{
    let (row, status) = at.authorization(number).unwrap();
    let mut row = row.clone()?;
    row.status = status;
    Ok(row)
}

fn order_at(at: &At, number: u64) -> Result<OrderRow, AllocError>
    requires { IsSome (order_on at.now number) }
    ensures { IfOk result (λ o. order_on at.now number ≡ Some o) }
{
    let (row, status) = at.order(number).unwrap();
    let mut row = row.clone()?;
    row.status = status;
    Ok(row)
}

// The challenge of a number, which is one of the authorization's.
#[tactic(auto, using(desk_book::proofs::SweptRows::challenge_there, crate::proofs::ShownTexts::mapped_some))]
fn challenge_in(row: &AuthorizationRow, number: u64) -> &ChallengeRow
    requires { has_row number row.now ≡ true }
    ensures { challenge_of number row.now ≡ Some result.now }
{
    challenge_of(row, number).unwrap()
}

// ---- one object

fn show_order(alloc: Global, book: &Book, row: &OrderRow) -> Result<Reply, AllocError>
    ensures { IfOk result (λ r. (T : Tables) → IsNamedAs T book.now → row.now.expires ≤ last_end → r ≡ order_reply 200 T row.now) }
{
    let names = order_names(alloc, book, row)?;
    order_reply(alloc, &book.meta().policy, row, &names)
}

// An order that was finalized has its Location (RFC 8555, 7.4).
fn show_finalized_order(alloc: Global, book: &Book, row: &OrderRow) -> Result<Reply, AllocError>
    ensures { IfOk result (λ r. (T : Tables) → IsNamedAs T book.now → row.now.expires ≤ last_end → r ≡ located_order 200 T row.now) }
{
    let names = order_names(alloc, book, row)?;
    located_order(alloc, &book.meta().policy, 200, row, &names)
}

// The certificate of an order that has one.
fn show_certificate(at: &At, number: u64) -> Result<Reply, AllocError>
    requires { IsSomeAnd (order_on at.now number) (λ o. IsSome o.certified) }
    ensures { IfOk result (λ r. r ≡ shown (λ o. certificate_reply o.certified) (order_on at.now number)) }
{
    let (row, _status) = at.order(number).unwrap();
    certificate_reply(row.certified.as_ref().unwrap())
}

#[tactic(auto, using(crate::proofs::ShownChallenges::challenge_text))]
fn show_challenge(
    alloc: Global,
    policy: &Policy,
    number: u64,
    owner: &AuthorizationRow,
) -> Result<Reply, AllocError>
    requires { has_row number owner.now ≡ true }
    ensures { IfOk result (λ r. (T : Tables) → T.meta.policy ≡ policy.now → HasMoments owner.now → r ≡ challenge_in T number owner.now) }
{
    challenge_reply(alloc, policy, challenge_in(owner, number))
}

#[tactic(auto, using(crate::proofs::ShownChallenges::challenge_text))]
fn show_client_challenge(
    alloc: Global,
    policy: &Policy,
    number: u64,
    owner: &AuthorizationRow,
) -> Result<Reply, AllocError>
    requires { has_row number owner.now ≡ true }
    ensures { IfOk result (λ r. (T : Tables) → T.meta.policy ≡ policy.now → HasMoments owner.now → r ≡ client_challenge_in T number owner.now) }
{
    client_challenge_reply(alloc, policy, owner.number, challenge_in(owner, number))
}

// ---- what a verdict shows

// What is shown of an order at a moment.
fn show_order_at(alloc: Global, book: &Book, at: &At, number: u64) -> Result<Reply, AllocError>
    requires { IsSome (order_on at.now number) }
    ensures { IfOk result (λ r. (moment : ℕ) → at.now ≡ swept moment book.now → HasTexts at.now
        → r ≡ shown (order_reply 200 at.now) (order_on at.now number)) }
{
    let row = order_at(at, number)?;
    show_order(alloc, book, &row)
}

// What is shown of an authorization at a moment.
#[tactic(auto, using(model_laws::proofs::Finds::each_found))]
fn show_authorization_at(alloc: Global, at: &At, number: u64) -> Result<Reply, AllocError>
    requires { IsSome (authorization_on at.now number) }
    ensures { IfOk result (λ r. HasTexts at.now → r ≡ shown (authorization_reply at.now) (authorization_on at.now number)) }
{
    let row = authorization_at(at, number)?;
    authorization_reply(alloc, at.policy(), &row)
}

// What is shown of a challenge at a moment.
#[tactic(auto, using(model_laws::proofs::Finds::each_found, model_laws::proofs::Finds::found_passes))]
fn show_challenge_at(alloc: Global, at: &At, number: u64) -> Result<Reply, AllocError>
    requires { IsSome (owner_on at.now number) }
    ensures { IfOk result (λ r. HasTexts at.now → r ≡ shown (challenge_in at.now number) (owner_on at.now number)) }
{
    let (row, _status) = at.owner(number).unwrap();
    show_challenge(alloc, at.policy(), number, row)
}

// The same, shown to its client.
#[tactic(auto, using(model_laws::proofs::Finds::each_found, model_laws::proofs::Finds::found_passes))]
fn show_client_challenge_at(alloc: Global, at: &At, number: u64) -> Result<Reply, AllocError>
    requires { IsSome (owner_on at.now number) }
    ensures { IfOk result (λ r. HasTexts at.now → r ≡ shown (client_challenge_in at.now number) (owner_on at.now number)) }
{
    let (row, _status) = at.owner(number).unwrap();
    show_client_challenge(alloc, at.policy(), number, row)
}

// What is shown of a book at a moment, by its rows then.
fn show_at(alloc: Global, book: &Book, at: &At, shows: Shows) -> Result<Reply, AllocError>
    requires there { IsThere at.now shows }
    ensures { IfOk result (λ r. (moment : ℕ) → at.now ≡ swept moment book.now → HasTexts at.now → r ≡ reply_of at.now shows) }
{
    match shows {
        Shows::List(listing) => list_reply(alloc, at, listing),
        Shows::Account(number) => account_reply(alloc, at.policy(), account_at(at, number)),
        Shows::KnownAccount(number) => {
            located_account(alloc, at.policy(), 200, account_at(at, number))
        }
        Shows::Key(number) => key_reply(alloc, account_at(at, number)),
        Shows::Order(number) => show_order_at(alloc, book, at, number),
        Shows::Certificate(number) => show_certificate(at, number),
        Shows::Authorization(number) => show_authorization_at(alloc, at, number),
        Shows::Challenge(number) => show_challenge_at(alloc, at, number),
        Shows::ClientChallenge(number) => show_client_challenge_at(alloc, at, number),
    }
}

/// What is shown of a book at a moment.
pub(crate) fn show(
    alloc: Global,
    book: &Book,
    moment: u64,
    shows: Shows,
) -> Result<Reply, AllocError>
    requires there { IsThere (swept moment book.now) shows }
    ensures { IfOk result (λ r. HasTexts (swept moment book.now) → r ≡ reply_of (swept moment book.now) shows) }
{
    show_at(alloc, book, &At::new(book, moment), shows)
}

// The object that a move names, as it stands after the move: one of the rows that it touches.
fn show_moved(
    alloc: Global,
    book: &Book,
    motion: &Move,
    rows: &MovedRows,
) -> Result<Reply, AllocError>
    requires among { IsAmong motion.now rows.now.accounts.items rows.now.authorizations.items rows.now.orders.items }
    ensures { IfOk result (λ r. (m : ℕ) → AreMoved m book.now (entry_of motion.now) rows.now.accounts.items rows.now.authorizations.items rows.now.orders.items
        → (let T : Tables = effects m (swept m book.now) (entry_of motion.now ∷ []) in HasTexts T → r ≡ moved_reply T motion.now)) }
{
    let policy = &book.meta().policy;
    match motion {
        Move::ContactsChanged(number, _) => {
            account_reply(alloc, policy, rows.account(*number).unwrap())
        }
        Move::KeyChanged(number, _) => {
            account_reply(alloc, policy, rows.account(*number).unwrap())
        }
        Move::AccountEnded(number, _) => {
            account_reply(alloc, policy, rows.account(*number).unwrap())
        }
        Move::Answered(number) => {
            show_client_challenge(alloc, policy, *number, rows.owner(*number).unwrap())
        }
        Move::Reported(number, _) => {
            show_challenge(alloc, policy, *number, rows.owner(*number).unwrap())
        }
        Move::AuthorizationEnded(number, _) => {
            authorization_reply(alloc, policy, rows.authorization(*number).unwrap())
        }
        Move::Finalized(number, _) => {
            show_finalized_order(alloc, book, rows.order(*number).unwrap())
        }
        Move::Certified(number, _) => show_order(alloc, book, rows.order(*number).unwrap()),
        Move::Failed(number, _) => show_order(alloc, book, rows.order(*number).unwrap()),
    }
}
