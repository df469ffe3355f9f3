//! The decision on a call: what changes in the book, and what is answered.
ghost use Rattle.std.specs.Prelude.{◌≡◌, ◌<◌, ◌≤◌, ◌+◌, ◌++◌, ◌∷◌, [], ℕ, List, true, false, length, take, drop, IfOk, IfErr, MatchResult, Ok, OnOk};
ghost use Rattle.desk_model.specs.Decide.{entries_of, nonce_entries, verdict_reply};
ghost use Rattle.desk_model.specs.Effect.{effects, swept};
ghost use Rattle.desk_model.specs.Limits.{last_moment, last_number};
ghost use Rattle.desk_model.specs.Rules.{office_verdict, open_nonce, signed_verdict as verdict_of};
ghost use Rattle.model_laws.specs.Ordered.{IsOrdered};
ghost use Rattle.desk_model.specs.{Change.recorded_changes, Entry.History, Legal.Legal, Tables.picture, Tokens.nonce_text};
ghost use Rattle.core_rules.specs.declared.fault.CoreFault.TheVariants.{Memory};
ghost use Rattle.desk_model.specs.Shown.{fresh_nonce, with_nonce};
ghost use Rattle.desk_model.specs.declared.entry.Entry.TheVariants.{Issued as issued_entry, Spent as spent_entry};
ghost use Rattle.desk_model.specs.declared.entry.Entry.{Entry as EntryOf};
ghost use Rattle.desk_core.specs.{HasTexts.HasTexts, Room.IsIssueFault, There.NamesRows};
ghost use Rattle.desk_core.specs.Decided.{IsDecision, IsFaultOf};
ghost use Rattle.identifiers.specs.Parsed.{ask_of};
ghost use Rattle.model_parts.specs.IsEnough.{IsEnoughFor};
ghost use Rattle.core_rules.specs.Needs.{IsJudged, NumbersLeft};
ghost use Rattle.desk_core.specs.Outcomes.{IsAskFault, IsPassedFault, IsShort, IsSignedFault, MeetsAsk, MeetsSigned, Passes, Settles};
ghost use Rattle.core_changes.specs.Recorded.{GoesOn, IsAt, IsRecorded, IsUntouched};

use crate::acts::{act, show};
use core_changes::Recording;
use core_replies::{nonce_reply, refusal_reply, taken_reply, with_nonce};
use core_rules::{CoreFault, first_random, has_room, judge_office, judge_signed, open_nonce};
use desk_book::{At, Book};
use desk_model::{Change, OfficeAsk, Refusal, Reply, Sequence, Verdict};
use identifiers::{ParsedAsk, ParsedCall, ParsedSigned};
use std::alloc::{AllocError, Global};

/// What a call does: the changes that it makes, none where nothing is recorded, and the reply.
#[derive(Drop)]
pub struct Decision {
    /// In their order: the sweep's, then those of each entry, and the meta row.
    pub changes: Vec<Change>,
    /// What is given once the changes are made.
    pub reply: Reply,
}

// The random bytes of the nonce that a call issues.
fn fresh_random(book: &Book, random: &[u8]) -> Result<[u8; 16], CoreFault>
    ensures { MatchResult result
        (λ r. (r ≡ take 16 random.now) × (book.now.meta.counters.nonces < last_number) × (16 ≤ length random.now))
        (λ e. IsIssueFault book.now random.now e) }
{
    has_room(book.meta().counters.nonces)?;
    first_random(random)
}

// What a recording gives in the end, with the reply.
fn decision_of(book: &Book, recording: Recording, reply: Reply) -> Result<Decision, CoreFault>
    ensures changes { IfOk result (λ o. (m : ℕ) (e : EntryOf) (es : List EntryOf)
        → IsRecorded m book.now (e ∷ es) recording.changes.items recording.counters → o.changes.items ≡ recorded_changes m book.now (e ∷ es)) }
    ensures reply { IfOk result (λ o. o.reply ≡ reply) }
    ensures fault { IfErr result (λ e. e ≡ Memory) }
{
    let changes = recording.finish(&book.meta().policy)?;
    Ok(Decision { changes, reply })
}

// Issues a nonce with these random bytes and nothing else, with a reply.
fn issue(
    alloc: Global,
    book: &Book,
    moment: u64,
    random: [u8; 16],
    reply: Reply,
) -> Result<Decision, CoreFault>
    requires moment { moment ≤ last_moment }
    requires nonces { book.now.meta.counters.nonces < last_number }
    ensures changes { IfOk result (λ o. o.changes.items ≡ recorded_changes moment book.now (issued_entry random ∷ [])) }
    ensures reply { IfOk result (λ o. o.reply ≡ reply) }
    ensures fault { IfErr result (λ e. e ≡ Memory) }
{
    let mut recording = Recording::begin(alloc, book, moment)?;
    recording.issue(random)?;
    decision_of(book, recording, reply)
}

// Issues a nonce and nothing else, with this reply.
#[tactic(auto, using(core_replies::proofs::Results::ok_so))]
fn issued(
    alloc: Global,
    book: &Book,
    moment: u64,
    random: &[u8],
    reply: Reply,
) -> Result<Decision, CoreFault>
    requires { moment ≤ last_moment }
    ensures changes { IfOk result (λ o. o.changes.items ≡ recorded_changes moment book.now (issued_entry (take 16 random.now) ∷ [])) }
    ensures reply { IfOk result (λ o. o.reply ≡ with_nonce (fresh_nonce book.now random.now) reply) }
    ensures room { IfOk result (λ _. (book.now.meta.counters.nonces < last_number) × (16 ≤ length random.now)) }
    ensures fault { IfErr result (λ e. IsIssueFault book.now random.now e) }
{
    let bytes = fresh_random(book, random)?;
    let serial = book.meta().counters.nonces + 1;
    let reply = with_nonce(alloc, serial, bytes, reply)?;
    issue(alloc, book, moment, bytes, reply)
}

// Begins what a signed request records: its nonce is spent, and one is issued, whose random bytes it gives.
fn begin_signed(
    alloc: Global,
    book: &Book,
    moment: u64,
    serial: u64,
    random: &[u8],
) -> Result<(Recording, [u8; 16]), CoreFault>
    requires moment { moment ≤ last_moment }
    requires nonces { book.now.meta.counters.nonces < last_number }
    ensures recorded { IfOk result (λ r. IsRecorded moment book.now (spent_entry serial ∷ issued_entry r.1 ∷ []) r.0.changes.items r.0.counters) }
    ensures counters { IfOk result (λ r. r.0.counters ≡ record book.now.meta.counters { clock = moment; nonces = book.now.meta.counters.nonces + 1 }) }
    ensures bytes { IfOk result (λ r. (r.1 ≡ take 16 random.now) × (16 ≤ length random.now)) }
    ensures fault { IfErr result (λ e. IsShort random.now e) }
{
    let bytes = first_random(random)?;
    let mut recording = Recording::begin(alloc, book, moment)?;
    recording.spend(serial)?;
    recording.issue(bytes)?;
    Ok((recording, bytes))
}

// Carries the verdict on a signed request out, and gives the reply with the fresh nonce.
#[tactic(auto, using(crate::proofs::Acting::where_answered))]
fn act_with_nonce(
    alloc: Global,
    book: &Book,
    recording: &mut Recording,
    verdict: Verdict,
    random: [u8; 16],
) -> Result<Reply, AllocError>
    requires nonces { book.now.meta.counters.nonces < last_number }
    requires numbers { NumbersLeft recording.old.counters verdict }
    requires there { NamesRows (swept recording.old.counters.clock book.now) verdict }
    ensures recorded { OnOk result ((m : ℕ) (es : List EntryOf) → IsOrdered book.now → IsUntouched m book.now es
        → GoesOn m book.now es (entries_of verdict) recording.old recording.new) }
    ensures reply { IfOk result (λ r. (m : ℕ) → IsAt m book.now recording.old.counters → IsOrdered book.now
        → HasTexts (effects m (swept m book.now) (entries_of verdict))
        → r ≡ with_nonce (nonce_text (book.now.meta.counters.nonces + 1) random)
        (verdict_reply true (effects m (swept m book.now) (entries_of verdict)) verdict)) }
{
    let reply = act(alloc, book, recording, verdict)?;
    with_nonce(alloc, book.meta().counters.nonces + 1, random, reply)
}

// A signed request whose nonce was open: the nonce is spent and a fresh one issued, and the verdict is carried out.
#[tactic(auto, using(core_replies::proofs::Results::ok_so, core_changes::proofs::Moving::untouched_nonces))]
fn act_with_fresh_nonce(
    alloc: Global,
    book: &Book,
    moment: u64,
    random: &[u8],
    serial: u64,
    verdict: Verdict,
) -> Result<Decision, CoreFault>
    requires moment { moment ≤ last_moment }
    requires nonces { book.now.meta.counters.nonces < last_number }
    requires numbers { NumbersLeft book.now.meta.counters verdict }
    requires there { NamesRows (swept moment book.now) verdict }
    ensures changes { IfOk result (λ o. IsOrdered book.now
        → o.changes.items ≡ recorded_changes moment book.now (nonce_entries serial random.now ++ entries_of verdict)) }
    ensures reply { IfOk result (λ o. IsOrdered book.now → HasTexts (effects moment (swept moment book.now) (entries_of verdict))
        → o.reply ≡ with_nonce (fresh_nonce book.now random.now) (verdict_reply true (effects moment (swept moment book.now) (entries_of verdict)) verdict)) }
    ensures bytes { IfOk result (λ _. 16 ≤ length random.now) }
    ensures fault { IfErr result (λ e. IsShort random.now e) }
{
    let (mut recording, bytes) = begin_signed(alloc, book, moment, serial, random)?;
    let reply = act_with_nonce(alloc, book, &mut recording, verdict, bytes)?;
    decision_of(book, recording, reply)
}

// The verdict on a signed request at a moment.
#[tactic(auto, using(crate::proofs::NamedRows::signed_there))]
fn signed_verdict(
    alloc: Global,
    book: &Book,
    moment: u64,
    random: &[u8],
    signed: &ParsedSigned,
) -> Result<Verdict, CoreFault>
    ensures judged { IsJudged book.now.meta.counters random.now result (verdict_of (swept moment book.now) (drop 16 random.now) signed.now) }
    ensures there { IfOk result (λ v. NamesRows (swept moment book.now) v) }
{
    let at = At::new(book, moment);
    judge_signed(alloc, &at, random, signed)
}

// A signed request whose nonce was open, by the verdict on it.
fn spend_and_act(
    alloc: Global,
    book: &Book,
    moment: u64,
    random: &[u8],
    serial: u64,
    signed: &ParsedSigned,
) -> Result<Decision, CoreFault>
    requires { moment ≤ last_moment }
    ensures { let v = verdict_of (swept moment book.now) (drop 16 random.now) signed.now in
        MatchResult result
        (λ o. Passes moment book.now random.now serial v o.changes.items o.reply)
        (λ e. IsPassedFault book.now random.now v e) }
{
    has_room(book.meta().counters.nonces)?;
    let verdict = signed_verdict(alloc, book, moment, random, signed)?;
    act_with_fresh_nonce(alloc, book, moment, random, serial, verdict)
}

// A signed request (RFC 8555, 6.5): refused with a fresh nonce where its nonce is not open.
fn signed(
    alloc: Global,
    book: &Book,
    moment: u64,
    random: &[u8],
    signed: &ParsedSigned,
) -> Result<Decision, CoreFault>
    requires { moment ≤ last_moment }
    ensures { IsOrdered book.now → (let found = open_nonce (swept moment book.now) signed.now.nonce in
        MatchResult result
        (λ o. MeetsSigned moment book.now random.now signed.now found o.changes.items o.reply)
        (λ e. IsSignedFault moment book.now random.now signed.now found e)) }
{
    match open_nonce(book, moment, signed) {
        Some(serial) => spend_and_act(alloc, book, moment, random, serial, signed),
        None => {
            let refusal = refusal_reply(Refusal::BadNonce, Sequence::new(Vec::new(alloc)), true);
            issued(alloc, book, moment, random, refusal)
        }
    }
}

// A request without a nonce that records an entry.
#[tactic(auto, using(core_replies::proofs::Results::ok_so, crate::proofs::ActingRows::same_entries, core_changes::proofs::Moving::untouched_none))]
fn recorded(
    alloc: Global,
    book: &Book,
    moment: u64,
    verdict: Verdict,
) -> Result<Decision, CoreFault>
    requires moment { moment ≤ last_moment }
    requires numbers { NumbersLeft book.now.meta.counters verdict }
    requires there { NamesRows (swept moment book.now) verdict }
    ensures changes { IfOk result (λ o. IsOrdered book.now → (e : EntryOf) (es : List EntryOf) → entries_of verdict ≡ e ∷ es
        → o.changes.items ≡ recorded_changes moment book.now (entries_of verdict)) }
    ensures reply { IfOk result (λ o. IsOrdered book.now → (e : EntryOf) (es : List EntryOf) → entries_of verdict ≡ e ∷ es
        → HasTexts (effects moment (swept moment book.now) (entries_of verdict))
        → o.reply ≡ verdict_reply false (effects moment (swept moment book.now) (entries_of verdict)) verdict) }
    ensures fault { IfErr result (λ e. e ≡ Memory) }
{
    let mut recording = Recording::begin(alloc, book, moment)?;
    let reply = act(alloc, book, &mut recording, verdict)?;
    decision_of(book, recording, reply)
}

// A reply to a request that records nothing.
fn unrecorded(alloc: Global, reply: Reply) -> Decision
    ensures changes { result.changes.items ≡ [] }
    ensures reply { result.reply ≡ reply }
{
    Decision {
        changes: Vec::new(alloc),
        reply,
    }
}

// A request without a nonce, by the verdict on it.
fn act_without_nonce(
    alloc: Global,
    book: &Book,
    moment: u64,
    verdict: Verdict,
) -> Result<Decision, CoreFault>
    requires moment { moment ≤ last_moment }
    requires numbers { NumbersLeft book.now.meta.counters verdict }
    requires there { NamesRows (swept moment book.now) verdict }
    ensures settles { IfOk result (λ o. Settles moment book.now verdict o.changes.items o.reply) }
    ensures fault { IfErr result (λ e. e ≡ Memory) }
{
    match verdict {
        Verdict::Refused {
            refusal,
            subproblems,
        } => Ok(unrecorded(alloc, refusal_reply(refusal, subproblems, false))),
        Verdict::KeyTaken(account) => {
            let taken = taken_reply(alloc, &book.meta().policy, account, false)?;
            Ok(unrecorded(alloc, taken))
        }
        Verdict::Answers(shows) => {
            let reply = show(alloc, book, moment, shows)?;
            Ok(unrecorded(alloc, reply))
        }
        verdict => recorded(alloc, book, moment, verdict),
    }
}

// The verdict on a request without a nonce at a moment.
#[tactic(auto, using(crate::proofs::NamedRows::office_there))]
fn office_verdict(
    alloc: Global,
    book: &Book,
    moment: u64,
    ask: &OfficeAsk,
) -> Result<Verdict, AllocError>
    ensures judged { IfOk result (λ v. v ≡ office_verdict (swept moment book.now) ask.now) }
    ensures there { IfOk result (λ v. NamesRows (swept moment book.now) v) }
{
    judge_office(alloc, &At::new(book, moment), ask)
}

// A request of the validator, the signing office or the operator, or for the directory.
#[tactic(auto, using(crate::proofs::Spaced::no_numbers))]
fn office(alloc: Global, book: &Book, moment: u64, ask: &OfficeAsk) -> Result<Decision, CoreFault>
    requires { moment ≤ last_moment }
    ensures { MatchResult result
        (λ o. Settles moment book.now (office_verdict (swept moment book.now) ask.now) o.changes.items o.reply)
        (λ e. e ≡ Memory) }
{
    let verdict = office_verdict(alloc, book, moment, ask)?;
    act_without_nonce(alloc, book, moment, verdict)
}

// The answer to an ask.
fn decide_at(
    alloc: Global,
    book: &Book,
    moment: u64,
    random: &[u8],
    ask: &ParsedAsk,
) -> Result<Decision, CoreFault>
    requires { moment ≤ last_moment }
    ensures { IsOrdered book.now → MatchResult result
        (λ o. MeetsAsk moment book.now random.now (ask_of ask.now) o.changes.items o.reply)
        (λ e. IsAskFault moment book.now random.now (ask_of ask.now) e) }
{
    match ask {
        ParsedAsk::NewNonce { head } => issued(alloc, book, moment, random, nonce_reply(*head)),
        ParsedAsk::Signed(request) => signed(alloc, book, moment, random, request),
        ParsedAsk::Office(ask) => office(alloc, book, moment, ask),
    }
}

/// Decides on a call, by what its payload says: the changes that it makes, none where nothing is recorded, and the reply. The
/// book may hold a part of a desk's rows that is enough for the call: it answers as all of them do.
///
/// # Errors
///
/// `Full` and `ShortRandom` are the faults 26 and 25 of the call, tested in this order; `Memory` comes where a growth was
/// refused. The book stays as it was. That the call is not too late, fault 24, was tested as it was read.
pub fn decide(alloc: Global, book: &Book, call: &ParsedCall) -> Result<Decision, CoreFault>
    ensures decided { IfOk result (λ o. (F : History) → Legal F → IsEnoughFor call.now (picture F) book.now
        → IsDecision F call.now o.changes.items o.reply) }
    ensures faulty { IfErr result (λ e. (F : History) → Legal F → IsEnoughFor call.now (picture F) book.now
        → IsFaultOf F call.now e) }
{
    let whole = call.call();
    let moment = book.meta().counters.clock.moment_of(whole.at);
    decide_at(alloc, book, moment, whole.random.as_slice(), call.ask())
}
