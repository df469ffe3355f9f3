//! One desk, which answers calls one after the other.
ghost use Rattle.std.specs.Prelude.{◌≡◌, ◌≢◌, ◌<◌, ◌↔◌, IsTrue, false, drop, length, Err, IfErr, IfOk, IfSome, MatchResult, Ok, Some, []};
ghost use Rattle.store_api.specs.Sight.{FailsToRead, ForTables, Unchanged};
ghost use Rattle.store_api.specs.Storing.{Loads};
ghost use Rattle.desk.specs.declared.fault.DeskFault.TheVariants as fault;
ghost use Rattle.desk.specs.Answers.{Answers, is_closed_after};
ghost use Rattle.desk.specs.Causes.{IsCaused};
ghost use Rattle.desk.specs.Looking.{Looks, is_closed_by_look};
ghost use Rattle.desk.specs.declared.looking.LookFault.TheVariants as lookfault;
ghost use Rattle.store_api.specs.declared.fault.StorageFault.TheVariants as storagefault;
ghost use Rattle.desk.specs.Runs.{EndsCaused, Runs, RunsAs, TellsLate, is_closed_behind};
ghost use Rattle.desk_model.specs.{Limits.last_moment, Run.IsFormedCall};

use crate::fault::DeskFault;
use crate::looking::{Look, LookFault};
use desk_book::Book;
use desk_core::decide;
use desk_model::{Call, Policy, Reply, keep_form};
use std::alloc::Global;
use std::io::Write;
use std::marker::Model;
use store_api::{ParsedCall, Storage, StorageFault};

/// A desk over a store, which contracts see as the store, the policy, and whether the desk is closed.
#[derive(Drop)]
pub struct Desk<K: Storage + Drop> {
    store: K,
    policy: Policy,
    is_closed: bool,
}

/// Why there is no desk, and the store that was given.
#[derive(Drop)]
pub struct Unadopted<K: Storage + Drop> {
    /// Of the one look at the store, which is for its policy.
    pub fault: StorageFault,
    /// As that look left it.
    pub store: K,
}

impl<K: Storage + Drop> Model for Desk<K> {
    ghost use Rattle.desk.specs.State.{DeskState};

    ghost Value = { DeskState K };

    ghost view = { λ desk. record { store = desk.store; policy = desk.policy; is_closed = desk.is_closed } };
}

// The reply to a call that was read, over an open store from which a part for it was loaded.
#[tactic(auto, using(crate::proofs::Exiting::answered_alone, crate::proofs::Exiting::core_result_in_time, crate::proofs::Exiting::nothing, crate::proofs::Exiting::saved, crate::proofs::Exiting::storage_result_in_time, crate::proofs::Exiting::unsaved))]
fn attempt_by<K: Storage + Drop>(
    alloc: Global,
    store: &mut K,
    part: &Book,
    call: &ParsedCall,
) -> Result<Reply, DeskFault>
    requires { IsFormedCall call.now }
    ensures in_time { result ≢ Err fault.Moment }
    ensures caused { (was : K) → Unchanged K.Kept.sight was store.old → IfErr result (IsCaused K.Kept.sight K.Storage.causes was store.new) }
    ensures exit { (was : K) → Loads K.Kept.sight call.now was store.old (Ok part.now) → Answers K.Kept.sight call.now was store.new result }
{
    let decision = decide(alloc, part, call)?;
    let changes = decision.changes.as_slice();
    if changes.is_empty() {
        return Ok(decision.reply);
    }
    store.save(alloc, part, decision.changes)?;
    Ok(decision.reply)
}

// The reply to a call that was read, over an open store.
#[tactic(auto, using(crate::proofs::Exiting::storage_result_in_time, store_api::proofs::Readings::unchanged_read))]
fn attempt<K: Storage + Drop>(
    alloc: Global,
    store: &mut K,
    call: &ParsedCall,
) -> Result<Reply, DeskFault>
    requires { IsFormedCall call.now }
    ensures in_time { result ≢ Err fault.Moment }
    ensures caused { IfErr result (IsCaused K.Kept.sight K.Storage.causes store.old store.new) }
    ensures exit { Answers K.Kept.sight call.now store.old store.new result }
{
    let part = store.load_part(alloc, call)?;
    let attempted = attempt_by(alloc, store, &part, call);
    drop(part);
    attempted
}

impl<K: Storage + Drop> Desk<K> {
    /// A desk over a store that is open, which is asked for the desk's policy.
    ///
    /// # Errors
    ///
    /// The fault of the store, which comes back with it.
    pub fn adopt(alloc: Global, store: K) -> Result<Desk<K>, Unadopted<K>>
        ensures reads { MatchResult result
            (λ desk. Unchanged K.Kept.sight store desk.store)
            (λ un. FailsToRead K.Kept.sight store un.store un.fault) }
        ensures policy { IfOk result (λ desk. ForTables K.Kept.sight store desk.store (λ T. desk.policy ≡ T.meta.policy)) }
        ensures opened { IfOk result (λ desk. desk.is_closed ≡ false) }
        ensures caused { IfErr result (λ un. K.Storage.causes None store un.store un.fault) }
    {
        let mut store = store;
        match store.policy(alloc) {
            Ok(policy) => Ok(Desk::with_policy(store, policy)),
            Err(fault) => Err(Unadopted { fault, store }),
        }
    }

    /// A desk over a store that is open, by the policy that the store told.
    pub fn with_policy(store: K, policy: Policy) -> Desk<K>
        ensures store { result.store ≡ store }
        ensures policy { result.policy ≡ policy }
        ensures opened { result.is_closed ≡ false }
    {
        Desk {
            store,
            policy,
            is_closed: false,
        }
    }

    /// What each URL of the desk begins with, in a closed desk too.
    pub fn base(&self) -> &str
        ensures { result.now ≡ self.now.policy.base }
    {
        self.policy.base()
    }

    /// Whether the desk is closed by a fault: it then answers each call by `Reopen`.
    pub fn is_closed(&self) -> bool
        ensures { result ≡ self.now.is_closed }
    {
        self.is_closed
    }

    /// The store of the desk.
    pub fn into_store(self) -> K
        ensures { result ≡ self.store }
    {
        let Desk {
            store,
            policy: _,
            is_closed: _,
        } = self;
        store
    }

    /// The reply to a call, which is recorded before it is given. Its nonce and its payload are read once, for the rows that are
    /// loaded and for the decision.
    ///
    /// # Errors
    ///
    /// The fault of the call, or `Memory`: the desk is then as it was. `Device` or `Reopen`: the desk is closed.
    #[tactic(auto, using(crate::proofs::Exiting::read_in_time, crate::proofs::Exiting::read_late, crate::proofs::Exiting::unread_open))]
    pub fn answer(&mut self, alloc: Global, call: &Call) -> Result<Reply, DeskFault>
        ensures closed { IsTrue self.old.is_closed → (result ≡ Err fault.Reopen) × (self.new ≡ self.old) }
        ensures late { self.old.is_closed ≡ false → (result ≡ Err fault.Moment) ↔ (last_moment < call.now.at) }
        ensures unmade { last_moment < call.now.at → self.new ≡ self.old }
        ensures caused { self.old.is_closed ≡ false
            → IfErr result (IsCaused K.Kept.sight K.Storage.causes self.old.store self.new.store) }
        ensures exit { self.old.is_closed ≡ false → Answers K.Kept.sight call.now self.old.store self.new.store result }
        ensures flag { self.old.is_closed ≡ false → self.new.is_closed ≡ is_closed_after result }
        ensures policy { self.new.policy ≡ self.old.policy }
    {
        if self.is_closed {
            return Err(DeskFault::Reopen);
        }
        let parsed = ParsedCall::read(alloc, call)?;
        match attempt(alloc, &mut self.store, &parsed) {
            Ok(reply) => Ok(reply),
            Err(fault) => {
                self.is_closed = fault.closes();
                Err(fault)
            }
        }
    }

    /// Has the store looked at, which changes nothing. The desk is closed where the store is to be opened again.
    ///
    /// # Errors
    ///
    /// Those of the look; `Storage` of `Reopen` where the desk is closed, which is then not looked at.
    pub fn look<A, L: Look<K, A>, W: Write>(
        &mut self,
        alloc: Global,
        look: &L,
        asked: &A,
        out: &mut W,
    ) -> Result<(), LookFault>
        ensures closed { IsTrue self.old.is_closed → (result ≡ Err (lookfault.Storage storagefault.Reopen))
            × ((self.new ≡ self.old) × (W.contents out.new ≡ W.contents out.old)) }
        ensures shows { self.old.is_closed ≡ false
            → L.shows look.now asked.now (W.contents out.old) (W.contents out.new) self.old.store self.new.store result }
        ensures looks { self.old.is_closed ≡ false → Looks K.Kept.sight self.old.store self.new.store result }
        ensures flag { self.old.is_closed ≡ false → self.new.is_closed ≡ is_closed_by_look result }
        ensures policy { self.new.policy ≡ self.old.policy }
    {
        if self.is_closed {
            return Err(LookFault::Storage(StorageFault::Reopen));
        }
        match look.look(alloc, asked, &mut self.store, out) {
            Ok(()) => Ok(()),
            Err(why) => {
                self.is_closed = why.closes();
                Err(why)
            }
        }
    }

    /// The replies to calls made in turn, up to the first fault, and that fault. Where there is no memory for a reply's
    /// place, the call is not made.
    #[tactic(auto, using(crate::proofs::Running::runs))]
    pub fn run(&mut self, alloc: Global, calls: &[Call]) -> (Vec<Reply>, Option<DeskFault>)
        ensures closed { IsTrue self.old.is_closed → (result.0.items ≡ []) × (result.1 ≡ Some fault.Reopen) × (self.new ≡ self.old) }
        ensures exit { self.old.is_closed ≡ false → Runs K.Kept.sight calls.now self.old.store self.new.store result.0.items result.1 }
        ensures chain { self.old.is_closed ≡ false → RunsAs K.Kept.sight self.old.store calls.now result.0.items result.1 self.new.store }
        ensures caused { self.old.is_closed ≡ false
            → IfSome result.1 (EndsCaused K.Kept.sight K.Storage.causes self.old.store self.new.store calls.now result.0.items) }
        ensures late { self.old.is_closed ≡ false → IfSome result.1 (TellsLate (drop (length result.0.items) calls.now)) }
        ensures flag { self.old.is_closed ≡ false → self.new.is_closed ≡ is_closed_behind result.1 }
        ensures policy { self.new.policy ≡ self.old.policy }
    {
        if self.is_closed {
            return (Vec::new(alloc), Some(DeskFault::Reopen));
        }
        self.answer_all(alloc, calls)
    }

    // The replies to the calls before the first fault, and the fault.
    #[tactic(auto, using(crate::proofs::Running::answers_more, crate::proofs::Running::declines, crate::proofs::Running::ends_at, crate::proofs::Running::ends_with_all, crate::proofs::Running::late_at, crate::proofs::Running::take_one_more, crate::proofs::Running::tells_memory))]
    fn answer_all(&mut self, alloc: Global, calls: &[Call]) -> (Vec<Reply>, Option<DeskFault>)
        requires { self.old.is_closed ≡ false }
        ensures chain { RunsAs K.Kept.sight self.old.store calls.now result.0.items result.1 self.new.store }
        ensures caused { IfSome result.1 (EndsCaused K.Kept.sight K.Storage.causes self.old.store self.new.store calls.now result.0.items) }
        ensures late { IfSome result.1 (TellsLate (drop (length result.0.items) calls.now)) }
        ensures flag { self.new.is_closed ≡ is_closed_behind result.1 }
        ensures policy { self.new.policy ≡ self.old.policy }
    {
        let mut replies = Vec::new(alloc);
        for call in calls {
            if replies.reserve(1).is_err() {
                keep_form(call);
                return (replies, Some(DeskFault::Memory));
            }
            match self.answer(alloc, call) {
                Ok(reply) => replies.push(reply).unwrap(),
                Err(fault) => return (replies, Some(fault)),
            }
        }
        (replies, None)
    }
}
