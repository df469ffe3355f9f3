//! Desks over a connection, and what a stop leaves where they are not opened or made.
ghost use Rattle.std.specs.Prelude.{◌≡◌, ◌≤◌, ◌⊎◌, false, None, IfErr, IfOk, IfSome, IsTrue, MatchResult};
ghost use Rattle.sqlite.specs.{Held.state, State.HasCleanDisk, Tree.Trees, View.doubt};
ghost use Rattle.desk_model.specs.History.{first_history};
ghost use Rattle.desk_model.specs.Tables.{Tables, picture};
ghost use Rattle.sql_schema.specs.Schema.{no_schema};
ghost use Rattle.store_api.specs.Sight.{Keeps};
ghost use Rattle.desk_store.specs.Desks.{store_sight};
ghost use Rattle.desk_store.specs.declared.open_fault.OpenFault.TheVariants.{NewerFormat as newer_format, NotADesk as not_a_desk};
ghost use Rattle.desk_store.specs.Making.{FailedToMake, IsOfStorage, has_objects};
ghost use Rattle.desk_store.specs.Opening.{FailedToOpen, IsUpgraded, ShowsKnownFormat, ShowsNewerFormat, ShowsNoLaterFormat};
ghost use Rattle.desk_files.specs.Formats.{HasEither};
ghost use Rattle.desk_files.specs.Opening.{IsEarly, IsTaken, LeavesNewDesk};

use desk_model::{Clock, Policy};
use desk_store::{Store, Unopened};
use sqlite::{Alter, Connection};
use std::alloc::Global;

// Opens the desk of a connection, in either format; `Store::open` says when not.
#[tactic(auto, using(crate::proofs::Opened::early_survives, std::proofs::Common::inl, std::proofs::Common::inr, crate::proofs::Opened::same_left))]
fn open_tables<A: Alter>(alloc: Global, conn: Connection<A>) -> Result<Store<A>, Unopened<A>>
    requires idle { conn.in_transaction ≡ false }
    ensures honest { MatchResult result
        (λ store. doubt (state A.Store conn).is_clean ≤ doubt (state A.Store store.conn).is_clean)
        (λ un. doubt (state A.Store conn).is_clean ≤ doubt (state A.Store un.conn).is_clean) }
    ensures opened { IfOk result (λ store. HasCleanDisk (state A.Store store.conn) → (T : Tables) → HasEither (state A.Store conn) T
        → Keeps (store_sight A.Store) store T) }
    ensures unopened { IfErr result (λ un. HasCleanDisk (state A.Store un.conn) → (T : Tables) → HasEither (state A.Store conn) T → IsOfStorage un.fault) }
    ensures left { IfErr result (λ un. HasCleanDisk (state A.Store un.conn) → IsTrue (state A.Store conn).is_open → (trees : Trees)
        → (state A.Store un.conn).may_leave trees → (trees ≡ (state A.Store conn).committed.trees) ⊎ IsUpgraded (state A.Store conn) trees) }
    ensures spared { IfErr result (λ un. IsEarly un.fault → HasCleanDisk (state A.Store un.conn) → IsTrue (state A.Store conn).is_open
        → (trees : Trees) → (state A.Store un.conn).may_leave trees → trees ≡ (state A.Store conn).committed.trees) }
    ensures failed { IfErr result (λ un. FailedToOpen A.Store conn un.conn un.fault) }
    ensures newer { IfErr result (λ un. HasCleanDisk (state A.Store un.conn) → un.fault ≡ newer_format → ShowsNewerFormat A.Store conn) }
    ensures no_later { IfErr result (λ un. HasCleanDisk (state A.Store un.conn) → un.fault ≡ not_a_desk → ShowsNoLaterFormat A.Store conn) }
    ensures shows { IfOk result (λ store. HasCleanDisk (state A.Store store.conn) → ShowsKnownFormat A.Store conn) }
{
    match Store::open(alloc, conn) {
        Ok(store) => Ok(store),
        Err(unopened) => Err(unopened),
    }
}

// Makes a desk in the database of a connection; `Store::make` says when not.
#[tactic(auto, using(crate::proofs::Opened::by_cases, std::proofs::Common::inl, std::proofs::Common::inr, std::proofs::Common::le_refl))]
fn make_tables<A: Alter>(
    alloc: Global,
    conn: Connection<A>,
    policy: Policy,
    at: Clock,
) -> Result<Store<A>, Unopened<A>>
    requires idle { conn.in_transaction ≡ false }
    ensures honest { MatchResult result
        (λ store. doubt (state A.Store conn).is_clean ≤ doubt (state A.Store store.conn).is_clean)
        (λ un. doubt (state A.Store conn).is_clean ≤ doubt (state A.Store un.conn).is_clean) }
    ensures empty { IfOk result (λ _. (state A.Store conn).now.schema ≡ no_schema) }
    ensures made { IfOk result (λ store. HasCleanDisk (state A.Store store.conn)
        → (state A.Store conn).step_limit ≡ None → Keeps (store_sight A.Store) store (picture (first_history policy at))) }
    ensures unmade { IfErr result (λ un. HasCleanDisk (state A.Store un.conn) → (state A.Store conn).now.schema ≡ no_schema
        → IsTrue (state A.Store conn).is_open → LeavesNewDesk policy at
        (λ trees. trees ≡ (state A.Store conn).committed.trees) un.fault (state A.Store un.conn)) }
    ensures taken { IsTrue (has_objects (state A.Store conn).now.schema) → MatchResult result (λ store. ⊥)
        (λ un. IsTrue (state A.Store conn).is_open
        → IsTaken (λ trees. trees ≡ (state A.Store conn).committed.trees) un.fault (state A.Store un.conn)) }
    ensures failed { has_objects (state A.Store conn).now.schema ≡ false → IfErr result (λ un. FailedToMake A.Store policy at conn un.conn un.fault) }
{
    match Store::make(alloc, conn, policy, at) {
        Ok(store) => Ok(store),
        Err(unmade) => Err(unmade),
    }
}

/// The terms of a desk that is made, and when it is.
#[derive(Drop)]
pub(crate) struct First {
    pub(crate) policy: Policy,
    pub(crate) at: Clock,
}

/// Opens the desk of a connection, or makes one of these terms in its database. It is one function for both, since a check pays
/// for each call that names the engine's own type.
pub(crate) fn begin<A: Alter>(
    alloc: Global,
    conn: Connection<A>,
    first: Option<First>,
) -> Result<Store<A>, Unopened<A>>
    requires idle { conn.in_transaction ≡ false }
    ensures honest { MatchResult result
        (λ store. doubt (state A.Store conn).is_clean ≤ doubt (state A.Store store.conn).is_clean)
        (λ un. doubt (state A.Store conn).is_clean ≤ doubt (state A.Store un.conn).is_clean) }
    ensures opened { first ≡ None → IfOk result (λ store. HasCleanDisk (state A.Store store.conn) → (T : Tables) → HasEither (state A.Store conn) T
        → Keeps (store_sight A.Store) store T) }
    ensures unopened { first ≡ None → IfErr result (λ un. HasCleanDisk (state A.Store un.conn) → (T : Tables) → HasEither (state A.Store conn) T
        → IsOfStorage un.fault) }
    ensures left { first ≡ None → IfErr result (λ un. HasCleanDisk (state A.Store un.conn) → IsTrue (state A.Store conn).is_open → (trees : Trees)
        → (state A.Store un.conn).may_leave trees → (trees ≡ (state A.Store conn).committed.trees) ⊎ IsUpgraded (state A.Store conn) trees) }
    ensures spared { first ≡ None → IfErr result (λ un. IsEarly un.fault → HasCleanDisk (state A.Store un.conn) → IsTrue (state A.Store conn).is_open
        → (trees : Trees) → (state A.Store un.conn).may_leave trees → trees ≡ (state A.Store conn).committed.trees) }
    ensures empty { IfSome first (λ _. IfOk result (λ _. (state A.Store conn).now.schema ≡ no_schema)) }
    ensures made { IfSome first (λ it. IfOk result (λ store. HasCleanDisk (state A.Store store.conn)
        → (state A.Store conn).step_limit ≡ None → Keeps (store_sight A.Store) store (picture (first_history it.policy it.at)))) }
    ensures unmade { IfSome first (λ it. IfErr result (λ un. HasCleanDisk (state A.Store un.conn) → (state A.Store conn).now.schema ≡ no_schema
        → IsTrue (state A.Store conn).is_open → LeavesNewDesk it.policy it.at
        (λ trees. trees ≡ (state A.Store conn).committed.trees) un.fault (state A.Store un.conn))) }
    ensures taken { IfSome first (λ _. IsTrue (has_objects (state A.Store conn).now.schema) → MatchResult result (λ store. ⊥)
        (λ un. IsTrue (state A.Store conn).is_open
        → IsTaken (λ trees. trees ≡ (state A.Store conn).committed.trees) un.fault (state A.Store un.conn))) }
    ensures failed { first ≡ None → IfErr result (λ un. FailedToOpen A.Store conn un.conn un.fault) }
    ensures newer { first ≡ None → IfErr result (λ un. HasCleanDisk (state A.Store un.conn) → un.fault ≡ newer_format → ShowsNewerFormat A.Store conn) }
    ensures no_later { first ≡ None
        → IfErr result (λ un. HasCleanDisk (state A.Store un.conn) → un.fault ≡ not_a_desk → ShowsNoLaterFormat A.Store conn) }
    ensures shows { first ≡ None → IfOk result (λ store. HasCleanDisk (state A.Store store.conn) → ShowsKnownFormat A.Store conn) }
    ensures making { IfSome first (λ it. has_objects (state A.Store conn).now.schema ≡ false
        → IfErr result (λ un. FailedToMake A.Store it.policy it.at conn un.conn un.fault)) }
{
    match first {
        None => open_tables(alloc, conn),
        Some(First { policy, at }) => make_tables(alloc, conn, policy, at),
    }
}
