//! A desk over the store of a connection.
ghost use Rattle.std.specs.Prelude.{◌≡◌, ◌⊎◌, Err, IfErr, IfOk, IsTrue, MatchResult, None, false};
ghost use Rattle.desk_model.specs.History.{first_history};
ghost use Rattle.desk_model.specs.Tables.{Tables, picture};
ghost use Rattle.sql_schema.specs.Names.{uses_key_table};
ghost use Rattle.sql_schema.specs.{Schema.no_schema, Stays.Asks};
ghost use Rattle.store_api.specs.{Sight.Keeps, declared.fault.StorageFault.TheVariants.Memory as memory};
ghost use Rattle.desk_store.specs.Desks.{HasDesk, store_sight};
ghost use Rattle.desk_store.specs.Making.{IsNewDesk, IsOfStorage, has_objects};
ghost use Rattle.desk_store.specs.Opening.{HasLaterFormat, IsUpgraded, IsWhole, IsWholeFirst, ShowsKnownFormat, ShowsNewerFormat};
ghost use Rattle.desk_store.specs.declared.open_fault.OpenFault.TheVariants.{NewerFormat as newer_format, NotADesk as not_a_desk, Storage as of_storage};
ghost use Rattle.sql_upgrade.specs.FirstDesks.{HasFirst};
ghost use Rattle.sqlite.specs.{Held.state, State.HasCleanDisk};
ghost use Rattle.desk_files.specs.StoredDesks.{FailedToAsk, FailedToMakeDesk, FailedToOpenDesk, GoesBackOrIsMade, IsDeskOf, Leaves};

use desk::Desk;
use desk_model::{Clock, Policy};
use desk_store::{OpenFault, Store, Unopened};
use sqlite::{Alter, Connection};
use std::alloc::Global;

/// Makes a desk with a policy at a moment, in seconds since 1970, in the empty database of a connection, by one transaction.
///
/// # Errors
///
/// Those of `Store::make`, and `Storage` where the desk was made and its store then failed; with the connection.
#[tactic(auto, using(crate::proofs::Adopting::clean_before, std::proofs::Common::inl, std::proofs::Common::inr, crate::proofs::Adopting::left_on, crate::proofs::Adopting::of_storage, crate::proofs::Adopting::still_made, crate::proofs::Adopting::survived))]
pub fn make_desk<S: Alter + Drop>(
    alloc: Global,
    conn: Connection<S>,
    policy: Policy,
    at: Clock,
) -> Result<Desk<Store<S>>, Unopened<S>>
    requires idle { conn.in_transaction ≡ false }
    ensures taken { IsTrue (has_objects (state S.Store conn).now.schema) → result ≡ Err (record { fault = not_a_desk; conn = conn }) }
    ensures opened { IfOk result (λ desk. desk.is_closed ≡ false) }
    ensures idle { MatchResult result (λ desk. desk.store.conn.in_transaction ≡ false) (λ un. un.conn.in_transaction ≡ false) }
    ensures empty { IfOk result (λ _. (state S.Store conn).now.schema ≡ no_schema) }
    ensures made { IfOk result (λ desk. HasCleanDisk (state S.Store desk.store.conn) → (state S.Store conn).step_limit ≡ None
        → IsDeskOf S.Store (picture (first_history policy at)) desk) }
    ensures unmade { has_objects (state S.Store conn).now.schema ≡ false → IfErr result (λ un. IsOfStorage un.fault) }
    ensures left { has_objects (state S.Store conn).now.schema ≡ false → MatchResult result
        (λ desk. Leaves (state S.Store conn) (state S.Store desk.store.conn) (IsNewDesk policy at (state S.Store conn)))
        (λ un. Leaves (state S.Store conn) (state S.Store un.conn) (IsNewDesk policy at (state S.Store conn))) }
    ensures back { has_objects (state S.Store conn).now.schema ≡ false
        → IfErr result (λ un. HasCleanDisk (state S.Store un.conn) → GoesBackOrIsMade policy at (state S.Store conn) (state S.Store un.conn)) }
    ensures failed { has_objects (state S.Store conn).now.schema ≡ false
        → IfErr result (λ un. FailedToMakeDesk S.Store policy at conn un.conn un.fault) }
    ensures answering { IfErr result (λ un. HasCleanDisk (state S.Store un.conn) → un.fault ≡ of_storage memory → IsTrue (state S.Store un.conn).is_open) }
{
    match Store::make(alloc, conn, policy, at) {
        Ok(store) => adopt(alloc, store),
        Err(unopened) => Err(unopened),
    }
}

/// Opens the desk that the database of a connection holds; one of format 1 becomes one of today's format first.
///
/// # Errors
///
/// Those of `Store::open`, and `Storage` where the store was opened and then failed; with the connection.
#[tactic(auto, using(sql_schema::proofs::StaysLemmas::asks_then, crate::proofs::Adopting::clean_before, std::proofs::Common::inl, std::proofs::Common::inr, crate::proofs::Adopting::left_on, crate::proofs::Adopting::not_newer, crate::proofs::Adopting::not_refused, crate::proofs::Adopting::of_storage, crate::proofs::Adopting::survived))]
pub fn open_desk<S: Alter + Drop>(
    alloc: Global,
    conn: Connection<S>,
) -> Result<Desk<Store<S>>, Unopened<S>>
    requires idle { conn.in_transaction ≡ false }
    ensures opened { IfOk result (λ desk. desk.is_closed ≡ false) }
    ensures idle { MatchResult result (λ desk. desk.store.conn.in_transaction ≡ false) (λ un. un.conn.in_transaction ≡ false) }
    ensures asks { IsTrue (uses_key_table (state S.Store conn).now.schema) → MatchResult result
        (λ desk. Asks (state S.Store conn) (state S.Store desk.store.conn))
        (λ un. Asks (state S.Store conn) (state S.Store un.conn)) }
    ensures kept { IfOk result (λ desk. HasCleanDisk (state S.Store desk.store.conn) → (T : Tables)
        → HasDesk (state S.Store conn) T → IsDeskOf S.Store T desk) }
    ensures upgraded { IfOk result (λ desk. HasCleanDisk (state S.Store desk.store.conn) → (T : Tables)
        → HasFirst (state S.Store conn) T → IsDeskOf S.Store T desk) }
    ensures desk { IfErr result (λ un. HasCleanDisk (state S.Store un.conn) → (T : Tables) → HasDesk (state S.Store conn) T → IsOfStorage un.fault) }
    ensures first { IfErr result (λ un. HasCleanDisk (state S.Store un.conn) → (T : Tables) → HasFirst (state S.Store conn) T → IsOfStorage un.fault) }
    ensures shows { IfOk result (λ desk. HasCleanDisk (state S.Store desk.store.conn) → ShowsKnownFormat S.Store conn) }
    ensures whole { IfOk result (λ desk. HasCleanDisk (state S.Store desk.store.conn) → IsTrue (uses_key_table (state S.Store conn).now.schema)
        → IsWhole S.Store conn) }
    ensures whole_first { IfOk result (λ desk. HasCleanDisk (state S.Store desk.store.conn) → uses_key_table (state S.Store conn).now.schema ≡ false
        → IsWholeFirst S.Store conn) }
    ensures later { HasLaterFormat (state S.Store conn) → MatchResult result
        (λ desk. HasCleanDisk (state S.Store desk.store.conn) → ⊥)
        (λ un. HasCleanDisk (state S.Store un.conn) → (un.fault ≡ newer_format) ⊎ IsOfStorage un.fault) }
    ensures newer { IfErr result (λ un. HasCleanDisk (state S.Store un.conn) → un.fault ≡ newer_format → ShowsNewerFormat S.Store conn) }
    ensures refused { IfErr result (λ un. (un.fault ≡ not_a_desk) ⊎ (un.fault ≡ newer_format) → Asks (state S.Store conn) (state S.Store un.conn)) }
    ensures left { MatchResult result
        (λ desk. Leaves (state S.Store conn) (state S.Store desk.store.conn) (IsUpgraded (state S.Store conn)))
        (λ un. Leaves (state S.Store conn) (state S.Store un.conn) (IsUpgraded (state S.Store conn))) }
    ensures failed { IfErr result (λ un. FailedToOpenDesk S.Store conn un.conn un.fault) }
    ensures answering { IfErr result (λ un. HasCleanDisk (state S.Store un.conn) → un.fault ≡ of_storage memory → IsTrue (state S.Store un.conn).is_open) }
{
    match Store::open(alloc, conn) {
        Ok(store) => adopt(alloc, store),
        Err(unopened) => Err(unopened),
    }
}

/// The connection of a desk, as it is.
pub fn close_desk<S: Alter + Drop>(desk: Desk<Store<S>>) -> Connection<S>
    ensures { result ≡ desk.store.conn }
{
    desk.into_store().close()
}

// The desk of a store; or why there is none, with the connection of the store.
#[tactic(auto, using(crate::proofs::Adopting::reads_keeps))]
fn adopt<S: Alter + Drop>(alloc: Global, store: Store<S>) -> Result<Desk<Store<S>>, Unopened<S>>
    ensures opened { IfOk result (λ desk. desk.is_closed ≡ false) }
    ensures asks { MatchResult result
        (λ desk. Asks (state S.Store store.conn) (state S.Store desk.store.conn))
        (λ un. Asks (state S.Store store.conn) (state S.Store un.conn)) }
    ensures kept { IfOk result (λ desk. HasCleanDisk (state S.Store desk.store.conn) → (T : Tables)
        → (HasCleanDisk (state S.Store store.conn) → Keeps (store_sight S.Store) store T) → IsDeskOf S.Store T desk) }
    ensures failed { IfErr result (λ un. FailedToAsk S.Store store.conn un.conn un.fault) }
    ensures answering { IfErr result (λ un. HasCleanDisk (state S.Store un.conn) → un.fault ≡ of_storage memory → IsTrue (state S.Store un.conn).is_open) }
{
    let mut store = store;
    match store.policy(alloc) {
        Ok(policy) => Ok(Desk::with_policy(store, policy)),
        Err(fault) => Err(Unopened {
            fault: OpenFault::Storage(fault),
            conn: store.close(),
        }),
    }
}
