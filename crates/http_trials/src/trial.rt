//! What is tried of a new desk in memory. The engine's own type is named here alone.
use desk::Desk;
use desk_model::{Clock, Policy};
use desk_store::Store;
use sqlite::Connection;
use std::alloc::Global;
use std::process::Abort;
use std::test::Fail;
use store_api::Storage;

/// What is tried of a desk.
pub trait Trial {
    /// Whether a new desk does what is tried of it.
    ///
    /// # Errors
    ///
    /// Where there is no memory for it.
    fn passes<A: Abort, K: Storage + Drop>(
        &self,
        rt: &A,
        alloc: Global,
        desk: &mut Desk<K>,
    ) -> Result<bool, Fail>;
}

/// Whether a new desk in memory does what is tried of it.
///
/// # Errors
///
/// Where there is no memory for it.
pub fn new_desk_passes<T: Trial>(rt: &impl Abort, alloc: Global, trial: &T) -> Result<bool, Fail> {
    let policy = Policy::new(alloc, "https://ca.example", 3600, 604800, 2592000)?;
    let policy = policy.expect(rt, "a policy");
    let conn = Connection::open_in_memory(alloc)
        .ok()
        .expect(rt, "a database");
    let store = Store::make(alloc, conn, policy, Clock::at(0))
        .ok()
        .expect(rt, "a store");
    let mut desk = Desk::adopt(alloc, store).ok().expect(rt, "a desk");
    let passes = trial.passes(rt, alloc, &mut desk);
    drop(desk);
    passes
}
