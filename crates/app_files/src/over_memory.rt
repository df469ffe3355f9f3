//! A task by a store in memory.
ghost use Rattle.std.specs.Prelude.{IfOk};
ghost use Rattle.app_files.specs.Endings.{EndsInMemory, IsNew};

use crate::over_file::{failed, run_over};
use app_tasks::Task;
use desk::DeskFault;
use desk_model::{Clock, Policy};
use desk_store::{OpenFault, Store};
use sqlite::{Connection, MemStore};
use std::alloc::Global;
use std::io::Write;
use store_api::StorageFault;

// The store of a new desk in memory, made at moment 0.
fn make_store(alloc: Global, policy: Policy) -> Result<Store<MemStore>, OpenFault>
    ensures { IfOk result (IsNew policy) }
{
    let Ok(conn) = Connection::open_in_memory(alloc) else {
        return Err(OpenFault::Storage(StorageFault::Memory));
    };
    match Store::make(alloc, conn, policy, Clock::at(0)) {
        Ok(store) => Ok(store),
        Err(unmade) => Err(unmade.fault),
    }
}

/// Makes a desk with a policy, at moment 0, in memory, does a task with its store, and gives the exit status; the desk is then gone.
///
/// # Errors
///
/// The task's own, and those of making the desk.
pub fn run_in_memory<T: Task + Drop, W: Write>(
    alloc: Global,
    policy: Policy,
    task: T,
    out: &mut W,
) -> Result<u8, T::Fault>
where
    T::Fault: From<DeskFault>,
    ensures { EndsInMemory T.Fault.from_gives policy (T.Task.does task) (W.contents out.old) (W.contents out.new) result }
{
    let mut task = task;
    match make_store(alloc, policy) {
        Ok(store) => {
            let (store, outcome) = run_over(store, &mut task, out);
            drop(store);
            outcome
        }
        Err(fault) => failed(fault),
    }
}
