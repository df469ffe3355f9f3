//! One desk over a store: calls from tables to tables. `desk_files`, `desk_http`,
//! `app_batch`, `app_tasks`, `app_files` and `app_commands` stand on it.
#![tactic(auto)]

mod desk;
mod fault;
mod laws;
mod looking;
mod office;

pub use desk::{Desk, Unadopted};
pub use fault::DeskFault;
pub use laws::stores_live;
pub use looking::{Look, LookFault};
