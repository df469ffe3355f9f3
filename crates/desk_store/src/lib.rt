//! The tables of a desk over a connection of `sqlite`: made, opened, looked up and saved. It is the `Storage` that a desk
//! stands on, in a file or in memory; `desk_files` and `app_files` make and open it.
#![tactic(auto)]

mod faults;
mod known;
mod laws;
mod look_ups;
mod making;
mod open_fault;
mod opening;
mod store;

pub use faults::{EngineCause, cause_of};
pub use laws::desks_are_books;
pub use open_fault::OpenFault;
pub use store::{Store, Unopened};
