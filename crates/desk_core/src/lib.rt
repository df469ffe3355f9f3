//! What a call does to a book, and what is answered. `desk` stands on it.
#![tactic(auto)]

mod acts;
mod decisions;

pub use core_rules::CoreFault;
pub use decisions::{Decision, decide};
