//! The commands of the program `desk`, done over a reader and writers. `desk_app` stands on it, and `app_lives`, which says what they
//! leave.
#![tactic(auto)]

mod backing_up;
mod explaining;
mod restoring;
mod running;

pub use running::{run_command, run_words, tell_no_memory, tell_not_text};
