//! The desk in the file at a path, or a new one in memory: made, its store given to a task, or held; what is left of the files.
//! `app_commands` stands on it.
#![tactic(auto)]

mod fault;
mod files;
mod holding;
mod left;
mod over_file;
mod over_memory;

pub use fault::desk_fault;
pub use files::make_desk;
pub use holding::{HeldFile, hold};
pub use left::Left;
pub use over_file::run_over_file;
pub use over_memory::run_in_memory;
pub use sqlite::{Unknown, Wary};
