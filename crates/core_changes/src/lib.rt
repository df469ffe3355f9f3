//! The changes of rows that the entries of a call make, and the rows as they then stand. `desk_core` stands on it.
#![tactic(auto)]

mod moved;
mod noted;
mod orders;
mod recording;

pub use moved::MovedRows;
pub use recording::Recording;
