//! A desk in a database of format 1 becomes the same desk in format 2. `desk_store` does so where it opens such a file.
#![tactic(auto)]

mod additions;
mod answer_keys;
mod key_checks;
mod laws;
mod upgrading;

pub use additions::{Additions, read_additions};
pub use laws::first_desks_upgrade;
pub use upgrading::upgrade;
