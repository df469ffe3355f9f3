//! The laws of calls and of all lives of a desk. `model_parts`, `desk_core`, `desk` and `app_lives` stand on it.
#![tactic(auto)]

mod lives;

pub use lives::{calls_keep_legal, lives_hold};
