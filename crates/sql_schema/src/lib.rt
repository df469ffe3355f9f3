//! The schema of a desk's file, format 2, and that of format 1: its tables and indexes, and what the statements that make them do. The
//! texts of all statements stand here, once, those on a table in its module: `sql_write`, `sql_read` and the definitions of `sql_tables`
//! take them from there.
#![tactic(auto)]

pub mod accounts;
pub mod authorizations;
pub mod challenges;
mod columns;
pub mod definitions;
pub mod keys;
pub mod listed;
pub mod meta;
mod names;
pub mod nonces;
pub mod orders;
mod texts;

pub use definitions::DEFINITIONS;
pub use names::{has_indexes, uses_key_table};
pub use texts::Writing;
