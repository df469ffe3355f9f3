//! Changes of a desk's rows, made in its database by one transaction, and the making of that database. `desk_store` saves calls by
//! it, and `sql_upgrade` brings a file of format 1 into today's.
#![tactic(auto)]

mod accounts;
mod authorizations;
mod children;
mod definitions;
mod fault;
mod laws;
mod making;
mod meta;
mod nonces;
mod orders;
mod saving;
mod statements;
mod stored;
mod upgrading;

pub use fault::{SaveFault, WriteFault};
pub use laws::{left_tables_are_found, ordered_changes_fit};
pub use making::make_tables;
pub use saving::save_all;
pub use upgrading::upgrade_tables;
