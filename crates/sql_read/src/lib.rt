//! The rows of a desk, read from the tables of its database: looked up by queries, or checked one after the other.
//! A reading fails by the engine's fault, and by `NotARow` where a row is not one of a desk; it changes nothing. Of a desk's tables
//! it fails for memory or the disk alone. `desk_store` answers look-ups and opens a file by it, and `sql_upgrade` reads a file of format 1.
#![tactic(auto)]

mod accounts;
mod answers;
mod authorizations;
mod checked;
mod fault;
mod first;
mod format;
mod formats;
mod meta;
mod nonces;
mod orders;
mod places;
mod rows;
mod values;
mod waiting;

pub use accounts::{account_above, find_accounts};
pub use authorizations::{
    authorization_above, bare_authorizations, challenge_above, earliest_authorization_end,
    find_authorizations,
};
pub use checked::{check_table, has_book_rows};
pub use fault::ReadFault;
pub use first::first_meta;
pub use format::is_newer;
pub use meta::meta_row;
pub use nonces::{earliest_issue, find_nonces};
pub use orders::{
    earliest_order_end, find_orders, order_above, orders_with_authorization, processing_orders,
    summaries_of,
};
pub use places::processing_places;
pub use rows::Selected;
pub use waiting::{authorizations_with_challenge, waiting_challenges};
