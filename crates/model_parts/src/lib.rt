//! What is looked up in a desk's tables, and the law that the rows which a call touches are enough for it. `desk_core`, `desk`
//! and the families store, sql and app stand on it.
#![tactic(auto)]

mod parts;
mod queries;

pub use parts::touched_rows_are_enough;
pub use queries::{AccountsWhere, AuthorizationsWhere, NoncesWhere, OrdersWhere, Query};
