//! The rows of a desk in memory, changes of them, and what the passing of time makes of them (RFC 8555, 7.1.6). The families core,
//! store, sql and desk stand on it.
#![tactic(auto)]

mod at_moment;
mod book;
mod derived;
mod table;

pub use at_moment::{At, authorization_status, challenge_of, order_status, sweep_changes};
pub use book::{Book, has_challenge};
pub use derived::{
    derived_account, derived_authorization, derived_challenge, derived_order, is_past,
};
pub use table::{Row, Table};
