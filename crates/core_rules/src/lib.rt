//! The rules of the desk: the verdict on each request, by the tables as they stand at its moment (RFC 8555, 6, 7). `desk_core`
//! stands on it.
#![tactic(auto)]

mod accounts;
mod challenge_rules;
mod fault;
mod judging;
mod new_orders;
mod offices;
mod order_rules;
mod payload;
mod targets;

pub use fault::CoreFault;
pub use judging::{first_random, has_room, judge_signed, open_nonce};
pub use offices::judge_office;
