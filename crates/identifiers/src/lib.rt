//! The names of identifiers, and calls with what their nonces and payloads say, read once (RFC 8555, 6.5, 7.1.3, 7.1.4 and 7.4).
//! `core_rules`, `desk_core`, `store_api`, `desk`, `http_routes` and `app_tasks` stand on it.
#![tactic(auto)]

mod names;
mod parsed;
mod payloads;

pub use desk_model::DnsName;
pub use names::{NameFault, names_are_unique, read_name};
pub use parsed::{CallFault, ParsedAsk, ParsedCall, ParsedSigned};
pub use payloads::{AskedOrder, says_deactivated};
