//! Reports on the rows of a desk, for people and, as JSON, for programs. They go through the rows one by one. `app_tasks` and
//! `app_page` stand on it.
#![tactic(auto)]

mod asked;
mod beside;
mod fault;
mod faults;
mod form;
mod lists;
mod tally;
mod visible;

pub use asked::{AuthorizationFilter, OrderFilter};
pub use beside::{Beside, seconds_ahead};
pub use fault::ReportFault;
pub use faults::{Checked, list_faults};
pub use form::Form;
pub use lists::{AllAccounts, RowList, list_rows};
pub use tally::{tell_about, write_statuses};
pub use visible::push_visible;
