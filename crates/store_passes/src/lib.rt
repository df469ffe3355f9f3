//! Passes through the rows of a desk that keep one object's rows at a time: those of a table, and its status faults. They go over any
//! store whose rows can be found above a number; `app_reports` lists rows and faults by them.
#![tactic(auto)]

mod checked;
mod fault_kind;
mod first;
mod laws;
mod listed;
mod orders;
mod passed;
mod status_faults;

pub use fault_kind::FaultKind;
pub use laws::{books_are_in_order, kinds_make_all_faults};
pub use listed::listed_names;
pub use orders::Orders;
pub use passed::{PassedRow, row_after};
pub use status_faults::{StatusFaults, moment_of};
