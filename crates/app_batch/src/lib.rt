//! Batches: lines of which each asks a call, answered by a desk over any store. `app_tasks` stands on it.
#![tactic(auto)]

mod fault;
mod line_requests;
mod lines;

pub use fault::AnswerFault;
pub use lines::{batch, batch_line};
