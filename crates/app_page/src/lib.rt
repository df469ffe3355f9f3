//! The page of a desk, as one document of HTML: what waits, what ends soon, the last orders. `app_tasks` stands on it.
#![tactic(auto)]

mod html;
mod page;
mod pieces;
mod rows;
mod tables;
mod texts;

pub use page::write_page;
