//! The rows of a file's tables, checked one after the other, as they come by key, or made into a book; and the check of their statuses.
//! `desk_store` opens a file by these, `sql_read` checks its rows as it reads them, and `store_passes` looks for status faults.
#![tactic(auto)]

mod accounts;
mod checking;
mod counter;
mod joining;
mod keys;
mod laws;
mod listed;
mod meta;
mod nesting;
mod nonces;
mod numbers;
mod owned;
mod row_check;
mod row_faults;
mod rows_fault;
mod status_check;
mod stored_book;

pub use accounts::AccountCheck;
pub use keys::KeyCheck;
pub use laws::rows_in_order_are_books;
pub use listed::ListedCheck;
pub use meta::MetaCheck;
pub use nesting::with_listed;
pub use nonces::NonceCheck;
pub use numbers::Numbers;
pub use owned::{ChallengeCheck, OwnedCheck};
pub use row_check::RowCheck;
pub use row_faults::{account_fault, authorization_fault, challenge_fault, order_fault};
pub use rows_fault::RowsFault;
pub use status_check::check;
pub use stored_book::from_rows;
