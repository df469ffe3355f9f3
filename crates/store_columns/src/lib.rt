//! The columns of the tables of a desk's file, and the rows that they spell, both ways. `store_book` makes a book of such rows; the
//! `sql_` crates read and write them.
#![tactic(auto)]

mod accounts;
mod authorizations;
mod columns;
mod facts;
mod laws;
mod meta;
mod nonces;
mod orders;
mod stored;

pub use columns::{
    AccountColumns, AnswerKey, AuthzColumns, BareChallenge, ChallColumns, ChallKeyColumns,
    FIRST_FORMAT, FORMAT, FlatRows, JoinedChallenge, MetaColumns, NonceColumns, OrderAuthzColumns,
    OrderColumns, OrderSummaryColumns, Owned, StoredRows,
};
pub use facts::{Columns, read_table};
pub use laws::{columns_tell_rows_apart, texts_are_written};
pub use orders::problem_text;
pub use stored::read_rows;
