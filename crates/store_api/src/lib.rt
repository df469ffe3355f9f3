//! What a store of a desk's tables is, what is looked up in it, and the rows that a call needs. `desk`, `desk_store` and what works
//! on a desk over any store stand on it.
#![tactic(auto)]

mod all_rows;
mod enough;
mod fault;
mod kept;
mod laws;
mod links;
mod look_ups;
mod minimal_part;
mod named;
mod storage;
mod waiting;

pub use all_rows::whole_book;
pub use enough::load_enough;
pub use fault::StorageFault;
pub use identifiers::{CallFault, ParsedCall};
pub use kept::Kept;
pub use laws::touched_rows_are_a_book;
pub use look_ups::{Found, LookUps, RowsAbove};
pub use storage::Storage;
