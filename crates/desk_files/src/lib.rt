//! Desks in two files: made, opened, closed, for all bytes that these may hold. `app_files` opens the desk at a path by it.
//!
//! The two are the database at a path and the log beside it. A contract here stands over whatever bytes they held before the
//! call, while the disk is clean: nobody else writes them, and the disk returns what was written. Then
//!
//! - of files that held a desk, in format 1 or in today's, `open_from` gives that desk, in today's (`opened`), or fails for
//!   memory or the disk alone (`unopened`); any fault is that of the engine's error, or of the store's opening (`cause`, `failed`);
//! - of files that held a database, the engine refuses none but for memory or the disk (`refused`), and where no desk is
//!   opened, a stop leaves the database that was there, or the desk of format 1 that was there in today's format (`left`);
//!   the second only where the disk failed (`spared`);
//! - `make_from` makes the new desk and nothing else (`made`), in a database file without bytes or whose database has no table,
//!   index or view (`free`); where it fails there, a stop leaves the empty database or the new desk (`unmade`), and where the
//!   database has one it leaves that (`taken`);
//! - `close_from` leaves the desk in the database file, with the log beside it and without (`closed`), and nothing that a
//!   stop could not have left of the store (`ended`); `leave_from` gives the files up as a stop would leave them, and nothing
//!   else.
#![tactic(auto)]

mod closing;
mod fault;
mod left_files;
mod opening;
mod stored_desk;
mod tables;

pub use closing::{close_from, leave_from};
pub use left_files::left_files_are_opened;
pub use opening::{NotOpened, make_from, open_from};
pub use stored_desk::{close_desk, make_desk, open_desk};
