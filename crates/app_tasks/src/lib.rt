//! What the words of the program do: tasks over the store of a desk, whatever keeps it; what is asked of a desk that is served; and
//! what is done with a file as it is: waited for, copied, watched while it is served, looked at for why it was not opened. `app_files`
//! gives a task the store of a file, and `app_commands` chooses the task by the words.
#![tactic(auto)]

mod ahead;
mod answering;
mod asking;
mod begun;
mod beside;
mod call_log;
mod causes;
mod copies;
mod desks;
mod fault;
mod filters;
mod identity;
mod limits;
mod listening;
mod locks;
mod looking;
mod metrics;
mod outcomes;
mod overseeing;
mod parts;
mod ports;
mod receiving;
mod reports;
mod revoking;
mod sending;
mod showing;
mod shown;
mod snapshot;
mod sockets;
mod tasks;
mod totals;

pub use answering::{AnswerLines, ServeConnections};
pub use asking::revoke_served;
pub use begun::{Begun, EmptyFile, Remains, Unfinished};
pub use beside::{known_beside, missing_log, remove_empty_log};
pub use causes::FileCause;
pub use copies::{CopyFault, Copying, are_same, is_beside_file, is_taken};
pub use fault::{Fault, Wrong, refuse, write_fault};
pub use filters::{Unasked, authorization_filter, order_filter};
pub use identity::Identity;
pub use limits::{Limit, broken_limit};
pub use locks::wait_for;
pub use looking::{look_served, looks_are_read};
pub use parts::lose_part;
pub use ports::PortCause;
pub use receiving::Received;
pub use reports::{CheckStatuses, ListRows, ShowPage, TellAbout, form};
pub use revoking::Revoke;
pub use shown::{Visible, VisibleLines};
pub use sockets::SocketCause;
pub use tasks::Task;
