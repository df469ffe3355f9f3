//! The words of the command line, read as the commands that they ask for. `app_tasks` and `app_commands` stand on it.
#![tactic(auto)]

mod arguments;
mod command;
mod fault;
mod grammar;
mod help;
mod lives;
mod numbers;
mod reading;
mod served;
mod subcommand;
mod words;

pub use command::{
    Asked, AuthorizationListing, Command, Listening, LogForm, OrderListing, Place, Report,
    Revocation, Serving, SyncedFile, Syncs, Terms,
};
pub use fault::WordsFault;
pub use lives::{AUTHZ_LIFE, Life, NONCE_LIFE, ORDER_LIFE};
pub use reading::read_words;
