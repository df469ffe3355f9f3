//! The life of a desk over two files, and what the words of the program leave of it. Nothing stands on it.
#![tactic(auto)]

mod files;
mod words;

pub use files::files_live;
pub use words::words_live;
