//! Why words ask for nothing.
use clap::error::ErrorKind;
use std::alloc::{AllocError, Global};
use std::fmt::Write;
use thiserror::Error;

/// Why words ask for nothing, with the text that says it.
#[derive(Debug, Drop, Error)]
pub enum WordsFault {
    /// They ask for help or the version: its text goes to standard output.
    #[error("{0}")]
    Help(String),
    /// They are wrong: the text goes to standard error.
    #[error("{0}")]
    Wrong(String),
    /// A growth was refused.
    #[error("out of memory")]
    Memory,
}

impl WordsFault {
    /// What an error of the parser says.
    pub(crate) fn of(alloc: Global, error: &clap::Error) -> WordsFault {
        if error.kind() == ErrorKind::OutOfMemory {
            return WordsFault::Memory;
        }
        let mut text = String::new(alloc);
        if write!(text, "{error}").is_err() {
            return WordsFault::Memory;
        }
        if error.use_stderr() {
            WordsFault::Wrong(text)
        } else {
            WordsFault::Help(text)
        }
    }
}

impl From<AllocError> for WordsFault {
    fn from(_refused: AllocError) -> WordsFault {
        WordsFault::Memory
    }
}
