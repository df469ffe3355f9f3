//! Why a line is not answered, and why a batch ends.

use desk::DeskFault;
use thiserror::Error;

/// Why a line is not answered.
#[derive(Clone, Copy, Debug, Error)]
pub enum AnswerFault {
    /// The line is no call.
    #[error("not a call")]
    NotACall,
    /// The desk declined the call.
    #[error("{0}")]
    Desk(DeskFault),
    /// A growth was refused outside the desk, which is unchanged or as its answer left it.
    #[error("out of memory")]
    Memory,
}

/// Why a batch ends before its input does.
#[derive(Clone, Copy, Debug, Error)]
pub(crate) enum BatchFault {
    /// The reader failed.
    #[error("input")]
    Input,
    /// The writer failed.
    #[error("output")]
    Output,
    /// The line of this number, from 1, is no call.
    #[error("line {0}: not a call")]
    NotACall(u64),
    /// The desk declined a call, or there was no memory for a line.
    #[error("{0}")]
    Desk(DeskFault),
}
