//! How a run ends.

use std::alloc::AllocError;
use thiserror::Error;

/// How an answer ended. The exit status is 0 after `Whole`, and 1 after `Ended` unless a subcommand says otherwise.
#[derive(Clone, Copy, PartialEq, Eq, Debug)]
pub enum Done {
    /// The whole input was answered.
    Whole,
    /// A line or a fault ended the run early, or the answer to the whole input is a fault or a finding.
    Ended,
}

/// Why a run could not finish its answer. A run ends at the first failure. What it has written is then a prefix of the answer.
#[derive(Clone, Copy, PartialEq, Eq, Debug, Error)]
pub enum RunFault {
    /// The input failed.
    #[error("reading failed")]
    ReadFailed,
    /// The output failed.
    #[error("writing failed")]
    WriteFailed,
    /// An allocation failed.
    #[error("out of memory")]
    NoMemory,
}

/// How a run ended, or why it failed.
pub type Ending = Result<Done, RunFault>;

/// Whether the input was answered whole, by a function that appends to the answers. The error is that memory is short.
pub type Answered = Result<Done, AllocError>;

/// Whether a function could append its text to the answers. The error is that memory is short.
pub type Added = Result<(), AllocError>;
