//! The errors of lines and directories.

use thiserror::Error;

/// An error of a line. Printed as its number and its name.
#[derive(Clone, Copy, Debug, PartialEq, Eq, Error)]
pub enum LineFault {
    /// The moment is above 2^62.
    #[error("1 TooLate")]
    TooLate,
    /// The moment is before this one, which is that of the connection's last judged cell.
    #[error("2 Back {0}")]
    Back(u64),
    /// The journal is full, or 2^62 cells were judged on the line.
    #[error("3 Full")]
    Full,
    /// An allocation failed.
    #[error("4 NoMemory")]
    NoMemory,
}

/// An error of a directory. Printed as its number and its name.
#[derive(Clone, Copy, Debug, PartialEq, Eq, Error)]
pub enum DirFault {
    /// The number of lines is 0.
    #[error("1 NoLines")]
    NoLines,
    /// The first incarnation is 0 or above 2^62.
    #[error("2 BadFirst")]
    BadFirst,
    /// An allocation failed.
    #[error("3 NoMemory")]
    NoMemory,
}
