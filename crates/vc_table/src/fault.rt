//! The errors of a table.

use thiserror::Error;

/// Why a connection got no line. Printed as its number and its name.
#[derive(Clone, Copy, Debug, PartialEq, Eq, Error)]
pub enum TableFault {
    /// The line is 65535, which a table doesn't keep.
    #[error("1 LineTooLarge")]
    LineTooLarge,
    /// 65,535 blocks of marks or 65,535 groups are in use, so none is left. Each of them has a connection of its own.
    #[error("2 Full")]
    Full,
    /// An allocation failed.
    #[error("3 NoMemory")]
    NoMemory,
}
