//! The errors of making a card and of the desk.

use thiserror::Error;

/// The reason why a card can't be made. Printed as its number and its name.
#[derive(Clone, Copy, Debug, PartialEq, Eq, Error)]
pub enum CardFault {
    /// The number of programs isn't 1 to 1024.
    #[error("1 Programs")]
    Programs,
    /// The number of lines isn't 1 to 4096.
    #[error("2 Lines")]
    Lines,
    /// The number of ports isn't 1 to 16.
    #[error("3 Ports")]
    Ports,
    /// The number of a journal's entries isn't 1 to 65536.
    #[error("4 Journal")]
    Journal,
    /// An allocation failed.
    #[error("5 NoMemory")]
    NoMemory,
}

/// An error of the desk. Printed as its number and its name.
#[derive(Clone, Copy, Debug, PartialEq, Eq, Error)]
pub enum DeskFault {
    /// The program isn't live.
    #[error("1 NoProgram")]
    NoProgram,
    /// There is no such connection.
    #[error("2 NoConnection")]
    NoConnection,
    /// The connection exists already.
    #[error("3 Taken")]
    Taken,
    /// Each line has a connection.
    #[error("4 NoLine")]
    NoLine,
    /// Some connection names the program.
    #[error("5 InUse")]
    InUse,
    /// No slot for a program is free.
    #[error("6 ProgramsFull")]
    ProgramsFull,
    /// The last incarnation was given.
    #[error("7 Exhausted")]
    Exhausted,
    /// There is no contract.
    #[error("8 BadContracts")]
    BadContracts,
    /// Some port has a cell.
    #[error("9 Busy")]
    Busy,
    /// An allocation failed.
    #[error("10 NoMemory")]
    NoMemory,
    /// The line that was passed isn't as the directory has it.
    #[error("11 Stale")]
    Stale,
}
