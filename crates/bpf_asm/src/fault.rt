//! The errors of the assembler and of the listing.

use thiserror::Error;

/// The kind of a fault in a source.
#[derive(Clone, Copy, Debug, PartialEq, Eq, Error)]
pub enum AsmKind {
    /// The line is outside the grammar.
    #[error("1 BadLine")]
    BadLine,
    /// A word begins with a digit but is no number, or its number is above 4294967295.
    #[error("2 BadNumber")]
    BadNumber,
    /// An earlier line defines the same label.
    #[error("3 LabelTwice")]
    LabelTwice,
    /// No line defines the label.
    #[error("4 UnknownLabel")]
    UnknownLabel,
    /// The label names the jump's own place or an earlier one.
    #[error("5 Backward")]
    Backward,
    /// The offset is above 255 in a branch, or above 4294967295 in `ja`.
    #[error("6 TooFar")]
    TooFar,
    /// No instruction follows the label.
    #[error("7 DanglingLabel")]
    DanglingLabel,
    /// An allocation failed.
    #[error("8 NoMemory")]
    NoMemory,
}

/// The fault of a source that means no code.
#[derive(Clone, Copy, Debug, PartialEq, Eq, Error)]
#[error("{kind} {line}")]
pub struct AsmFault {
    /// The line, counted from 1; 0 after an allocation failure.
    pub line: usize,
    /// The kind of the fault.
    pub kind: AsmKind,
}

/// The reason why a code has no listing.
#[derive(Clone, Copy, Debug, PartialEq, Eq, Error)]
pub enum ListFault {
    /// Some jump leads outside the code: the first such place, counted from 0.
    #[error("1 JumpOutside {0}")]
    JumpOutside(usize),
    /// An allocation failed.
    #[error("2 NoMemory")]
    NoMemory,
}
