//! Why lines have no code.

use thiserror::Error;

/// Why no code was made of lines.
#[derive(Clone, Copy, Debug, Error)]
pub enum CodeFault {
    /// The code has more than 4096 instructions.
    #[error("TooLong")]
    TooLong,
    /// An allocation failed.
    #[error("NoMemory")]
    NoMemory,
}
