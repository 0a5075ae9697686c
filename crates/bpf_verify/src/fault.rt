//! The faults of a code that is no program.

use bpf_code::Instr;
use thiserror::Error;

/// The first fault of a code. Places count instructions from 0.
///
/// The check tries the faults in the order of their numbers, except 3 to 6: of these, the first instruction that has
/// one decides.
#[derive(Clone, Copy, Debug, PartialEq, Eq, Error)]
pub enum Fault {
    /// There is no instruction.
    #[error("1 Empty")]
    Empty,
    /// There are more than 4096 instructions.
    #[error("2 TooLong")]
    TooLong,
    /// The instruction at this place uses a scratch word other than the sixteen.
    #[error("3 BadScratch {at}")]
    BadScratch {
        /// The place of the instruction.
        at: usize,
    },
    /// The instruction at this place divides by the constant 0.
    #[error("4 ZeroDivisor {at}")]
    ZeroDivisor {
        /// The place of the division.
        at: usize,
    },
    /// The instruction at this place shifts by a constant of 32 or more.
    #[error("5 BadShift {at}")]
    BadShift {
        /// The place of the shift.
        at: usize,
    },
    /// The jump at this place leads outside the code.
    #[error("6 JumpOutside {at}")]
    JumpOutside {
        /// The place of the jump.
        at: usize,
    },
    /// The last instruction is not a return.
    #[error("7 NoReturn")]
    NoReturn,
    /// The instruction at this place reads a scratch word that some path to it does not store.
    #[error("8 Unwritten {at} {word}")]
    Unwritten {
        /// The place of the read.
        at: usize,
        /// The index of the scratch word, 0 to 15.
        word: u32,
    },
}

/// A code that the check refused, with its fault.
#[derive(Debug, Drop, Error)]
#[error("{fault}")]
pub struct Refused {
    /// The code, unchanged.
    pub code: Vec<Instr>,
    /// Its first fault.
    pub fault: Fault,
}
