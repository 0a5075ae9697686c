//! The faults of texts of rules.

ghost use Rattle.std.specs.Prelude.{◌≡◌};
ghost use Rattle.rules_text.specs.inner.SeenFaults.{fault_seen};

use std::alloc::{AllocError, AllocFailed};
use thiserror::Error;

/// The kind of a fault.
#[derive(Clone, Copy, Debug, Error)]
pub enum RuleFaultKind {
    /// The token here, or the end of the line here, doesn't fit the grammar.
    #[error("1 BadLine")]
    BadLine,
    /// A word begins with a digit but is no number of at most 4294967295.
    #[error("2 BadNumber")]
    BadNumber,
    /// The field can't have the number or the mask, or the second number of a range is less than the first.
    #[error("3 TooLarge")]
    TooLarge,
    /// The octets aren't all in the cell.
    #[error("4 OutsideCell")]
    OutsideCell,
    /// A line with tokens comes after `otherwise`.
    #[error("5 AfterOtherwise")]
    AfterOtherwise,
    /// A parenthesis or a block lacks its other end.
    #[error("6 Unbalanced")]
    Unbalanced,
    /// Blocks and parentheses are nested more than 64 deep.
    #[error("7 TooDeep")]
    TooDeep,
    /// The code has more than 4096 instructions, a test more than 4096 comparisons and words, a definition more than 4096 tokens, the text
    /// more than 4096 names, or names add more than 262,144 tokens.
    #[error("8 TooLong")]
    TooLong,
    /// An allocation failed.
    #[error("9 NoMemory")]
    NoMemory,
    /// A word is no word of the language, and no name that was given before.
    #[error("10 UnknownName")]
    UnknownName,
    /// A name was given before, or is a word of the language.
    #[error("11 NameTaken")]
    NameTaken,
}

/// A step of a reader: nothing if it was taken, or the kind of its fault.
pub(crate) type Step = Result<(), RuleFaultKind>;

impl From<AllocError> for RuleFaultKind {
    ghost use Rattle.std.specs.Prelude.{◌≡◌};
    ghost use Rattle.rules_text.specs.declared.fault.RuleFaultKind.TheVariants.{NoMemory};

    ghost from_gives = { λ e kind. kind ≡ NoMemory };

    /// Returns the fault of a failed allocation.
    fn from(_: AllocError) -> RuleFaultKind {
        RuleFaultKind::NoMemory
    }
}

impl<T: Drop> From<AllocFailed<T>> for RuleFaultKind {
    ghost use Rattle.std.specs.Prelude.{◌≡◌};
    ghost use Rattle.rules_text.specs.declared.fault.RuleFaultKind.TheVariants.{NoMemory};

    ghost from_gives = { λ e kind. kind ≡ NoMemory };

    /// Returns the fault of a failed allocation.
    fn from(_: AllocFailed<T>) -> RuleFaultKind {
        RuleFaultKind::NoMemory
    }
}

/// The fault of a text of rules.
#[derive(Clone, Copy, Debug, Error)]
#[error("{kind} {line} {column}")]
pub struct RuleFault {
    /// The source line, counted from 1; 0 if the fault has no place, or while only its column in its line of rules is known.
    pub line: usize,
    /// The column at which the fault is, counted from 1; 0 if the fault has no place.
    pub column: usize,
    /// The kind of the fault.
    pub kind: RuleFaultKind,
}

impl From<AllocError> for RuleFault {
    ghost use Rattle.std.specs.Prelude.{◌≡◌};
    ghost use Rattle.rules_text.specs.TextOfRules.{placed_fault};
    ghost use Rattle.rules_text.specs.declared.fault.RuleFaultKind.TheVariants.{NoMemory};

    ghost from_gives = { λ e fault. fault ≡ placed_fault 0 0 NoMemory };

    /// Returns the fault of a failed allocation.
    fn from(_: AllocError) -> RuleFault {
        fault_at(RuleFaultKind::NoMemory, 0, 0)
    }
}

impl<T: Drop> From<AllocFailed<T>> for RuleFault {
    ghost use Rattle.std.specs.Prelude.{◌≡◌};
    ghost use Rattle.rules_text.specs.TextOfRules.{placed_fault};
    ghost use Rattle.rules_text.specs.declared.fault.RuleFaultKind.TheVariants.{NoMemory};

    ghost from_gives = { λ e fault. fault ≡ placed_fault 0 0 NoMemory };

    /// Returns the fault of a failed allocation.
    fn from(_: AllocFailed<T>) -> RuleFault {
        fault_at(RuleFaultKind::NoMemory, 0, 0)
    }
}

/// The fault of this kind at a place. `NoMemory` has no place: its line and column are 0.
pub(crate) fn fault_at(kind: RuleFaultKind, line: usize, column: usize) -> RuleFault
    ensures { result ≡ fault_seen line column kind }
{
    match kind {
        RuleFaultKind::NoMemory => RuleFault {
            line: 0,
            column: 0,
            kind,
        },
        _ => RuleFault { line, column, kind },
    }
}

/// The fault of this kind at a column of a line of rules. Where the line is in the text isn't known yet, so its line is 0.
pub(crate) fn fault_in_line(kind: RuleFaultKind, column: usize) -> RuleFault
    ensures { result ≡ fault_seen 0 column kind }
{
    fault_at(kind, 0, column)
}
