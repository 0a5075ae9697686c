//! Why nothing was decided.

use crate::diagram::Diagram;
use std::alloc::{AllocError, AllocFailed};
use thiserror::Error;

/// A diagram, or why none was made.
pub(crate) type Drawn = Result<Diagram, Undecided>;

/// Why no diagram was made, or diagrams weren't compared.
#[derive(Clone, Copy, Debug, Error)]
pub enum Undecided {
    /// A limit was met: of nodes, of steps, of cases, of lines of rules, or of what is remembered of a program.
    #[error("TooLarge")]
    TooLarge,
    /// An allocation failed.
    #[error("NoMemory")]
    NoMemory,
}

impl From<AllocError> for Undecided {
    ghost use Rattle.std.specs.Prelude.{◌≡◌};
    ghost use Rattle.rules_diagrams.specs.declared.fault.Undecided.TheVariants.{NoMemory};

    ghost from_gives = { λ e fault. fault ≡ NoMemory };

    /// Returns the reason of a failed allocation.
    fn from(_: AllocError) -> Undecided {
        Undecided::NoMemory
    }
}

impl<T: Drop> From<AllocFailed<T>> for Undecided {
    ghost use Rattle.std.specs.Prelude.{◌≡◌};
    ghost use Rattle.rules_diagrams.specs.declared.fault.Undecided.TheVariants.{NoMemory};

    ghost from_gives = { λ e fault. fault ≡ NoMemory };

    /// Returns the reason of a failed allocation.
    fn from(_: AllocFailed<T>) -> Undecided {
        Undecided::NoMemory
    }
}

/// Why a program has no diagram.
#[derive(Clone, Copy)]
pub(crate) enum Unfollowed {
    /// The instruction at this place isn't followed: what it does depends on the cell in a way that no constant and no single bits of the
    /// cell express, such as a sum of octets.
    At(usize),
    /// No diagram was made.
    Undecided(Undecided),
}

impl From<Undecided> for Unfollowed {
    ghost use Rattle.std.specs.Prelude.{◌≡◌};
    ghost use Rattle.rules_diagrams.specs.declared.fault.Unfollowed.TheVariants.{Undecided as Because};

    ghost from_gives = { λ e fault. fault ≡ Because e };

    /// Returns why.
    fn from(why: Undecided) -> Unfollowed {
        Unfollowed::Undecided(why)
    }
}

impl<T: Drop> From<AllocFailed<T>> for Unfollowed {
    ghost use Rattle.std.specs.Prelude.{◌≡◌};
    ghost use Rattle.rules_diagrams.specs.declared.fault.Undecided.TheVariants.{NoMemory};
    ghost use Rattle.rules_diagrams.specs.declared.fault.Unfollowed.TheVariants.{Undecided as Because};

    ghost from_gives = { λ e fault. fault ≡ Because NoMemory };

    /// Returns the reason of a failed allocation.
    fn from(_: AllocFailed<T>) -> Unfollowed {
        Unfollowed::Undecided(Undecided::NoMemory)
    }
}

/// Why old and new rules or programs weren't compared.
#[derive(Clone, Copy, Debug, Error)]
pub enum Uncompared {
    /// The old program isn't followed at the instruction at this place, counted from 0.
    #[error("old: not decided at instruction {0}")]
    Old(usize),
    /// The new program isn't followed at the instruction at this place.
    #[error("new: not decided at instruction {0}")]
    New(usize),
    /// There are too many cases, or an allocation failed.
    #[error("{0}")]
    Undecided(Undecided),
}

impl From<Undecided> for Uncompared {
    ghost use Rattle.std.specs.Prelude.{◌≡◌};
    ghost use Rattle.rules_diagrams.specs.declared.fault.Uncompared.TheVariants.{Undecided as Because};

    ghost from_gives = { λ e fault. fault ≡ Because e };

    /// Returns why.
    fn from(why: Undecided) -> Uncompared {
        Uncompared::Undecided(why)
    }
}
