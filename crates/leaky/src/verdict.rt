//! Verdicts.

/// What happens to a cell.
#[derive(Clone, Copy, Debug, PartialEq, Eq)]
pub enum Verdict {
    /// The cell passes unchanged.
    Pass,
    /// The cell passes with cell loss priority 1.
    Tag,
    /// The cell doesn't conform and is dropped.
    Discard,
    /// No contract was named for the cell, and it is dropped. `judge` never returns this; its caller may.
    Refuse,
}
