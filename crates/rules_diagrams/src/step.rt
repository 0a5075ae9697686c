//! Choices between diagrams: what is asked for, and the answers that the store keeps, so that they needn't be found again.

use crate::diagram::Diagram;

/// A choice that is asked for.
#[derive(Clone, Copy, PartialEq, Eq)]
pub(crate) struct Asked {
    /// The diagram that decides.
    pub test: Diagram,
    /// The diagram of the cells to which `test` gives any number but 0.
    pub one: Diagram,
    /// The diagram of the cells to which `test` gives 0.
    pub other: Diagram,
}

/// A choice that was made.
#[derive(Clone, Copy)]
pub(crate) struct Step {
    /// What was asked for.
    pub asked: Asked,
    /// The diagram that is the choice.
    pub answer: Diagram,
}

/// The parts of a choice: what is asked for where a bit isn't set and where it is.
#[derive(Clone, Copy)]
pub(crate) struct Parts {
    /// Where it isn't set.
    pub low: Asked,
    /// Where it is set.
    pub high: Asked,
}
