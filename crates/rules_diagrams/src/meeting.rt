//! What two diagrams give one cell.

use crate::diagram::Diagram;
use upc_cell::Cell;

/// The numbers that two diagrams give a cell, and the cell.
#[derive(Clone, Copy)]
pub(crate) struct Meeting {
    /// The number that the first diagram gives.
    pub one: u32,
    /// The number that the other gives.
    pub other: u32,
    /// The cell.
    pub cell: Cell,
}

/// Two numbers.
#[derive(Clone, Copy)]
pub(crate) struct Pair {
    /// The first.
    pub one: u32,
    /// The other.
    pub other: u32,
}

/// Two diagrams, which may be of two stores.
#[derive(Clone, Copy, PartialEq, Eq)]
pub(crate) struct Both {
    /// The first.
    pub one: Diagram,
    /// The other.
    pub other: Diagram,
}
