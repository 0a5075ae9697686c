//! What the two sides of a comparison decide for one cell.

use rules_cells::Decision;
use upc_cell::Cell;

/// What the old and the new side of a comparison decide for a cell. A side is rules or a program; a program decides by no line.
#[derive(Clone, Copy)]
pub struct Case {
    /// What the old side decides.
    pub old: Decision,
    /// What the new side decides.
    pub new: Decision,
    /// The least cell for which they decide so. Cells are compared as numbers of 52 octets, the first octet highest.
    pub cell: Cell,
}
