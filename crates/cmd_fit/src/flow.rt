//! Which cells share a line of `fit`.

use upc_cell::Vc;

/// What the cells of one line have in common: their connection and, if rules are given, their value.
#[derive(Clone, Copy)]
pub struct Flow {
    /// The connection.
    pub vc: Vc,
    /// The value that the rules give the cells, or 0 without rules.
    pub value: u32,
}
