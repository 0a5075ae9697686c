//! How a cell goes on.

/// Whether a cell goes on to the output, and in which form.
#[derive(Clone, Copy)]
pub enum Onward {
    /// It doesn't go on: its record isn't written.
    Stays,
    /// As it came.
    Unchanged,
    /// Tagged: with cell loss priority 1.
    Tagged,
}
