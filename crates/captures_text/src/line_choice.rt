//! Which cells get a line of the output.

/// Which cells get a line of the output.
#[derive(Clone, Copy)]
pub enum LineChoice {
    /// All cells.
    All,
    /// Those that don't pass: also tagged ones, and those that aren't judged. The option calls them `refused`.
    NotPassed,
    /// No cell.
    Nothing,
}
