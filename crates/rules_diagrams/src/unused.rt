//! A rule that decides no cell.

/// A rule that decides no cell.
#[derive(Drop)]
pub struct Unused {
    /// The place of the rule among the lines of rules, counted from 0.
    pub place: usize,
    /// The places of the rules before it that decide the cells of which it holds, in order. There are none if it holds of no cell.
    pub takers: Vec<usize>,
}
