//! Rules, as lines.

use crate::test::Test;
use upc_cell::Side;

/// A line: a rule, the head of a block, or its end. Lines are tried in order.
#[derive(Drop)]
pub enum RuleLine {
    /// A rule: a cell of which the test holds has this value.
    Rule {
        /// The test.
        test: Test,
        /// The value.
        value: u32,
    },
    /// The lines up to the block's end are tried only where the test holds.
    Block {
        /// The test.
        test: Test,
    },
    /// The end of the block that began last.
    End,
}

/// Rules for the cells at one side.
#[derive(Drop)]
pub struct Rules {
    /// The side at which headers are read.
    pub side: Side,
    /// The lines, in order.
    pub lines: Vec<RuleLine>,
    /// The value where no rule gives one.
    pub otherwise: u32,
}
