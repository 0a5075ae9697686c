//! Tests of cells.

use crate::field::Field;
use crate::relation::Relation;

/// A test of a cell.
#[derive(Drop)]
pub enum Test {
    /// Holds of every cell.
    Any,
    /// The payload type is 4 or 5, whatever else the header has: OAM of a virtual channel (F5). OAM of a virtual path (F4) is known by its
    /// VCI, 3 or 4, at which this test doesn't look.
    F5,
    /// A cell of user data: the payload type is 0 to 3.
    User,
    /// A comparison of a number of the cell, of which a mask may keep some bits.
    Compare {
        /// The number.
        field: Field,
        /// The bits that count, if not all do.
        mask: Option<u32>,
        /// What it is compared with.
        relation: Relation,
    },
    /// This test doesn't hold.
    Not(Box<Test>),
    /// Each of these tests holds.
    AllOf(Vec<Test>),
    /// At least one of these tests holds.
    AnyOf(Vec<Test>),
}
