//! Cells of a capture that count.

use upc_cell::Cell;

/// A cell that counts: it is of the link that is read, and its time isn't before that of the capture's first cell or of an earlier cell
/// that counts.
#[derive(Clone, Copy)]
pub struct CapturedCell {
    /// The number of its record in the capture, from 1.
    pub number: u64,
    /// When it arrived, in ticks since the first cell of the capture.
    pub moment: u64,
    /// Its octets.
    pub cell: Cell,
}
