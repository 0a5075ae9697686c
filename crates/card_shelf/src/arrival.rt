//! Arrivals at a shelf, and the answers to them.

use card_core::{Judgement, Unjudged};
use upc_cell::Cell;

/// A cell and the moment when it comes.
#[derive(Clone, Copy)]
pub struct Arrival {
    pub cell: Cell,
    /// When the cell comes, in ticks.
    pub moment: u64,
}

/// The answer to an arrival: how it was judged, or why it wasn't. The cell itself is the caller's.
pub type Decision = Result<Judgement, Unjudged>;
