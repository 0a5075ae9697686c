//! What a run of `upc-lab fit` is asked for.

use captures::{Link, Tick, TimeSource};
use upc_cell::Side;

/// What a run of `fit` is asked for, beside rules.
#[derive(Clone, Copy)]
pub struct FitChoice {
    /// The increment of the bucket, in ticks: 1 to 2^48.
    pub increment: u64,
    /// How long a tick is.
    pub tick: Tick,
    /// The link whose cells are read. Without one the cells of a capture may be of one link only.
    pub link: Option<Link>,
    /// Which time of a record counts.
    pub timing: TimeSource,
    /// The side at which headers are read, and what a connection is there.
    pub side: Side,
    /// The cell loss priority (CLP) of the cells that are read, 0 or 1, if not all are.
    pub clp: Option<u8>,
}
