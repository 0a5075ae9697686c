//! What a run of `police` is about.

use captures::{Link, TimeSource};
use captures_text::LineChoice;

/// Which cells of a capture are policed, and what is written about them.
#[derive(Clone, Copy)]
pub struct PoliceScope {
    /// The link whose cells are read. Without one the cells of a capture may be of one link only.
    pub link: Option<Link>,
    /// Which time of a record counts.
    pub timing: TimeSource,
    /// Which cells have lines.
    pub lines: LineChoice,
    /// How many nanoseconds a span has, if the counts of each span of time are written. A span has whole ticks, at least one.
    pub every: Option<u64>,
    /// Whether lines show the rule that gave a cell its value.
    pub why: bool,
}
