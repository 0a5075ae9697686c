//! What is known of a link.

ghost use Rattle.std.specs.Prelude.{◌≡◌};
ghost use Rattle.cmd_fit.specs.LinkTallies.{opening_tally, one_more_cell};

use captures::Record;

/// What is known of a link from the records of its cells.
#[derive(Clone, Copy)]
pub struct LinkTally {
    /// How many cells it has.
    pub cells: u64,
    /// The time of its first cell, in units of 2^-32 seconds since 1970.
    pub first: u64,
    /// The time of its last cell, in the same units.
    pub last: u64,
    /// How many records were lost before its cells, by their loss counters.
    pub losses: u64,
}

impl LinkTally {
    /// Returns the tally of a link that has the cell of this record alone.
    pub(crate) fn first(record_read: &Record<'_>) -> LinkTally
        ensures { result ≡ opening_tally record_read.now }
    {
        LinkTally {
            cells: 1,
            first: record_read.time,
            last: record_read.time,
            losses: u64::from(record_read.marks.losses),
        }
    }

    /// Returns the tally with one more cell, that of this record.
    pub(crate) fn with(self, record_read: &Record<'_>) -> LinkTally
        ensures { result ≡ one_more_cell self record_read.now }
    {
        LinkTally {
            cells: self.cells.saturating_add(1),
            last: record_read.time,
            losses: self
                .losses
                .saturating_add(u64::from(record_read.marks.losses)),
            ..self
        }
    }
}
