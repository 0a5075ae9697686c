//! The counts of a line, as C gets them.

ghost use Rattle.std.specs.Prelude.{◌≡◌};
ghost use Rattle.upc_c.specs.CardInspection.{counts_for_c};

use line_record::Tally;

/// The number of cells of each verdict that were judged on a line, including those of earlier connections.
#[repr(C)]
#[derive(Clone, Copy, Debug)]
pub struct UpcCounts {
    /// Cells that conformed.
    pub passed: u64,
    /// Cells that were tagged.
    pub tagged: u64,
    /// Cells that were discarded.
    pub discarded: u64,
    /// Cells whose program named no contract.
    pub refused: u64,
}

/// Returns the counts as C has them.
pub(crate) fn counts_for_c(tally: Tally) -> UpcCounts
    ensures { result ≡ counts_for_c tally }
{
    UpcCounts {
        passed: tally.passed,
        tagged: tally.tagged,
        discarded: tally.discarded,
        refused: tally.refused,
    }
}
