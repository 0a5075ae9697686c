//! The least limit of the cells of one line.

ghost use Rattle.std.specs.Prelude.{◌≡◌, Some, None, if◌then◌else◌};
ghost use Rattle.cmd_fit.specs.Fits.{fit_after, is_in_64_bits, no_cells};

use crate::flow::Flow;

/// A flow after some of its cells.
#[derive(Clone, Copy)]
pub struct FlowFit {
    /// The flow.
    pub flow: Flow,
    /// The number of its cells.
    pub cells: u64,
    /// The level of its bucket after the last cell, in ticks, if every cell conforms.
    pub level: u64,
    /// The moment of the last cell, in ticks: the last conformance time of I.371, which `Bucket` of `leaky` also calls `charged`.
    pub charged: u64,
    /// The highest level that a cell found in the bucket, in ticks. It is the least limit under which all cells conform.
    pub limit: u64,
    /// The number of the first record whose cell found this level.
    pub number: u64,
}

impl FlowFit {
    /// Returns the state after the first cell of this flow.
    pub(crate) fn first(flow: Flow, increment: u64, moment: u64, number: u64) -> FlowFit
        ensures { result ≡ fit_after increment (no_cells flow number) moment number }
    {
        FlowFit {
            flow,
            cells: 1,
            level: increment,
            charged: moment,
            limit: 0,
            number,
        }
    }

    /// Returns the state after one more cell, or none if 64 bits don't hold its numbers.
    pub(crate) fn after(self, increment: u64, moment: u64, number: u64) -> Option<FlowFit>
        ensures { result ≡ (if is_in_64_bits (fit_after increment self moment number)
            then Some (fit_after increment self moment number) else None) }
    {
        let elapsed = moment.saturating_sub(self.charged);
        let needed = self.level.saturating_sub(elapsed);
        let cells = self.cells.checked_add(1)?;
        let level = needed.checked_add(increment)?;
        Some(FlowFit {
            flow: self.flow,
            cells,
            level,
            charged: moment,
            limit: self.limit.max(needed),
            number: if self.limit < needed {
                number
            } else {
                self.number
            },
        })
    }
}
