//! Diagrams of the numbers that are written in some bits of a cell.

ghost use Rattle.std.specs.Prelude.{◌≡◌, ◌+◌, ◌-◌, ◌/◌, ◌%◌, ◌^◌, ◌==◌, ◌≤◌, ◌<◌, IfOk};
ghost use Rattle.rules_diagrams.specs.inner.Values.{Keeps};
ghost use Rattle.rules_diagrams.specs.inner.Spans.{IsSpan};

use crate::diagram::Diagram;
use crate::fault::Drawn;
use crate::store::Diagrams;

/// Some bits of a cell that are one number, the first highest.
#[derive(Clone, Copy)]
pub(crate) struct Bits {
    /// The first bit. Bit 0 is the highest bit of the first octet.
    pub bit: u16,
    /// How many bits.
    pub width: u16,
}

/// The numbers from `low` on that are less than `end`.
#[derive(Clone, Copy)]
pub(crate) struct Interval {
    /// The first number.
    pub low: u64,
    /// The number after the last.
    pub end: u64,
}

/// 2 to this power.
fn power(exponent: u16) -> u64
    requires { exponent ≤ 32 }
    ensures { result ≡ 2 ^ exponent }
{
    1 << exponent
}

/// Whether a mask has this bit.
fn has_bit(mask: u32, place: u16) -> bool
    requires { place < 32 }
    ensures { result ≡ ((mask / 2 ^ place) % 2 == 1) }
{
    mask >> place & 1 == 1
}

/// The interval in which the rest of a number is, once this part was taken from it.
fn without(reach: Interval, part: u64) -> Interval
    ensures low { result.low ≡ reach.low - part }
    ensures end { result.end ≡ reach.end - part }
{
    Interval {
        low: reach.low.saturating_sub(part),
        end: reach.end.saturating_sub(part),
    }
}

impl Diagrams {
    /// The diagram that gives 1 to the cells in which these bits, of which a mask keeps some, are a number in this reach, and 0 to all
    /// others. The reach may go beyond the largest number of the bits.
    ///
    /// # Errors
    ///
    /// Those of [`choose`](Self::choose).
    #[tactic(auto, using(crate::proofs::Nodes::keeps_both, crate::proofs::Nodes::keeps_itself))]
    pub(crate) fn span(&mut self, bits: Bits, mask: u32, reach: Interval) -> Drawn
        requires width { bits.width ≤ 32 }
        requires inside { bits.bit + bits.width ≤ 416 }
        ensures keeps { Keeps self.old self.new }
        ensures span { IfOk result (IsSpan self.new bits mask reach) }
    {
        let all = power(bits.width);
        if reach.end <= reach.low || all <= reach.low {
            return Ok(Diagram::Leaf(0));
        }
        if reach.low == 0 && all <= reach.end {
            return Ok(Diagram::Leaf(1));
        }
        if bits.width == 0 {
            return Ok(Diagram::Leaf(0));
        }
        let rest = Bits {
            bit: bits.bit + 1,
            width: bits.width - 1,
        };
        if !has_bit(mask, rest.width) {
            return self.span(rest, mask, reach);
        }
        let low = self.span(rest, mask, reach)?;
        let high = self.span(rest, mask, without(reach, power(rest.width)))?;
        self.make(bits.bit, low, high)
    }
}
