//! Comparisons that ask whether some bits are set.

ghost use Rattle.std.specs.Prelude.{◌≡◌};
ghost use Rattle.rules_code.specs.BitTests.{lowest_bit, bits_from, bits_in, bits_of};

use crate::packet_part::Span;

/// A test of bits of a number. It is public because definitions name it.
#[derive(Clone, Copy)]
pub struct BitTest {
    /// The bits.
    pub bits: u32,
    /// Whether the test is that one of them is set, and not that none is.
    pub set: bool,
}

/// The lowest bit of a mask as a number: a power of 2.
pub(crate) fn lowest_bit(mask: u32) -> u32
    ensures { result ≡ lowest_bit mask }
{
    1u32 << (mask.trailing_zeros() % 32)
}

/// The bit test that is equivalent to a comparison of masked bits with a span, if there is one. `unit` is the lowest bit of the mask.
fn bits_in(mask: u32, unit: u32, span: Span) -> Option<BitTest>
    ensures { result ≡ bits_in mask unit span }
{
    if span.low == 0 && span.high < unit {
        Some(BitTest {
            bits: mask,
            set: false,
        })
    } else if 0 < span.low && span.low <= unit && mask <= span.high {
        Some(BitTest {
            bits: mask,
            set: true,
        })
    } else {
        None
    }
}

/// The bit test that is equivalent to a comparison of masked bits with a span, if there is one.
fn bits_from(mask: u32, span: Span) -> Option<BitTest>
    ensures { result ≡ bits_from mask (lowest_bit mask) span }
{
    let unit = lowest_bit(mask);
    if mask % unit == 0 {
        bits_in(mask, unit, span)
    } else {
        None
    }
}

/// The bit test that is equivalent to this comparison, if there is one.
pub(crate) fn bits_of(mask: Option<u32>, first: Span, others: &[Span]) -> Option<BitTest>
    ensures { result ≡ bits_of mask first others.now }
{
    match mask {
        None => None,
        Some(mask) => {
            if others.is_empty() {
                bits_from(mask, first)
            } else {
                None
            }
        }
    }
}
