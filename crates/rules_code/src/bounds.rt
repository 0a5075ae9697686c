//! Comparisons of the upper bits of octets with one bound. They become comparisons of the octets themselves, which need no mask.

ghost use Rattle.std.specs.Prelude.{◌≡◌, IfOk};
ghost use Rattle.rules_code.specs.BitTests.{lowest_bit};
ghost use Rattle.rules_code.specs.Bounds.{IsAtMost, IsBoundTest, IsComparison, IsNotOf, bound_in, bound_of, is_upper, most_in, last_alike};

use crate::bits::lowest_bit;
use crate::leaves::whole_of;
use crate::packet_part::{Part, Span};
use crate::plain_test::PlainTest;
use bpf_code::Size;
use std::alloc::{AllocError, Global};

/// A comparison of octets with one bound. It is public because definitions name it.
#[derive(Clone, Copy)]
pub struct BoundTest {
    /// The bound.
    pub most: u32,
    /// Whether the test is that the octets are at most this, and not that they are greater.
    pub within: bool,
}

/// The largest number of one, two or four octets.
fn most_in(size: Size) -> u32
    ensures { result ≡ most_in size }
{
    match size {
        Size::Word => 0xffff_ffff,
        Size::Half => 0xffff,
        Size::Octet => 0xff,
    }
}

/// Whether a mask keeps all bits of these octets from some bit upwards, and no lower bit.
fn is_upper(size: Size, mask: u32) -> bool
    ensures { result ≡ is_upper size mask }
{
    let most = most_in(size);
    mask <= most && u64::from(most - mask) + 1 == u64::from(lowest_bit(mask))
}

/// The largest number whose bits from the lowest bit of a mask upwards are those of `number`.
fn last_alike(mask: u32, number: u32) -> u32
    ensures { result ≡ last_alike (lowest_bit mask) number }
{
    let unit = lowest_bit(mask);
    (number - number % unit).saturating_add(unit - 1)
}

/// The bound of a comparison of masked bits with a span, if it has one: an upper bound if the span begins at 0, a lower one if the span
/// ends with the largest number.
fn bound_in(mask: u32, span: Span) -> Option<BoundTest>
    ensures { result ≡ bound_in mask (lowest_bit mask) span }
{
    let unit = lowest_bit(mask);
    if span.low == 0 && unit <= span.high {
        Some(BoundTest {
            most: last_alike(mask, span.high),
            within: true,
        })
    } else if unit < span.low && span.low < mask && mask <= span.high {
        Some(BoundTest {
            most: last_alike(mask, span.low - 1),
            within: false,
        })
    } else {
        None
    }
}

/// The bound of a comparison of octets, if its mask keeps their bits from some bit upwards and it has one bound.
fn bound_of(size: Size, mask: Option<u32>, first: Span, others: &[Span]) -> Option<BoundTest>
    ensures { result ≡ bound_of size mask first others.now }
{
    match mask {
        None => None,
        Some(mask) => {
            if others.is_empty() && is_upper(size, mask) {
                bound_in(mask, first)
            } else {
                None
            }
        }
    }
}

/// The test that the octets of a part are at most a number.
fn at_most(alloc: Global, part: Part, most: u32) -> PlainTest
    ensures { IsAtMost part most result }
{
    PlainTest::Among {
        part: whole_of(part),
        first: Span { low: 0, high: most },
        others: Vec::new(alloc),
    }
}

/// The test that the octets of a part are greater than a number.
fn greater(alloc: Global, part: Part, most: u32) -> Result<PlainTest, AllocError>
    ensures { IfOk result (IsNotOf (IsAtMost part most)) }
{
    let test = at_most(alloc, part, most);
    Ok(PlainTest::Not(Box::new(alloc, test)?))
}

/// The test that the octets of a part are within a bound.
#[tactic(auto, using(crate::proofs::BoundTests::within_is, crate::proofs::BoundTests::greater_is))]
fn bounded(alloc: Global, part: Part, bound: BoundTest) -> Result<PlainTest, AllocError>
    ensures { IfOk result (IsBoundTest part bound) }
{
    if bound.within {
        return Ok(at_most(alloc, part, bound.most));
    }
    let test = greater(alloc, part, bound.most)?;
    Ok(test)
}

/// The test that a part is in one of these spans. Where the mask keeps the upper bits and there is one bound, the octets are compared
/// without the mask: the lower bits decide nothing.
pub fn comparison_test(
    alloc: Global,
    part: Part,
    first: Span,
    others: Vec<Span>,
) -> Result<PlainTest, AllocError>
    ensures { IfOk result (IsComparison part first others.items) }
{
    match bound_of(part.size, part.mask, first, &others) {
        None => Ok(PlainTest::Among {
            part,
            first,
            others,
        }),
        Some(bound) => {
            let test = bounded(alloc, part, bound)?;
            Ok(test)
        }
    }
}
