//! Merges comparisons of adjacent bits, and builds conjunctions.

ghost use Rattle.std.specs.Prelude.{◌≡◌, [], ◌∷◌, ◌++◌, IfOk};
ghost use Rattle.rules_code.specs.Neighbours.{AreOperands, IsAllOf, IsSingle, are_neighbours, joined_by, joined_single, single_of};

use crate::bits::lowest_bit;
use crate::leaves::is_same_load;
use crate::packet_part::{Part, Single, Span};
use crate::plain_test::PlainTest;
use std::alloc::{AllocError, Global};
use std::mem;

/// The test as a comparison with one span, if it is one.
fn single_of(test: &PlainTest) -> Option<Single>
    ensures { result ≡ single_of test.now }
{
    match test {
        PlainTest::Among {
            part,
            first,
            others,
        } => match part.mask {
            None => None,
            Some(mask) => {
                if others.is_empty() {
                    Some(Single {
                        part: *part,
                        mask,
                        span: *first,
                    })
                } else {
                    None
                }
            }
        },
        _ => None,
    }
}

/// Whether `high` compares with one value, and its bits are above those of `low` in the same octets.
fn are_neighbours(high: Single, low: Single) -> bool
    ensures { result ≡ are_neighbours high low }
{
    let unit = lowest_bit(high.mask);
    is_same_load(high.part, low.part)
        && high.span.low == high.span.high
        && high.mask % unit == 0
        && high.span.low % unit == 0
        && low.mask < unit
        && low.span.low < unit
        && low.span.high < unit
}

/// Merges two comparisons of adjacent bits.
fn joined_by(high: Single, low: Single) -> Single
    ensures { result ≡ joined_by high low }
{
    Single {
        part: high.part,
        mask: high.mask | low.mask,
        span: Span {
            low: high.span.low | low.span.low,
            high: high.span.low | low.span.high,
        },
    }
}

/// Merges two tests if they compare adjacent bits.
fn joined_single(one: &PlainTest, other: &PlainTest) -> Option<Single>
    ensures { result ≡ joined_single one.now other.now }
{
    match (single_of(one), single_of(other)) {
        (Some(one), Some(other)) => {
            if are_neighbours(one, other) {
                Some(joined_by(one, other))
            } else if are_neighbours(other, one) {
                Some(joined_by(other, one))
            } else {
                None
            }
        }
        _ => None,
    }
}

/// A comparison of masked bits with one span, as a test.
fn compared(alloc: Global, single: Single) -> PlainTest
    ensures { IsSingle single result }
{
    PlainTest::Among {
        part: Part {
            size: single.part.size,
            at: single.part.at,
            mask: Some(single.mask),
        },
        first: single.span,
        others: Vec::new(alloc),
    }
}

/// Merges adjacent comparisons, from left to right. The last operand is returned by itself.
fn operands_of(
    alloc: Global,
    first: PlainTest,
    others: Vec<PlainTest>,
) -> Result<(Vec<PlainTest>, PlainTest), AllocError>
    ensures { IfOk result (λ operands. AreOperands first others.items (operands.0.items ++ operands.1 ∷ [])) }
{
    let mut operands = Vec::new(alloc);
    let mut last = first;
    for test in others {
        match joined_single(&last, &test) {
            Some(single) => last = compared(alloc, single),
            None => operands.push(mem::replace(&mut last, test))?,
        }
    }
    Ok((operands, last))
}

/// The conjunction of these tests, in which comparisons of adjacent bits, as those of a path and of a channel, are merged.
/// Of one test it is that test; of none it always holds. It isn't inlined: its callers are recursive, and this would enlarge
/// each of their frames.
#[inline(never)]
pub fn all_of(alloc: Global, tests: Vec<PlainTest>) -> Result<PlainTest, AllocError>
    ensures { IfOk result (IsAllOf tests.items) }
{
    let mut tests = tests;
    if tests.is_empty() {
        return Ok(PlainTest::Always);
    }
    let first = tests.remove(0);
    let (mut operands, last) = operands_of(alloc, first, tests)?;
    if operands.is_empty() {
        return Ok(last);
    }
    operands.push(last)?;
    Ok(PlainTest::AllOf(operands))
}
