//! Turns tests of cells into tests of masked octets (`PlainTest`).

ghost use Rattle.std.specs.Global.{Vec};
ghost use Rattle.std.specs.Prelude.{◌≡◌, List, Some, [], ◌∷◌, ◌++◌, map, IfOk, OnOk};
ghost use Rattle.rules_code.specs.Bounds.{IsNotOf};
ghost use Rattle.rules_code.specs.Neighbours.{IsAllOf};
ghost use Rattle.rules_code.specs.declared.plain_test.PlainTest.{AnyOf, PlainTest};
ghost use Rattle.rules_cells.specs.declared.field.Field.TheVariants.{Pti};
ghost use Rattle.rules_cells.specs.inner.PlainTests.{ArePlainTests};
ghost use Rattle.rules_cells.specs.PlainOf.{IsAmongOf, IsCompareOf, IsListOf, some_spans, IsPlainLine, IsPartOf, IsPlainOf, span_below, in_place, most_of, span_of_one, placed_mask, placed_span, unit_of};

use crate::field::Field;
use crate::relation::Relation;
use crate::rules::RuleLine;
use crate::test::Test;
use bpf_code::Size;
use rules_code::{Line, Part, PlainTest, Span, all_of, comparison_test, in_order};
use std::alloc::{AllocError, Global};
use upc_cell::Side;

/// The largest number of a field of the header. None for octets.
fn most_of(side: Side, field: Field) -> Option<u32>
    ensures { result ≡ most_of side field }
{
    match field {
        Field::Gfc => Some(15),
        Field::Vpi => Some(u32::from(side.last_vpi())),
        Field::Vci => Some(65535),
        Field::Pti => Some(7),
        Field::Clp => Some(1),
        Field::Octets(_) => None,
    }
}

/// The lowest bit of a field as a number, where the four octets of the header are read as one word. 1 for octets.
fn unit_of(field: Field) -> u32
    ensures { result ≡ unit_of field }
{
    match field {
        Field::Gfc => 1 << 28,
        Field::Vpi => 1 << 20,
        Field::Vci => 1 << 4,
        Field::Pti => 1 << 1,
        Field::Clp | Field::Octets(_) => 1,
    }
}

/// A field's number, shifted to the place of the field in the header's word. What doesn't fit in 32 bits is cut off.
fn in_place(unit: u32, number: u32) -> u32
    ensures { result ≡ in_place unit number }
{
    number.wrapping_mul(unit)
}

/// The mask of a field in the header's word: of the field's bits those that `mask` keeps, or all of them. For octets it is `mask` itself.
fn placed_mask(most: Option<u32>, unit: u32, mask: Option<u32>) -> Option<u32>
    ensures { result ≡ placed_mask most unit mask }
{
    match most {
        None => mask,
        Some(most) => match mask {
            None => Some(in_place(unit, most)),
            Some(mask) => Some(in_place(unit, mask & most)),
        },
    }
}

/// A span of a field's numbers, shifted to the place of the field in the header's word. Numbers that the field can't have are cut off; if
/// none is left, the span is empty (1 to 0).
fn placed_span(most: Option<u32>, unit: u32, span: Span) -> Span
    ensures { result ≡ placed_span most unit span }
{
    match most {
        None => span,
        Some(most) => {
            if span.low <= most {
                Span {
                    low: in_place(unit, span.low),
                    high: in_place(unit, span.high.min(most)),
                }
            } else {
                Span { low: 1, high: 0 }
            }
        }
    }
}

/// The masked octets in which a field is.
fn part_of(side: Side, field: Field, mask: Option<u32>) -> Part
    ensures { IsPartOf side field mask result }
{
    let mask = placed_mask(most_of(side, field), unit_of(field), mask);
    match field {
        Field::Octets(octets) => Part {
            size: octets.size,
            at: octets.at,
            mask,
        },
        _ => Part {
            size: Size::Word,
            at: 0,
            mask,
        },
    }
}

/// Spans of a field's numbers, each shifted to the place of the field.
fn placed_spans(
    alloc: Global,
    most: Option<u32>,
    unit: u32,
    spans: &[Span],
) -> Result<Vec<Span>, AllocError>
    ensures { IfOk result (λ placed. placed.items ≡ map (placed_span most unit) spans.now) }
{
    let mut placed = Vec::new(alloc);
    for span in spans {
        placed.push(placed_span(most, unit, *span))?;
    }
    Ok(placed)
}

/// The test that a field is in one of these spans.
fn among(
    alloc: Global,
    side: Side,
    field: Field,
    mask: Option<u32>,
    first: Span,
    others: &[Span],
) -> Result<PlainTest, AllocError>
    ensures { IfOk result (IsAmongOf side field mask (first ∷ others.now)) }
{
    let most = most_of(side, field);
    let unit = unit_of(field);
    let others = placed_spans(alloc, most, unit, others)?;
    let first = placed_span(most, unit, first);
    let test = comparison_test(alloc, part_of(side, field, mask), first, others)?;
    Ok(test)
}

/// The test that a field is in this span. It isn't inlined, for the same reason as [`compared`].
#[inline(never)]
fn within(
    alloc: Global,
    side: Side,
    field: Field,
    mask: Option<u32>,
    span: Span,
) -> Result<PlainTest, AllocError>
    ensures { IfOk result (IsAmongOf side field mask (span ∷ [])) }
{
    among(alloc, side, field, mask, span, &[])
}

/// The span of one number.
fn span_of_one(k: u32) -> Span
    ensures { result ≡ span_of_one k }
{
    Span { low: k, high: k }
}

/// The span of the numbers less than `k`, which is empty (1 to 0) if `k` is 0.
fn span_below(k: u32) -> Span
    ensures { result ≡ span_below k }
{
    if k == 0 {
        Span { low: 1, high: 0 }
    } else {
        Span {
            low: 0,
            high: k - 1,
        }
    }
}

/// The test that a field is in one of these spans, of which there may be none.
fn among_any(
    alloc: Global,
    side: Side,
    field: Field,
    mask: Option<u32>,
    spans: &[Span],
) -> Result<PlainTest, AllocError>
    ensures { IfOk result (IsAmongOf side field mask (some_spans spans.now)) }
{
    match spans.split_first() {
        None => within(alloc, side, field, mask, Span { low: 1, high: 0 }),
        Some((first, others)) => among(alloc, side, field, mask, *first, others),
    }
}

/// The test that a field is in a list of spans.
fn listed(
    alloc: Global,
    side: Side,
    field: Field,
    mask: Option<u32>,
    first: Span,
    others: &[Span],
) -> Result<PlainTest, AllocError>
    ensures { IfOk result (IsListOf side field mask (first ∷ others.now)) }
{
    let ordered = in_order(alloc, first, others)?;
    let test = among_any(alloc, side, field, mask, &ordered)?;
    Ok(test)
}

/// The test that compares a field as a relation says. It isn't inlined: `plain_of` is recursive, and each of its frames would have room for
/// this function's variables.
#[inline(never)]
fn compared(
    alloc: Global,
    side: Side,
    field: Field,
    mask: Option<u32>,
    relation: &Relation,
) -> Result<PlainTest, AllocError>
    ensures { IfOk result (IsCompareOf side field mask relation.now) }
{
    match relation {
        Relation::Equal(k) => within(alloc, side, field, mask, span_of_one(*k)),
        Relation::Unequal(k) => {
            let equal = within(alloc, side, field, mask, span_of_one(*k))?;
            Ok(PlainTest::Not(Box::new(alloc, equal)?))
        }
        Relation::Less(k) => within(alloc, side, field, mask, span_below(*k)),
        Relation::AtMost(k) => within(alloc, side, field, mask, Span { low: 0, high: *k }),
        Relation::Greater(k) => {
            let at_most = within(alloc, side, field, mask, Span { low: 0, high: *k })?;
            Ok(PlainTest::Not(Box::new(alloc, at_most)?))
        }
        Relation::AtLeast(k) => {
            let less = within(alloc, side, field, mask, span_below(*k))?;
            Ok(PlainTest::Not(Box::new(alloc, less)?))
        }
        Relation::In { first, others } => listed(alloc, side, field, mask, *first, others),
    }
}

/// The test of masked octets that a test of cells becomes. For tests inside a test the functions below call it again; there is one for each
/// kind of test, so that a frame holds only what that kind needs.
#[cycle(plain_of)]
fn plain_of(alloc: Global, side: Side, test: &Test) -> Result<PlainTest, AllocError>
    ensures { IfOk result (IsPlainOf side test.now) }
{
    match test {
        Test::Any => Ok(PlainTest::Always),
        Test::F5 => within(alloc, side, Field::Pti, Some(6), span_of_one(4)),
        Test::User => within(alloc, side, Field::Pti, Some(4), span_of_one(0)),
        Test::Compare {
            field,
            mask,
            relation,
        } => compared(alloc, side, *field, *mask, relation),
        Test::Not(test) => denied(alloc, side, test),
        Test::AllOf(tests) => all_plain(alloc, side, tests),
        Test::AnyOf(tests) => any_plain(alloc, side, tests),
    }
}

/// The test that a test of cells doesn't hold.
#[cycle(plain_of)]
#[inline(never)]
fn denied(alloc: Global, side: Side, test: &Test) -> Result<PlainTest, AllocError>
    ensures { IfOk result (IsNotOf (IsPlainOf side test.now)) }
{
    let plain = plain_of(alloc, side, test)?;
    Ok(PlainTest::Not(Box::new(alloc, plain)?))
}

/// The test that each of these tests of cells holds.
#[cycle(plain_of)]
#[inline(never)]
fn all_plain(alloc: Global, side: Side, tests: &[Test]) -> Result<PlainTest, AllocError>
    ensures { IfOk result (λ test. (plain : List PlainTest) × ArePlainTests side tests.now plain × IsAllOf plain test) }
{
    let plain = plain_tests(alloc, side, tests)?;
    let test = all_of(alloc, plain)?;
    Ok(test)
}

/// The test that at least one of these tests of cells holds.
#[cycle(plain_of)]
#[inline(never)]
fn any_plain(alloc: Global, side: Side, tests: &[Test]) -> Result<PlainTest, AllocError>
    ensures { IfOk result (λ test. (plain : Vec PlainTest) × ArePlainTests side tests.now plain.items × (test ≡ AnyOf plain)) }
{
    Ok(PlainTest::AnyOf(plain_tests(alloc, side, tests)?))
}

/// Adds a test after others. It isn't inlined, for the same reason as [`compared`].
#[inline(never)]
fn add_plain(plain: &mut Vec<PlainTest>, test: PlainTest) -> Result<(), AllocError>
    ensures { OnOk result (plain.new.items ≡ plain.old.items ++ test ∷ []) }
{
    plain.push(test)?;
    Ok(())
}

/// The tests that tests of cells become.
#[cycle(plain_of)]
#[inline(never)]
fn plain_tests(alloc: Global, side: Side, tests: &[Test]) -> Result<Vec<PlainTest>, AllocError>
    ensures { IfOk result (λ plain. ArePlainTests side tests.now plain.items) }
{
    let mut plain = Vec::new(alloc);
    for test in tests {
        let one = plain_of(alloc, side, test)?;
        add_plain(&mut plain, one)?;
    }
    Ok(plain)
}

/// The line that a line of rules becomes.
pub(crate) fn line_of(alloc: Global, side: Side, line: &RuleLine) -> Result<Line, AllocError>
    ensures { IfOk result (IsPlainLine side line.now) }
{
    match line {
        RuleLine::Rule { test, value } => {
            let test = plain_of(alloc, side, test)?;
            Ok(Line::Rule {
                test,
                value: *value,
            })
        }
        RuleLine::Block { test } => {
            let test = plain_of(alloc, side, test)?;
            Ok(Line::Block { test })
        }
        RuleLine::End => Ok(Line::End),
    }
}
