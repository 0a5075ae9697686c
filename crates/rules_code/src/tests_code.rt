//! The code of tests.

ghost use Rattle.std.specs.Prelude.{◌≡◌, ◌<◌, ℕ, length, slice_get, Some, IfOk};
ghost use Rattle.rules_code.specs.TestCode.{known_after, known_with_operand, turned_known_unless, test_code, turned_known};
ghost use Rattle.rules_code.specs.inner.Chains.{chain_code, held_before, known_after_operand, known_after_tests, operand_code};
ghost use Rattle.rules_code.specs.inner.Making.{IsMade};

use crate::draft::{Draft, Ways, side_label};
use crate::leaves::{held_to_compare, known_at_join, put_among};
use crate::packet_part::{KnownOnBranches, Part};
use crate::plain_test::PlainTest;
use std::alloc::{AllocError, Global};

/// What is known of A after a test, with its two sides swapped.
fn turned_known(known: KnownOnBranches) -> KnownOnBranches
    ensures { result ≡ turned_known known }
{
    KnownOnBranches {
        met: known.unmet,
        unmet: known.met,
    }
}

/// What is known of A after one more operand of a chain, where it goes on and where it ended at this operand or before.
fn known_with_operand(before: KnownOnBranches, known: KnownOnBranches) -> KnownOnBranches
    ensures { result ≡ known_with_operand before known }
{
    KnownOnBranches {
        met: known.met,
        unmet: known_at_join(before.unmet, known.unmet),
    }
}

/// What is known of A after a test. `held` is what A held before it, if that is known.
#[cycle(known_after)]
pub(crate) fn known_after(test: &PlainTest, held: Option<Part>) -> KnownOnBranches
    ensures { result ≡ known_after test.now held }
{
    match test {
        PlainTest::Always => KnownOnBranches {
            met: held,
            unmet: held,
        },
        PlainTest::Among {
            part,
            first,
            others,
        } => {
            let held = held_to_compare(held, *part, *first, others);
            KnownOnBranches {
                met: held,
                unmet: held,
            }
        }
        PlainTest::Not(test) => turned_known(known_after(test, held)),
        PlainTest::AllOf(tests) => known_after_tests(true, tests, held),
        PlainTest::AnyOf(tests) => turned_known(known_after_tests(false, tests, held)),
    }
}

/// What is known of A after an operand of a chain: as `met` where the chain goes on, as `unmet` where it ends. `on` is the outcome of an
/// operand with which the chain goes on: true for `and`, false for `or`.
#[cycle(known_after)]
fn known_after_operand(on: bool, test: &PlainTest, held: Option<Part>) -> KnownOnBranches
    ensures { result ≡ known_after_operand on test.now held }
{
    let known = known_after(test, held);
    if on { known } else { turned_known(known) }
}

/// What is known of A after a chain of these operands.
#[cycle(known_after)]
fn known_after_tests(on: bool, tests: &[PlainTest], held: Option<Part>) -> KnownOnBranches
    ensures { result ≡ known_after_tests on tests.now held }
{
    let Some((first, others)) = tests.split_first() else {
        return KnownOnBranches {
            met: held,
            unmet: held,
        };
    };
    let mut known = known_after_operand(on, first, held);
    for test in others {
        known = known_with_operand(known, known_after_operand(on, test, known.met));
    }
    known
}

/// What is known of A at each operand of a chain.
fn held_parts_before(
    alloc: Global,
    on: bool,
    tests: &[PlainTest],
    held: Option<Part>,
) -> Result<Vec<Option<Part>>, AllocError>
    ensures count { IfOk result (λ parts. length parts.items ≡ length tests.now) }
    ensures held { IfOk result (λ parts. (at : ℕ) → at < length tests.now → slice_get parts.items at ≡ Some (held_before on tests.now held at)) }
{
    let mut parts = Vec::new(alloc);
    let mut held = held;
    for test in tests {
        parts.push(held)?;
        held = known_after_operand(on, test, held).met;
    }
    Ok(parts)
}

/// Puts the code of a test in front. `met` and `unmet` are the labels to which its sides lead.
#[cycle(put_test)]
#[tactic(auto, unfolding(crate::specs::TestCode::test_code))]
pub(crate) fn put_test(
    draft: &mut Draft,
    test: &PlainTest,
    held: Option<Part>,
    met: usize,
    unmet: usize,
) -> Result<Ways, AllocError>
    ensures { IfOk result (IsMade (test_code test.now held draft.old met unmet) draft.new) }
{
    match test {
        PlainTest::Always => Ok(Ways {
            entry: met,
            met,
            unmet,
        }),
        PlainTest::Among {
            part,
            first,
            others,
        } => put_among(draft, held, *part, *first, others, met, unmet),
        PlainTest::Not(test) => {
            let ways = put_test(draft, test, held, unmet, met)?;
            Ok(turned_ways(ways))
        }
        PlainTest::AllOf(tests) => put_chain(draft, true, tests, held, met, unmet),
        PlainTest::AnyOf(tests) => {
            let ways = put_chain(draft, false, tests, held, unmet, met)?;
            Ok(turned_ways(ways))
        }
    }
}

/// The labels with the two sides swapped.
fn turned_ways(ways: Ways) -> Ways
    ensures entry { result.entry ≡ ways.entry }
    ensures met { result.met ≡ ways.unmet }
    ensures unmet { result.unmet ≡ ways.met }
{
    Ways {
        entry: ways.entry,
        met: ways.unmet,
        unmet: ways.met,
    }
}

/// Puts an operand of a chain in front of the operands after it, whose labels are these.
#[cycle(put_test)]
#[tactic(auto, unfolding(crate::specs::inner::Chains::operand_code))]
fn put_operand(
    draft: &mut Draft,
    on: bool,
    test: &PlainTest,
    held: Option<Part>,
    later: Ways,
) -> Result<Ways, AllocError>
    ensures { IfOk result (IsMade (operand_code on test.now held (record { code = draft.old; ways = later })) draft.new) }
{
    let first = if on {
        put_test(draft, test, held, later.entry, later.unmet)?
    } else {
        turned_ways(put_test(draft, test, held, later.unmet, later.entry)?)
    };
    Ok(Ways {
        entry: first.entry,
        met: side_label(later.entry, later.met, first.met),
        unmet: first.unmet,
    })
}

/// Puts the operands of a chain in front. `next` is the label where the chain goes on after its last operand, and `end` the label where it
/// ends before.
#[cycle(put_test)]
fn put_chain(
    draft: &mut Draft,
    on: bool,
    tests: &[PlainTest],
    held: Option<Part>,
    next: usize,
    end: usize,
) -> Result<Ways, AllocError>
    ensures { IfOk result (IsMade (chain_code on tests.now held draft.old next end) draft.new) }
{
    let parts = held_parts_before(draft.alloc(), on, tests, held)?;
    let mut ways = Ways {
        entry: next,
        met: next,
        unmet: end,
    };
    let mut left = tests.len();
    while left > 0 {
        left -= 1;
        ways = put_operand(draft, on, &tests[left], parts[left], ways)?;
    }
    Ok(ways)
}
