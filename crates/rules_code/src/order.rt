//! Sorts spans, and joins those that overlap or are adjacent.

ghost use Rattle.std.specs.Prelude.{◌≡◌, [], ◌∷◌, length, IfOk, OnOk};
ghost use Rattle.std.specs.List.Sorted.{IsPermutation, IsNonDecreasingBy};
ghost use Rattle.rules_code.specs.Order.{IsOrderOf};
ghost use Rattle.rules_code.specs.inner.Joining.{joined_to, with_span, joined_spans};

use crate::packet_part::Span;
use std::alloc::{AllocError, Global};
use std::collections::VecDeque;

/// Puts a span that isn't empty in front: joins it to the first if no number is between them.
fn join(spans: &mut VecDeque<Span>, span: Span) -> Result<(), AllocError>
    ensures { OnOk result (spans.new.items ≡ joined_to span spans.old.items) }
{
    let Some(next) = spans.pop_front() else {
        spans.push_front(span)?;
        return Ok(());
    };
    if next.low.saturating_sub(1) <= span.high {
        spans.push_front(Span {
            low: next.low.min(span.low),
            high: next.high,
        })?;
        return Ok(());
    }
    spans.push_front(next)?;
    spans.push_front(span)?;
    Ok(())
}

/// Puts a span in front, unless it is empty.
fn put(spans: &mut VecDeque<Span>, span: Span) -> Result<(), AllocError>
    ensures { OnOk result (spans.new.items ≡ with_span span spans.old.items) }
{
    if span.high < span.low {
        return Ok(());
    }
    join(spans, span)
}

/// Joins spans that are sorted by their highest numbers, from the last to the first.
fn joined_spans(alloc: Global, sorted: &[Span]) -> Result<Vec<Span>, AllocError>
    ensures { IfOk result (λ ordered. ordered.items ≡ joined_spans sorted.now) }
{
    let mut joined = VecDeque::new(alloc);
    let mut left = sorted.len();
    while left > 0 {
        left -= 1;
        put(&mut joined, sorted[left])?;
    }
    Ok(Vec::from(joined))
}

/// The spans, sorted by their highest numbers.
fn sorted(alloc: Global, first: Span, others: &[Span]) -> Result<Vec<Span>, AllocError>
    ensures same { IfOk result (λ sorted. IsPermutation (first ∷ others.now) sorted.items) }
    ensures order { IfOk result (λ sorted. IsNonDecreasingBy (λ span. span.high) sorted.items) }
{
    let mut spans = Vec::new(alloc);
    spans.push(first)?;
    spans.extend_from_slice(others)?;
    spans.sort_unstable_by_key(|span| span.high);
    Ok(spans)
}

/// Returns spans with the numbers of these, in order and as few as there can be: overlapping and adjacent spans become one, and empty ones
/// disappear.
pub fn in_order(alloc: Global, first: Span, others: &[Span]) -> Result<Vec<Span>, AllocError>
    ensures { IfOk result (λ ordered. IsOrderOf (first ∷ others.now) ordered.items) }
{
    let sorted = sorted(alloc, first, others)?;
    let ordered = joined_spans(alloc, &sorted)?;
    Ok(ordered)
}
