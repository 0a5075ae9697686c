//! The code of comparisons with a number in the packet.

ghost use Rattle.std.specs.Prelude.{◌≡◌, IfOk, OnOk, ◌∷◌};
ghost use Rattle.bpf_interp.specs.Packet.{octets_loaded};
ghost use Rattle.rules_code.specs.BitTests.{bits_of};
ghost use Rattle.rules_code.specs.Labels.{Tested};
ghost use Rattle.rules_code.specs.TestCode.{is_same_mask, is_same_load, is_same_part, is_held, is_covered, is_loaded, whole_of, held_for_bits, held_to_compare, known_at_join, loaded, masked, bits_loaded, is_top, span_code, spans_code, spans_from, bits_code, among_code};
ghost use Rattle.rules_code.specs.inner.Making.{IsMade};

use crate::bits::{BitTest, bits_of};
use crate::draft::{Draft, Ways, side_label};
use crate::packet_part::{Part, Span};
use bpf_code::{By, Instr, Op, Size, Test};
use std::alloc::AllocError;

/// The number of octets that a load reads.
fn octets_of(size: Size) -> u32
    ensures { result ≡ octets_loaded size }
{
    match size {
        Size::Word => 4,
        Size::Half => 2,
        Size::Octet => 1,
    }
}

/// Whether two masks are the same.
fn is_same_mask(one: Option<u32>, other: Option<u32>) -> bool
    ensures { result ≡ is_same_mask one other }
{
    match (one, other) {
        (None, None) => true,
        (Some(one), Some(other)) => one == other,
        _ => false,
    }
}

/// Whether two parts are of the same octets.
pub(crate) fn is_same_load(one: Part, other: Part) -> bool
    ensures { result ≡ is_same_load one other }
{
    octets_of(one.size) == octets_of(other.size) && one.at == other.at
}

/// Whether two parts are of the same octets and have the same mask.
fn is_same_part(one: Part, other: Part) -> bool
    ensures { result ≡ is_same_part one other }
{
    is_same_load(one, other) && is_same_mask(one.mask, other.mask)
}

/// Whether A is known to hold this part. `held` is the part that A holds, if that is known.
fn is_held(held: Option<Part>, part: Part) -> bool
    ensures { result ≡ is_held held part }
{
    match held {
        None => false,
        Some(held) => is_same_part(held, part),
    }
}

/// Whether the first mask keeps each bit that the second keeps.
fn is_covered(one: Option<u32>, other: Option<u32>) -> bool
    ensures { result ≡ is_covered one other }
{
    match (one, other) {
        (None, _) => true,
        (Some(_), None) => false,
        (Some(one), Some(other)) => one & other == other,
    }
}

/// Whether A is known to hold the octets of this part, and in them each bit that the part's mask keeps.
fn is_loaded(held: Option<Part>, part: Part) -> bool
    ensures { result ≡ is_loaded held part }
{
    match held {
        None => false,
        Some(held) => is_same_load(held, part) && is_covered(held.mask, part.mask),
    }
}

/// The part without its mask.
pub(crate) fn whole_of(part: Part) -> Part
    ensures { result ≡ whole_of part }
{
    Part {
        size: part.size,
        at: part.at,
        mask: None,
    }
}

/// What A holds at a test of bits of the part: what it held before, if these bits are in it, and otherwise the octets, which are loaded.
fn held_for_bits(held: Option<Part>, part: Part) -> Option<Part>
    ensures { result ≡ held_for_bits held part }
{
    if is_loaded(held, part) {
        held
    } else {
        Some(whole_of(part))
    }
}

/// What A holds at a comparison of the part. `held` is what A held before, if that is known.
pub(crate) fn held_to_compare(
    held: Option<Part>,
    part: Part,
    first: Span,
    others: &[Span],
) -> Option<Part>
    ensures { result ≡ held_to_compare (bits_of part.mask first others.now) held part }
{
    match bits_of(part.mask, first, others) {
        None => Some(part),
        Some(_) => held_for_bits(held, part),
    }
}

/// What is known of A after two paths join, from what is known at the end of each.
pub(crate) fn known_at_join(one: Option<Part>, other: Option<Part>) -> Option<Part>
    ensures { result ≡ known_at_join one other }
{
    match (one, other) {
        (Some(one), Some(other)) => {
            if is_same_part(one, other) {
                Some(one)
            } else {
                None
            }
        }
        _ => None,
    }
}

/// Puts a mask in front, if there is one.
fn put_mask(draft: &mut Draft, mask: Option<u32>) -> Result<(), AllocError>
    ensures { OnOk result (draft.new ≡ masked mask draft.old) }
{
    match mask {
        None => Ok(()),
        Some(mask) => draft.put(Instr::Alu {
            op: Op::And,
            by: By::Imm(mask),
        }),
    }
}

/// Puts the load of the octets of a part in front of a test of its bits, unless A holds the bits.
fn put_octets(draft: &mut Draft, held: Option<Part>, part: Part) -> Result<(), AllocError>
    ensures { OnOk result (draft.new ≡ bits_loaded held part draft.old) }
{
    if is_loaded(held, part) {
        return Ok(());
    }
    draft.put(Instr::LoadAbs {
        size: part.size,
        k: part.at,
    })
}

/// Puts the load of a part in front, unless A holds it.
fn put_load(draft: &mut Draft, held: Option<Part>, part: Part) -> Result<(), AllocError>
    ensures { OnOk result (draft.new ≡ loaded held part draft.old) }
{
    if is_held(held, part) {
        return Ok(());
    }
    let has_octets = is_loaded(held, part);
    put_mask(draft, part.mask)?;
    if has_octets {
        return Ok(());
    }
    draft.put(Instr::LoadAbs {
        size: part.size,
        k: part.at,
    })
}

/// Whether no number that this mask keeps is above `high`. False without a mask, as nothing is known then.
fn is_top(mask: Option<u32>, high: u32) -> bool
    ensures { result ≡ is_top mask high }
{
    match mask {
        None => false,
        Some(mask) => mask <= high,
    }
}

/// Puts the test of a span in front, for a number of which this mask keeps some bits.
#[tactic(auto, unfolding(crate::specs::TestCode::span_code))]
fn put_span(
    draft: &mut Draft,
    mask: Option<u32>,
    span: Span,
    met: usize,
    unmet: usize,
) -> Result<Ways, AllocError>
    ensures { IfOk result (IsMade (span_code mask span draft.old met unmet) draft.new) }
{
    if span.low == span.high {
        return draft.branch(Test::Eq, span.low, met, unmet);
    }
    if span.low != 0 && is_top(mask, span.high) {
        return draft.branch(Test::Ge, span.low, met, unmet);
    }
    let upper = draft.branch(Test::Gt, span.high, unmet, met)?;
    if span.low == 0 {
        return Ok(Ways {
            entry: upper.entry,
            met: upper.unmet,
            unmet: upper.met,
        });
    }
    let lower = draft.branch(Test::Ge, span.low, upper.entry, upper.met)?;
    Ok(Ways {
        entry: lower.entry,
        met: upper.unmet,
        unmet: lower.unmet,
    })
}

/// Puts a span in front of the test of further spans.
#[tactic(auto, unfolding(crate::specs::TestCode::spans_from))]
fn put_before(
    draft: &mut Draft,
    mask: Option<u32>,
    span: Span,
    more: Ways,
) -> Result<Ways, AllocError>
    ensures { IfOk result (IsMade (spans_from mask span (record { code = draft.old; ways = more })) draft.new) }
{
    let first = put_span(draft, mask, span, more.met, more.entry)?;
    Ok(Ways {
        entry: first.entry,
        met: first.met,
        unmet: side_label(more.entry, more.unmet, first.unmet),
    })
}

/// Puts the test of spans in front.
fn put_spans(
    draft: &mut Draft,
    mask: Option<u32>,
    first: Span,
    others: &[Span],
    met: usize,
    unmet: usize,
) -> Result<Ways, AllocError>
    ensures { IfOk result (IsMade (spans_code mask (first ∷ others.now) draft.old met unmet) draft.new) }
{
    let mut ways = Ways {
        entry: unmet,
        met,
        unmet,
    };
    let mut left = others.len();
    while left > 0 {
        left -= 1;
        ways = put_before(draft, mask, others[left], ways)?;
    }
    let ways = put_before(draft, mask, first, ways)?;
    Ok(ways)
}

/// Puts a test of bits in front.
#[tactic(auto, unfolding(crate::specs::TestCode::bits_code))]
fn put_bits(draft: &mut Draft, test: BitTest, met: usize, unmet: usize) -> Result<Ways, AllocError>
    ensures { IfOk result (IsMade (bits_code test draft.old met unmet) draft.new) }
{
    if test.set {
        return draft.branch(Test::Set, test.bits, met, unmet);
    }
    let ways = draft.branch(Test::Set, test.bits, unmet, met)?;
    Ok(Ways {
        entry: ways.entry,
        met: ways.unmet,
        unmet: ways.met,
    })
}

/// Puts a comparison of a part in front: a test of bits where it is one. It isn't inlined: `put_test` is recursive, and each of its frames
/// would have room for this function's variables.
#[inline(never)]
#[tactic(auto, unfolding(crate::specs::TestCode::among_code, crate::specs::TestCode::with_load, crate::specs::TestCode::with_octets))]
pub(crate) fn put_among(
    draft: &mut Draft,
    held: Option<Part>,
    part: Part,
    first: Span,
    others: &[Span],
    met: usize,
    unmet: usize,
) -> Result<Ways, AllocError>
    ensures { IfOk result (IsMade (among_code (bits_of part.mask first others.now) held part (first ∷ others.now) draft.old met unmet) draft.new) }
{
    match bits_of(part.mask, first, others) {
        Some(test) => {
            let ways = put_bits(draft, test, met, unmet)?;
            put_octets(draft, held, part)?;
            Ok(Ways {
                entry: draft.len(),
                met: ways.met,
                unmet: ways.unmet,
            })
        }
        None => {
            let ways = put_spans(draft, part.mask, first, others, met, unmet)?;
            put_load(draft, held, part)?;
            Ok(Ways {
                entry: draft.len(),
                met: ways.met,
                unmet: ways.unmet,
            })
        }
    }
}
