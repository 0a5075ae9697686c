//! Diagrams of tests of cells.

ghost use Rattle.std.specs.Prelude.{◌≡◌, ◌+◌, ◌<◌, ℕ, Bool, not, ◌&&◌, ◌||◌, List, ◌∷◌, length, slice_index_or, IfOk};
ghost use Rattle.rules_diagrams.specs.inner.Values.{IsWithin, Keeps};
ghost use Rattle.rules_diagrams.specs.inner.Spans.{is_between};
ghost use Rattle.rules_diagrams.specs.inner.Tells.{Tells};
ghost use Rattle.rules_diagrams.specs.inner.Fields.{AreBitsOf};
ghost use Rattle.rules_cells.specs.Fields.{is_so, number_in};
ghost use Rattle.rules_cells.specs.Tests.{is_met};
ghost use Rattle.rules_cells.specs.inner.MetTests.{each_is_met, some_is_met};
ghost use Rattle.rules_code.specs.PlainTests.{is_among, kept_bits};

use crate::diagram::Diagram;
use crate::fault::Drawn;
use crate::span::{Bits, Interval};
use crate::store::Diagrams;
use bpf_code::Size;
use rules_cells::{Field, Octets, Relation, Test};
use rules_code::Span;
use upc_cell::Side;

/// The bits of some octets.
fn bits_of_octets(side: Side, octets: Octets) -> Bits
    ensures { AreBitsOf side (Field.Octets octets) result }
{
    let bit = octets.at as u16 * 8;
    match octets.size {
        Size::Octet => Bits { bit, width: 8 },
        Size::Half => Bits { bit, width: 16 },
        Size::Word => Bits { bit, width: 32 },
    }
}

/// The bits of the VPI at this side.
fn bits_of_path(side: Side) -> Bits
    ensures { AreBitsOf side Field.Vpi result }
{
    match side {
        Side::Uni => Bits { bit: 4, width: 8 },
        Side::Nni => Bits { bit: 0, width: 12 },
        Side::UniPaths => Bits { bit: 4, width: 8 },
        Side::NniPaths => Bits { bit: 0, width: 12 },
    }
}

/// The bits of a field.
fn bits_of(side: Side, field: Field) -> Bits
    ensures { AreBitsOf side field result }
{
    match field {
        Field::Gfc => Bits { bit: 0, width: 4 },
        Field::Vpi => bits_of_path(side),
        Field::Vci => Bits { bit: 12, width: 16 },
        Field::Pti => Bits { bit: 28, width: 3 },
        Field::Clp => Bits { bit: 31, width: 1 },
        Field::Octets(octets) => bits_of_octets(side, octets),
    }
}

/// The diagram of the cells in which a field, of which a mask may keep some bits, is a number in an interval.
fn reached(
    diagrams: &mut Diagrams,
    side: Side,
    field: Field,
    mask: Option<u32>,
    reach: Interval,
) -> Drawn
    ensures keeps { Keeps diagrams.old diagrams.new }
    ensures tells { IfOk result (Tells diagrams.new (λ cell. is_between reach.low reach.end (kept_bits mask (number_in side field cell)))) }
{
    let bits = bits_of(side, field);
    match mask {
        None => diagrams.span(bits, u32::MAX, reach),
        Some(mask) => diagrams.span(bits, mask, reach),
    }
}

/// The diagram of all cells but those of another: it gives 1 where the other gives 0, and 0 elsewhere.
fn denied(diagrams: &mut Diagrams, test: Diagram) -> Drawn
    requires { IsWithin diagrams.old test }
    ensures keeps { Keeps diagrams.old diagrams.new }
    ensures tells { IfOk result (λ made. (met : List ℕ → Bool) → Tells diagrams.old met test → Tells diagrams.new (λ cell. not (met cell)) made) }
{
    diagrams.choose(test, Diagram::Leaf(0), Diagram::Leaf(1))
}

/// The diagram of the cells to which both of two give 1.
pub(crate) fn both(diagrams: &mut Diagrams, one: Diagram, other: Diagram) -> Drawn
    requires one { IsWithin diagrams.old one }
    requires other { IsWithin diagrams.old other }
    ensures keeps { Keeps diagrams.old diagrams.new }
    ensures tells { IfOk result (λ made. (met also : List ℕ → Bool) → Tells diagrams.old met one → Tells diagrams.old also other
        → Tells diagrams.new (λ cell. also cell && met cell) made) }
{
    diagrams.choose(one, other, Diagram::Leaf(0))
}

/// The diagram of the cells to which at least one of two gives 1.
fn either(diagrams: &mut Diagrams, one: Diagram, other: Diagram) -> Drawn
    requires one { IsWithin diagrams.old one }
    requires other { IsWithin diagrams.old other }
    ensures keeps { Keeps diagrams.old diagrams.new }
    ensures tells { IfOk result (λ made. (met also : List ℕ → Bool) → Tells diagrams.old met one → Tells diagrams.old also other
        → Tells diagrams.new (λ cell. also cell || met cell) made) }
{
    diagrams.choose(one, Diagram::Leaf(1), other)
}

/// The numbers up to `number`, which is among them.
fn up_to(number: u32) -> Interval
    ensures low { result.low ≡ 0 }
    ensures end { result.end ≡ number + 1 }
{
    Interval {
        low: 0,
        end: u64::from(number) + 1,
    }
}

/// The numbers less than `number`.
fn below(number: u32) -> Interval
    ensures low { result.low ≡ 0 }
    ensures end { result.end ≡ number }
{
    Interval {
        low: 0,
        end: u64::from(number),
    }
}

/// The span at an index.
fn span_at(spans: &[Span], place: usize) -> Span
    requires { place < length spans.now }
    ensures { result ≡ slice_index_or spans.now place result }
{
    spans[place]
}

/// The numbers of a span.
fn within(span: Span) -> Interval
    ensures low { result.low ≡ span.low }
    ensures end { result.end ≡ span.high + 1 }
{
    Interval {
        low: u64::from(span.low),
        end: u64::from(span.high) + 1,
    }
}

/// The diagram of the cells in which a field is in one of these spans.
#[tactic(auto, using(crate::proofs::Nodes::keeps_both, crate::proofs::Nodes::keeps_itself))]
fn among(
    diagrams: &mut Diagrams,
    side: Side,
    field: Field,
    mask: Option<u32>,
    first: Span,
    others: &[Span],
) -> Drawn
    ensures keeps { Keeps diagrams.old diagrams.new }
    ensures tells { IfOk result (Tells diagrams.new (λ cell. is_among (first ∷ others.now) (kept_bits mask (number_in side field cell)))) }
{
    let mut so_far = reached(diagrams, side, field, mask, within(first))?;
    for place in 0..others.len() {
        let span = span_at(others, place);
        let one = reached(diagrams, side, field, mask, within(span))?;
        so_far = either(diagrams, one, so_far)?;
    }
    Ok(so_far)
}

/// The diagram of the cells in which a field is as a relation says.
#[tactic(auto, using(crate::proofs::Nodes::keeps_both, crate::proofs::Nodes::keeps_itself))]
fn compared(
    diagrams: &mut Diagrams,
    side: Side,
    field: Field,
    mask: Option<u32>,
    relation: &Relation,
) -> Drawn
    ensures keeps { Keeps diagrams.old diagrams.new }
    ensures tells { IfOk result (Tells diagrams.new (λ cell. is_so relation.now (kept_bits mask (number_in side field cell)))) }
{
    match relation {
        Relation::Equal(k) => reached(
            diagrams,
            side,
            field,
            mask,
            within(Span { low: *k, high: *k }),
        ),
        Relation::Unequal(k) => {
            let equal = reached(
                diagrams,
                side,
                field,
                mask,
                within(Span { low: *k, high: *k }),
            )?;
            denied(diagrams, equal)
        }
        Relation::Less(k) => reached(diagrams, side, field, mask, below(*k)),
        Relation::AtMost(k) => reached(diagrams, side, field, mask, up_to(*k)),
        Relation::Greater(k) => {
            let at_most = reached(diagrams, side, field, mask, up_to(*k))?;
            denied(diagrams, at_most)
        }
        Relation::AtLeast(k) => {
            let less = reached(diagrams, side, field, mask, below(*k))?;
            denied(diagrams, less)
        }
        Relation::In { first, others } => among(diagrams, side, field, mask, *first, others),
    }
}

/// The diagram that gives 1 to the cells of which a test holds, their headers read at this side, and 0 to all others.
///
/// # Errors
///
/// Those of [`Diagrams::choose`].
#[cycle(met)]
#[tactic(auto, using(crate::proofs::Nodes::keeps_both, crate::proofs::Nodes::keeps_itself))]
pub(crate) fn met(diagrams: &mut Diagrams, side: Side, test: &Test) -> Drawn
    ensures keeps { Keeps diagrams.old diagrams.new }
    ensures tells { IfOk result (Tells diagrams.new (is_met side test.now)) }
{
    match test {
        Test::Any => Ok(Diagram::Leaf(1)),
        Test::F5 => reached(
            diagrams,
            side,
            Field::Pti,
            None,
            Interval { low: 4, end: 6 },
        ),
        Test::User => reached(
            diagrams,
            side,
            Field::Pti,
            None,
            Interval { low: 0, end: 4 },
        ),
        Test::Compare {
            field,
            mask,
            relation,
        } => compared(diagrams, side, *field, *mask, relation),
        Test::Not(test) => {
            let one = met(diagrams, side, test)?;
            denied(diagrams, one)
        }
        Test::AllOf(tests) => all_met(diagrams, side, tests),
        Test::AnyOf(tests) => one_met(diagrams, side, tests),
    }
}

/// The diagram of the cells of which each of these tests holds.
#[cycle(met)]
#[tactic(auto, using(crate::proofs::Nodes::keeps_both, crate::proofs::Nodes::keeps_itself))]
fn all_met(diagrams: &mut Diagrams, side: Side, tests: &[Test]) -> Drawn
    ensures keeps { Keeps diagrams.old diagrams.new }
    ensures tells { IfOk result (Tells diagrams.new (each_is_met side tests.now)) }
{
    let mut so_far = Diagram::Leaf(1);
    for test in tests {
        let one = met(diagrams, side, test)?;
        so_far = both(diagrams, one, so_far)?;
    }
    Ok(so_far)
}

/// The diagram of the cells of which one of these tests holds.
#[cycle(met)]
#[tactic(auto, using(crate::proofs::Nodes::keeps_both, crate::proofs::Nodes::keeps_itself))]
fn one_met(diagrams: &mut Diagrams, side: Side, tests: &[Test]) -> Drawn
    ensures keeps { Keeps diagrams.old diagrams.new }
    ensures tells { IfOk result (Tells diagrams.new (some_is_met side tests.now)) }
{
    let mut so_far = Diagram::Leaf(0);
    for test in tests {
        let one = met(diagrams, side, test)?;
        so_far = either(diagrams, one, so_far)?;
    }
    Ok(so_far)
}
