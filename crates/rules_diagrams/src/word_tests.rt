//! Diagrams of tests of a number.

ghost use Rattle.std.specs.Prelude.{◌≡◌, ℕ, Bool, true, false, List, [], IfOk};
ghost use Rattle.bpf_interp.specs.Tests.{test_of};
ghost use Rattle.rules_diagrams.specs.inner.Spans.{truth};
ghost use Rattle.rules_diagrams.specs.inner.Values.{IsWithin, Keeps, diagram_value};
ghost use Rattle.rules_diagrams.specs.inner.WordTests.{IsStepped, IsTestedAfter, GivesTruth, test_of_none};
ghost use Rattle.rules_diagrams.specs.inner.Words.{bit_in, word_number, test_bits};
ghost use Rattle.rules_diagrams.specs.declared.diagram.Node.{Node};

use crate::diagram::Diagram;
use crate::fault::{Drawn, Undecided};
use crate::store::{Diagrams, NO_BIT};
use crate::word::Bit;
use bpf_code::Test;

/// The diagram of the cells for which a bit is set.
fn set(diagrams: &mut Diagrams, bit: Bit) -> Drawn
    ensures keeps { Keeps diagrams.old diagrams.new }
    ensures shows { IfOk result (GivesTruth diagrams.new (bit_in bit)) }
{
    match bit {
        Bit::Zero => Ok(Diagram::Leaf(0)),
        Bit::One => Ok(Diagram::Leaf(1)),
        Bit::Of(place) => {
            if place >= NO_BIT {
                return Err(Undecided::TooLarge);
            }
            diagrams.make(place, Diagram::Leaf(0), Diagram::Leaf(1))
        }
    }
}

/// The diagram of a test of two numbers where the highest bit of the first is set, and that of the second is `other`. `lower` is the
/// diagram of the test of the lower bits.
fn if_set(test: Test, other: bool, lower: Diagram) -> Diagram
    ensures within { (nodes : List Node) → IsWithin nodes lower → IsWithin nodes result }
    ensures value { (nodes : List Node) (cell : ℕ) (before : Bool) → diagram_value nodes lower cell ≡ truth before → diagram_value nodes result cell ≡ truth (test_bits test true other before) }
{
    match test {
        Test::Eq => { if other { lower } else { Diagram::Leaf(0) } }
        Test::Gt | Test::Ge => { if other { lower } else { Diagram::Leaf(1) } }
        Test::Set => { if other { Diagram::Leaf(1) } else { lower } }
    }
}

/// The diagram of a test of two numbers where the highest bit of the first isn't set, and that of the second is `other`. `lower` is as for
/// [`if_set`].
fn if_clear(test: Test, other: bool, lower: Diagram) -> Diagram
    ensures within { (nodes : List Node) → IsWithin nodes lower → IsWithin nodes result }
    ensures value { (nodes : List Node) (cell : ℕ) (before : Bool) → diagram_value nodes lower cell ≡ truth before → diagram_value nodes result cell ≡ truth (test_bits test false other before) }
{
    match test {
        Test::Eq | Test::Gt | Test::Ge => { if other { Diagram::Leaf(0) } else { lower } }
        Test::Set => lower,
    }
}

/// The diagram of a test of two numbers by their highest bits: `bit`, and `other` of a constant. `lower` is the diagram of the test of the
/// lower bits.
#[tactic(auto, using(crate::proofs::Nodes::keeps_both, crate::proofs::Nodes::keeps_itself))]
fn stepped(diagrams: &mut Diagrams, test: Test, bit: Bit, other: bool, lower: Diagram) -> Drawn
    requires { IsWithin diagrams.old lower }
    ensures keeps { Keeps diagrams.old diagrams.new }
    ensures within { IfOk result (IsWithin diagrams.new) }
    ensures stepped { IfOk result (IsStepped diagrams.old diagrams.new test bit other lower) }
{
    let first = set(diagrams, bit)?;
    diagrams.choose(
        first,
        if_set(test, other, lower),
        if_clear(test, other, lower),
    )
}

/// The diagram of a test where no bit of the number is left, and the constant has the higher bits `k`. `lower` is the diagram of the test
/// of the lower bits.
fn ended(test: Test, k: u32, lower: Diagram) -> Diagram
    ensures within { (nodes : List Node) → IsWithin nodes lower → IsWithin nodes result }
    ensures ended { (nodes : List Node) → IsTestedAfter nodes nodes test [] k lower result }
{
    match test {
        Test::Eq | Test::Gt | Test::Ge => { if k == 0 { lower } else { Diagram::Leaf(0) } }
        Test::Set => lower,
    }
}

/// The diagram of a test of a number with a constant, whose higher bits are `bits` and `k`. `lower` is the diagram of the test of the lower
/// bits.
#[tactic(auto, using(crate::proofs::Nodes::keeps_both, crate::proofs::Nodes::keeps_itself))]
fn tested(diagrams: &mut Diagrams, test: Test, bits: &[Bit], k: u32, lower: Diagram) -> Drawn
    requires { IsWithin diagrams.old lower }
    ensures keeps { Keeps diagrams.old diagrams.new }
    ensures tested { IfOk result (IsTestedAfter diagrams.old diagrams.new test bits.now k lower) }
{
    match bits {
        [] => Ok(ended(test, k, lower)),
        [bit, more @ ..] => {
            let one = stepped(diagrams, test, *bit, k % 2 == 1, lower)?;
            tested(diagrams, test, more, k / 2, one)
        }
    }
}

/// The diagram of the test of two numbers without bits, which are both 0.
fn of_none(test: Test) -> Diagram
    ensures { (nodes : List Node) → GivesTruth nodes (λ _. test_of_none test) result }
{
    match test {
        Test::Eq | Test::Ge => Diagram::Leaf(1),
        Test::Gt | Test::Set => Diagram::Leaf(0),
    }
}

/// The diagram of the cells for which the test of a number with a constant is true.
///
/// # Errors
///
/// Those of [`Diagrams::choose`].
pub(crate) fn test_shown(diagrams: &mut Diagrams, test: Test, bits: &[Bit], k: u32) -> Drawn
    ensures keeps { Keeps diagrams.old diagrams.new }
    ensures shows { IfOk result (GivesTruth diagrams.new (λ cell. test_of test (word_number bits.now cell) k)) }
{
    tested(diagrams, test, bits, k, of_none(test))
}
