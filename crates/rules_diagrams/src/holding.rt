//! The cells of which a rule holds, with the blocks that it is in.

ghost use Rattle.std.specs.Prelude.{◌≡◌, ◌+◌, ◌<◌, ℕ, Bool, ◌&&◌, List, ◌∷◌, [], length, IfOk, OnOk};
ghost use Rattle.rules_cells.specs.Tests.{is_met};
ghost use Rattle.rules_diagrams.specs.inner.Values.{IsWithin, Keeps};
ghost use Rattle.rules_diagrams.specs.inner.Tells.{Tells};
ghost use Rattle.rules_diagrams.specs.inner.Holding.{AreInside, first_inside, passed_before};
ghost use Rattle.rules_diagrams.specs.inner.Stacks.{later_diagrams};

use crate::diagram::Diagram;
use crate::fault::{Drawn, Undecided};
use crate::met_tests::{both, met};
use crate::store::Diagrams;
use rules_cells::{RuleLine, Rules, Test};
use std::collections::VecDeque;
use upc_cell::Side;

/// The first of the diagrams of blocks, or that of all cells if there is none.
fn first_of(inside: &VecDeque<Diagram>) -> Diagram
    ensures { result ≡ first_inside inside.now.items }
{
    match inside.front() {
        None => Diagram::Leaf(1),
        Some(diagram) => *diagram,
    }
}

/// Removes the first diagram, if there is one.
fn leave(inside: &mut VecDeque<Diagram>)
    ensures { inside.new.items ≡ later_diagrams inside.old.items }
{
    inside.pop_front();
}

/// The diagram of the cells of which a rule holds that has this test and is in these blocks. `inside` has for each of the blocks the
/// diagram of the cells for which neither the block nor one around it is passed over, that of the innermost block first.
#[tactic(auto, using(crate::proofs::Nodes::keeps_both, crate::proofs::Nodes::keeps_itself))]
pub(crate) fn held(
    diagrams: &mut Diagrams,
    side: Side,
    test: &Test,
    inside: &VecDeque<Diagram>,
) -> Drawn
    requires { IsWithin diagrams.old (first_inside inside.now.items) }
    ensures keeps { Keeps diagrams.old diagrams.new }
    ensures tells { IfOk result (λ made. (within : List ℕ → Bool) → Tells diagrams.old within (first_inside inside.now.items)
        → Tells diagrams.new (λ cell. within cell && is_met side test.now cell) made) }
{
    let one = met(diagrams, side, test)?;
    both(diagrams, one, first_of(inside))
}

/// Turns the blocks around the line at a place into those around the next line.
#[tactic(auto, using(crate::proofs::Nodes::keeps_both, crate::proofs::Nodes::keeps_itself))]
pub(crate) fn enter(
    diagrams: &mut Diagrams,
    rules: &Rules,
    place: usize,
    inside: &mut VecDeque<Diagram>,
) -> Result<(), Undecided>
    requires place { place < length rules.now.lines.items }
    requires inside { AreInside diagrams.old (passed_before rules.now place) inside.old.items }
    ensures keeps { Keeps diagrams.old diagrams.new }
    ensures inside { OnOk result (AreInside diagrams.new (passed_before rules.now (place + 1)) inside.new.items) }
{
    match &rules.lines[place] {
        RuleLine::Rule { .. } => Ok(()),
        RuleLine::Block { test } => {
            let within = held(diagrams, rules.side, test, inside)?;
            inside.push_front(within)?;
            Ok(())
        }
        RuleLine::End => {
            leave(inside);
            Ok(())
        }
    }
}
