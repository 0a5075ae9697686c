//! Diagrams of the lines that decide.

ghost use Rattle.std.specs.Prelude.{◌≡◌, ◌+◌, ◌-◌, ◌<◌, ◌^◌, ℕ, [], ◌∷◌, List, length, IfOk, OnOk};
ghost use Rattle.rules_diagrams.specs.inner.Values.{Keeps};
ghost use Rattle.rules_diagrams.specs.inner.Tells.{GivesNumber};
ghost use Rattle.rules_diagrams.specs.inner.Lines.{deciding_line};
ghost use Rattle.rules_diagrams.specs.inner.Lined.{AreAllWithin, AreLined, first_outer};
ghost use Rattle.rules_diagrams.specs.inner.Stacks.{later_diagrams};
ghost use Rattle.rules_cells.specs.declared.rules.RuleLine.{RuleLine as Written};

use crate::diagram::Diagram;
use crate::fault::{Drawn, Undecided};
use crate::met_tests::met;
use crate::store::Diagrams;
use rules_cells::{RuleLine, Rules};
use std::alloc::{AllocError, Global};
use std::collections::VecDeque;
use upc_cell::Side;

/// Takes the diagram of what comes after the first end, or that of no line if there is no end.
fn take_first(outer: &mut VecDeque<Diagram>) -> Diagram
    ensures first { result ≡ first_outer outer.old.items }
    ensures left { outer.new.items ≡ later_diagrams outer.old.items }
{
    match outer.pop_front() {
        None => Diagram::Leaf(0),
        Some(diagram) => diagram,
    }
}

/// The diagram of the lines so far with one more before them. `outer` has the diagrams of what comes after the ends of blocks whose heads
/// are still to come, that of the first end first.
#[tactic(auto, using(crate::proofs::Nodes::keeps_both, crate::proofs::Nodes::keeps_itself))]
fn with_line(
    diagrams: &mut Diagrams,
    side: Side,
    line: &RuleLine,
    place: u32,
    so_far: Diagram,
    outer: &mut VecDeque<Diagram>,
) -> Drawn
    requires within { AreAllWithin diagrams.old so_far outer.old.items }
    requires place { place + 1 < 2 ^ 32 }
    ensures keeps { Keeps diagrams.old diagrams.new }
    ensures lined { IfOk result (λ made. (rest : List Written) (otherwise : ℕ) → AreLined diagrams.old side rest (place + 1) otherwise so_far outer.old.items
        → AreLined diagrams.new side (line.now ∷ rest) place otherwise made outer.new.items) }
{
    match line {
        RuleLine::Rule { test, value: _ } => {
            let test = met(diagrams, side, test)?;
            diagrams.choose(test, Diagram::Leaf(place + 1), so_far)
        }
        RuleLine::Block { test } => {
            let test = met(diagrams, side, test)?;
            let after = take_first(outer);
            diagrams.choose(test, so_far, after)
        }
        RuleLine::End => {
            outer.push_front(so_far)?;
            Ok(so_far)
        }
    }
}

/// The diagram that gives each cell the number of the line that decides it: 0 if none does, else one more than the place of the rule
/// among the lines.
///
/// # Errors
///
/// Those of [`Diagrams::choose`]; also `TooLarge` for 4,294,967,295 lines or more.
pub(crate) fn deciding_lines(alloc: Global, diagrams: &mut Diagrams, rules: &Rules) -> Drawn
    ensures keeps { Keeps diagrams.old diagrams.new }
    ensures gives { IfOk result (GivesNumber diagrams.new (deciding_line rules.now)) }
    ensures few { IfOk result (λ _. length rules.now.lines.items < 2 ^ 32 - 1) }
{
    let lines = rules.lines.as_slice();
    if lines.len() >= u32::MAX as usize {
        return Err(Undecided::TooLarge);
    }
    let mut outer = VecDeque::new(alloc);
    let mut so_far = Diagram::Leaf(0);
    let mut left = lines.len();
    while left > 0 {
        left -= 1;
        so_far = with_line(
            diagrams,
            rules.side,
            &lines[left],
            left as u32,
            so_far,
            &mut outer,
        )?;
    }
    Ok(so_far)
}
