//! The search for rules that decide no cell.

ghost use Rattle.std.specs.Prelude.{◌≡◌, ◌+◌, ◌-◌, ◌<◌, ◌^◌, ℕ, List, Bool, ◌++◌, length, IfOk, OnOk};
ghost use Rattle.std.specs.Option.{option_to_list};
ghost use Rattle.rules_diagrams.specs.UnusedRules.{AreUnused};
ghost use Rattle.rules_diagrams.specs.inner.Values.{IsWithin, Keeps};
ghost use Rattle.rules_diagrams.specs.inner.Lines.{deciding_line};
ghost use Rattle.rules_diagrams.specs.inner.Tells.{GivesNumber, Tells};
ghost use Rattle.rules_diagrams.specs.inner.Holding.{AreDeciders, AreInside, AreTaken, IsFoundAt, passed_before};

use crate::diagram::Diagram;
use crate::fault::Undecided;
use crate::holding::{enter, held};
use crate::lines::deciding_lines;
use crate::numbers::{numbers, places_of};
use crate::store::Diagrams;
use crate::unused::Unused;
use rules_cells::{RuleLine, Rules, laws};
use std::alloc::{AllocError, Global};
use std::collections::{BTreeSet, VecDeque};

/// The most work of a search, in steps. Each rule that decides no cell costs as many as there are nodes then, and `EACH_TAKER` for each
/// rule that takes its cells. This limit bounds time and memory where many rules decide no cell.
const MOST_WORK: u64 = 268_435_456;

/// The steps that a rule costs which takes the cells of an unused one. So at most 4,194,304 such rules are named.
const EACH_TAKER: u64 = 64;

/// The places of the lines that decide the cells to which `held` gives 1.
#[tactic(auto, using(crate::proofs::Nodes::keeps_both, crate::proofs::Nodes::keeps_itself))]
fn takers(
    alloc: Global,
    diagrams: &mut Diagrams,
    deciding: Diagram,
    held: Diagram,
) -> Result<Vec<usize>, Undecided>
    requires deciding { IsWithin diagrams.old deciding }
    requires held { IsWithin diagrams.old held }
    ensures keeps { Keeps diagrams.old diagrams.new }
    ensures taken { IfOk result (λ takers. (number : List ℕ → ℕ) (holds : List ℕ → Bool) → GivesNumber diagrams.old number deciding
        → Tells diagrams.old holds held → AreTaken number holds takers.items) }
{
    let taken = diagrams.choose(held, deciding, Diagram::Leaf(0))?;
    let numbers = numbers(alloc, diagrams, taken)?;
    let places = places_of(alloc, &numbers)?;
    Ok(places)
}

/// The rule at a place, if it is one that decides no cell.
#[tactic(auto, using(crate::proofs::Nodes::keeps_both, crate::proofs::Nodes::keeps_itself))]
fn unused_at(
    alloc: Global,
    diagrams: &mut Diagrams,
    rules: &Rules,
    place: usize,
    deciding: Diagram,
    deciders: &BTreeSet<u32>,
    inside: &VecDeque<Diagram>,
) -> Result<Option<Unused>, Undecided>
    requires place { place < length rules.now.lines.items }
    requires few { length rules.now.lines.items < 2 ^ 32 - 1 }
    requires deciding { GivesNumber diagrams.old (deciding_line rules.now) deciding }
    requires deciders { AreDeciders (deciding_line rules.now) deciders.now }
    requires inside { AreInside diagrams.old (passed_before rules.now place) inside.now.items }
    ensures keeps { Keeps diagrams.old diagrams.new }
    ensures found { IfOk result (IsFoundAt rules.now place) }
{
    laws::the_first_rule_decides();
    match &rules.lines[place] {
        RuleLine::Block { test: _ } => Ok(None),
        RuleLine::End => Ok(None),
        RuleLine::Rule { test, value: _ } => {
            if deciders.contains(&(place as u32 + 1)) {
                return Ok(None);
            }
            let held = held(diagrams, rules.side, test, inside)?;
            let takers = takers(alloc, diagrams, deciding, held)?;
            Ok(Some(Unused { place, takers }))
        }
    }
}

// no ensures: how much work may follow says nothing of what is found
// no edit: it has no ensures
/// How much work may follow what was found, with this many nodes.
///
/// # Errors
///
/// `TooLarge` if there was more work than the most.
fn spend(left: u64, nodes: usize, found: &Option<Unused>) -> Result<u64, Undecided> {
    let Some(unused) = found else {
        return Ok(left);
    };
    let work = EACH_TAKER
        .saturating_mul(unused.takers.len() as u64)
        .saturating_add(nodes as u64);
    match left.checked_sub(work) {
        Some(rest) => Ok(rest),
        None => Err(Undecided::TooLarge),
    }
}

/// Appends what was found.
fn keep(unused: &mut Vec<Unused>, found: Option<Unused>) -> Result<(), AllocError>
    ensures { OnOk result (unused.new.items ≡ unused.old.items ++ option_to_list found) }
{
    if let Some(one) = found {
        unused.push(one)?;
    }
    Ok(())
}

/// The rules that decide no cell, in order, each with the rules that decide the cells of which it holds.
///
/// # Errors
///
/// `TooLarge` if there are too many cases to decide, as for [`compare`](crate::compare), or if the search would take
/// too long; `NoMemory` if an allocation failed.
pub fn unused_rules(alloc: Global, rules: &Rules) -> Result<Vec<Unused>, Undecided>
    ensures { IfOk result (λ unused. AreUnused rules.now unused.items) }
{
    let mut diagrams = Diagrams::new(alloc)?;
    let deciding = deciding_lines(alloc, &mut diagrams, rules)?;
    let deciders = numbers(alloc, &diagrams, deciding)?;
    let mut inside = VecDeque::new(alloc);
    let mut unused = Vec::new(alloc);
    let mut left = MOST_WORK;
    for place in 0..rules.lines.len() {
        let found = unused_at(
            alloc,
            &mut diagrams,
            rules,
            place,
            deciding,
            &deciders,
            &inside,
        )?;
        left = spend(left, diagrams.count(), &found)?;
        keep(&mut unused, found)?;
        enter(&mut diagrams, rules, place, &mut inside)?;
    }
    Ok(unused)
}
