//! Finds the line of rules that decides a cell. For that the rules are compiled, with their places as their values: the program jumps over
//! blocks whose test doesn't hold. If it would be too long, the lines are tried one by one.

ghost use Rattle.std.specs.Prelude.{◌≡◌, ◌<◌, ◌^◌, ℕ, suc, length, Ok, IfOk, IfErr, IfSome, OnOk, slice_get};
ghost use Rattle.bpf_interp.specs.Value.{Value};
ghost use Rattle.rules_cells.specs.Decisions.{decision_of};
ghost use Rattle.rules_cells.specs.Fields.{IsCell};
ghost use Rattle.rules_text.specs.DecisionsRead.{rules_decide};
ghost use Rattle.rules_text.specs.RulesInMemory.{placed_rules_read};
ghost use Rattle.rules_text.specs.RulesRead.{RulesRead, rules_read};
ghost use Rattle.rules_text.specs.TextFaults.{IsCompilingFault, IsFaultOf};
ghost use Rattle.rules_text.specs.TextOfRules.{placed_rules_in, rules_in};
ghost use Rattle.std.proofs.Props.{props};
ghost use Rattle.cmd_rules.specs.WhyText.{HasCode};
ghost use Rattle.cmd_rules.specs.inner.Places.{GivesPlaces, decision_by_place, line_by_place, lines_by_place, place_value, value_of_line};

use bpf_interp::run;
use bpf_verify::Program;
use rules_cells::{CodeFault, Decision, RuleLine, Rules, compile, decide};
use rules_text::{
    PlacedRules, RuleFault, RuleFaultKind, compile_text, read_rules, read_with_places,
};
use std::alloc::{AllocError, Global};
use upc_cell::Cell;

/// The fault that an allocation failed.
const NO_MEMORY: RuleFault = RuleFault {
    line: 0,
    column: 0,
    kind: RuleFaultKind::NoMemory,
};

/// The line, with this number as its value if it is a rule.
fn line_by_place(line: RuleLine, number: u32) -> RuleLine
    ensures { (place : ℕ) → number ≡ suc place → result ≡ line_by_place place line }
{
    match line {
        RuleLine::Rule { test, .. } => RuleLine::Rule {
            test,
            value: number,
        },
        RuleLine::Block { test } => RuleLine::Block { test },
        RuleLine::End => RuleLine::End,
    }
}

/// The rules with the places of lines, counted from 1, as their values.
fn rules_by_place(alloc: Global, rules: Rules) -> Result<Rules, AllocError>
    requires { length rules.lines.items < 2 ^ 32 }
    ensures side { IfOk result (λ made. made.side ≡ rules.side) }
    ensures lines { IfOk result (λ made. made.lines.items ≡ lines_by_place 0 rules.lines.items) }
    ensures otherwise { IfOk result (λ made. made.otherwise ≡ 0) }
{
    let side = rules.side;
    let mut left = rules.lines;
    let mut reversed = Vec::new(alloc);
    while let Some(line) = left.pop() {
        let number = left.len() as u32 + 1;
        reversed.push(line_by_place(line, number))?;
    }
    reversed.reverse();
    Ok(Rules {
        side,
        lines: reversed,
        otherwise: 0,
    })
}

/// Compiles rules with places as their values. Returns none if that code is too long.
#[tactic(auto, using(crate::proofs::Places::gives_places))]
fn places_program(alloc: Global, rules: Rules) -> Result<Option<Program>, AllocError>
    requires { length rules.lines.items < 2 ^ 32 }
    ensures { IfOk result (λ found. IfSome found (GivesPlaces (rules_read rules))) }
{
    let by_place = rules_by_place(alloc, rules)?;
    match compile(alloc, &by_place) {
        Ok(code) => Ok(Some(Program::of_accepted(code))),
        Err(CodeFault::TooLong) => Ok(None),
        Err(CodeFault::NoMemory) => Err(AllocError),
    }
}

/// Compiles the rules of a text with their places as their values. Returns none if that code is too long, or if the text has a fault.
fn places_of_text(alloc: Global, text: &[u8]) -> Result<Option<Program>, AllocError>
    ensures { IfOk result (λ found. IfSome found (λ program. (rules : RulesRead) × (rules_in text.now ≡ Ok rules) × GivesPlaces rules program)) }
{
    match read_rules(alloc, text) {
        Ok(rules) => {
            if rules.lines.len() > u32::MAX as usize {
                return Ok(None);
            }
            places_program(alloc, rules)
        }
        Err(
            RuleFault {
                kind: RuleFaultKind::NoMemory,
                ..
            },
        ) => Err(AllocError),
        Err(_) => Ok(None),
    }
}

/// The value of the rule at a place.
fn value_at(lines: &[RuleLine], place: usize) -> u32
    ensures { result ≡ value_of_line (slice_get lines.now place) }
{
    match lines.get(place) {
        Some(RuleLine::Rule { value, .. }) => *value,
        Some(RuleLine::Block { .. }) => 0,
        Some(RuleLine::End) => 0,
        None => 0,
    }
}

/// The decision of the line at a place, counted from 1; 0 is no line.
fn decision_by_place(rules: &Rules, number: u32) -> Decision
    ensures { result ≡ decision_by_place rules.now number }
{
    if number == 0 {
        return Decision {
            line: None,
            value: rules.otherwise,
        };
    }
    let place = (number - 1) as usize;
    Decision {
        line: Some(place),
        value: value_at(&rules.lines, place),
    }
}

/// 52 octets are a cell. The function does nothing; its contract is a fact that the contract of `value_on` needs.
fn is_cell(octets: &[u8])
    requires { length octets.now ≡ 52 }
    ensures { IsCell octets.now }
{
    let _ = octets;
}

/// Runs a program on a cell, and returns its value.
pub fn value_on(program: &Program, cell: &Cell) -> u32
    ensures cell { IsCell cell.now }
    ensures value { (steps : ℕ) × Value program.now cell.now result steps }
{
    is_cell(cell.bytes());
    run(program, cell).value
}

/// Decides cells by the rules of a text.
#[derive(Drop)]
pub struct Decider {
    /// The rules, and where their lines begin in the text.
    pub placed_rules: PlacedRules,
    /// A program that gives the place of the line that decides a cell, counted from 1. There is none if it would be too long.
    pub places: Option<Program>,
    ghost gives: { IfSome places (GivesPlaces (rules_read placed_rules.rules)) } by { Prim.hlevel props },
}

impl Decider {
    /// Reads a text of rules. Their code may have more than 4096 instructions.
    ///
    /// # Errors
    ///
    /// The first fault of the text (`placed_rules_in` of `rules_text`), or `NoMemory` if an allocation failed.
    #[tactic(auto, using(crate::proofs::Places::places_kept))]
    pub fn read(alloc: Global, text: &[u8]) -> Result<Decider, RuleFault>
        ensures rules { IfOk result (λ decider. placed_rules_in text.now ≡ Ok (placed_rules_read decider.placed_rules)) }
        ensures fault { IfErr result (IsFaultOf (placed_rules_in text.now)) }
    {
        let placed_rules = read_with_places(alloc, text)?;
        match places_of_text(alloc, text) {
            Ok(places) => Ok(Decider {
                placed_rules,
                places,
            }),
            Err(_) => Err(NO_MEMORY),
        }
    }

    /// Reads a text of rules.
    ///
    /// # Errors
    ///
    /// Those of `compile_text`: rules that can't be compiled are refused here, although cells are decided without their code.
    #[tactic(auto, using(crate::proofs::Places::has_code))]
    pub(crate) fn new(alloc: Global, text: &[u8]) -> Result<Decider, RuleFault>
        ensures rules { IfOk result (λ decider. placed_rules_in text.now ≡ Ok (placed_rules_read decider.placed_rules)) }
        ensures code { OnOk result (HasCode text.now) }
        ensures fault { IfErr result (IsCompilingFault text.now) }
    {
        compile_text(alloc, text)?;
        Decider::read(alloc, text)
    }

    /// Decides a cell: returns the line that decides it, and its value.
    #[tactic(auto, using(crate::proofs::Places::decided_as_read))]
    pub fn decide(&self, cell: &Cell) -> Decision
        ensures { result ≡ rules_decide (rules_read self.now.placed_rules.rules) cell.now }
    {
        match &self.places {
            Some(places) => decision_by_place(&self.placed_rules.rules, value_on(places, cell)),
            None => decide(&self.placed_rules.rules, cell),
        }
    }
}
