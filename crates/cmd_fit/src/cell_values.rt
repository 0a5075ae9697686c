//! The values that rules give cells.

ghost use Rattle.std.specs.Prelude.{◌≡◌, IfOk, IfSome, Some};
ghost use Rattle.rules_text.specs.RulesRead.{rules_read};
ghost use Rattle.std.proofs.Props.{props};
ghost use Rattle.cmd_fit.specs.Flows.{cell_value};
ghost use Rattle.cmd_fit.specs.inner.GivenValues.{GivesValues};

use bpf_verify::Program;
use cmd_rules::value_on;
use rules_cells::{CodeFault, Rules, compile, decide};
use std::alloc::{AllocError, Global};
use upc_cell::Cell;

/// Rules that give cells their values.
#[derive(Drop)]
pub(crate) struct CellValues {
    /// The rules.
    pub rules: Rules,
    /// Their program. It runs in place of the rules, so that the time of a cell doesn't grow with rules that can't hold. None if its code
    /// would be too long.
    pub program: Option<Program>,
    ghost gives: { IfSome program (GivesValues (rules_read rules)) } by { Prim.hlevel props },
}

impl CellValues {
    /// Compiles rules.
    #[tactic(auto, using(crate::proofs::ValueLemmas::gives_values))]
    pub(crate) fn new(alloc: Global, rules: Rules) -> Result<CellValues, AllocError>
        ensures { IfOk result (λ values. rules_read values.rules ≡ rules_read rules) }
    {
        match compile(alloc, &rules) {
            Ok(code) => Ok(CellValues {
                rules,
                program: Some(Program::of_accepted(code)),
            }),
            Err(CodeFault::TooLong) => Ok(CellValues {
                rules,
                program: None,
            }),
            Err(CodeFault::NoMemory) => Err(AllocError),
        }
    }

    /// Returns the value of a cell.
    #[tactic(auto, using(crate::proofs::ValueLemmas::value_is, crate::proofs::ValueLemmas::value_decided))]
    pub(crate) fn value(&self, cell: &Cell) -> u32
        ensures { result ≡ cell_value (Some (rules_read self.now.rules)) cell.now }
    {
        match &self.program {
            Some(program) => value_on(program, cell),
            None => decide(&self.rules, cell).value,
        }
    }
}
